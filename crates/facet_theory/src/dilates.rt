//! The lattice points of the hull and of its dilates.
ghost use Rattle.facet_theory.specs.Laws.{LatticePointsOfVertices, DilatePointsOfVertices, FirstDilateIsHull, DilateInBox};

/// The vertices have the lattice points of the points.
pub fn lattice_points_of_vertices()
    ensures { LatticePointsOfVertices }
{}

/// The vertices' dilates have the lattice points of the points' dilates.
pub fn dilate_points_of_vertices()
    ensures { DilatePointsOfVertices }
{}

/// The lattice points of the hull are those of its first dilate.
pub fn first_dilate_is_hull()
    ensures { FirstDilateIsHull }
{}

/// A dilate lies in the dilate of each box that holds the points.
pub fn dilate_in_box()
    ensures { DilateInBox }
{}
