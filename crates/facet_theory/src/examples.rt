//! A worked example.
ghost use Rattle.std.specs.Prelude.{pos, negsuc};
ghost use Rattle.lattice_theory.specs.Facet.{IsFacet};
ghost use Rattle.lattice_theory.specs.Examples.{in_plane, function, minus1};
ghost use Rattle.facet_theory.specs.Sums.{IsSumOfFacets};
ghost use Rattle.facet_theory.specs.Solid.{AreSolid};
ghost use Rattle.facet_theory.specs.Examples.{corner};

/// An example, and no work: the triangle with corners (0, 0), (1, 0) and (0, 1) isn't flat, has the facets x, y and 1 - x - y, and the constant 1
/// is their sum.
pub fn corner_is_an_example()
    ensures solid { AreSolid 2 corner }
    ensures left { IsFacet 2 corner (function (in_plane (pos 1) (pos 0)) (pos 0)) }
    ensures lower { IsFacet 2 corner (function (in_plane (pos 0) (pos 1)) (pos 0)) }
    ensures slanted { IsFacet 2 corner (function (in_plane minus1 minus1) (pos 1)) }
    ensures one { IsSumOfFacets 2 corner (function (in_plane (pos 0) (pos 0)) (pos 1)) }
{}
