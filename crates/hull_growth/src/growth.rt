//! A hull that grows point by point.
ghost use Rattle.std.specs.Prelude.{◌≡◌, ◌⊎◌, ℕ, ◌≤◌, ◌↔◌, [], ◌∷◌, ◌++◌, length, take, pos, ◌≤ℤ◌, ◌<ℤ◌, ◌^◌, IfOk, OnOk, OnErr, IsTrue};
ghost use Rattle.std.specs.List.{All, Contains};
ghost use Rattle.lattice_theory.specs.Affine.{Affine, value};
ghost use Rattle.lattice_theory.specs.Size.{absolute_sum};
ghost use Rattle.lattice_theory.specs.Hull.{InHull};
ghost use Rattle.lattice_core.specs.Dimensions.{dimension_of};
ghost use Rattle.lattice_core.specs.Limits.{IsSized};
ghost use Rattle.lattice_core.specs.PointLists.{AreSolidPoints};
ghost use Rattle.hull_growth.specs.Grown.{HasFacets};

use crate::rows::{FacetRows, rows_of};
use crate::steps::{add_kept, add_new};
use crate::values::{are_nonnegative_at, values_at};
use lattice_core::{Functional, NoMemory, Point};
use std::alloc::Global;
use std::marker::Model;

/// Corners that aren't flat, and their facets, however many. Contracts see the two lists. This project's own.
#[derive(Drop)]
pub struct Growth {
    alloc: Global,
    corners: Vec<Point>,
    facets: FacetRows,
    values: Vec<i128>,
}

impl Model for Growth {
    ghost use Rattle.hull_growth.specs.Grown.{GrownHull, IsGrown};
    ghost use Rattle.hull_growth.specs.steps.Rows.{AreCornerRows};

    ghost Value = { GrownHull };

    ghost view = { λ g. record { corners = g.corners.items; facets = g.facets.functions.items } };

    ghost invariant = { λ g. IsGrown g.corners.items g.facets.functions.items × AreCornerRows g.corners.items g.facets.functions.items g.facets.rows.items };
}

impl Growth {
    /// Points with 1 to 6 coordinates within the size limit that aren't flat, and their facets, each once, in any order. Without memory it is
    /// `NoMemory`.
    pub fn new(
        alloc: Global,
        corners: Vec<Point>,
        facets: Vec<Functional>,
    ) -> Result<Growth, NoMemory>
        requires solid { AreSolidPoints corners.items }
        requires hull { HasFacets (dimension_of corners.items) corners.items facets.items }
        ensures corners { IfOk result (λ g. g.corners ≡ corners.items) }
        ensures facets { IfOk result (λ g. g.facets ≡ facets.items) }
    {
        let rows = rows_of(alloc, &corners, &facets)?;
        Ok(Growth {
            alloc,
            corners,
            facets: FacetRows {
                functions: facets,
                rows,
            },
            values: Vec::new(alloc),
        })
    }

    /// The facets of the corners, each once; their order is left open.
    pub fn facets(&self) -> &[Functional]
        ensures value { result.now ≡ self.now.facets }
        ensures facets { HasFacets (dimension_of self.now.corners) self.now.corners result.now }
        ensures solid { AreSolidPoints self.now.corners }
    {
        &self.facets.functions
    }

    /// The corners, in the order in which they came, and the same list of facets, which the growth gives up. It takes no memory.
    pub fn into_parts(self) -> (Vec<Point>, Vec<Functional>)
        ensures corners { result.0.items ≡ self.corners }
        ensures facets { result.1.items ≡ self.facets }
    {
        let facets = self.facets;
        (self.corners, facets.functions)
    }

    /// Whether a point of the same dimension lies in the hull of the corners. It takes no memory.
    pub fn is_inside(&self, p: &Point) -> bool
        requires dimension { length p.now ≡ dimension_of self.now.corners }
        requires small { absolute_sum p.now ≤ 2 ^ 30 }
        ensures { IsTrue result ↔ InHull (dimension_of self.now.corners) self.now.corners p.now }
    {
        are_nonnegative_at(&self.facets.functions, p)
    }

    /// The facets with one more point of the same dimension, with which the corners are within the size limit. Where the point lies in the hull
    /// nothing changes, and no memory is wanted; otherwise it becomes the last corner. Facets at the beginning that aren't negative at the point
    /// stay in their places. Without memory for a point outside it is `NoMemory`, and nothing changes.
    pub fn grow(&mut self, p: &Point) -> Result<(), NoMemory>
        requires dimension { length p.now ≡ dimension_of self.old.corners }
        requires within { IsSized (length p.now) (self.old.corners ++ (p.now ∷ [])) }
        ensures facets { OnOk result (HasFacets (length p.now) (self.old.corners ++ (p.now ∷ [])) self.new.facets) }
        ensures corners { OnOk result ((self.new ≡ self.old) ⊎ (self.new.corners ≡ self.old.corners ++ (p.now ∷ []))) }
        ensures inside { OnOk result (All (λ f. pos 0 ≤ℤ value f p.now) self.old.facets → self.new ≡ self.old) }
        ensures outside { OnOk result ((f : Affine) → Contains self.old.facets f → value f p.now <ℤ pos 0
            → self.new.corners ≡ self.old.corners ++ (p.now ∷ [])) }
        ensures places { OnOk result ((k : ℕ) → All (λ f. pos 0 ≤ℤ value f p.now) (take k self.old.facets)
            → take k self.new.facets ≡ take k self.old.facets) }
        ensures unchanged { OnErr result (self.new ≡ self.old) }
        ensures wanted { OnErr result (InHull (dimension_of self.old.corners) self.old.corners p.now → ⊥) }
    {
        if self.is_inside(p) {
            return Ok(());
        }
        let mut grown = FacetRows {
            functions: Vec::new(self.alloc),
            rows: Vec::new(self.alloc),
        };
        values_at(&self.facets.functions, p, &mut self.values)?;
        add_kept(&self.corners, &self.facets, &self.values, p, &mut grown)?;
        add_new(&self.corners, &self.facets, &self.values, p, &mut grown)?;
        self.corners.push(p.copied())?;
        self.facets = grown;
        Ok(())
    }
}
