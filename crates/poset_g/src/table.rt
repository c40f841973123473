//! Tables of G and G'.
ghost use Rattle.std.specs.Prelude.{◌≡◌, ℕ, ◌+◌, ◌*◌, ◌<◌, ◌≤◌, nat_lt, cond, nat_abs, length, ℤ, pos, ◌+ℤ◌, IfOk, IfErr};
ghost use Rattle.poset_g.specs.declared.faults.GFault.TheVariants as GFault;
ghost use Rattle.lattice_theory.specs.Vector.{entry};
ghost use Rattle.face_closing.specs.declared.limits.TheConstants.{MOST_FACES};
ghost use Rattle.polynomial_theory.specs.Series.{one};
ghost use Rattle.small_poly.specs.Tables.{laurent_of};
ghost use Rattle.stringy_theory.specs.CountedFaces.{series_of};
ghost use Rattle.stringy_theory.specs.Stringy.{b};
ghost use Rattle.poset_g.specs.Numbered.{counted, IsInterval, HasAllFaces, HasSmallRanks};
ghost use Rattle.poset_g.specs.declared.faults.TheConstants.{MOST_COEFFICIENT};
ghost use Rattle.poset_g.specs.Stored.{has_interval, g_of, g_dual_of};
ghost use Rattle.poset_g.specs.Values.{HoldsG, IsMade};
ghost use Rattle.poset_g.specs.TermSteps.{kept_term_at};

use crate::faults::GFault;
use crate::fill::fill;
use crate::places::Places;
use crate::sums::has;
use face_poset::FaceTable;
use small_poly::{Poly1, Poly2};
use std::alloc::Global;
use std::marker::Model;

/// G and G' of the intervals of a table's faces. Contracts see them by the numbers of the two faces.
#[derive(Drop)]
pub struct GTable {
    places: Places,
    values: Vec<i64>,
}

impl Model for GTable {
    ghost use Rattle.poset_g.specs.Stored.{GState};
    ghost use Rattle.poset_g.specs.FillSteps.{AreKeptValues};

    ghost Value = { GState };

    ghost view = { λ t. record { places = t.places; values = t.values.items } };

    ghost invariant = { λ t. AreKeptValues t.places.total t.values.items };
}

/// So many zeros.
fn zeros(alloc: Global, count: usize) -> Result<Vec<i64>, GFault>
    ensures many { IfOk result (λ v. length v.items ≡ count) }
    ensures zero { IfOk result (λ v. (i : ℕ) → entry v.items i ≡ pos 0) }
    ensures fault { IfErr result (λ fault. fault ≡ GFault.NoMemory) }
{
    let mut values = Vec::with_capacity(alloc, count)?;
    values.resize(count, 0)?;
    Ok(values)
}

/// Four coefficients from a place on.
fn polynomial(values: &[i64], first: usize) -> Poly1
    requires within { first + 4 ≤ length values.now }
    requires small { (i : ℕ) → nat_abs (entry values.now i) ≤ MOST_COEFFICIENT }
    ensures small { (k : ℕ) → nat_abs (entry result k) ≤ MOST_COEFFICIENT }
    ensures value { (k : ℕ) → entry result k ≡ cond (nat_lt k 4) (entry values.now (first + k)) (pos 0) }
{
    let mut polynomial = Poly1::zero();
    for degree in 0..4 {
        polynomial.set(degree, i128::from(values[first + degree]));
    }
    polynomial
}

impl GTable {
    /// G and G' of all intervals of the faces of a relation, whose ranks are at most 8. `Coef` comes exactly where a coefficient is above 4,096 in
    /// size, and tells the first one: by the difference of ranks, then from, then to; in each interval G is before G', and degrees rise.
    /// `NoMemory` comes where there is no memory for them.
    pub fn of(alloc: Global, table: &FaceTable) -> Result<GTable, GFault>
        requires faces { HasAllFaces table.now }
        requires ranks { HasSmallRanks table.now }
        ensures { IsMade table.now result }
    {
        let places = Places::of(alloc, table)?;
        let mut values = zeros(alloc, 8 * places.len())?;
        fill(alloc, table, &places, &mut values)?;
        Ok(GTable { places, values })
    }

    /// Whether it has G and G' of the interval from x to y: for two faces of its table, whether x is y or below it.
    #[inline]
    pub fn has(&self, x: u32, y: u32) -> bool
        ensures { result ≡ has_interval self.now x y }
    {
        has(&self.places, x, y)
    }

    /// G of the interval from x to y, whose coefficients are at most 4,096 in size; 0 where x isn't y or below it.
    pub fn g(&self, x: u32, y: u32) -> Poly1
        ensures small { (k : ℕ) → nat_abs (entry result k) ≤ MOST_COEFFICIENT }
        ensures value { (k : ℕ) → entry result k ≡ g_of self.now x y k }
    {
        match self.places.find(x, y) {
            None => Poly1::zero(),
            Some(place) => polynomial(&self.values, 8 * place),
        }
    }

    /// G' of the interval from x to y, whose coefficients are at most 4,096 in size; 0 where x isn't y or below it.
    pub fn g_dual(&self, x: u32, y: u32) -> Poly1
        ensures small { (k : ℕ) → nat_abs (entry result k) ≤ MOST_COEFFICIENT }
        ensures value { (k : ℕ) → entry result k ≡ g_dual_of self.now x y k }
    {
        match self.places.find(x, y) {
            None => Poly1::zero(),
            Some(place) => polynomial(&self.values, 8 * place + 4),
        }
    }

    /// B of the interval from x to y: the sum, over the faces F with x <= F <= y, of (-u)^(rank F) G[x,F](v/u) G'[F,y](uv). The table's ranks are
    /// at most 8, and this table has its G and G'.
    pub fn b(&self, table: &FaceTable, x: u32, y: u32) -> Poly2
        requires faces { HasAllFaces table.now }
        requires ranks { HasSmallRanks table.now }
        requires holds { HoldsG table.now self.now }
        requires interval { IsInterval table.now x y }
        ensures { (p : ℤ) (q : ℕ) → laurent_of result p q ≡ b (series_of (counted table.now 0 (λ s. one) (λ s. one))) x y p q }
    {
        let mut sum = Poly2::zero();
        for face in 0..table.len() {
            self.add_face(table, x, y, face, &mut sum);
        }
        sum
    }

    /// Adds the term of one face.
    fn add_face(&self, table: &FaceTable, x: u32, y: u32, face: u32, sum: &mut Poly2)
        requires faces { HasAllFaces table.now }
        requires ranks { HasSmallRanks table.now }
        requires holds { HoldsG table.now self.now }
        requires x { x < length table.now.faces }
        requires y { y < length table.now.faces }
        requires face { face < length table.now.faces }
        requires few { face ≤ MOST_FACES }
        requires small { (i j : ℕ) → nat_abs (laurent_of sum.old (pos i) j) ≤ face * 16777216 }
        ensures small { (i j : ℕ) → nat_abs (laurent_of sum.new (pos i) j) ≤ (face + 1) * 16777216 }
        ensures value { (p : ℤ) (q : ℕ) → laurent_of sum.new p q ≡ laurent_of sum.old p q +ℤ kept_term_at table.now x y face p q }
    {
        if !table.below(x, face) {
            return;
        }
        if !table.below(face, y) {
            return;
        }
        let rank = table.rank(face) as usize;
        let left = self.g(x, face);
        let right = self.g_dual(face, y);
        sum.add_term(rank % 2 == 1, rank, &left, &right);
    }
}
