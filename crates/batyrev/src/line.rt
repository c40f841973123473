//! Batyrev's numbers of a pair.
ghost use Rattle.std.specs.Prelude.{◌≡◌, ◌+◌, ◌^◌, ◌≤◌, pos, nat_abs, ◌+ℤ◌, ◌-ℤ◌, ◌*ℤ◌, length};
ghost use Rattle.lattice_core.specs.Dimensions.{dimension_of};
ghost use Rattle.batyrev_theory.specs.Numbers.{IsDivisorNumber, IsDeformationNumber};
ghost use Rattle.dual_pair.specs.Faces.{AreFacesOf};
ghost use Rattle.dual_pair.specs.declared.side.Side.TheVariants as Side;
ghost use Rattle.batyrev.specs.Levels.{AreInside};
ghost use Rattle.batyrev.specs.Lines.{IsHodgeLine};

use crate::coranks::Level;
use crate::sums::{count_sum, product_sum};
use dual_pair::{DualPair, Side};
use face_poset::FaceTable;

/// Batyrev's numbers of a reflexive polytope, by its dimension.
#[derive(Clone, Copy, Debug, PartialEq, Eq)]
pub enum HodgeLine {
    /// None in dimension 1, 2 and 6.
    None,
    /// In dimension 3: the Picard number and the correction.
    Pic {
        pic: i128,
        cor: i128,
    },
    /// In dimension 4: two Hodge numbers and the Euler number.
    Three {
        h11: i128,
        h21: i128,
        euler: i128,
    },
    /// In dimension 5: three Hodge numbers and the Euler number.
    Four {
        h11: i128,
        h21: i128,
        h31: i128,
        euler: i128,
    },
}

/// The points, less the dimension and 1, less the points inside facets, plus products.
fn number_of(points: usize, dim: usize, inside: u64, products: u64) -> i128
    requires points { points ≤ 2 ^ 44 }
    requires dim { dim ≤ 2 ^ 44 }
    requires inside { inside ≤ 2 ^ 44 }
    requires products { products ≤ 2 ^ 44 }
    ensures value { result ≡ pos points -ℤ pos (dim + 1) -ℤ pos inside +ℤ pos products }
    ensures small { nat_abs result ≤ 2 ^ 46 }
{
    points as i128 - (dim as i128 + 1) - i128::from(inside) + i128::from(products)
}

/// The number of divisors: by the points of the dual, and those inside its facets.
fn divisors(pair: &DualPair, table: &FaceTable, inner: &[u16], outer: &[u16]) -> i128
    requires table { AreFacesOf pair.now.m table.now }
    requires inner { AreInside pair.now.m Side.M table.now.faces inner.now }
    requires outer { AreInside pair.now.m Side.N table.now.faces outer.now }
    ensures value { IsDivisorNumber (dimension_of pair.now.m.vertices) pair.now.m.vertices pair.now.m.facets result }
    ensures small { nat_abs result ≤ 2 ^ 46 }
{
    let inside = count_sum(table, outer, Level::Rank(1));
    let products = product_sum(table, inner, outer, Level::Rank(2));
    number_of(pair.n().points().len(), pair.m().dim(), inside, products)
}

/// The number of deformations: the same with both sides exchanged.
fn deformations(pair: &DualPair, table: &FaceTable, inner: &[u16], outer: &[u16]) -> i128
    requires table { AreFacesOf pair.now.m table.now }
    requires inner { AreInside pair.now.m Side.M table.now.faces inner.now }
    requires outer { AreInside pair.now.m Side.N table.now.faces outer.now }
    ensures value { IsDeformationNumber (dimension_of pair.now.m.vertices) pair.now.m.vertices pair.now.m.facets result }
    ensures small { nat_abs result ≤ 2 ^ 46 }
{
    let inside = count_sum(table, inner, Level::Facet);
    let products = product_sum(table, inner, outer, Level::Ridge);
    number_of(pair.m().points().len(), pair.m().dim(), inside, products)
}

/// The Euler number in dimension 4.
fn threefold_euler(h11: i128, h21: i128) -> i128
    requires h11 { nat_abs h11 ≤ 2 ^ 46 }
    requires h21 { nat_abs h21 ≤ 2 ^ 46 }
    ensures { result ≡ pos 2 *ℤ (h11 -ℤ h21) }
{
    2 * (h11 - h21)
}

/// The Euler number in dimension 5.
fn fourfold_euler(h11: i128, h31: i128, h21: i128) -> i128
    requires h11 { nat_abs h11 ≤ 2 ^ 46 }
    requires h31 { nat_abs h31 ≤ 2 ^ 46 }
    requires h21 { nat_abs h21 ≤ 2 ^ 46 }
    ensures { result ≡ pos 6 *ℤ (pos 8 +ℤ h11 +ℤ h31 -ℤ h21) }
{
    6 * (8 + h11 + h31 - h21)
}

/// The numbers of dimension 3.
fn surface(pair: &DualPair, table: &FaceTable, inner: &[u16], outer: &[u16]) -> HodgeLine
    requires dim { dimension_of pair.now.m.vertices ≡ 3 }
    requires table { AreFacesOf pair.now.m table.now }
    requires inner { AreInside pair.now.m Side.M table.now.faces inner.now }
    requires outer { AreInside pair.now.m Side.N table.now.faces outer.now }
    ensures { IsHodgeLine pair.now.m result }
{
    let pic = divisors(pair, table, inner, outer);
    let cor = i128::from(product_sum(table, inner, outer, Level::Rank(2)));
    HodgeLine::Pic { pic, cor }
}

/// Those of dimension 4.
fn threefold(pair: &DualPair, table: &FaceTable, inner: &[u16], outer: &[u16]) -> HodgeLine
    requires dim { dimension_of pair.now.m.vertices ≡ 4 }
    requires table { AreFacesOf pair.now.m table.now }
    requires inner { AreInside pair.now.m Side.M table.now.faces inner.now }
    requires outer { AreInside pair.now.m Side.N table.now.faces outer.now }
    ensures { IsHodgeLine pair.now.m result }
{
    let h11 = divisors(pair, table, inner, outer);
    let h21 = deformations(pair, table, inner, outer);
    let euler = threefold_euler(h11, h21);
    HodgeLine::Three { h11, h21, euler }
}

/// Those of dimension 5.
fn fourfold(pair: &DualPair, table: &FaceTable, inner: &[u16], outer: &[u16]) -> HodgeLine
    requires dim { dimension_of pair.now.m.vertices ≡ 5 }
    requires table { AreFacesOf pair.now.m table.now }
    requires inner { AreInside pair.now.m Side.M table.now.faces inner.now }
    requires outer { AreInside pair.now.m Side.N table.now.faces outer.now }
    ensures { IsHodgeLine pair.now.m result }
{
    let h11 = divisors(pair, table, inner, outer);
    let h31 = deformations(pair, table, inner, outer);
    let h21 = i128::from(product_sum(table, inner, outer, Level::Rank(3)));
    let euler = fourfold_euler(h11, h31, h21);
    HodgeLine::Four {
        h11,
        h21,
        h31,
        euler,
    }
}

/// Batyrev's numbers of the polytope of a pair, of which this is the table of faces: in dimension 3 the Picard number and the correction, in
/// dimension 4 and 5 the Hodge numbers with the Euler number, and none otherwise. Each point is looked up once, and no memory is taken. Source for
/// h11 and h21 in dimension 4: alg-geom/9310003.
pub fn hodge(pair: &DualPair, table: &FaceTable) -> HodgeLine
    requires { AreFacesOf pair.now.m table.now }
    ensures { IsHodgeLine pair.now.m result }
{
    let dim = pair.m().dim();
    if dim < 3 || dim > 5 {
        return HodgeLine::None;
    }
    let inner = pair.interior_counts(table, Side::M);
    let outer = pair.interior_counts(table, Side::N);
    if dim == 3 {
        return surface(pair, table, &inner, &outer);
    }
    if dim == 4 {
        return threefold(pair, table, &inner, &outer);
    }
    fourfold(pair, table, &inner, &outer)
}
