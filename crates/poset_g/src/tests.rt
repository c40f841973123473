//! G and G' of the octahedron.
ghost use Rattle.std.specs.Prelude.{IfOk};
ghost use Rattle.poset_g.specs.Numbered.{HasAllFaces, HasSmallRanks};

use crate::GTable;
use bit_pool::RowPool;
use face_poset::FaceTable;
use incidence::Incidence;
use small_poly::Poly1;
use std::alloc::Global;
use std::test::Fail;

/// The table of the octahedron's faces.
fn octahedron(alloc: Global) -> Result<FaceTable, Fail>
    ensures faces { IfOk result (λ t. HasAllFaces t) }
    ensures ranks { IfOk result (λ t. HasSmallRanks t) }
{
    // The corners -x, -y, -z, x, y and z, and the octants by the signs of x, y and z.
    let (yes, no) = (true, false);
    let octants = [
        no, no, no, no, yes, yes, yes, yes, no, no, yes, yes, no, no, yes, yes, no, yes, no, yes,
        no, yes, no, yes, yes, yes, yes, yes, no, no, no, no, yes, yes, no, no, yes, yes, no, no,
        yes, no, yes, no, yes, no, yes, no,
    ];
    let mut pool = RowPool::open(alloc, 64, 128)?;
    let mut table = FaceTable::open(alloc, 6, 8)?;
    let incidence = Incidence::from_table(6, 8, &octants, &mut pool)?;
    match table.build(&incidence, &pool) {
        Ok(()) => {}
        Err(_) => return Err(Fail::new("built")),
    }
    if table.len() == 0 {
        return Err(Fail::new("some faces"));
    }
    if table.top_rank() > 8 {
        return Err(Fail::new("small ranks"));
    }
    Ok(table)
}

/// The first three coefficients.
fn begins(polynomial: &Poly1) -> (i128, i128, i128) {
    (
        polynomial.coefficient(0),
        polynomial.coefficient(1),
        polynomial.coefficient(2),
    )
}

#[test]
fn g_of_the_octahedron(rt: HostRuntime) -> Result<(), Fail> {
    let table = octahedron(rt.alloc())?;
    let made = GTable::of(rt.alloc(), &table);
    let Ok(values) = made else {
        return Err(Fail::new("small coefficients"));
    };
    assert_eq!(rt; begins(&values.g(0, 27)), (1, 4, 0));
    assert_eq!(rt; begins(&values.g_dual(0, 27)), (1, 2, 0));
    assert_eq!(rt; begins(&values.g(0, 0)), (1, 0, 0));
    assert_eq!(rt; begins(&values.g(27, 0)), (0, 0, 0));
    Ok(())
}

#[test]
fn b_of_the_octahedron(rt: HostRuntime) -> Result<(), Fail> {
    let table = octahedron(rt.alloc())?;
    if table.len() < 28 {
        return Err(Fail::new("28 faces"));
    }
    if !table.below(0, 27) {
        return Err(Fail::new("an interval"));
    }
    let values = match GTable::of(rt.alloc(), &table) {
        Ok(values) => values,
        Err(_) => return Err(Fail::new("small coefficients")),
    };
    let b = values.b(&table, 0, 27);
    assert_eq!(rt; (b.coefficient(0, 0), b.coefficient(1, 1)), (1, 2));
    assert_eq!(rt; (b.coefficient(1, 0), b.coefficient(2, 1)), (-6, -6));
    assert_eq!(rt; (b.coefficient(2, 0), b.coefficient(3, 1)), (12, 4));
    assert_eq!(rt; (b.coefficient(3, 0), b.coefficient(4, 0)), (-8, 1));
    Ok(())
}
