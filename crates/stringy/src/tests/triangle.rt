//! The stringy numbers of a curve.
ghost use Rattle.std.specs.Prelude.{◌≡◌, ◌≤◌, length, IfOk};
ghost use Rattle.std.specs.List.{All};
ghost use Rattle.poset_g.specs.Numbered.{HasAllFaces};
ghost use Rattle.poset_g.specs.Values.{HoldsG, AreSmall};

use crate::{FaceNumbers, e_poly, h_star, s_tilde};
use bit_pool::RowPool;
use dual_pair::Side;
use face_poset::FaceTable;
use incidence::Incidence;
use poset_g::GTable;
use std::alloc::Global;
use std::test::Fail;

/// Numbers of lattice points, as they are listed.
#[derive(Drop)]
struct Listed {
    numbers: [u16; 48],
}

impl FaceNumbers for Listed {
    ghost use Rattle.stringy.specs.Examples.{triangle_numbers};

    ghost numbers = { λ t. triangle_numbers t.numbers };

    fn sum_dim(&self) -> u32 {
        3
    }

    fn count(&self, side: Side, degree: u32, face: u32) -> u64 {
        let place = 3 * face as usize + degree as usize;
        match side {
            Side::M => u64::from(self.numbers[place]),
            Side::N => u64::from(self.numbers[24 + place]),
        }
    }
}

/// A triangle with edges of length 3: the least face, the corners, the edges and the whole, in three degrees, and the same of its dual.
fn counts() -> Listed {
    Listed {
        numbers: [
            1, 0, 0, 1, 1, 1, 1, 1, 1, 1, 1, 1, 1, 4, 7, 1, 4, 7, 1, 4, 7, 1, 10, 28, 1, 4, 10, 1,
            2, 3, 1, 2, 3, 1, 2, 3, 1, 1, 1, 1, 1, 1, 1, 1, 1, 1, 0, 0,
        ],
    }
}

/// The table of a triangle's faces.
fn triangle(alloc: Global) -> Result<FaceTable, Fail>
    ensures faces { IfOk result (λ t. HasAllFaces t) }
    ensures count { IfOk result (λ t. length t.faces ≡ 8) }
    ensures ranks { IfOk result (λ t. All (λ face. face.rank ≤ 3) t.faces) }
{
    let (yes, no) = (true, false);
    let edges = [yes, no, yes, yes, yes, no, no, yes, yes];
    let mut pool = RowPool::open(alloc, 64, 128)?;
    let mut table = FaceTable::open(alloc, 3, 3)?;
    let incidence = Incidence::from_table(3, 3, &edges, &mut pool)?;
    match table.build(&incidence, &pool) {
        Ok(()) => {}
        Err(_) => return Err(Fail::new("built")),
    }
    if table.len() != 8 {
        return Err(Fail::new("eight faces"));
    }
    if table.top_rank() > 3 {
        return Err(Fail::new("small ranks"));
    }
    Ok(table)
}

/// Its polynomials G and G'.
fn polynomials(alloc: Global, table: &FaceTable) -> Result<GTable, Fail>
    requires faces { HasAllFaces table.now }
    requires ranks { All (λ face. face.rank ≤ 3) table.now.faces }
    ensures holds { IfOk result (HoldsG table.now) }
    ensures small { IfOk result (λ _. AreSmall table.now) }
{
    match GTable::of(alloc, table) {
        Ok(g) => Ok(g),
        Err(_) => Err(Fail::new("small coefficients")),
    }
}

#[test]
fn numbers_of_a_curve(rt: HostRuntime) -> Result<(), Fail> {
    let table = triangle(rt.alloc())?;
    let g = polynomials(rt.alloc(), &table)?;
    let counts = counts();
    let star = h_star(&counts, &table, 7, Side::M);
    assert!(rt; star.coefficient(0) == 1 && star.coefficient(1) == 7 && star.coefficient(2) == 1);
    let tilde = s_tilde(&counts, &table, &g, 7, Side::M);
    assert!(rt;
        tilde.coefficient(0) == 0 && tilde.coefficient(1) == 1 && tilde.coefficient(2) == 1
    );
    let numbers = e_poly(&counts, &table, &g, 1);
    assert!(rt; numbers.e(0, 0) == 1 && numbers.e(0, 1) == -1);
    assert!(rt; numbers.hodge_of(1, 0) == 1 && numbers.hodge_of(1, 1) == 1);
    assert_eq!(rt; numbers.euler(), 0);
    assert!(rt; numbers.first_numbers().as_slice() == [1].as_slice());
    Ok(())
}
