//! Lists in strictly ascending order, each member once.
ghost use Rattle.std.specs.Prelude.{◌≡◌, ℕ, ◌≤◌, ◌↔◌, List, ℤ, length};
ghost use Rattle.std.specs.List.{All, Contains};
ghost use Rattle.lattice_theory.specs.Vector.{HaveDimension};
ghost use Rattle.lattice_theory.specs.Affine.{Affine};
ghost use Rattle.lattice_theory.specs.Order.{Ascends, LexLess, FunctionLess};

use crate::{Functional, Point};

/// Sorts points of one dimension in lexicographic order, and keeps each once. It takes no memory.
pub fn ascending_points(points: &mut Vec<Point>)
    requires { (n : ℕ) × HaveDimension n points.old.items }
    ensures ascends { Ascends LexLess points.new.items }
    ensures members { (p : List ℤ) → Contains points.new.items p ↔ Contains points.old.items p }
    ensures length { length points.new.items ≤ length points.old.items }
{
    points.sort_unstable();
    points.dedup();
}

/// Sorts functions of one dimension by normal, then by constant, and keeps each once. It takes no memory.
pub fn ascending_functions(functions: &mut Vec<Functional>)
    requires { (n : ℕ) × All (λ f. length f.normal ≡ n) functions.old.items }
    ensures ascends { Ascends FunctionLess functions.new.items }
    ensures members { (f : Affine) → Contains functions.new.items f ↔ Contains functions.old.items f }
    ensures length { length functions.new.items ≤ length functions.old.items }
{
    functions.sort_unstable();
    functions.dedup();
}

#[cfg(test)]
mod tests {
    use super::*;
    use std::test::Fail;

    #[test]
    fn sorts_points_and_keeps_each_once(rt: HostRuntime) -> Result<(), Fail> {
        let mut points = Vec::new(rt.alloc());
        for (first, second) in [(1, 1), (-1, 1), (1, -1), (-1, 1)] {
            points.push(Point::new(&[first, second]).expect(&rt, "two entries"))?;
        }
        ascending_points(&mut points);
        assert_eq!(rt; points.len(), 3);
        for (p, want) in points.iter().zip(&[[-1, 1], [1, -1], [1, 1]]) {
            assert_eq!(rt; p.entries(), want.as_slice());
        }
        Ok(())
    }

    #[test]
    fn sorts_functions_and_keeps_each_once(rt: HostRuntime) -> Result<(), Fail> {
        let mut functions = Vec::new(rt.alloc());
        for (entry, constant) in [(1, 2), (-1, 5), (1, 1), (-1, 5)] {
            functions.push(Functional::new(&[entry], constant).expect(&rt, "one entry"))?;
        }
        ascending_functions(&mut functions);
        assert_eq!(rt; functions.len(), 3);
        for (f, want) in functions.iter().zip([5, 1, 2]) {
            assert_eq!(rt; f.constant(), want);
        }
        Ok(())
    }
}
