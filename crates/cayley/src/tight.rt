//! Which members of a cone are tight on which functions.
ghost use Rattle.std.specs.Prelude.{◌≡◌, ◌++◌, ◌≤◌, ◌^◌, length, map, IfOk};
ghost use Rattle.std.specs.List.{All};
ghost use Rattle.lattice_theory.specs.Size.{absolute_sum};
ghost use Rattle.cayley.specs.ConeSteps.{meets, row_of, table_of, AreSmall};

use lattice_core::{Functional, NoMemory, pair};
use std::alloc::Global;

/// Whether a member and a function pair to 0: their points pair to -1 where they have the same part, and otherwise to 0.
fn is_tight(member: &Functional, function: &Functional) -> bool
    requires dimension { length function.now.normal ≡ length member.now.normal }
    requires small { absolute_sum function.now.normal ≤ 2 ^ 60 }
    ensures { result ≡ meets member.now function.now }
{
    let pairing = pair(function.normal(), member.normal());
    if member.constant() == function.constant() {
        return pairing == -1;
    }
    pairing == 0
}

/// The row of a member.
fn push_row(
    table: &mut Vec<bool>,
    member: &Functional,
    functions: &[Functional],
) -> Result<(), NoMemory>
    requires { AreSmall (length member.now.normal) functions.now }
    ensures { IfOk result (λ done. table.new.items ≡ table.old.items ++ row_of functions.now member.now) }
{
    for function in functions {
        table.push(is_tight(member, function))?;
    }
    Ok(())
}

/// The rows of all members, one behind another.
pub(crate) fn tight_table(
    alloc: Global,
    members: &[Functional],
    functions: &[Functional],
) -> Result<Vec<bool>, NoMemory>
    requires { All (λ m. AreSmall (length m.normal) functions.now) members.now }
    ensures { IfOk result (λ table. table.items ≡ table_of functions.now members.now) }
{
    let mut table = Vec::new(alloc);
    for member in members {
        push_row(&mut table, member, functions)?;
    }
    Ok(table)
}
