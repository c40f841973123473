//! One step of elimination at one member: the pivot's line is taken out of it.

ghost use Rattle.std.specs.Prelude.{◌≡◌, ℕ, ◌^◌, ◌*◌, ◌<◌, ◌≤◌, length, pos, neg_ℤ, ◌*ℤ◌, ◌-ℤ◌, nat_abs};
ghost use Rattle.std.specs.List.{All};
ghost use Rattle.lattice_theory.specs.Vector.{dot};
ghost use Rattle.lattice_theory.specs.Size.{absolute_sum};
ghost use Rattle.hull.specs.steps.Kernels.{CanReduce, IsReducedBy, AreMultiplesApart};
ghost use Rattle.lattice_core.specs.declared.limits.TheConstants.{MOST_COORDINATES};

use crate::member::KernelMember;
use arrayvec::ArrayVec;
use lattice_core::{MOST_COORDINATES, primitive};

/// The sum of the products of the entries.
pub(crate) fn pairing(k: &[i128], v: &[i64]) -> i128
    requires same_length { length k.now ≡ length v.now }
    requires most { length v.now ≤ MOST_COORDINATES }
    requires entries { All (λ a. nat_abs a ≤ 2 ^ 63) k.now }
    requires small { absolute_sum v.now ≤ 2 ^ 33 }
    ensures value { result ≡ dot k.now v.now }
{
    let mut sum = 0_i128;
    for i in 0..k.len() {
        sum += product(k[i], v[i]);
    }
    sum
}

fn product(a: i128, b: i64) -> i128
    requires { nat_abs a ≤ 2 ^ 63 }
    ensures { result ≡ a *ℤ b }
{
    a * i128::from(b)
}

fn scaled_difference(a: i128, x: i128, b: i128, y: i128) -> i128
    requires left { nat_abs (a *ℤ x) < 2 ^ 126 }
    requires right { nat_abs (b *ℤ y) < 2 ^ 126 }
    ensures value { result ≡ (a *ℤ x) -ℤ (b *ℤ y) }
    ensures small { nat_abs result < 2 ^ 127 }
{
    a * x - b * y
}

/// The vector `a x - b y`.
fn multiples_apart(a: i128, x: &[i128], b: i128, y: &[i128]) -> ArrayVec<i128, MOST_COORDINATES>
    requires same_length { length x.now ≡ length y.now }
    requires most { length x.now ≤ MOST_COORDINATES }
    requires left { All (λ c. nat_abs (a *ℤ c) < 2 ^ 126) x.now }
    requires right { All (λ c. nat_abs (b *ℤ c) < 2 ^ 126) y.now }
    ensures { AreMultiplesApart a x.now b y.now result.items }
{
    let mut entries = ArrayVec::new();
    for i in 0..x.len() {
        entries.push(scaled_difference(a, x[i], b, y[i]));
    }
    entries
}

/// The member without the pivot's line. The pivot has the value `a` at the vector of the step, and the member the value `b`.
pub(crate) fn reduced(pivot: &KernelMember, a: i128, member: &KernelMember, b: i128) -> KernelMember
    requires { CanReduce pivot.now a member.now b }
    ensures { IsReducedBy pivot.now a member.now b result }
{
    let entries = if a < 0 {
        multiples_apart(-a, member.vector(), -b, pivot.vector())
    } else {
        multiples_apart(a, member.vector(), b, pivot.vector())
    };
    match primitive(entries.as_slice()) {
        Some(vector) => KernelMember::new(member.own(), vector),
        None => unreachable!(),
    }
}
