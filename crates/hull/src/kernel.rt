//! The kernel of a list of vectors, found by elimination: the members are primitive, at most 6, and lie in the value itself.

ghost use Rattle.std.specs.Prelude.{◌≡◌, ◌⊎◌, ◌+◌, ◌*◌, ◌<◌, ◌≤◌, List, [], ◌∷◌, ◌++◌, length, ℤ, pos, MatchOption, IfNone, IfSome};
ghost use Rattle.std.specs.List.{All};
ghost use Rattle.lattice_theory.specs.Vector.{dot};
ghost use Rattle.lattice_theory.specs.Size.{absolute_sum};
ghost use Rattle.elimination.specs.Elimination.{IsUnitMember};
ghost use Rattle.lattice_core.specs.Limits.{size_limit_of};
ghost use Rattle.hull.specs.steps.Kernels.{IsPrimitiveKernel, IsSmallKernel, IsPivotAt, IsStepped};
ghost use Rattle.lattice_core.specs.declared.limits.TheConstants.{MOST_COORDINATES};

use crate::member::KernelMember;
use crate::reduction::{pairing, reduced};
use arrayvec::ArrayVec;
use lattice_core::MOST_COORDINATES;

/// The unit vector at the place `i`.
fn unit_member(n: usize, i: usize) -> KernelMember
    requires within { i < n }
    requires most { n ≤ MOST_COORDINATES }
    ensures { IsUnitMember n i result }
{
    let mut vector = ArrayVec::new();
    for j in 0..n {
        vector.push(if i == j { 1 } else { 0 });
    }
    KernelMember::new(i, vector)
}

/// The kernel of no vectors: the unit vectors.
pub(crate) fn kernel_of_none(n: usize) -> ArrayVec<KernelMember, MOST_COORDINATES>
    requires { n ≤ MOST_COORDINATES }
    ensures kernel { IsPrimitiveKernel n [] result.items }
    ensures count { length result.items ≡ n }
{
    let mut members = ArrayVec::new();
    for i in 0..n {
        members.push(unit_member(n, i));
    }
    members
}

/// The same members again.
fn copies(kernel: &[KernelMember]) -> ArrayVec<KernelMember, MOST_COORDINATES>
    requires { length kernel.now ≤ MOST_COORDINATES }
    ensures { result.items ≡ kernel.now }
{
    let mut members = ArrayVec::new();
    for member in kernel {
        members.push(member.copied());
    }
    members
}

/// The place of the first member that doesn't pair to 0 with the vector, where there is one.
fn pivot_place(kernel: &[KernelMember], v: &[i64]) -> Option<usize>
    requires kernel { IsSmallKernel (length v.now) kernel.now }
    requires some { 1 ≤ length v.now }
    requires most { length v.now ≤ MOST_COORDINATES }
    requires small { absolute_sum v.now ≤ 2 * size_limit_of (length v.now) }
    ensures { MatchOption result (All (λ k. dot k.vector v.now ≡ pos 0) kernel.now) (IsPivotAt kernel.now v.now) }
{
    for (place, member) in kernel.iter().enumerate() {
        if pairing(member.vector(), v) != 0 {
            return Some(place);
        }
    }
    None
}

/// The members before the pivot, and those behind it without the pivot's line.
fn stepped(
    kernel: &[KernelMember],
    place: usize,
    v: &[i64],
) -> ArrayVec<KernelMember, MOST_COORDINATES>
    requires kernel { IsSmallKernel (length v.now) kernel.now }
    requires some { 1 ≤ length v.now }
    requires most { length v.now ≤ MOST_COORDINATES }
    requires small { absolute_sum v.now ≤ 2 * size_limit_of (length v.now) }
    requires pivot { IsPivotAt kernel.now v.now place }
    ensures { (h : IsPivotAt kernel.now v.now place) → IsStepped h.before h.pivot h.after v.now result.items }
{
    let mut members = copies(&kernel[..place]);
    let pivot = &kernel[place];
    let value = pairing(pivot.vector(), v);
    for member in &kernel[place + 1..] {
        members.push(reduced(pivot, value, member, pairing(member.vector(), v)));
    }
    members
}

/// The kernel with one more vector that changes it, so that it has one member fewer. It is `None` exactly where all members pair to 0 with it.
pub(crate) fn changed_kernel(
    kernel: &[KernelMember],
    v: &[i64],
) -> Option<ArrayVec<KernelMember, MOST_COORDINATES>>
    requires kernel { IsSmallKernel (length v.now) kernel.now }
    requires some { 1 ≤ length v.now }
    requires most { length v.now ≤ MOST_COORDINATES }
    requires small { absolute_sum v.now ≤ 2 * size_limit_of (length v.now) }
    ensures kernel { IfSome result (λ next. (vs : List (List ℤ)) → IsPrimitiveKernel (length v.now) vs kernel.now
        → IsPrimitiveKernel (length v.now) (vs ++ (v.now ∷ [])) next.items) }
    ensures count { IfSome result (λ next. length next.items + 1 ≡ length kernel.now) }
    ensures stays { IfNone result (All (λ k. dot k.vector v.now ≡ pos 0) kernel.now) }
{
    match pivot_place(kernel, v) {
        Some(place) => Some(stepped(kernel, place, v)),
        None => None,
    }
}

/// The kernel with one more vector.
pub(crate) fn kernel_with(
    kernel: ArrayVec<KernelMember, MOST_COORDINATES>,
    v: &[i64],
) -> ArrayVec<KernelMember, MOST_COORDINATES>
    requires kernel { IsSmallKernel (length v.now) kernel.items }
    requires some { 1 ≤ length v.now }
    requires most { length v.now ≤ MOST_COORDINATES }
    requires small { absolute_sum v.now ≤ 2 * size_limit_of (length v.now) }
    ensures kernel { (vs : List (List ℤ)) → IsPrimitiveKernel (length v.now) vs kernel.items → IsPrimitiveKernel (length v.now) (vs ++ (v.now ∷ [])) result.items }
    ensures count { (length result.items ≡ length kernel.items) ⊎ (length result.items + 1 ≡ length kernel.items) }
{
    match changed_kernel(kernel.as_slice(), v) {
        Some(changed) => changed,
        None => kernel,
    }
}
