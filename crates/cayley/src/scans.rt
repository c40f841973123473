//! How many parts a nef partition of a polytope may have.
ghost use Rattle.std.specs.Prelude.{◌≤◌, IfOk, IfErr};
ghost use Rattle.lattice_core.specs.Dimensions.{dimension_of};
ghost use Rattle.lattice_core.specs.Stops.{Stops};
ghost use Rattle.point_scan.specs.declared.limits.TheConstants.{MOST_DILATE};
ghost use Rattle.cayley.specs.Limits.{IsWithinRank, IsRankRefusal, IsWithinScans, IsScanRefusal, TellsLarge};

use crate::{MOST_RANK, MOST_SCANNED};
use dual_pair::{DualPair, Polytope};
use lattice_core::{Fault, LimitName, NoMemory, Refusal};
use point_scan::count_to;
use std::alloc::Global;

/// Whether so many parts are within the limits of a polytope's dimension n: at most n - 1 (otherwise their number is told), and together with n at
/// most 7 (otherwise this sum is told), in this order. It takes no memory. This project's own.
pub fn rank_limits(pair: &DualPair, codim: u32) -> Result<(), Refusal>
    ensures within { IfOk result (λ done. IsWithinRank (dimension_of pair.now.m.vertices) codim) }
    ensures refused { IfErr result (IsRankRefusal (dimension_of pair.now.m.vertices) codim) }
{
    let dim = pair.m().dim() as u32;
    if codim >= dim {
        return Err(Refusal::Limit(LimitName::Codim, u128::from(codim)));
    }
    let rank = dim + codim;
    if rank > MOST_RANK {
        return Err(Refusal::Limit(LimitName::Rank, u128::from(rank)));
    }
    Ok(())
}

/// Whether more lattice points than the limit are in a dilate of the polytope.
fn is_large(alloc: Global, polytope: &Polytope, dilate: u32) -> Result<bool, NoMemory>
    requires { dilate ≤ MOST_DILATE }
    ensures { IfOk result (TellsLarge polytope.now.vertices dilate) }
{
    let vertices = polytope.vertices();
    let count = count_to(alloc, vertices, polytope.facets(), dilate, MOST_SCANNED)?;
    Ok(count > MOST_SCANNED)
}

/// Whether so many parts, r, are within all limits that are known before a nef partition is: those of `rank_limits`, and then at most 4,194,304
/// lattice points in the (n + r - 1)-th dilate of the polytope and in that of its dual (otherwise 4,194,305 is told), in this order. `NoMemory`
/// comes where there is no memory to count. This project's own.
pub fn scan_limits(alloc: Global, pair: &DualPair, codim: u32) -> Result<(), Fault>
    ensures within { IfOk result (λ done. IsWithinScans pair.now codim) }
    ensures refused { IfErr result (Stops (IsScanRefusal pair.now codim)) }
{
    rank_limits(pair, codim)?;
    let dilate = pair.m().dim() as u32 + codim - 1;
    let told = u128::from(MOST_SCANNED) + 1;
    if is_large(alloc, pair.m(), dilate)? {
        return Err(Fault::Refused(Refusal::Limit(LimitName::ScanM, told)));
    }
    if is_large(alloc, pair.n(), dilate)? {
        return Err(Fault::Refused(Refusal::Limit(LimitName::ScanN, told)));
    }
    Ok(())
}
