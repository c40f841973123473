//! Whether the candidates of vertices agree with a beginning of part numbers.

ghost use Rattle.std.specs.Prelude.{◌≡◌, ◌↔◌, ℕ, ◌<◌, ◌≤◌, length, IsTrue, IfSome, IfNone};
ghost use Rattle.std.specs.List.{All};
ghost use Rattle.nef_parts.specs.declared.beginnings.TheConstants.{MOST_PARTS};
ghost use Rattle.nef_parts.specs.steps.Agreeing.{RowsAgree, SomeAgrees, AllAgree, AgreesAt};

use crate::beginnings::{Beginning, MOST_PARTS};
use crate::masks::{Candidate, VertexMask};
use bit_rows::BitRow;

/// Where candidates were found last, for each part: they are tried first.
pub(crate) type Hints = [usize; MOST_PARTS];

/// Whether a candidate agrees: it is at -1 in each own place in which the vertex is, and of the told places in own ones only.
#[inline]
fn agrees(candidate: Candidate, tight: BitRow, own: BitRow, told: BitRow) -> bool
    ensures { IsTrue result ↔ RowsAgree tight own told candidate.tight }
{
    own.meet(tight).is_part_of(candidate.tight) && candidate.tight.meet(told).is_part_of(own)
}

/// The place of a candidate that agrees, the hinted one where it does, and otherwise the first.
pub(crate) fn agreeing(
    candidates: &[Candidate],
    tight: BitRow,
    own: BitRow,
    told: BitRow,
    hint: usize,
) -> Option<usize>
    ensures some { IfSome result (AgreesAt candidates.now tight own told) }
    ensures none { IfNone result (All (λ c. RowsAgree tight own told c.tight → ⊥) candidates.now) }
{
    if hint < candidates.len() && agrees(candidates[hint], tight, own, told) {
        return Some(hint);
    }
    for j in 0..candidates.len() {
        if agrees(candidates[j], tight, own, told) {
            return Some(j);
        }
    }
    None
}

/// Whether for each of the parts some candidate of the vertex agrees.
fn parts_agree(mask: &VertexMask, begin: &Beginning, r: usize, hints: &mut Hints) -> bool
    requires { r ≤ MOST_PARTS }
    ensures { IsTrue result ↔ ((i : ℕ) → i < r → SomeAgrees mask.now begin.now i) }
{
    for i in 0..r {
        let own = begin.parts[i];
        match agreeing(&mask.candidates, mask.tight, own, begin.told, hints[i]) {
            Some(j) => hints[i] = j,
            None => return false,
        }
    }
    true
}

/// Whether for each vertex and part some candidate agrees.
pub(crate) fn all_agree(
    masks: &[VertexMask],
    begin: &Beginning,
    r: usize,
    hints: &mut [Hints],
) -> bool
    requires parts { r ≤ MOST_PARTS }
    requires hints { length hints.old ≡ length masks.now }
    ensures hints { length hints.new ≡ length hints.old }
    ensures agree { IsTrue result ↔ AllAgree masks.now begin.now r }
{
    for v in 0..masks.len() {
        if !parts_agree(&masks[v], begin, r, &mut hints[v]) {
            return false;
        }
    }
    true
}
