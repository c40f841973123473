//! What a beginning of part numbers puts into each part.

ghost use Rattle.std.specs.Prelude.{◌≡◌, ℕ, ◌+◌, ◌<◌, ◌≤◌, List, [], ◌∷◌, ◌++◌, length, take};
ghost use Rattle.bit_rows.specs.declared.row.TheConstants.{MOST_INDICES};
ghost use Rattle.nef_parts.specs.declared.beginnings.TheConstants.{MOST_PARTS};
ghost use Rattle.nef_parts.specs.steps.Beginnings.{IsGrowth, IsBeginning};

use bit_rows::BitRow;

/// The largest number of parts.
pub const MOST_PARTS: usize = 3;

/// The places of each part in a beginning of a list of part numbers, all its places, how many they are, and how many part numbers are used.
#[derive(Clone, Copy)]
pub(crate) struct Beginning {
    pub(crate) parts: [BitRow; MOST_PARTS],
    pub(crate) told: BitRow,
    pub(crate) count: usize,
    pub(crate) used: usize,
}

impl Beginning {
    /// The beginning without places.
    pub(crate) fn none() -> Beginning
        ensures { IsBeginning [] result }
    {
        Beginning {
            parts: [BitRow::empty(); MOST_PARTS],
            told: BitRow::empty(),
            count: 0,
            used: 0,
        }
    }

    /// The beginning with one place more, of a part that is used or the next one.
    #[inline]
    pub(crate) fn with(self, part: usize) -> Beginning
        requires count { self.count < MOST_INDICES }
        requires part { part < MOST_PARTS }
        requires growth { part ≤ self.used }
        ensures longer { (b : List ℕ) → IsBeginning b self → IsBeginning (b ++ part ∷ []) result }
        ensures count { result.count ≡ self.count + 1 }
    {
        let mut next = self;
        let mut row = next.parts[part];
        row.add(self.count);
        next.parts[part] = row;
        next.told.add(self.count);
        next.count = self.count + 1;
        next.used = self.used.max(part + 1);
        next
    }
}

/// The first so many places of a list that begins as a growth list does.
pub(crate) fn beginning_of(parts: &[u8], count: usize) -> Beginning
    requires count { count ≤ length parts.now }
    requires few { length parts.now ≤ MOST_INDICES }
    requires growth { IsGrowth (take count parts.now) }
    ensures { IsBeginning (take count parts.now) result }
{
    let mut begin = Beginning::none();
    for e in 0..count {
        begin = begin.with(parts[e] as usize);
    }
    begin
}
