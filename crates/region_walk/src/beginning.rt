//! The first coordinates of a vector, and how far each of them goes.

ghost use Rattle.std.specs.Prelude.{◌≡◌, ◌<◌, ◌≤◌, [], ◌∷◌, ◌++◌, length};
ghost use Rattle.lattice_core.specs.declared.limits.TheConstants.{MOST_COORDINATES};
ghost use Rattle.region_walk.specs.steps.Beginnings.{Steps};

use crate::spans::Span;
use arrayvec::ArrayVec;
use lattice_core::MOST_COORDINATES;

/// The first coordinates of a vector, and the last value that each takes.
#[derive(Drop)]
pub(crate) struct Beginning {
    entries: ArrayVec<i64, MOST_COORDINATES>,
    ends: ArrayVec<i64, MOST_COORDINATES>,
}

impl Beginning {
    /// No coordinates.
    pub(crate) fn new() -> Beginning
        ensures entries { result.entries.items ≡ [] }
        ensures ends { result.ends.items ≡ [] }
    {
        Beginning {
            entries: ArrayVec::new(),
            ends: ArrayVec::new(),
        }
    }

    /// The coordinates.
    #[inline]
    pub(crate) fn entries(&self) -> &[i64]
        ensures { result.now ≡ self.now.entries.items }
    {
        self.entries.as_slice()
    }

    /// Takes one coordinate more, at its least value.
    #[inline]
    pub(crate) fn extend(&mut self, span: Span)
        requires entries { length self.old.entries.items < MOST_COORDINATES }
        requires ends { length self.old.ends.items < MOST_COORDINATES }
        ensures entries { self.new.entries.items ≡ self.old.entries.items ++ span.low ∷ [] }
        ensures ends { self.new.ends.items ≡ self.old.ends.items ++ span.high ∷ [] }
    {
        self.entries.push(span.low);
        self.ends.push(span.high);
    }

    /// Raises the last coordinate that isn't at its end by 1 and leaves out those behind it, and answers whether there is one.
    pub(crate) fn step(&mut self) -> bool
        requires { length self.old.ends.items ≡ length self.old.entries.items }
        ensures { Steps self.old.entries.items self.old.ends.items self.new.entries.items self.new.ends.items result }
    {
        for i in (0..self.entries.len()).rev() {
            let value = self.entries.as_slice()[i];
            if value < self.ends.as_slice()[i] {
                self.entries.truncate(i);
                self.entries.push(value + 1);
                self.ends.truncate(i + 1);
                return true;
            }
        }
        false
    }
}
