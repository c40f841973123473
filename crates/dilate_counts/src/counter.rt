//! A visitor that counts points by their bases.
ghost use Rattle.std.specs.Prelude.{◌≡◌, length};
ghost use Rattle.dilate_counts.specs.Classes.{AreShared, HaveFewTotals};

use crate::classes::{count_in, share_all};
use base_counts::tight_at;
use bit_pool::Generation;
use face_closing::RowTable;
use lattice_core::{Functional, Point};
use point_scan::Visitor;
use std::marker::Model;

/// Counts points by the degree of their base, for each set of vectors on which the base is 0. Contracts see the dimension of the points, the number of
/// parts, the vectors, the sets as words, the classes and how many points of each degree they have, the counts of points that are in no class, and how
/// many points may still come.
#[derive(Drop)]
pub(crate) struct BaseCounter<'a> {
    pub(crate) dim: usize,
    pub(crate) vectors: &'a [Functional],
    pub(crate) sets: &'a Generation,
    pub(crate) base: Vec<i128>,
    pub(crate) tight: Vec<u64>,
    pub(crate) classes: RowTable,
    pub(crate) seen: Vec<u32>,
    pub(crate) counts: Vec<u32>,
    pub(crate) left: u32,
}

impl<'a> Model for BaseCounter<'a> {
    ghost use Rattle.std.specs.Prelude.{length};
    ghost use Rattle.dilate_counts.specs.Counters.{CounterState, IsCounter};

    ghost Value = { CounterState };

    ghost view = { λ c. record {
      dim = c.dim;
      parts = length c.base.items;
      vectors = c.vectors.now;
      rows = c.sets.now.rows;
      classes = c.classes.rows;
      seen = c.seen.items;
      counts = c.counts.items;
      left = c.left;
    } };

    ghost invariant = { λ c. IsCounter c.dim (length c.base.items) c.vectors.now (length c.tight.items) c.sets.now.rows c.classes.row_words c.classes.rows
        c.seen.items c.counts.items c.left };
}

impl Visitor for BaseCounter<'_> {
    ghost use Rattle.dilate_counts.specs.Counters.{IsVisit};

    ghost dimension = { λ c. c.dim };

    ghost visits = { IsVisit };

    fn visit(&mut self, x: &Point) -> bool {
        if self.left == 0 {
            return false;
        }
        self.left -= 1;
        if let Some(degree) = tight_at(&mut self.tight, &mut self.base, self.vectors, x) {
            count_in(
                &mut self.classes,
                &mut self.seen,
                &mut self.counts,
                self.sets,
                &self.tight,
                degree,
            );
        }
        true
    }
}

impl BaseCounter<'_> {
    /// The counts of the sets, with the points of all classes.
    pub(crate) fn into_counts(self) -> Vec<u32>
        requires few { HaveFewTotals self.rows self.classes self.seen self.counts }
        ensures whole { length result.items ≡ length self.entry.counts }
        ensures shared { AreShared self.entry.rows self.entry.classes self.entry.seen (length self.entry.classes) self.entry.counts result.items }
    {
        let sets = self.sets;
        let classes = self.classes;
        let seen = self.seen;
        let mut counts = self.counts;
        share_all(&mut counts, sets, &classes, &seen);
        counts
    }
}
