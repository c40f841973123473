//! How many parts have no vector in a set.
ghost use Rattle.std.specs.Prelude.{◌≡◌, ◌≢◌, ◌↔◌, ℕ, ◌*◌, ◌^◌, ◌<◌, ◌≤◌, length, IsTrue, IfOk};
ghost use Rattle.std.specs.List.{All};
ghost use Rattle.incidence.specs.Incidences.{HasExactly};
ghost use Rattle.cayley_theory.specs.Bases.{part_in};
ghost use Rattle.base_counts.specs.Counting.{set_at};
ghost use Rattle.cone_counts.specs.CountSteps.{other_part, AreMasks, IsWithinNumber};

use crate::sets::open_sets;
use base_counts::part_of;
use bit_pool::{Generation, is_within};
use incidence::put_bit;
use lattice_core::{Functional, NoMemory};
use std::alloc::Global;

/// Whether the vector isn't of the part.
fn is_other(f: &Functional, part: usize) -> bool
    requires { part_in f.now < 2 ^ 32 }
    ensures { IsTrue result ↔ (part_in f.now ≢ part) }
{
    part_of(f) != part
}

/// Makes words tell the vectors that aren't of the part.
fn put_others(words: &mut [u64], vectors: &[Functional], part: usize)
    requires room { length vectors.now ≤ 64 * length words.old }
    requires parts { All (λ f. part_in f < 2 ^ 32) vectors.now }
    ensures whole { length words.new ≡ length words.old }
    ensures bits { HasExactly (length vectors.now) (other_part vectors.now part) words.new }
{
    words.fill(0);
    for i in 0..vectors.len() {
        if is_other(&vectors[i], part) {
            put_bit(words, i);
        }
    }
}

/// For each part the set of the vectors that aren't of it.
pub(crate) fn part_masks(
    alloc: Global,
    vectors: &[Functional],
    parts: usize,
    words: usize,
) -> Result<Generation, NoMemory>
    requires some { 1 ≤ words }
    requires most { words ≤ 64 }
    requires few { parts ≤ 3 }
    requires room { length vectors.now ≤ 64 * words }
    requires parts { All (λ f. part_in f < 2 ^ 32) vectors.now }
    ensures { IfOk result (λ masks. AreMasks vectors.now words parts masks.rows) }
{
    let mut masks = open_sets(alloc, words, parts)?;
    let mut space = vec![in alloc; 0; words]?;
    for part in 0..parts {
        put_others(&mut space, vectors, part);
        masks.push(&space);
    }
    Ok(masks)
}

/// In how many of the rows the set is.
pub(crate) fn count_within(set: &[u64], rows: &Generation) -> usize
    requires words { (k : ℕ) → k < length rows.now.rows → length set.now ≡ length (set_at rows.now.rows k) }
    ensures number { IsWithinNumber set.now rows.now.rows result }
    ensures most { result ≤ length rows.now.rows }
{
    let mut count = 0;
    for k in 0..rows.len() {
        if is_within(set, rows.row(k)) {
            count += 1;
        }
    }
    count
}
