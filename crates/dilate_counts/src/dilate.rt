//! The counts of the points of a dilate.
ghost use Rattle.std.specs.Prelude.{◌≡◌, ◌≤◌, [], length, IfOk};
ghost use Rattle.lattice_theory.specs.Facet.{AreFacetsInAnyOrder};
ghost use Rattle.lattice_core.specs.Dimensions.{dimension_of};
ghost use Rattle.lattice_core.specs.PointLists.{AreSolidPoints};
ghost use Rattle.bit_pool.specs.Bits.{words_for};
ghost use Rattle.bit_pool.specs.declared.limits.TheConstants.{MOST_ROWS, MOST_WIDTH};
ghost use Rattle.point_scan.specs.declared.limits.TheConstants.{MOST_DILATE};
ghost use Rattle.dilate_counts.specs.Counters.{AreSets};
ghost use Rattle.dilate_counts.specs.DilateCounts.{AreDilateCounts, HasFewPoints};

use crate::counter::BaseCounter;
use crate::limits::MOST_COUNTED;
use crate::room::DilateRoom;
use base_counts::DEGREES;
use bit_pool::Generation;
use face_closing::{MOST_FACES, RowTable};
use lattice_core::{Functional, NoMemory, Point};
use std::alloc::Global;

/// A table without classes, whose rows have so many words.
fn no_classes(alloc: Global, words: usize) -> Result<RowTable, NoMemory>
    requires some { 1 ≤ words }
    requires most { words ≤ 64 }
    ensures row_words { IfOk result (λ classes. classes.row_words ≡ words) }
    ensures empty { IfOk result (λ classes. classes.rows ≡ []) }
{
    match RowTable::open(alloc, words) {
        Ok(classes) => Ok(classes),
        Err(_) => Err(NoMemory),
    }
}

/// For each of the sets and each degree from 0 to 6, how many lattice points of the dilate of the hull of vertices have a base of that degree that pairs
/// to 0 with the vectors of the set: set by set, and degree by degree for each set. The vertices aren't flat, `facets` are all their facets, in any order,
/// and the dilate is at most 7 and has at most 4,194,304 lattice points. There are 1 to 4,096 vectors, with as many entries as the vertices; each is of
/// one of at most 3 parts, which is the absolute value of its constant, and each part has a vector; the sets are at most 2^24 rows of as few words as hold
/// a bit for each vector. In the room the points are kept, whatever was counted in it before; after every answer it serves again. Without memory it is
/// `NoMemory`. This project's own.
pub fn count_dilate(
    alloc: Global,
    room: &mut DilateRoom,
    vertices: &[Point],
    facets: &[Functional],
    dilate: u32,
    parts: usize,
    vectors: &[Functional],
    sets: &Generation,
) -> Result<Vec<u32>, NoMemory>
    requires vertices { AreSolidPoints vertices.now }
    requires facets { AreFacetsInAnyOrder (dimension_of vertices.now) vertices.now facets.now }
    requires dilate { dilate ≤ MOST_DILATE }
    requires few { HasFewPoints vertices.now dilate }
    requires some { 1 ≤ length vectors.now }
    requires many { length vectors.now ≤ MOST_WIDTH }
    requires rows { length sets.now.rows ≤ MOST_ROWS }
    requires sets { AreSets (dimension_of vertices.now) parts vectors.now (words_for (length vectors.now)) sets.now.rows }
    ensures { IfOk result (λ counts. AreDilateCounts parts vectors.now sets.now.rows vertices.now dilate counts.items) }
{
    let words = (vectors.len() + 63) / 64;
    let mut counter = BaseCounter {
        dim: vertices[0].dim(),
        vectors,
        sets,
        base: vec![in alloc; 0; parts]?,
        tight: vec![in alloc; 0; words]?,
        classes: no_classes(alloc, words)?,
        seen: vec![in alloc; 0; MOST_FACES * DEGREES]?,
        counts: vec![in alloc; 0; sets.len() * DEGREES]?,
        left: MOST_COUNTED,
    };
    room.for_each(alloc, vertices, facets, dilate, &mut counter)?;
    Ok(counter.into_counts())
}
