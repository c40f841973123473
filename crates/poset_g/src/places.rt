//! Where the coefficients of each interval are kept.
ghost use Rattle.std.specs.Prelude.{◌≡◌, ◌+◌, ◌*◌, ◌<◌, ◌≤◌, length, IfOk, IfErr};
ghost use Rattle.face_closing.specs.declared.limits.TheConstants.{MOST_FACES};
ghost use Rattle.poset_g.specs.declared.faults.GFault.TheVariants as GFault;
ghost use Rattle.poset_g.specs.Numbered.{numbered, HasAllFaces};
ghost use Rattle.poset_g.specs.PlaceSteps.{IsNext, ArePlacesTo, ArePlaces, IsFound};

use crate::faults::GFault;
use face_poset::FaceTable;
use std::alloc::Global;
use std::marker::Model;

/// A number for each interval: the table has one more than it for the faces x and y of an interval, and 0 where x isn't y or below it.
#[derive(Drop)]
pub(crate) struct Places {
    count: usize,
    total: usize,
    table: Vec<u32>,
}

impl Model for Places {
    ghost use Rattle.std.specs.Prelude.{length};
    ghost use Rattle.poset_g.specs.Stored.{PlacesState};
    ghost use Rattle.poset_g.specs.PlaceSteps.{AreKept};

    ghost Value = { PlacesState };

    ghost view = { λ p. record { count = p.count; total = p.total; table = p.table.items } };

    ghost invariant = { λ p. AreKept (record { count = p.count; total = p.total; table = p.table.items }) };
}

/// The number of the interval between two faces, if there is one, after so many intervals; and how many there are with it.
fn next_number(table: &FaceTable, x: u32, y: u32, total: usize) -> (usize, u32)
    requires faces { HasAllFaces table.now }
    requires x { x < length table.now.faces }
    requires y { y < length table.now.faces }
    requires few { total < MOST_FACES * MOST_FACES }
    ensures { IsNext ((numbered table.now).below x y) total result.0 result.1 }
{
    if x > y {
        return (total, 0);
    }
    if table.below(x, y) {
        (total + 1, total as u32 + 1)
    } else {
        (total, 0)
    }
}

/// The row of one face: so many intervals there are with those of the rows before, and this row's.
fn add_row(
    table: &FaceTable,
    row: u32,
    before: usize,
    places: &mut Vec<u32>,
) -> Result<usize, GFault>
    requires faces { HasAllFaces table.now }
    requires row { row < length table.now.faces }
    requires before { ArePlacesTo (numbered table.now) (length table.now.faces) row 0 (record { count = length table.now.faces; total = before; table = places.old.items }) }
    ensures done { IfOk result (λ total. ArePlacesTo (numbered table.now) (length table.now.faces) (row + 1) 0
        (record { count = length table.now.faces; total = total; table = places.new.items })) }
    ensures fault { IfErr result (λ fault. fault ≡ GFault.NoMemory) }
{
    let mut total = before;
    for face in 0..table.len() {
        let next = next_number(table, row, face, total);
        places.push(next.1)?;
        total = next.0;
    }
    Ok(total)
}

impl Places {
    /// A number for each interval of the faces of a table, each another.
    pub(crate) fn of(alloc: Global, table: &FaceTable) -> Result<Places, GFault>
        requires faces { HasAllFaces table.now }
        ensures places { IfOk result (λ p. ArePlaces (numbered table.now) (length table.now.faces) p) }
        ensures fault { IfErr result (λ fault. fault ≡ GFault.NoMemory) }
    {
        let count = table.len() as usize;
        let mut places = Vec::with_capacity(alloc, count * count)?;
        let mut total = 0;
        for row in 0..table.len() {
            total = add_row(table, row, total, &mut places)?;
        }
        Ok(Places {
            count,
            total,
            table: places,
        })
    }

    /// How many intervals there are.
    pub(crate) fn len(&self) -> usize
        ensures value { result ≡ self.now.total }
        ensures few { result ≤ MOST_FACES * MOST_FACES }
    {
        self.total
    }

    /// How many faces there are.
    pub(crate) fn count(&self) -> u32
        requires { self.now.count ≤ MOST_FACES }
        ensures { result ≡ self.now.count }
    {
        self.count as u32
    }

    /// The number of an interval, or `None` where there is none from x to y.
    pub(crate) fn find(&self, x: u32, y: u32) -> Option<usize>
        ensures { IsFound self.now x y result }
    {
        let (x, y) = (x as usize, y as usize);
        if x >= self.count || y >= self.count {
            return None;
        }
        match self.table[x * self.count + y] {
            0 => None,
            place => Some(place as usize - 1),
        }
    }
}
