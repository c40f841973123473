//! How the coefficients are filled in, by rising difference of ranks.
ghost use Rattle.std.specs.Prelude.{◌≡◌, suc, cond, ◌+◌, ◌*◌, ◌<◌, ◌≤◌, length, IfOk, IfErr};
ghost use Rattle.face_closing.specs.declared.limits.TheConstants.{MOST_FACES};
ghost use Rattle.face_poset.specs.Faces.{face_at};
ghost use Rattle.poset_g.specs.Numbered.{numbered, IsInterval};
ghost use Rattle.poset_g.specs.Stored.{find_at};
ghost use Rattle.poset_g.specs.Values.{IsFault};
ghost use Rattle.poset_g.specs.FillSteps.{place_of, above, between, number_of, CanFill, AreFilled, AreFilledTo, AreLower};

use crate::faults::{GFault, MOST_COEFFICIENT};
use crate::places::Places;
use crate::sums::{Wanted, find_above, find_between, value_of};
use face_poset::FaceTable;
use std::alloc::Global;

/// Where the coefficients of G, or of G', begin among the eight of an interval.
fn first_of(dual: bool) -> usize
    ensures { result ≡ cond dual 4 0 }
{
    if dual { 4 } else { 0 }
}

/// One coefficient, at its place among the eight of an interval.
fn fill_one(
    table: &FaceTable,
    places: &Places,
    values: &mut Vec<i64>,
    faces: &[u32],
    wanted: Wanted,
    place: usize,
) -> Result<(), GFault>
    requires ready { CanFill table.now places.now values.old.items }
    requires degree { wanted.degree ≤ 3 }
    requires interval { IsInterval table.now wanted.from wanted.to }
    requires found { find_at places.now wanted.from wanted.to ≡ suc place }
    requires within { place < places.now.total }
    requires faces { faces.now ≡ between places.now wanted.from wanted.to }
    requires few { length faces.now ≤ MOST_FACES }
    requires filled { AreFilledTo table.now places.now values.old.items (place_of wanted) }
    ensures ready { CanFill table.now places.now values.new.items }
    ensures filled { IfOk result (λ done. AreFilled table.now places.now values.new.items
        ((numbered table.now).gap wanted.from wanted.to) wanted.from wanted.to (number_of (place_of wanted) + 1)) }
    ensures fault { IfErr result (IsFault table.now) }
{
    let value = value_of(table, places, values, faces, wanted);
    if value.unsigned_abs() > MOST_COEFFICIENT {
        return Err(GFault::Coef {
            from: wanted.from,
            to: wanted.to,
            degree: wanted.degree as u32,
            value: i128::from(value),
        });
    }
    values[8 * place + first_of(wanted.dual) + wanted.degree] = value;
    Ok(())
}

/// The coefficient with a number among the eight of an interval: those of G from degree 0 to 3, and those of G'.
fn wanted_at(from: u32, to: u32, number: usize) -> Wanted
    requires { number < 8 }
    ensures from { result.from ≡ from }
    ensures to { result.to ≡ to }
    ensures degree { result.degree ≤ 3 }
    ensures number { number_of (place_of result) ≡ number }
{
    if number < 4 {
        Wanted {
            from,
            to,
            dual: false,
            degree: number,
        }
    } else {
        Wanted {
            from,
            to,
            dual: true,
            degree: number - 4,
        }
    }
}

/// The coefficients of one interval.
fn fill_interval(
    table: &FaceTable,
    places: &Places,
    values: &mut Vec<i64>,
    higher: &[u32],
    faces: &mut Vec<u32>,
    from: u32,
    to: u32,
    place: usize,
) -> Result<(), GFault>
    requires ready { CanFill table.now places.now values.old.items }
    requires above { higher.now ≡ above places.now from }
    requires interval { IsInterval table.now from to }
    requires found { find_at places.now from to ≡ suc place }
    requires within { place < places.now.total }
    requires filled { AreFilled table.now places.now values.old.items ((numbered table.now).gap from to) from to 0 }
    ensures ready { CanFill table.now places.now values.new.items }
    ensures filled { IfOk result (λ done. AreFilled table.now places.now values.new.items ((numbered table.now).gap from to) from to 8) }
    ensures fault { IfErr result (IsFault table.now) }
{
    find_between(places, higher, from, to, faces)?;
    for number in 0..8 {
        fill_one(
            table,
            places,
            values,
            faces,
            wanted_at(from, to, number),
            place,
        )?;
    }
    Ok(())
}

/// The coefficients of the interval between two faces, if there is one with this difference of ranks.
fn fill_pair(
    table: &FaceTable,
    places: &Places,
    values: &mut Vec<i64>,
    higher: &[u32],
    faces: &mut Vec<u32>,
    gap: u32,
    from: u32,
    to: u32,
) -> Result<(), GFault>
    requires ready { CanFill table.now places.now values.old.items }
    requires above { higher.now ≡ above places.now from }
    requires gap { gap ≤ 8 }
    requires from { from < length table.now.faces }
    requires to { to < length table.now.faces }
    requires filled { AreFilled table.now places.now values.old.items gap from to 0 }
    ensures ready { CanFill table.now places.now values.new.items }
    ensures filled { IfOk result (λ done. AreFilled table.now places.now values.new.items gap from (to + 1) 0) }
    ensures fault { IfErr result (IsFault table.now) }
{
    let lower = table.rank(from);
    let upper = table.rank(to);
    if upper != lower + gap {
        return Ok(());
    }
    match places.find(from, to) {
        None => Ok(()),
        Some(place) => {
            fill_interval(table, places, values, higher, faces, from, to, place)?;
            Ok(())
        }
    }
}

/// The first face from a place on whose rank isn't below another one; of all faces before that place it is.
fn first_at(table: &FaceTable, rank: u32, start: u32) -> u32
    requires before { AreLower table.now start rank }
    ensures before { AreLower table.now result rank }
{
    for face in start..table.len() {
        if table.rank(face) >= rank {
            return face;
        }
    }
    table.len()
}

/// The coefficients of the intervals from a face with one difference of ranks. The faces before the first have too low ranks.
fn fill_from(
    table: &FaceTable,
    places: &Places,
    values: &mut Vec<i64>,
    higher: &mut Vec<u32>,
    faces: &mut Vec<u32>,
    gap: u32,
    from: u32,
    first: u32,
) -> Result<(), GFault>
    requires ready { CanFill table.now places.now values.old.items }
    requires gap { gap ≤ 8 }
    requires from { from < length table.now.faces }
    requires lower { AreLower table.now first ((face_at table.now.faces from).rank + gap) }
    requires filled { AreFilled table.now places.now values.old.items gap from 0 0 }
    ensures ready { CanFill table.now places.now values.new.items }
    ensures filled { IfOk result (λ done. AreFilled table.now places.now values.new.items gap (from + 1) 0 0) }
    ensures fault { IfErr result (IsFault table.now) }
{
    find_above(places, from, higher)?;
    let rank = table.rank(from) + gap;
    for to in first..table.len() {
        if table.rank(to) > rank {
            return Ok(());
        }
        fill_pair(table, places, values, higher, faces, gap, from, to)?;
    }
    Ok(())
}

/// The coefficients of the intervals with one difference of ranks.
fn fill_gap(
    table: &FaceTable,
    places: &Places,
    values: &mut Vec<i64>,
    higher: &mut Vec<u32>,
    faces: &mut Vec<u32>,
    gap: u32,
) -> Result<(), GFault>
    requires ready { CanFill table.now places.now values.old.items }
    requires gap { gap ≤ 8 }
    requires filled { AreFilled table.now places.now values.old.items gap 0 0 0 }
    ensures ready { CanFill table.now places.now values.new.items }
    ensures filled { IfOk result (λ done. AreFilled table.now places.now values.new.items (gap + 1) 0 0 0) }
    ensures fault { IfErr result (IsFault table.now) }
{
    let mut first = 0;
    for from in 0..table.len() {
        first = first_at(table, table.rank(from) + gap, first);
        fill_from(table, places, values, higher, faces, gap, from, first)?;
    }
    Ok(())
}

/// The coefficients of all intervals.
pub(crate) fn fill(
    alloc: Global,
    table: &FaceTable,
    places: &Places,
    values: &mut Vec<i64>,
) -> Result<(), GFault>
    requires ready { CanFill table.now places.now values.old.items }
    ensures ready { CanFill table.now places.now values.new.items }
    ensures filled { IfOk result (λ done. AreFilled table.now places.now values.new.items 9 0 0 0) }
    ensures fault { IfErr result (IsFault table.now) }
{
    let mut higher = Vec::with_capacity(alloc, table.len() as usize)?;
    let mut faces = Vec::with_capacity(alloc, table.len() as usize)?;
    for gap in 0..9 {
        fill_gap(table, places, values, &mut higher, &mut faces, gap)?;
    }
    Ok(())
}
