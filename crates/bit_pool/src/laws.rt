//! What becomes of ids as a pool changes.
ghost use Rattle.bit_pool.specs.Laws.{RowsStay, WidthStays};

/// Whatever is called on a pool, an id that it has given out names the row that it named, or none.
pub fn rows_stay()
    ensures { RowsStay }
{}

/// No call changes the width of a pool.
pub fn width_stays()
    ensures { WidthStays }
{}
