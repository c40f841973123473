//! What pools keep of incidences, and what their rows tell.
ghost use Rattle.incidence.specs.Laws.{ToldRowsAgree, MadeIsHeld, HeldStays, RowsTell, ToldIsSingle};

/// Rows that tell a relation agree: a function's row has a member exactly where that member's row has the function.
pub fn told_rows_agree()
    ensures { ToldRowsAgree }
{}

/// The pool in which an incidence was made is as the calls ask of a pool that is handed to them with it.
pub fn made_is_held()
    ensures { MadeIsHeld }
{}

/// It stays so, whatever is called on the pool.
pub fn held_stays()
    ensures { HeldStays }
{}

/// Where such a pool has all rows of an incidence, they tell a relation: the one that the members' rows tell.
pub fn rows_tell()
    ensures { RowsTell }
{}

/// The rows of an incidence tell no other relation.
pub fn told_is_single()
    ensures { ToldIsSingle }
{}
