//! Faces as what rows of functions have in common, and how many there are.
ghost use Rattle.face_theory.specs.Laws.{FacesAreMeets, MeetsAreFaces, MeetsStart, MeetsGrow, FaceIsClosure, FacesAreCounted, FacesAreListed};

/// The faces are exactly what rows of functions have in common; where no function is taken, that is the set of all members.
pub fn faces_are_meets()
    ensures { FacesAreMeets }
{}

/// What rows of the first functions have in common is a face.
pub fn meets_are_faces()
    ensures { MeetsAreFaces }
{}

/// Before the first function there is the set of all members alone.
pub fn meets_start()
    ensures { MeetsStart }
{}

/// One row more closes a table of what the rows before have in common: its sets stay, and so does what each has in common with the row.
pub fn meets_grow()
    ensures { MeetsGrow }
{}

/// A set of members is a face exactly where it is its closure, which is worked out.
pub fn face_is_closure()
    ensures { FaceIsClosure }
{}

/// Faces that all differ are no more than all faces.
pub fn faces_are_counted()
    ensures { FacesAreCounted }
{}

/// The faces are finitely many, so there is the list of them.
pub fn faces_are_listed()
    ensures { FacesAreListed }
{}
