//! Dual faces.
ghost use Rattle.face_theory.specs.Laws.{DualExists, DualIsUnique, DualReverses, DualTells, DualIsFace};

/// Each set of members has a dual face.
pub fn dual_exists()
    ensures { DualExists }
{}

/// It has only one.
pub fn dual_is_unique()
    ensures { DualIsUnique }
{}

/// A face is within another exactly where the other's dual face is within its own.
pub fn dual_reverses()
    ensures { DualReverses }
{}

/// Faces with one dual face are equal.
pub fn dual_tells()
    ensures { DualTells }
{}

/// The dual face is a face of the relation read the other way, and the face is its dual face there.
pub fn dual_is_face()
    ensures { DualIsFace }
{}
