//! What a certificate shows.
ghost use Rattle.weight_certificates.specs.Laws.{SurroundingsSurround};

/// A law, and no work: points with a surrounding are surrounded, so that of the linear functions only 0 is nonnegative on them.
pub fn surroundings_surround()
    ensures { SurroundingsSurround }
{}
