//! What holds of frames, as laws.
ghost use Rattle.weight_frame.specs.Laws.{FrameExists, FrameIsUnique, FrameIsBasis, FrameKeepsOrder, FrameExceedsNothing, FrameHasOneDimension, StepsAreBounded};

/// The systems have a frame: the recursion can be carried out.
pub fn frame_exists()
    ensures { FrameExists }
{}

/// There is only one frame, made by the same vectors.
pub fn frame_is_unique()
    ensures { FrameIsUnique }
{}

/// Every vector of the weight lattice is exactly one integer combination of the frame, and every such combination is in the lattice.
pub fn frame_is_basis()
    ensures { FrameIsBasis }
{}

/// Of two vectors with coordinates in a frame, one comes before the other in lexicographic order exactly where its coordinates do.
pub fn frame_keeps_order()
    ensures { FrameKeepsOrder }
{}

/// Systems with a frame within the limits aren't refused: no vector of the recursion has an entry above the limit, and the number of the
/// frame's vectors is none that is refused.
pub fn frame_is_refused_for_nothing()
    ensures entries { FrameExceedsNothing }
    ensures dimension { FrameHasOneDimension }
{}

/// A step of the recursion that exchanges vectors, since the divisor behind it isn't 0, has no number of 2^112 or more in size where its vectors
/// have no entry above 1,099,511,627,776 in size: neither its value and divisor, nor the products and sums that make the next divisor and the
/// entries of the next vectors.
pub fn steps_are_bounded()
    ensures { StepsAreBounded }
{}
