// What holds of the reading of a text.
ghost use Rattle.palp_input.specs.Laws.{HasAllItems, GoesOn, Ends, EndsFaulty, EndsTooLong, CallsAnswer, CallsRead, CallsReadTaken};
ghost use Rattle.palp_input.specs.Laws.{ItemsAreItems, ItemsHaveBytes, SystemsKeepNumbers, ItemsKeepNumbers};

/// What the reading of a text has after its first item is the reading of the bytes behind that
/// item's end, with bytes and lines counted on. Where there is no further item the reading ends: at
/// the end of the text, with the fault of the next item, or with too many bytes.
pub fn reading_law()
    ensures all { HasAllItems }
    ensures goes_on { GoesOn }
    ensures ends { Ends }
    ensures faulty { EndsFaulty }
    ensures too_long { EndsTooLong }
{}

/// Over a source that tells its bytes the answers of a reader, one call after another, are the
/// items of the reading of these bytes and then its ending. With memory, and with a source that
/// doesn't fail, each answer comes exactly where it is the one to what is next.
pub fn calls_law()
    ensures reads { CallsRead }
    ensures reads_taken { CallsReadTaken }
    ensures exactly { CallsAnswer }
{}

/// Each item of a text has at least one byte. The systems of a weight line are well formed: there
/// is at least one, each has as many weights as the first one, and they sum to its degree, which
/// isn't 0, and at no place are all weights 0. A matrix has as many entries as lines times columns.
/// All numbers are smaller than 10^18 in absolute value.
pub fn item_law()
    ensures means { ItemsAreItems }
    ensures bytes { ItemsHaveBytes }
{}

/// Reading the numbers of a weight line into systems loses no number and adds none: the systems'
/// numbers, of each its degree and then its weights, one system after another, are the numbers of
/// the line.
pub fn systems_keep_numbers()
    ensures placed { SystemsKeepNumbers }
    ensures item { ItemsKeepNumbers }
{}
