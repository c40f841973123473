// What holds over several calls of a source or a sink.
ghost use Rattle.palp_io.specs.Laws.{
  RoseInWords,
  RoseOverCalls,
  ZeroNeverRises,
  PassesNothing,
  PassesOverCalls,
  PassesTheNext,
  TellsNothingOn,
  EndsExactly,
  GainsNothing,
  GainsOverCalls,
  GainsFrontOverCalls,
  GainsFrontOfMore,
};

/// A count of faults rose exactly where it is greater than before or stands at its last value.
/// Where it rose in one of several calls, it rose over all of them, and one that is constantly 0
/// never rises.
pub fn count_law()
    ensures in_words { RoseInWords }
    ensures over_calls { RoseOverCalls }
    ensures zero { ZeroNeverRises }
{}

/// Over any calls of a source, the bytes given, one after another, are the front of what it had
/// left. A take that didn't fail answers the end exactly where nothing was left.
pub fn taking_law()
    ensures nothing { PassesNothing }
    ensures over_calls { PassesOverCalls }
    ensures next { PassesTheNext }
    ensures untold { TellsNothingOn }
    ensures ends { EndsExactly }
{}

/// Over any calls of a sink, the pieces are appended one after another. Where the last of them
/// failed, a front of all of them was appended.
pub fn giving_law()
    ensures nothing { GainsNothing }
    ensures over_calls { GainsOverCalls }
    ensures front_over_calls { GainsFrontOverCalls }
    ensures front_of_more { GainsFrontOfMore }
{}
