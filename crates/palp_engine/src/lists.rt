//! How the report of a list of weight systems ends.

ghost use Rattle.std.specs.Prelude.{◌≡◌};
ghost use Rattle.palp_engine.specs.RunSteps.{list_outcome as outcome_of_list};

use crate::Outcome;
use weight_lists::ListFault;

/// The outcome of the report of a list.
pub(crate) fn list_outcome(answer: Result<(), ListFault>) -> Outcome
    ensures { result ≡ outcome_of_list answer }
{
    match answer {
        Ok(()) => Outcome::Done,
        Err(ListFault::Refused(item, cause)) => Outcome::Refused { item, cause },
        Err(ListFault::Write) => Outcome::WriteFault,
        Err(ListFault::NoMemory) => Outcome::NoMemory,
    }
}
