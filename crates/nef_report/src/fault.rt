//! Why a report isn't given whole.

use lattice_core::{Fault, NoMemory, Refusal};

/// Why the report of an item isn't given whole.
#[derive(Clone, Debug, Drop, PartialEq, Eq)]
pub enum NefFault {
    /// The item is refused.
    Refused(Refusal),
    /// The sink failed.
    Write,
    /// There was no memory.
    NoMemory,
}

impl From<Fault> for NefFault {
    ghost use Rattle.nef_report.specs.Answers.{IsStop};

    ghost from_gives = { λ fault told. IsStop fault told };

    fn from(fault: Fault) -> NefFault {
        match fault {
            Fault::Refused(cause) => NefFault::Refused(cause),
            Fault::NoMemory => NefFault::NoMemory,
        }
    }
}

impl From<NoMemory> for NefFault {
    ghost use Rattle.std.specs.Prelude.{◌≡◌};
    ghost use Rattle.nef_report.specs.declared.fault.NefFault.TheVariants as faults;

    ghost from_gives = { λ fault told. told ≡ faults.NoMemory };

    fn from(_: NoMemory) -> NefFault {
        NefFault::NoMemory
    }
}

impl From<Refusal> for NefFault {
    ghost use Rattle.std.specs.Prelude.{◌≡◌};
    ghost use Rattle.nef_report.specs.declared.fault.NefFault.TheVariants as faults;

    ghost from_gives = { λ cause told. told ≡ faults.Refused cause };

    fn from(cause: Refusal) -> NefFault {
        NefFault::Refused(cause)
    }
}
