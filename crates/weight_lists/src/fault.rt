//! Why a report isn't given whole.
ghost use Rattle.std.specs.Prelude.{◌≡◌};

use lattice_core::{NoMemory, Refusal};

/// Why the report of a list of weight systems isn't given whole.
#[derive(Clone, Debug, Drop, PartialEq, Eq)]
pub enum ListFault {
    /// The system with this number in the list of all interior-point systems of the range, counted from 1, is refused.
    Refused(u64, Refusal),
    /// The sink failed.
    Write,
    /// There was no memory.
    NoMemory,
}

impl From<NoMemory> for ListFault {
    ghost use Rattle.weight_lists.specs.declared.fault.ListFault.TheVariants as faults;

    ghost from_gives = { λ fault list_fault. list_fault ≡ faults.NoMemory };

    fn from(_: NoMemory) -> ListFault {
        ListFault::NoMemory
    }
}
