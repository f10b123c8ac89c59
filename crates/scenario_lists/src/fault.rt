ghost use Rattle.std.specs.Prelude.{◌≡◌};
ghost use Rattle.scenario_lists.specs.declared.fault.ListFault.TheVariants.{Memory};

use std::alloc::AllocError;

/// Why scenarios can't be listed.
#[derive(Clone, Copy, Debug, Drop, PartialEq, Eq)]
pub enum ListFault {
    /// All scenarios together have more entries than they may.
    TooManyEntries,
    /// Memory was refused.
    Memory,
}

impl From<AllocError> for ListFault {
    ghost from_gives = { λ _ fault. fault ≡ Memory };

    fn from(_error: AllocError) -> ListFault {
        ListFault::Memory
    }
}
