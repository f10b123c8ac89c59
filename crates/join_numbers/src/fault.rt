ghost use Rattle.std.specs.Prelude.{◌≡◌};
ghost use Rattle.join_numbers.specs.declared.fault.MakeFault.TheVariants.{Memory};

use std::alloc::AllocError;

/// Why the numbers of a run can't be made.
#[derive(Clone, Copy, Debug, Drop)]
pub enum MakeFault {
    /// A number that leaves 128 bits.
    Unfit,
    /// Memory was refused.
    Memory,
}

impl From<AllocError> for MakeFault {
    ghost from_gives = { λ _ fault. fault ≡ Memory };

    fn from(_error: AllocError) -> MakeFault {
        MakeFault::Memory
    }
}
