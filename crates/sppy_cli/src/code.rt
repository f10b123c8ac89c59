ghost use Rattle.std.specs.Prelude.{◌≡◌};
ghost use Rattle.sppy_cli.specs.Statuses.{code_of};

use crate::status::Status;

impl Status {
    /// The exit status. 1 doesn't come.
    pub fn code(&self) -> u8
        ensures { result ≡ code_of self.now }
    {
        match self {
            Status::Done => 0,
            Status::Words => 2,
            Status::Input(_) => 3,
            Status::Infeasible { .. } => 4,
            Status::Spent { .. } => 5,
            Status::Wide { .. } => 6,
            Status::ReadFault { .. } => 7,
            Status::WriteFault { .. } => 8,
            Status::Memory => 9,
        }
    }
}
