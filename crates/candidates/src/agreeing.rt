ghost use Rattle.std.specs.Prelude.{◌↔◌, IsTrue};
ghost use Rattle.agreement.specs.Agreeing.{AreAgreed};
ghost use Rattle.candidates.specs.Values.{IsWhole};

use crate::candidate::Candidate;
use sp_model::Run;

/// Whether a candidate agrees: whether scenarios that share a node have the same
/// values in the columns of the node's stage. It takes no memory.
pub fn agrees(run: &Run, candidate: &Candidate) -> bool
    requires { IsWhole run.now candidate.now }
    ensures { IsTrue result ↔ AreAgreed run.now candidate.now.values }
{
    agreement::agrees(run, &candidate.values)
}
