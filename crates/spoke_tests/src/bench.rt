ghost use Rattle.std.specs.Prelude.{◌≤◌, All, IfOk};
ghost use Rattle.lagrangian_spoke.specs.Spokes.{IsPutOf};
ghost use Rattle.sp_model.specs.Problems.{scenarios};
ghost use Rattle.sp_model.specs.ScenarioPoints.{HavePoints};
ghost use Rattle.spoke_tests.specs.Benches.{IsBench};

use lagrangian_spoke::LagrangianSpoke;
use log_words::SpokeStep;
use plain_board::PlainBoard;
use put_codec::{RunMeaning, meaning};
use put_read::{PutReader, ReplyRead, SpokeReader};
use run_calls::Put;
use sp_model::Run;
use stamped_read::Read;
use std::alloc::{AllocError, Global};
use wide_num::List;

/// A board of a run with one or two ranks, which write its puts, the first spoke at
/// its seat, a reader of puts at the second spoke's, and one of the first spoke's
/// replies at the third's. Their steps may be made in any order.
#[derive(Drop)]
pub struct Bench {
    pub board: PlainBoard<RunMeaning>,
    pub spoke: LagrangianSpoke,
    /// What the spoke's last step told.
    pub told: SpokeStep,
    pub reader: PutReader,
    /// What the reader's last step told.
    pub read: Read,
    pub poll: SpokeReader,
    /// What the last step of the reader of replies told.
    pub polled: ReplyRead,
    pub puts: List<Put>,
    /// The number of the put that each rank writes next.
    pub nexts: [u64; 2],
    /// How many steps of it the rank has made.
    pub steps: [usize; 2],
    /// Whether the hub has stopped.
    pub is_stopped: bool,
}

impl Bench {
    /// Nothing is written, read or replied to.
    pub fn new(alloc: Global, run: &Run, puts: List<Put>) -> Result<Bench, AllocError>
        requires ranks { run.now.options.ranks ≤ 2 }
        requires spokes { 3 ≤ run.now.options.lagrangian }
        requires points { HavePoints run.now (scenarios run.now) }
        requires puts { All (IsPutOf run.now) puts }
        ensures { IfOk result (λ bench. IsBench run.now bench) }
    {
        let board = PlainBoard::new(alloc, meaning(run))?;
        let spoke = LagrangianSpoke::start(alloc, run, 0)?;
        let reader = PutReader::new(alloc, run)?;
        let poll = SpokeReader::new(run.options.ranks);
        Ok(Bench {
            board,
            spoke,
            told: SpokeStep::Moved,
            reader,
            read: Read::Going,
            poll,
            polled: ReplyRead::Going,
            puts,
            nexts: [1; 2],
            steps: [0; 2],
            is_stopped: false,
        })
    }
}
