ghost use Rattle.std.specs.Prelude.{◌≡◌, ℕ, ◌≤◌, ◌<◌, ◌^◌, length, IfOk};
ghost use Rattle.window_words.specs.declared.views.View.{View};
ghost use Rattle.stamped_read.specs.Promises.{Makes};
ghost use Rattle.stamped_read.specs.Readers.{due};
ghost use Rattle.put_codec.specs.Entries.{AgreeBelow, FitsLayout, IsSpelled};
ghost use Rattle.put_codec.specs.Layouts.{all_cells, layout_in};
ghost use Rattle.put_read.specs.Reads.{AreShort, HasParts, ReadsPuts, TellsPut, fresh_in};
ghost use Rattle.put_read.specs.Cells.{KeepsShape};
ghost use Rattle.run_calls.specs.declared.put.Put.{Put};

use crate::filling::take_part;
use crate::windows::rank_windows;
use put_codec::{Layout, RunMeaning, start};
use run_calls::Put;
use sp_model::{Multipliers, Run};
use stamped_read::{Read, StampedReader};
use std::alloc::{AllocError, Global};
use wide_num::List;
use window_words::Board;

/// A reader of the ranks' windows of a run, with the put that it read last.
#[derive(Drop)]
pub struct PutReader {
    pub reader: StampedReader,
    pub layout: Layout,
    /// Where the last step answered a reading, the put that was read.
    pub put: Put,
}

// A put of zeros with room for all cells of a layout.
fn blank(alloc: Global, layout: &Layout) -> Result<Put, AllocError>
    ensures { IfOk result (FitsLayout layout.now) }
{
    let cells = layout.scenarios as usize * layout.nonleaf as usize;
    Ok(Put {
        number: 0,
        multipliers: Multipliers {
            values: List::from_vec(vec![in alloc; 0; cells]?),
        },
        x: List::from_vec(vec![in alloc; 0; cells]?),
    })
}

// Takes the parts of all ranks into a put of this number.
fn fill(reader: &StampedReader, layout: &Layout, number: u64, put: &mut Put)
    requires some { 0 < layout.now.ranks }
    requires many { layout.now.ranks ≤ length reader.now.parts }
    requires short { AreShort layout.now reader.now }
    requires small { all_cells layout.now < 2 ^ 64 }
    requires room { FitsLayout layout.now put.old }
    ensures room { FitsLayout layout.now put.new }
    ensures put { (given : Put) → IsSpelled given → FitsLayout layout.now given →
        given.number ≡ number → HasParts layout.now reader.now given → put.new ≡ given }
{
    put.number = number;
    for rank in 0..layout.ranks {
        take_part(reader.part(rank), start(layout, rank), put);
    }
}

impl PutReader {
    /// A reader that has read nothing. It takes here all the memory that it
    /// needs.
    pub fn new(alloc: Global, run: &Run) -> Result<PutReader, AllocError>
        ensures fresh { IfOk result (λ reader. reader.reader ≡ fresh_in (layout_in run.now)) }
        ensures reads { IfOk result (λ reader. (v : View) →
            run.now.options.ranks ≤ length v.accepted → ReadsPuts run.now v reader) }
    {
        let windows = rank_windows(run);
        let reader = StampedReader::new(alloc, &windows)?;
        let put = blank(alloc, &windows.layout)?;
        Ok(PutReader {
            reader,
            layout: windows.layout,
            put,
        })
    }

    /// Makes the one call of the board that is due.
    pub fn step<B: Board<Of = RunMeaning>>(&mut self, board: &mut B) -> Read
        requires { ReadsPuts (B.of board.old).run.value (B.view board.old) self.old }
        ensures made { (n : ℕ) × Makes B.leaves B.view (B.of board.old).layout.ranks
            board.old board.new self.old.reader self.new.reader result (due self.old.reader) n }
        ensures same { B.of board.new ≡ B.of board.old }
        ensures reads { ReadsPuts (B.of board.old).run.value (B.view board.new) self.new }
        ensures tells { TellsPut (B.of board.old).run.value self.old self.new result }
    {
        match self.reader.step(board) {
            Read::Going => Read::Going,
            Read::Again(again) => Read::Again(again),
            Read::Reading { put } => {
                fill(&self.reader, &self.layout, put, &mut self.put);
                Read::Reading { put }
            }
        }
    }
}
