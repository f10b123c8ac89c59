ghost use Rattle.std.specs.Prelude.{◌≡◌, IfOk, IfSome, ◌<◌};
ghost use Rattle.lagrangian_spoke.specs.Spokes.{IsPutOf};
ghost use Rattle.put_codec.specs.Layouts.{layout_in};
ghost use Rattle.board_tests.specs.Sitting.{IsGiven};

use crate::making::puts_of;
use put_codec::{RunMeaning, cells, layout_of, meaning, part_word};
use run_calls::Put;
use sp_model::Run;
use std::alloc::{AllocError, Global};
use wide_num::List;

/// What all actors of a run are given: the run, what its windows mean, and its puts.
#[derive(Drop)]
pub struct Given {
    pub run: Run,
    pub of: RunMeaning,
    pub puts: List<Put>,
}

impl Given {
    /// What a run gives; none where it has no put or fewer than three spokes.
    pub fn new(alloc: Global, run: Run) -> Result<Option<Given>, AllocError>
        ensures { IfOk result (λ given. IfSome given IsGiven) }
    {
        if run.options.lagrangian < 3 {
            return Ok(None);
        }
        let puts = puts_of(alloc, &run)?;
        if puts.len() == 0 {
            return Ok(None);
        }
        let of = meaning(&run);
        Ok(Some(Given { run, of, puts }))
    }

    /// What the windows mean, once more.
    pub fn meaning(&self) -> RunMeaning
        requires { IsGiven self.now }
        ensures { result ≡ self.now.of }
    {
        meaning(&self.run)
    }

    /// The words of a rank's part of a put.
    fn part(&self, alloc: Global, put: &Put, rank: usize) -> Result<Vec<u64>, AllocError>
        requires put { IsPutOf self.now.run put.now }
        requires rank { rank < self.now.run.options.ranks }
    {
        let layout = layout_of(&self.run);
        let mut words = Vec::new(alloc);
        for index in 0..3 * cells(&layout, rank) {
            words.push(part_word(put, &layout, rank, index))?;
        }
        Ok(words)
    }

    /// The words of all parts of a put.
    fn parts(&self, alloc: Global, put: &Put) -> Result<Vec<Vec<u64>>, AllocError>
        requires { IsPutOf self.now.run put.now }
    {
        let mut parts = Vec::new(alloc);
        for rank in 0..self.run.options.ranks {
            let part = self.part(alloc, put, rank)?;
            parts.push(part)?;
        }
        Ok(parts)
    }

    /// The words of all parts of each put.
    pub fn words(&self, alloc: Global) -> Result<Vec<Vec<Vec<u64>>>, AllocError>
        requires { IsGiven self.now }
    {
        let mut words = Vec::new(alloc);
        for put in self.puts.as_slice() {
            let parts = self.parts(alloc, put)?;
            words.push(parts)?;
        }
        Ok(words)
    }
}
