ghost use Rattle.sp_model.specs.RunFacts.{RunFacts};

use crate::program::{Options, Program};

/// A program with its options. The type keeps that the program and the options
/// are within their limits and fit each other, and that no sum of a run leaves
/// 128 bits.
#[derive(Drop)]
pub struct Run {
    pub program: Program,
    pub options: Options,
    /// The sum of the scenarios' weights.
    pub total: i128,
    /// How many columns have a stage before the last.
    pub nonleaf: u32,
    pub ghost facts: { RunFacts program options total nonleaf },
}
