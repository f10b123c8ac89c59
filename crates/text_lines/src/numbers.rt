ghost use Rattle.std.specs.Prelude.{◌≡◌, ◌<ℤ◌, pos};
ghost use Rattle.text_lines.specs.Headings.{taken_whole, unit_of};

use smps_words::Core;
use sp_model::Run;

/// One over this number is the unit of the run's bounds: scale times total
/// weight times cost scale.
pub fn unit(run: &Run) -> i128
    ensures value { result ≡ unit_of run.now }
    ensures above { pos 0 <ℤ result }
{
    run.options.scale * run.total * run.program.cost_scale
}

/// How many columns no marker calls integer.
#[tactic(auto, unfolding(crate::specs::Headings::taken_whole))]
pub fn taken_whole(core: &Core) -> usize
    ensures { result ≡ taken_whole core.now }
{
    core.columns
        .as_slice()
        .iter()
        .filter(|column| !column.marked)
        .count()
}
