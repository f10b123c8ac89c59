ghost use Rattle.std.specs.Prelude.{◌≡◌, ◌<◌, ◌≤◌, ◌+◌, ◌^◌};
ghost use Rattle.put_codec.specs.Layouts.{all_cells, cells_of, first_of, layout_in, start_of};

use sp_model::Run;

/// How a run's windows are laid out: the ranks' windows stand before the
/// spokes'. Each rank's part of a put has a cell for each of its scenarios and
/// nonleaf column.
#[derive(Clone, Copy, Debug, Drop, PartialEq, Eq)]
pub struct Layout {
    pub scenarios: u32,
    pub nonleaf: u32,
    pub ranks: usize,
    pub spokes: usize,
}

/// The layout of a run's windows.
pub fn layout_of(run: &Run) -> Layout
    ensures { result ≡ layout_in run.now }
{
    Layout {
        scenarios: run.program.scenarios.len() as u32,
        nonleaf: run.nonleaf,
        ranks: run.options.ranks,
        spokes: run.options.lagrangian + run.options.xhat,
    }
}

// The first scenario of a rank; past the last rank, how many scenarios there are.
fn first_scenario(layout: &Layout, rank: usize) -> u64
    requires { rank ≤ layout.now.ranks }
    ensures { result ≡ first_of layout.now rank }
{
    if layout.ranks == 0 {
        return 0;
    }
    (rank as u128 * u128::from(layout.scenarios) / layout.ranks as u128) as u64
}

/// The place of a rank's first cell among all cells of a put; past the last
/// rank, how many cells there are.
pub fn start(layout: &Layout, rank: usize) -> usize
    requires { rank ≤ layout.now.ranks }
    ensures value { result ≡ start_of layout.now rank }
    ensures inside { result ≤ all_cells layout.now }
{
    (first_scenario(layout, rank) * u64::from(layout.nonleaf)) as usize
}

/// How many cells a rank has.
pub fn cells(layout: &Layout, rank: usize) -> usize
    requires { rank < layout.now.ranks }
    ensures { result ≡ cells_of layout.now rank }
{
    start(layout, rank + 1) - start(layout, rank)
}
