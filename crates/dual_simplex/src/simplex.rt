ghost use Rattle.std.specs.Prelude.{◌≡◌, IfOk, length};
ghost use Rattle.boxed_problem.specs.Data.{problem_of};
ghost use Rattle.dual_simplex.specs.Capped.{AreCapped};

use crate::building::{
    cost_shift, load_columns, load_rows, write_columns, write_rows, write_table,
};
use crate::capping::cut_all;
use crate::fixed_point::ENTRY_BITS;
use crate::flipping::settle;
use crate::live_rows::{Live, live_rows, row_slots};
use crate::pieces::{Piece, column_slots, count_pieces, pieces_of};
use crate::pivoting::{NO_PART, Part, pivot_at};
use crate::ratio_test::{
    Entrant, Leaving, NO_ENTRANT, entering, leaving_row, sort_entrants, write_entrants,
};
use crate::rebuilding::{bring_back, mark_basis};
use crate::suggestions::{add_far, clear_prices, put_price, write_lowest, write_prices, write_ray};
use crate::variables::{Column, Variable};
use boxed_problem::{Boxed, Limits, Side};
use std::alloc::{AllocError, Global};
use std::snapshot::Snapshot;

/// After so many pivots the table is made anew.
const PIVOTS_MOST: u32 = 400;

/// Why a run of the simplex ended.
#[derive(Clone, Copy, Debug, Drop)]
pub enum Stop {
    /// No row misses an end.
    Optimal,
    /// The pivots are used up.
    Spent,
    /// No column can mend this row: its prices rise without end.
    Endless(Leaving),
    /// A number grew too great. The next run begins anew.
    Lost,
}

/// A dual simplex over the columns that weren't single and the rows that could
/// bind when it was made. Its basis is kept from run to run: each column has two
/// ends, so the table of one box serves in the next. It is of one problem.
#[derive(Drop)]
pub struct Simplex {
    pub problem: Snapshot<Boxed>,
    pieces: Vec<Piece>,
    live: Vec<Live>,
    column_slots: Vec<u32>,
    row_slots: Vec<u32>,
    table: Vec<i64>,
    columns: Vec<Column>,
    rows: Vec<Variable>,
    parts: Vec<Part>,
    entrants: Vec<Entrant>,
    was_basic: Vec<bool>,
    shift: i32,
    pivots: u32,
    made: u64,
    is_kept: bool,
}

/// The size of the table of so many pieces and rows, none where a piece and a
/// row more would make it greater than `most`.
fn table_size(width: usize, height: usize, most: usize) -> Option<usize> {
    let all = width.checked_add(1)?.checked_mul(height.checked_add(1)?)?;
    if most < all {
        return None;
    }
    width.checked_mul(height)
}

/// A simplex for these pieces and rows, with a table that isn't made yet.
fn simplex_of(
    alloc: Global,
    problem: &Boxed,
    pieces: Vec<Piece>,
    live: Vec<Live>,
    size: usize,
) -> Result<Simplex, AllocError>
    ensures { IfOk result
        (λ simplex. problem_of simplex.problem.value ≡ problem_of problem.now) }
{
    let width = pieces.len();
    let height = live.len();
    let column_slots = column_slots(alloc, problem.columns.len(), pieces.as_slice())?;
    let row_slots = row_slots(alloc, problem.rows.len(), live.as_slice())?;
    let shift = cost_shift(pieces.as_slice());
    let variable = Variable::free(0);
    let column = Column { variable, cost: 0 };
    Ok(Simplex {
        problem: Snapshot::of(problem),
        table: vec![in alloc; 0i64; size]?,
        columns: vec![in alloc; column; width]?,
        rows: vec![in alloc; variable; height]?,
        parts: vec![in alloc; NO_PART; width]?,
        entrants: vec![in alloc; NO_ENTRANT; width]?,
        was_basic: vec![in alloc; false; width.saturating_add(height)]?,
        pieces,
        live,
        column_slots,
        row_slots,
        shift,
        pivots: 0,
        made: 0,
        is_kept: false,
    })
}

impl Simplex {
    /// A simplex with no columns and no rows, which suggests prices of 0.
    pub fn idle(alloc: Global, problem: &Boxed) -> Simplex
        ensures { problem_of result.problem.value ≡ problem_of problem.now }
    {
        Simplex {
            problem: Snapshot::of(problem),
            pieces: Vec::new(alloc),
            live: Vec::new(alloc),
            column_slots: Vec::new(alloc),
            row_slots: Vec::new(alloc),
            table: Vec::new(alloc),
            columns: Vec::new(alloc),
            rows: Vec::new(alloc),
            parts: Vec::new(alloc),
            entrants: Vec::new(alloc),
            was_basic: Vec::new(alloc),
            shift: 0,
            pivots: 0,
            made: 0,
            is_kept: false,
        }
    }

    /// A simplex for a problem on these sides. A column with a square is cut
    /// into pieces, finest round its place in `centres`, or, where there is
    /// none, round its own least place. It is idle where the table with a row
    /// and a column more would have more than `most` entries.
    ///
    /// No other call takes memory. The table takes 8 bytes for each entry; what
    /// is kept beside it is below 256 bytes for each piece and row of the table,
    /// of which there are fewer than `most`, and 4 for each column and row of
    /// the problem. While it is made, at most 256 bytes are taken besides for
    /// each row of the problem and each piece.
    pub fn new(
        alloc: Global,
        problem: &Boxed,
        sides: &[Side],
        centres: &[i64],
        most: usize,
    ) -> Result<Simplex, AllocError>
        ensures { IfOk result
            (λ simplex. problem_of simplex.problem.value ≡ problem_of problem.now) }
    {
        let live = live_rows(alloc, problem, sides)?;
        let width = count_pieces(problem, sides, centres);
        let Some(size) = table_size(width, live.len(), most) else {
            return Ok(Simplex::idle(alloc, problem));
        };
        let pieces = pieces_of(alloc, problem, sides, centres)?;
        simplex_of(alloc, problem, pieces, live, size)
    }

    /// Whether the table has no entries, so that the prices stay 0.
    pub fn is_idle(&self) -> bool {
        self.table.is_empty()
    }

    /// Makes the table and the first basis anew.
    fn reset(&mut self, problem: &Boxed)
        requires { problem_of problem.now ≡ problem_of self.old.problem.value }
        ensures { self.new.problem.value ≡ self.old.problem.value }
    {
        write_table(
            self.table.as_mut_slice(),
            self.pieces.as_slice(),
            self.live.as_slice(),
            problem.entries.as_slice(),
            self.column_slots.as_slice(),
            self.row_slots.as_slice(),
        );
        write_columns(
            self.columns.as_mut_slice(),
            self.pieces.as_slice(),
            self.shift,
        );
        let first = u32::try_from(self.pieces.len()).unwrap_or(u32::MAX);
        write_rows(self.rows.as_mut_slice(), first);
        self.pivots = 0;
        self.is_kept = true;
    }

    /// Makes the table anew, with the present basis.
    fn rebuild(&mut self, problem: &Boxed)
        requires { problem_of problem.now ≡ problem_of self.old.problem.value }
        ensures { self.new.problem.value ≡ self.old.problem.value }
    {
        mark_basis(self.rows.as_slice(), self.was_basic.as_mut_slice());
        self.reset(problem);
        let back = bring_back(
            self.columns.as_mut_slice(),
            self.rows.as_mut_slice(),
            self.table.as_mut_slice(),
            self.was_basic.as_slice(),
            self.parts.as_mut_slice(),
        );
        if back.is_none() {
            self.reset(problem);
        }
    }

    /// Takes over the sides, and puts each column at its end.
    fn load(&mut self, problem: &Boxed, sides: &[Side])
        requires { problem_of problem.now ≡ problem_of self.old.problem.value }
        ensures { self.new.problem.value ≡ self.old.problem.value }
    {
        let limits = problem.rows.as_slice();
        let pieces = self.pieces.as_slice();
        let live = self.live.as_slice();
        load_columns(self.columns.as_mut_slice(), pieces, live, sides, limits);
        load_rows(self.rows.as_mut_slice(), pieces, live, sides, limits);
        settle(
            self.columns.as_mut_slice(),
            self.rows.as_mut_slice(),
            self.table.as_slice(),
        );
    }

    /// The column that enters the basis for a row that leaves it.
    fn entering(&mut self, leaving: Leaving) -> Option<usize>
        ensures { self.new.problem.value ≡ self.old.problem.value }
    {
        let columns = self.columns.as_slice();
        let from = leaving.row.wrapping_mul(columns.len());
        let list = self.entrants.as_mut_slice();
        let count = write_entrants(columns, self.table.as_slice(), from, leaving.is_low, list);
        let found = list.get_mut(..count)?;
        sort_entrants(found);
        entering(columns, found, leaving.miss)
    }

    /// One pivot, or the reason why there is none.
    fn step(&mut self) -> Option<Stop>
        ensures { self.new.problem.value ≡ self.old.problem.value }
    {
        let Some(leaving) = leaving_row(self.rows.as_slice()) else {
            return Some(Stop::Optimal);
        };
        let Some(pivot) = self.entering(leaving) else {
            return Some(Stop::Endless(leaving));
        };
        let done = pivot_at(
            self.columns.as_mut_slice(),
            self.rows.as_mut_slice(),
            self.table.as_mut_slice(),
            leaving,
            pivot,
            self.parts.as_mut_slice(),
        );
        if done.is_none() {
            self.is_kept = false;
            return Some(Stop::Lost);
        }
        self.pivots = self.pivots.saturating_add(1);
        self.made = self.made.saturating_add(1);
        settle(
            self.columns.as_mut_slice(),
            self.rows.as_mut_slice(),
            self.table.as_slice(),
        );
        None
    }

    /// Makes at most so many pivots.
    fn run(&mut self, pivots: u32) -> Stop
        ensures { self.new.problem.value ≡ self.old.problem.value }
    {
        for _ in 0..pivots {
            if let Some(stop) = self.step() {
                return stop;
            }
        }
        Stop::Spent
    }

    /// How many pivots were made in all runs.
    pub fn made(&self) -> u64 {
        self.made
    }

    /// Improves the basis on these sides, by at most so many pivots.
    pub fn improve(&mut self, problem: &Boxed, sides: &[Side], pivots: u32) -> Stop
        requires { problem_of problem.now ≡ problem_of self.old.problem.value }
        ensures { self.new.problem.value ≡ self.old.problem.value }
    {
        if !self.is_kept {
            self.reset(problem);
        }
        if self.pivots > PIVOTS_MOST {
            self.rebuild(problem);
        }
        self.load(problem, sides);
        self.run(pivots)
    }

    /// Writes the prices of the present basis, with `bits` bits of fraction,
    /// each of the sign that its row asks for and within its cap.
    pub fn prices(&self, rows: &[Limits], caps: &[u128], bits: u32, out: &mut [i128])
        requires rows { length out.old ≡ length rows.now }
        requires caps { length caps.now ≡ length rows.now }
        ensures { AreCapped rows.now caps.now out.new }
    {
        clear_prices(out);
        let by = 0i32.wrapping_add_unsigned(bits).wrapping_sub(self.shift);
        let width = self.columns.len();
        write_prices(
            self.columns.as_slice(),
            width,
            self.live.as_slice(),
            by,
            out,
        );
        cut_all(rows, caps, out);
    }

    /// Writes the point of the present basis, rounded to whole numbers: centres
    /// for a new simplex.
    pub fn write_point(&self, sides: &[Side], out: &mut [i64]) {
        let pieces = self.pieces.as_slice();
        write_lowest(sides, pieces, self.column_slots.as_slice(), out);
        for column in self.columns.as_slice() {
            add_far(&column.variable, pieces, out);
        }
        for row in self.rows.as_slice() {
            add_far(row, pieces, out);
        }
    }

    /// Writes prices for a row that no column can mend: the bound rises with
    /// each multiple of them, as far as rounding allows.
    pub fn ray(
        &self,
        leaving: Leaving,
        rows: &[Limits],
        caps: &[u128],
        bits: u32,
        more: &mut [i128],
    )
        requires rows { length more.old ≡ length rows.now }
        requires caps { length caps.now ≡ length rows.now }
        ensures { AreCapped rows.now caps.now more.new }
    {
        clear_prices(more);
        let columns = self.columns.as_slice();
        let live = self.live.as_slice();
        let width = columns.len();
        let by = 0i32
            .wrapping_add_unsigned(bits)
            .wrapping_sub(ENTRY_BITS as i32);
        let from = leaving.row.wrapping_mul(width);
        write_ray(
            columns,
            self.table.as_slice(),
            from,
            leaving.is_low,
            live,
            by,
            more,
        );
        if leaving.row < self.rows.len() {
            let slot = (self.rows[leaving.row].number as usize).wrapping_sub(width);
            let one = 1i128 << ENTRY_BITS;
            put_price(
                live,
                slot,
                if leaving.is_low { one } else { -one },
                by,
                more,
            );
        }
        cut_all(rows, caps, more);
    }
}
