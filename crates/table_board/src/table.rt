ghost use Rattle.std.specs.Prelude.{◌≡◌, true, false, IfOk};
ghost use Rattle.table_board.specs.Tables.{all_seats, IsFirst};

use crate::rule::Ruled;
use crate::seat::TableSeat;
use atomic_table::{Seat, Table};
use std::alloc::{AllocError, Global};
use std::marker::Model;
use wide_num::List;
use window_places::{places_of, zeros};
use window_words::{Known, Meaning};

/// Windows of atomic words, which lie in one table. It gives out its seats once.
///
/// Contracts see which table it is, the meaning, and whether the seats are still
/// to be given out.
#[derive(Drop)]
pub struct TableBoard<M: Meaning> {
    table: Table<u8, Known<M>, M, Ruled<M>, Global>,
    of: M,
    starts: Vec<usize>,
    hub: Option<Seat<u8, Known<M>>>,
}

impl<M: Meaning> Model for TableBoard<M> {
    ghost use Rattle.std.specs.Prelude.{Bool, is_some};
    ghost use Rattle.atomic_table.specs.Seated.{TableId};
    ghost use Rattle.table_board.specs.Tables.{Stands};

    ghost Value = { TableId × M × Bool };

    ghost view = { λ b. (b.table.shared.table_id, b.of, is_some b.hub) };

    ghost invariant = { λ b. Stands M.wide M.count b.table.shared.table_id b.table.shared.key b.of
        b.starts.items b.hub };
}

impl<M: Meaning + Drop> TableBoard<M> {
    /// A fresh board: one table, with one memory word for each word. It takes
    /// here all the memory that the calls of its seats need.
    pub fn new(alloc: Global, meaning: M) -> Result<TableBoard<M>, AllocError>
        ensures { IfOk result (λ board. (board.1 ≡ meaning) × (board.2 ≡ true)) }
    {
        let places = places_of(alloc, &meaning)?;
        let words = zeros(alloc, places.words)?;
        let (table, hub) = Table::of_words(alloc, words.as_slice(), &meaning)?;
        Ok(TableBoard {
            table,
            of: meaning,
            starts: places.starts,
            hub: Some(hub),
        })
    }
}

impl<M: Meaning> TableBoard<M> {
    /// The hub's seat, and behind it one for each window, of a board that hasn't
    /// given them out yet.
    pub fn seats(&mut self, alloc: Global) -> Result<List<TableSeat<'_, M>>, AllocError>
        requires { self.old.2 ≡ true }
        ensures { IfOk result
            (λ seats. seats ≡ all_seats self.old.0 self.old.1 (M.count self.old.1)) }
    {
        let hub = self.take_hub();
        self.deal_all(alloc, hub)
    }

    /// The table's one seat. The board isn't fresh afterwards.
    fn take_hub(&mut self) -> Seat<u8, Known<M>>
        requires { self.old.2 ≡ true }
        ensures same { (self.new.0 ≡ self.old.0) × (self.new.1 ≡ self.old.1) }
        ensures given { self.new.2 ≡ false }
        ensures first { IsFirst self.old.0 self.old.1 (M.count self.old.1) result }
    {
        self.hub.take().unwrap()
    }

    /// All seats, where this is the one of the table, which the board has given out.
    fn deal_all(
        &self,
        alloc: Global,
        first: Seat<u8, Known<M>>,
    ) -> Result<List<TableSeat<'_, M>>, AllocError>
        requires given { self.now.2 ≡ false }
        requires first { IsFirst self.now.0 self.now.1 (M.count self.now.1) first }
        ensures { IfOk result
            (λ seats. seats ≡ all_seats self.now.0 self.now.1 (M.count self.now.1)) }
    {
        let starts = self.starts.as_slice();
        let mut hub = TableSeat::first(&self.table.shared, first, &self.of, starts);
        let mut seats = Vec::new(alloc);
        for window in 0..self.of.windows() {
            let owner = hub.deal(window);
            seats.push(owner)?;
        }
        seats.insert(0, hub)?;
        Ok(List::from_vec(seats))
    }
}
