ghost use Rattle.std.specs.Prelude.{◌≡◌, [], ◌∷◌, ◌++◌, ◌+◌, ◌<◌, IfOk};

use crate::items::List;
use std::alloc::{AllocError, Global};
use std::marker::Model;

/// A list whose memory is taken when it is made. Contracts see its items, and
/// how many more it can take, its spare.
#[derive(Debug, Drop)]
pub struct Room<T> {
    items: Vec<T>,
    spare: usize,
}

impl<T> Model for Room<T> {
    ghost use Rattle.std.specs.Prelude.{◌+◌, ◌≤◌, vec_len, vec_capacity};
    ghost use Rattle.wide_num.specs.RoomContents.{Contents, contents_code};

    ghost Value = { Contents T };

    ghost coded = { contents_code T.code };

    ghost view = { λ room. record { items = room.items.items; spare = room.spare } };

    ghost invariant = { λ room. vec_len room.items + room.spare ≤ vec_capacity room.items };
}

impl<T> Room<T> {
    /// A room with no items, and with memory for this many.
    pub fn new(alloc: Global, most: usize) -> Result<Room<T>, AllocError>
        ensures { IfOk result (λ room. (room.items ≡ []) × (room.spare ≡ most)) }
    {
        let items = Vec::with_capacity(alloc, most)?;
        Ok(Room { items, spare: most })
    }

    /// Appends an item, where there is spare for it. It can't be refused.
    pub fn push(&mut self, item: T)
    where
        T: Drop,
        requires { 0 < self.old.spare }
        ensures items { self.new.items ≡ self.old.items ++ item ∷ [] }
        ensures spare { self.new.spare + 1 ≡ self.old.spare }
    {
        self.items.push(item).unwrap();
        self.spare -= 1;
    }

    /// The items, in order.
    pub fn items(&self) -> &[T]
        ensures { result.now ≡ self.now.items }
    {
        self.items.as_slice()
    }

    /// The items as a list. It takes no memory.
    pub fn into_list(self) -> List<T>
        ensures { result ≡ self.items }
    {
        let Room { items, .. } = self;
        List::from_vec(items)
    }
}
