ghost use Rattle.std.specs.Prelude.{◌≡◌, [], ◌∷◌, ◌++◌, ◌<◌, length, replicate, slice_get, slice_set, IfOk, MatchOption, OnErr, OnOk};

use std::alloc::{AllocError, Global};
use std::marker::Model;
use std::mem;

/// A growing list. Contracts see the list of its items, and neither its room
/// nor its allocator.
#[derive(Clone, Debug, Drop)]
pub struct List<T> {
    items: Vec<T>,
}

/// Bytes of a text.
pub type Text = List<u8>;

impl<T> Model for List<T> {
    ghost use Rattle.std.specs.Prelude.{List};
    ghost use Rattle.std.specs.Coded.{coded_list};

    ghost Value = { List T };

    ghost coded = { coded_list T.code };

    ghost view = { λ list. list.items.items };
}

impl<T> List<T> {
    /// The empty list. It takes no memory.
    pub fn new(alloc: Global) -> List<T>
        ensures { result ≡ [] }
    {
        List {
            items: Vec::new(alloc),
        }
    }

    /// The list of a vector's items. It takes no memory.
    pub fn from_vec(items: Vec<T>) -> List<T>
        ensures { result ≡ items.items }
    {
        List { items }
    }

    /// The items as a vector. It takes no memory.
    pub fn into_vec(self) -> Vec<T>
        ensures { result.items ≡ self }
    {
        let List { items } = self;
        items
    }

    /// The items, in order.
    pub fn as_slice(&self) -> &[T]
        ensures { result.now ≡ self.now }
    {
        self.items.as_slice()
    }

    /// How many items there are.
    pub fn len(&self) -> usize
        ensures { result ≡ length self.now }
    {
        self.items.len()
    }

    /// Takes out the last item. None comes exactly where there is none.
    pub fn pop(&mut self) -> Option<T>
        ensures { MatchOption result ((self.old ≡ []) × (self.new ≡ []))
            (λ last. self.old ≡ self.new ++ last ∷ []) }
    {
        self.items.pop()
    }

    /// Puts an item in the place of another, which is handed back.
    pub fn set(&mut self, index: usize, item: T) -> T
        requires { index < length self.old }
        ensures before { slice_get self.old index ≡ Some result }
        ensures after { self.new ≡ slice_set self.old index item }
    {
        mem::replace(&mut self.items[index], item)
    }
}

impl<T: Copy> List<T> {
    /// A list of a slice's items. It takes no memory where there are none.
    pub fn from_slice(alloc: Global, items: &[T]) -> Result<List<T>, AllocError>
        ensures copy { IfOk result (λ list. list ≡ items.now) }
        ensures refused { OnErr result (0 < length items.now) }
    {
        let mut copy = Vec::new(alloc);
        let Ok(()) = copy.extend_from_slice(items) else {
            return Err(AllocError);
        };
        Ok(List { items: copy })
    }

    /// A copy of the list.
    pub fn copied(&self) -> Result<List<T>, AllocError>
        ensures { IfOk result (λ copy. copy ≡ self.now) }
    {
        let mut copy = Vec::new(*self.items.allocator());
        copy.extend_from_slice(self.items.as_slice())?;
        Ok(List { items: copy })
    }
}

impl<T: Copy + Drop> List<T> {
    /// The same item so many times.
    pub fn repeated(alloc: Global, item: T, count: usize) -> Result<List<T>, AllocError>
        ensures { IfOk result (λ list. list ≡ replicate count item) }
    {
        let mut items = Vec::new(alloc);
        for _ in 0..count {
            items.push(item)?;
        }
        Ok(List { items })
    }
}

impl<T: Drop> List<T> {
    /// Appends an item. A list that is refused memory stays as it was.
    pub fn push(&mut self, item: T) -> Result<(), AllocError>
        ensures ok { OnOk result (self.new ≡ self.old ++ item ∷ []) }
        ensures err { OnErr result (self.new ≡ self.old) }
    {
        self.items.push(item)?;
        Ok(())
    }
}

impl<T: PartialEq> PartialEq for List<T> {
    ghost use Rattle.std.specs.Cmp.Lexicographic.{pointwise, lists_per};

    ghost eq = { λ x y. pointwise T.eq x y };

    ghost laws = { lists_per T.laws };

    fn eq(&self, other: &List<T>) -> bool {
        self.items == other.items
    }
}

impl<T: Eq> Eq for List<T> {
    ghost use Rattle.std.specs.Cmp.Lexicographic.{lists_equiv};

    ghost laws = { lists_equiv T.Eq.laws };
}
