ghost use Rattle.std.specs.Prelude.{◌≡◌, ◌<◌, [], ◌∷◌, ◌++◌, length, take, IfOk, OnOk, OnErr, IsTrue, ◌↔◌, slice_get};
ghost use Rattle.std.specs.Option.{option_copied};
ghost use Rattle.std.specs.Cmp.Lexicographic.{pointwise, lists_per};

use std::alloc::{AllocError, Global};
use std::marker::Model;

/// Items in the order in which they were pushed. It grows in memory of the global allocator.
#[derive(Debug, Drop)]
pub struct ItemList<T> {
    items: Vec<T>,
}

impl<T> Model for ItemList<T> {
    ghost use Rattle.std.specs.Prelude.{List};
    ghost use Rattle.std.specs.Coded.{coded_list};

    ghost Value = { List T };

    ghost coded = { coded_list T.code };

    ghost view = { λ list. list.items.items };
}

impl<T> ItemList<T> {
    /// An empty list. It takes no memory.
    pub fn new(alloc: Global) -> ItemList<T>
        ensures { result ≡ [] }
    {
        ItemList {
            items: Vec::new(alloc),
        }
    }

    /// The items, first to last.
    pub fn as_slice(&self) -> &[T]
        ensures { result.now ≡ self.now }
    {
        self.items.as_slice()
    }

    /// The number of items.
    pub fn len(&self) -> usize
        ensures { result ≡ length self.now }
    {
        self.items.len()
    }

    /// Whether it has no item.
    pub fn is_empty(&self) -> bool
        ensures { IsTrue result ↔ (self.now ≡ []) }
    {
        self.items.is_empty()
    }

    /// The items as a vector, in their memory.
    pub fn into_vec(self) -> Vec<T>
        ensures { result.items ≡ self }
    {
        self.items
    }

    /// The allocator that the list grows by.
    pub fn alloc(&self) -> Global {
        *self.items.allocator()
    }
}

impl<T: Copy> ItemList<T> {
    /// The item at an index, counted from 0; None past the end.
    pub fn get(&self, index: usize) -> Option<T>
        ensures { result ≡ slice_get self.now index }
    {
        self.items.get(index).copied()
    }
}

impl<T: Drop> ItemList<T> {
    /// Puts the item behind the others. A refused item is dropped.
    pub fn push(&mut self, item: T) -> Result<(), AllocError>
        ensures ok { OnOk result (self.new ≡ self.old ++ item ∷ []) }
        ensures err { OnErr result (self.new ≡ self.old) }
    {
        self.items.push(item)?;
        Ok(())
    }

    /// Takes the first item out; the others move up, at a cost of their number.
    pub fn take_first(&mut self) -> T
        requires { 0 < length self.old }
        ensures { self.old ≡ result ∷ self.new }
    {
        self.items.remove(0)
    }

    /// Keeps the first `count` items, or all where there are fewer.
    pub fn truncate(&mut self, count: usize)
        ensures { self.new ≡ take count self.old }
    {
        self.items.truncate(count)
    }

    /// Drops all items and keeps their room.
    pub fn clear(&mut self)
        ensures { self.new ≡ [] }
    {
        self.items.clear()
    }
}

impl<T: Copy> ItemList<T> {
    /// Puts all the items behind the others, or none of them.
    pub fn extend(&mut self, items: &[T]) -> Result<(), AllocError>
        ensures ok { OnOk result (self.new ≡ self.old ++ items.now) }
        ensures err { OnErr result (self.new ≡ self.old) }
    {
        self.items.extend_from_slice(items)
    }
}

impl<T: Copy> ItemList<T> {
    /// A list of the same items.
    pub fn copy(&self) -> Result<ItemList<T>, AllocError>
        ensures { IfOk result (λ same. same ≡ self.now) }
    {
        let mut same = ItemList::new(self.alloc());
        same.extend(self.as_slice())?;
        Ok(same)
    }
}

/// The items of a vector, in its memory.
impl<T> From<Vec<T>> for ItemList<T> {
    ghost from_gives = { λ items list. list ≡ items.items };

    fn from(items: Vec<T>) -> ItemList<T> {
        ItemList { items }
    }
}

impl<T: PartialEq> PartialEq for ItemList<T> {
    ghost eq = { pointwise T.eq };

    ghost laws = { lists_per T.laws };

    fn eq(&self, other: &Self) -> bool {
        self.items.as_slice() == other.items.as_slice()
    }
}
