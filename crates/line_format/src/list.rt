//! The list type of the texts' values.
ghost use Rattle.std.specs.Prelude.{◌≡◌, ◌<◌, ◌++◌, [], ◌∷◌, OnOk, OnErr};
ghost use Rattle.std.specs.Vec.{vec_len, vec_capacity};

use ivs_base::NoMemory;
use std::alloc::Global;
use std::marker::Model;

/// Items in their order.
#[derive(Debug, Drop)]
pub struct List<T> {
    items: Vec<T>,
}

impl<T> Model for List<T> {
    ghost use Rattle.std.specs.Prelude.{List};

    ghost Value = { List T };

    ghost view = { λ list. list.items.items };
}

/// Reserves space for one more item if there is none. It keeps `push` short enough to be inlined.
/// Then an item is written to its place field by field. Otherwise it is built elsewhere and copied,
/// and the copy waits for the fields that were just written.
fn make_room<T>(items: &mut Vec<T>) -> Result<(), NoMemory>
    ensures items { items.new.items ≡ items.old.items }
    ensures room { OnOk result (vec_len items.new < vec_capacity items.new) }
{
    if items.capacity() <= items.len() {
        items.reserve(1)?;
    }
    Ok(())
}

impl<T> List<T> {
    /// Returns the empty list, without an allocation.
    pub fn new(alloc: Global) -> Self
        ensures { result ≡ [] }
    {
        List {
            items: Vec::new(alloc),
        }
    }

    /// Returns the whole list.
    pub fn items(&self) -> &[T]
        ensures { result.now ≡ self.now }
    {
        self.items.as_slice()
    }

    /// Returns the whole list, with its memory.
    pub fn into_items(self) -> Vec<T>
        ensures { result.items ≡ self }
    {
        self.items
    }
}

impl<T: Drop> List<T> {
    /// Reserves space for `more` more items. Returns `Err(NoMemory)` if the allocation fails.
    pub fn reserve(&mut self, more: usize) -> Result<(), NoMemory>
        ensures { self.new ≡ self.old }
    {
        self.items.try_reserve(more)?;
        Ok(())
    }

    /// Appends the item. After `Err(NoMemory)` the list is unchanged and the item is dropped.
    // claim ok, err with List::new, List::items, List::into_items, List::reserve, List::clear: A
    //    list has the items that were appended, in order; a failed call changes nothing.
    #[inline(always)]
    pub fn push(&mut self, item: T) -> Result<(), NoMemory>
        ensures ok { OnOk result (self.new ≡ self.old ++ item ∷ []) }
        ensures err { OnErr result (self.new ≡ self.old) }
    {
        make_room(&mut self.items)?;
        self.items.push_reserved(item);
        Ok(())
    }

    /// Drops the items. Their space stays reserved.
    pub fn clear(&mut self)
        ensures { self.new ≡ [] }
    {
        self.items.clear();
    }
}
