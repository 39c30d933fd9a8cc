//! Lists whose first items lie in the value itself.

ghost use Rattle.std.specs.Prelude.{◌≡◌, ◌<◌, ◌↔◌, IsTrue, OnOk, OnErr, OnSome, [], ◌∷◌, ◌++◌, length, slice_get};
ghost use Rattle.std.specs.Option.{option_copied};

use nir_host::OutOfMemory;
use smallvec::SmallVec;
use std::alloc::Global;
use std::marker::Model;

/// A list that takes memory only for more than `N` items. Contracts see the list of the items.
#[derive(Debug, Drop)]
pub struct Spilling<T, const N: usize> {
    items: SmallVec<T, N>,
}

impl<T, const N: usize> Model for Spilling<T, N> {
    ghost use Rattle.std.specs.Prelude.{List};
    ghost use Rattle.std.specs.Coded.{coded_list};

    ghost Value = { List T };

    ghost coded = { coded_list T.code };

    ghost view = { λ s. s.items.items };
}

impl<T: Default + Drop, const N: usize> Spilling<T, N> {
    /// The list of no items, which takes no memory.
    pub fn new(alloc: Global) -> Spilling<T, N>
        ensures { result ≡ [] }
    {
        Spilling {
            items: SmallVec::new(alloc),
        }
    }
}

impl<T, const N: usize> Spilling<T, N> {
    /// The list of these items. Takes no memory.
    pub fn from_small_vec(items: SmallVec<T, N>) -> Spilling<T, N>
        ensures { result ≡ items.items }
    {
        Spilling { items }
    }

    /// The items as they lie. Takes no memory.
    pub fn into_small_vec(self) -> SmallVec<T, N>
        ensures { result.items ≡ self }
    {
        let Spilling { items } = self;
        items
    }

    /// The items, in order.
    pub fn as_slice(&self) -> &[T]
        ensures { result.now ≡ self.now }
    {
        self.items.as_slice()
    }

    /// How many items there are.
    pub fn len(&self) -> usize
        ensures { result ≡ length self.now }
    {
        self.items.len()
    }

    /// Whether there is no item.
    pub fn is_empty(&self) -> bool
        ensures { IsTrue result ↔ (self.now ≡ []) }
    {
        self.items.is_empty()
    }

    /// The item at a place, None past the end.
    pub fn get(&self, at: usize) -> Option<&T>
        ensures value { option_copied result ≡ slice_get self.now at }
        ensures within { OnSome result (at < length self.now) }
    {
        self.items.as_slice().get(at)
    }
}

impl<T: Default + Drop, const N: usize> Spilling<T, N> {
    /// Adds an item at the end. After `OutOfMemory` the list is as it was, and the item is dropped.
    pub fn push(&mut self, item: T) -> Result<(), OutOfMemory>
        ensures ok { OnOk result (self.new ≡ self.old ++ item ∷ []) }
        ensures err { OnErr result (self.new ≡ self.old) }
    {
        match self.items.push(item) {
            Ok(()) => Ok(()),
            Err(_failed) => Err(OutOfMemory),
        }
    }
}
