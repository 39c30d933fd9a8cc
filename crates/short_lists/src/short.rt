//! Lists of a fixed most items.

ghost use Rattle.std.specs.Prelude.{◌≡◌, ◌<◌, ◌≤◌, ◌↔◌, IsTrue, OnSome, [], ◌∷◌, ◌++◌, length, slice_get, slice_index};
ghost use Rattle.std.specs.Option.{option_copied};

use arrayvec::ArrayVec;
use std::marker::Model;

/// At most `N` items, which lie in the value itself, so that it takes no memory. Contracts see the list of the items.
#[derive(Debug, Default, Drop)]
pub struct Short<T, const N: usize> {
    items: ArrayVec<T, N>,
}

impl<T, const N: usize> Model for Short<T, N> {
    ghost use Rattle.std.specs.Prelude.{List};
    ghost use Rattle.std.specs.Coded.{coded_list};

    ghost Value = { List T };

    ghost coded = { coded_list T.code };

    ghost view = { λ s. s.items.items };
}

impl<T: Default, const N: usize> Short<T, N> {
    /// The list of no items.
    pub fn new() -> Short<T, N>
        ensures { result ≡ [] }
    {
        Short {
            items: ArrayVec::new(),
        }
    }
}

impl<T, const N: usize> Short<T, N> {
    /// The list of these items.
    pub fn from_array_vec(items: ArrayVec<T, N>) -> Short<T, N>
        ensures { result ≡ items.items }
    {
        Short { items }
    }

    /// The items as they lie.
    pub fn into_array_vec(self) -> ArrayVec<T, N>
        ensures { result.items ≡ self }
    {
        let Short { items } = self;
        items
    }

    /// The items, in order.
    pub fn as_slice(&self) -> &[T]
        ensures value { result.now ≡ self.now }
        ensures fits { length result.now ≤ N }
    {
        self.items.as_slice()
    }

    /// How many items there are, at most `N`.
    pub fn len(&self) -> usize
        ensures value { result ≡ length self.now }
        ensures fits { result ≤ N }
    {
        self.items.len()
    }

    /// Whether there is no item.
    pub fn is_empty(&self) -> bool
        ensures { IsTrue result ↔ (self.now ≡ []) }
    {
        self.items.is_empty()
    }

    /// The item at a place, None past the end.
    pub fn get(&self, at: usize) -> Option<&T>
        ensures value { option_copied result ≡ slice_get self.now at }
        ensures within { OnSome result (at < length self.now) }
    {
        self.items.as_slice().get(at)
    }
}

impl<T: Drop, const N: usize> Short<T, N> {
    /// Adds an item at the end of a list that is not full.
    pub fn push(&mut self, item: T)
        requires { length self.old < N }
        ensures { self.new ≡ self.old ++ item ∷ [] }
    {
        self.items.push(item);
    }
}

impl<const N: usize> Short<u64, N> {
    /// The number at a place, and 0 past the end.
    pub fn component(&self, at: usize) -> u64
        ensures { result ≡ slice_index self.now at }
    {
        let items = self.items.as_slice();
        if at < items.len() { items[at] } else { 0 }
    }
}
