//! The list type on which the list types of all crates stand.

ghost use Rattle.std.specs.Prelude.{◌≡◌, [], ◌∷◌, ◌++◌, ◌<◌, ◌-◌, length, take, slice_get, slice_set, ◌↔◌, IsTrue, IsSome, IfOk, OnOk, OnErr, OnSome};
ghost use Rattle.std.specs.Option.{option_copied, option_to_list};
ghost use Rattle.std.specs.Borrow.{sem};
ghost use Rattle.nir_host.specs.Lending.{LendsItem};

use crate::memory::OutOfMemory;
use std::alloc::Global;
use std::marker::Model;

/// A list of items that contracts see as the list. It keeps its allocator, and a push that finds no
/// memory changes nothing.
#[derive(Debug, Drop)]
pub struct Seq<T> {
    items: Vec<T>,
}

/// A list of bytes.
pub type Bytes = Seq<u8>;

impl<T> Model for Seq<T> {
    ghost use Rattle.std.specs.Prelude.{List};
    ghost use Rattle.std.specs.Coded.{coded_list};

    ghost Value = { List T };

    ghost coded = { coded_list T.code };

    ghost view = { λ s. s.items.items };
}

impl<T> Seq<T> {
    /// The empty list, which takes no memory.
    pub fn new(alloc: Global) -> Seq<T>
        ensures { result ≡ [] }
    {
        Seq {
            items: Vec::new(alloc),
        }
    }

    /// The items of a vector, in order. Takes no memory.
    pub fn from_vec(items: Vec<T>) -> Seq<T>
        ensures { result ≡ items.items }
    {
        Seq { items }
    }

    /// The vector of the items. Takes no memory.
    pub fn into_vec(self) -> Vec<T>
        ensures { result.items ≡ self }
    {
        let Seq { items } = self;
        items
    }

    pub fn as_slice(&self) -> &[T]
        ensures { result.now ≡ self.now }
    {
        self.items.as_slice()
    }

    pub fn len(&self) -> usize
        ensures { result ≡ length self.now }
    {
        self.items.len()
    }

    pub fn is_empty(&self) -> bool
        ensures { IsTrue result ↔ (self.now ≡ []) }
    {
        self.items.is_empty()
    }

    /// The item at a place, None past the end.
    pub fn get(&self, at: usize) -> Option<&T>
        ensures value { option_copied result ≡ slice_get self.now at }
        ensures within { OnSome result (at < length self.now) }
    {
        self.items.get(at)
    }

    /// The last item, which the list loses. None where the list is empty.
    pub fn pop(&mut self) -> Option<T>
        ensures parts { self.old ≡ self.new ++ option_to_list result }
        ensures rest { self.new ≡ take (length self.old - 1) self.old }
        ensures value { result ≡ slice_get self.old (length self.old - 1) }
        ensures variant { IsSome result ↔ (0 < length self.old) }
    {
        self.items.pop()
    }

    /// Lends the item at a place below the length.
    pub fn at_mut(&mut self, at: usize) -> &mut T
        requires { at < length self.old }
        ensures* writes_back { sem 𝓛 (LendsItem T.row self.entry at result) }
        ensures value { slice_get self.old at ≡ Some result.now }
    {
        &mut self.items[at]
    }
}

impl<T: Drop> Seq<T> {
    /// Adds an item at the end. After `OutOfMemory` the list is as it was, and the item is dropped.
    pub fn push(&mut self, item: T) -> Result<(), OutOfMemory>
        ensures ok { OnOk result (self.new ≡ self.old ++ item ∷ []) }
        ensures err { OnErr result (self.new ≡ self.old) }
    {
        match self.items.push(item) {
            Ok(()) => Ok(()),
            Err(_failed) => Err(OutOfMemory),
        }
    }
}

impl<T: Copy> Seq<T> {
    /// A list of these items.
    pub fn from_slice(alloc: Global, items: &[T]) -> Result<Seq<T>, OutOfMemory>
        ensures { IfOk result (λ seq. seq ≡ items.now) }
    {
        match Vec::from_slice(alloc, items) {
            Ok(items) => Ok(Seq { items }),
            Err(_error) => Err(OutOfMemory),
        }
    }

    /// Adds these items at the end, in order. After `OutOfMemory` the list is as it was.
    pub fn extend_from_slice(&mut self, items: &[T]) -> Result<(), OutOfMemory>
        ensures ok { OnOk result (self.new ≡ self.old ++ items.now) }
        ensures err { OnErr result (self.new ≡ self.old) }
    {
        match self.items.extend_from_slice(items) {
            Ok(()) => Ok(()),
            Err(_error) => Err(OutOfMemory),
        }
    }
}
