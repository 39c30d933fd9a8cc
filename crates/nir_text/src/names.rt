//! A set of names in the order in which they came first. Each name has its place in that order.

ghost use Rattle.std.specs.Prelude.{◌≡◌, [], ◌∷◌, ◌++◌, ◌<◌, ◌^◌, length, not, is_some, if◌then◌else◌, IfSome, IfOk, OnErr};
ghost use Rattle.nir_text.specs.Naming.{place_of};

use indexmap::IndexSet;
use nir_host::OutOfMemory;
use std::alloc::Global;
use std::marker::Model;

/// Names, each once, and at most 2^32 of them. Contracts see the list of their bytes.
#[derive(Drop)]
pub struct Names<'a> {
    set: IndexSet<&'a [u8]>,
}

impl<'a> Model for Names<'a> {
    ghost use Rattle.std.specs.Prelude.{ℕ, ◌≤◌, ◌^◌, List, length, map};

    ghost Value = { List (List ℕ) };

    ghost view = { λ names. map (λ name. name.now) names.set.keys };

    ghost invariant = { λ names. length names.set.keys ≤ 2 ^ 32 };
}

impl<'a> Names<'a> {
    /// No names. This takes no memory.
    pub fn new(alloc: Global) -> Names<'a>
        ensures { result ≡ [] }
    {
        Names {
            set: IndexSet::new(alloc),
        }
    }

    pub fn len(&self) -> usize
        ensures { result ≡ length self.now }
    {
        self.set.len()
    }

    /// Where a name stands, None where it is not among them.
    pub fn place(&self, name: &[u8]) -> Option<u32>
        ensures value { result ≡ place_of name.now self.now }
        ensures within { IfSome result (λ place. place < length self.now) }
    {
        match self.set.get_index_of(name) {
            Some(place) => Some(place as u32),
            None => None,
        }
    }

    /// Puts a name last if it is not there, and says whether it was not. After `OutOfMemory` the
    /// names are as they were.
    pub fn note(&mut self, name: &'a [u8]) -> Result<bool, OutOfMemory>
        requires { length self.old < 2 ^ 32 }
        ensures added { IfOk result (λ added. added ≡ not (is_some (place_of name.now self.old))) }
        ensures names { IfOk result (λ added. self.new ≡ (if added then self.old ++ name.now ∷ [] else self.old)) }
        ensures err { OnErr result (self.new ≡ self.old) }
    {
        match self.set.insert(name) {
            Ok(added) => Ok(added),
            Err(_failed) => Err(OutOfMemory),
        }
    }
}
