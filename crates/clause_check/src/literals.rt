//! The literals of a clause.

ghost use Rattle.std.specs.Prelude.{◌≡◌, ◌≢◌, ◌<◌, [], ◌∷◌, ◌++◌, length, pos, slice_get, OnOk, OnErr, OnSome};
ghost use Rattle.std.specs.Option.{option_copied};

use nir_host::{OutOfMemory, Seq};
use std::alloc::Global;
use std::marker::Model;

/// Literals: k is variable k, and -k that it is false. None is 0. Contracts see the list of them.
#[derive(Debug, Drop)]
pub struct Lits {
    literals: Seq<i32>,
}

impl Model for Lits {
    ghost use Rattle.std.specs.Prelude.{List, ℤ};
    ghost use Rattle.clause_check.specs.Literals.{AreLiterals};

    ghost Value = { List ℤ };

    ghost view = { λ l. l.literals };

    ghost invariant = { λ l. AreLiterals l.literals };
}

impl Lits {
    ghost use Rattle.clause_check.specs.Literals.{AreLiterals};

    /// No literals. This takes no memory.
    pub fn new(alloc: Global) -> Lits
        ensures { result ≡ [] }
    {
        Lits {
            literals: Seq::new(alloc),
        }
    }

    /// Adds a literal at the end. After `OutOfMemory` the literals are as they were.
    pub fn push(&mut self, literal: i32) -> Result<(), OutOfMemory>
        requires { literal ≢ pos 0 }
        ensures ok { OnOk result (self.new ≡ self.old ++ literal ∷ []) }
        ensures err { OnErr result (self.new ≡ self.old) }
    {
        self.literals.push(literal)
    }

    pub fn len(&self) -> usize
        ensures { result ≡ length self.now }
    {
        self.literals.len()
    }

    /// The literal at a place, None past the end.
    pub fn get(&self, at: usize) -> Option<&i32>
        ensures value { option_copied result ≡ slice_get self.now at }
        ensures within { OnSome result (at < length self.now) }
    {
        self.literals.get(at)
    }

    pub fn as_slice(&self) -> &[i32]
        ensures value { result.now ≡ self.now }
        ensures literals { AreLiterals result.now }
    {
        self.literals.as_slice()
    }
}
