//! Which literals are false.

ghost use Rattle.std.specs.Prelude.{◌≡◌, ◌<◌, ◌≤◌, ◌^◌, ℕ, false, [], ◌∷◌, ◌++◌, length, OnOk};
ghost use Rattle.std.proofs.Common.{get_or};
ghost use Rattle.std.proofs.Math.IntN.{neg_ℤ};
ghost use Rattle.clause_check.specs.Logs.{is_among};
ghost use Rattle.clause_check.specs.Marked.{place_of};

use nir_host::{OutOfMemory, Seq};
use std::alloc::Global;
use std::marker::Model;

/// The literals that are false, of which contracts see the list. A flag stands for each of them, at its place; the list of places tells which
/// flags are to be taken back.
#[derive(Debug, Drop)]
pub(crate) struct Marks {
    flags: Seq<bool>,
    places: Seq<usize>,
}

impl Model for Marks {
    ghost use Rattle.std.specs.Prelude.{List, ℤ};
    ghost use Rattle.clause_check.specs.Marked.{AreMarked, literals_of};

    ghost Value = { List ℤ };

    ghost view = { λ m. literals_of m.places };

    ghost invariant = { λ m. AreMarked m.flags m.places };
}

impl Marks {
    /// No literal is false. This takes no memory.
    pub(crate) fn new(alloc: Global) -> Marks
        ensures { result ≡ [] }
    {
        Marks {
            flags: Seq::new(alloc),
            places: Seq::new(alloc),
        }
    }

    pub(crate) fn is_false(&self, literal: i32) -> bool
        ensures { result ≡ is_among literal self.now }
    {
        self.has(i64::from(literal))
    }

    /// Whether the negation of the literal is false.
    pub(crate) fn is_true(&self, literal: i32) -> bool
        ensures { result ≡ is_among (neg_ℤ literal) self.now }
    {
        self.has(-i64::from(literal))
    }

    #[tactic(auto, using(crate::proofs::MarkedLemmas::not_flagged))]
    fn has(&self, literal: i64) -> bool
        requires { place_of literal < 2 ^ 64 }
        ensures { result ≡ is_among literal self.now }
    {
        match self.flags.get(place_of(literal)) {
            Some(flag) => *flag,
            None => false,
        }
    }

    /// One more literal is false.
    pub(crate) fn set_false(&mut self, literal: i32) -> Result<(), OutOfMemory>
        ensures { OnOk result (self.new ≡ self.old ++ literal ∷ []) }
    {
        self.add(i64::from(literal))
    }

    /// One more literal is true: its negation is false.
    pub(crate) fn set_true(&mut self, literal: i32) -> Result<(), OutOfMemory>
        ensures { OnOk result (self.new ≡ self.old ++ neg_ℤ literal ∷ []) }
    {
        self.add(-i64::from(literal))
    }

    #[tactic(auto, using(crate::proofs::MarkedLemmas::marked_more, crate::proofs::MarkedLemmas::literals_added))]
    fn add(&mut self, literal: i64) -> Result<(), OutOfMemory>
        requires { place_of literal < 2 ^ 40 }
        ensures { OnOk result (self.new ≡ self.old ++ literal ∷ []) }
    {
        let place = place_of(literal);
        grow(&mut self.flags, place + 1)?;
        self.places.push(place)?;
        *self.flags.at_mut(place) = true;
        Ok(())
    }

    /// No literal is false any more. It takes time for each that was.
    #[tactic(auto, using(crate::proofs::MarkedLemmas::backed_last, crate::proofs::MarkedLemmas::backed_of, crate::proofs::MarkedLemmas::marked_none))]
    pub(crate) fn clear(&mut self)
        ensures { self.new ≡ [] }
    {
        'places: while let Some(place) = self.places.pop() {
            *self.flags.at_mut(place) = false;
        }
    }
}

/// The place of the flag of a literal.
fn place_of(literal: i64) -> usize
    requires { place_of literal < 2 ^ 64 }
    ensures { result ≡ place_of literal }
{
    if literal < 0 {
        return (-(literal + 1)) as usize * 2 + 1;
    }
    literal as usize * 2
}

/// At least so many flags. Those that are new are not set.
fn grow(flags: &mut Seq<bool>, count: usize) -> Result<(), OutOfMemory>
    ensures same { (place : ℕ) → get_or flags.new place false ≡ get_or flags.old place false }
    ensures more { length flags.old ≤ length flags.new }
    ensures enough { OnOk result (count ≤ length flags.new) }
{
    'flags: while flags.len() < count {
        flags.push(false)?;
    }
    Ok(())
}
