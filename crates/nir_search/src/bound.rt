//! What the variables of a rule are bound to while a match goes on.

ghost use Rattle.std.specs.Prelude.{◌≡◌, ◌≤◌, None, Some, length, replicate, if◌then◌else◌};
ghost use Rattle.nir_search.specs.Match.{all_bound, bind};

use crate::hit::{Bind, Subst};
use crate::view::{copy_of, same_view};
use arrayvec::ArrayVec;
use std::marker::Model;

/// A slot for each variable, by its number. Contracts see the list.
#[derive(Drop)]
pub struct Bound {
    slots: ArrayVec<Option<Bind>, 16>,
}

impl Model for Bound {
    ghost use Rattle.std.specs.Prelude.{List, Option};
    ghost use Rattle.nir_search.specs.declared.hit.Bind.{Bind};

    ghost Value = { List (Option Bind) };

    ghost view = { λ b. b.slots.items };
}

impl Bound {
    /// So many variables, at most 16, of which none is bound.
    pub fn new(vars: u32) -> Bound
        requires { vars ≤ 16 }
        ensures { result ≡ replicate vars None }
    {
        let mut slots = ArrayVec::new();
        for _var in 0..vars {
            slots.push(None);
        }
        Bound { slots }
    }

    /// Binds a variable to a view, or finds that it is bound to it. False where it is bound to another view, or is none.
    #[tactic(auto, using(crate::proofs::MatchLemmas::refill_whole))]
    pub fn bind(&mut self, var: u32, view: Bind) -> bool
        ensures { bind var view self.old ≡ (if result then Some self.new else None) }
    {
        let var = var as usize;
        match self.slots.as_slice().get(var) {
            None => false,
            Some(Some(old)) => same_view(old, &view),
            Some(None) => {
                self.slots.as_mut_slice()[var] = Some(view);
                true
            }
        }
    }

    /// The views of the variables, in the order of their numbers; those that are not bound are left out.
    pub fn subst(&self) -> Subst
        ensures { result ≡ all_bound self.now }
    {
        let mut binds = ArrayVec::new();
        for slot in self.slots.as_slice() {
            if let Some(view) = slot {
                binds.push(copy_of(view));
            }
        }
        Subst::from_array_vec(binds)
    }
}
