//! A rule: what it finds, and what replaces it.

use crate::term::Term;
use crate::when::When;
use std::marker::Model;

/// A search side and a replacement over the same variables. Its type keeps that it is formed
/// (`specs/Formed.antt`). `number` is its place in its file, and `vars` the number of its variables, which
/// are numbered from 0 in the order in which they first stand on the search side.
#[derive(Debug, Drop)]
pub struct Rule {
    pub number: u32,
    pub search: Term,
    pub replace: Term,
    pub when: When,
    pub vars: u32,
}

impl Model for Rule {
    ghost use Rattle.rule_term.specs.Rule.{Rule as Whole, rule_code};

    ghost Value = { Whole };

    ghost coded = { rule_code };

    ghost use Rattle.rule_term.specs.Terms.{terms_of};
    ghost use Rattle.rule_term.specs.Formed.{IsFormed};
    ghost use Rattle.std.specs.Prelude.{[], ◌∷◌};

    ghost view = { λ r. record { number = r.number; search = terms_of (r.search ∷ []); replace = terms_of (r.replace ∷ []); when = r.when; vars = r.vars } };

    ghost invariant = { λ r. IsFormed (record { number = r.number; search = terms_of (r.search ∷ []); replace = terms_of (r.replace ∷ []); when = r.when; vars = r.vars }) };
}
