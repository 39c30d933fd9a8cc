//! Whether the rules of a table make a shader lighter.

ghost use Rattle.std.specs.Prelude.{◌≡◌, ◌<◌, ◌^◌, ◌↔◌, [], ◌∷◌, true};
ghost use Rattle.rule_term.specs.Descending.{terms_weight, root_weight, descends, is_descending, IsDescending};
ghost use Rattle.rule_term.specs.Table.{op_weight};
ghost use Rattle.rule_term.specs.Terms.{terms_of};

use crate::rule::Rule;
use crate::table::Table;
use crate::term::Term;

impl Table {
    /// Whether each use of a rule makes a shader lighter: for each rule, the root of the search side weighs more
    /// than all opcodes of the replacement together. It takes no memory.
    pub fn descending(&self) -> bool
        ensures value { result ≡ is_descending self.now }
        ensures meant { result ≡ true ↔ IsDescending self.now }
    {
        for place in 0..self.len() {
            if !descends(self, self.rule(place as u32)) {
                return false;
            }
        }
        true
    }
}

fn descends(table: &Table, rule: &Rule) -> bool
    ensures { result ≡ descends (op_weight table.now) rule.now }
{
    table.weights_are_few();
    term_weight(table, &rule.replace) < root_weight(table, &rule.search)
}

#[tactic(auto, using(crate::proofs::DescendingLemmas::root_steps))]
fn root_weight(table: &Table, term: &Term) -> u64
    ensures { result ≡ root_weight (op_weight table.now) (terms_of (term.now ∷ [])) }
{
    match term {
        Term::Var { .. } => 0,
        Term::Lit { .. } => 0,
        Term::App { op, .. } => u64::from(table.weight(*op)),
    }
}

/// The weights of the term's opcodes together, which a number of 64 bits can say.
#[cycle(weight)]
#[tactic(auto, using(crate::proofs::DescendingLemmas::weight_steps))]
fn term_weight(table: &Table, term: &Term) -> u64
    requires small { terms_weight (op_weight table.now) (terms_of (term.now ∷ [])) < 2 ^ 64 }
    ensures weight { result ≡ terms_weight (op_weight table.now) (terms_of (term.now ∷ [])) }
{
    match term {
        Term::Var { .. } => 0,
        Term::Lit { .. } => 0,
        Term::App { op, args, .. } => {
            let inner = terms_weight(table, args.as_slice());
            u64::from(table.weight(*op)) + inner
        }
    }
}

/// The weights of all opcodes of the terms together.
#[cycle(weight)]
#[tactic(auto, using(crate::proofs::DescendingLemmas::weight_steps))]
fn terms_weight(table: &Table, terms: &[Term]) -> u64
    requires small { terms_weight (op_weight table.now) (terms_of terms.now) < 2 ^ 64 }
    ensures weight { result ≡ terms_weight (op_weight table.now) (terms_of terms.now) }
{
    let mut sum = 0;
    for term in terms {
        sum += term_weight(table, term);
    }
    sum
}
