//! How many nodes a term has.

ghost use Rattle.std.specs.Prelude.{◌≡◌, ◌<◌, ◌^◌, [], ◌∷◌};
ghost use Rattle.rule_term.specs.Terms.{terms_of};
ghost use Rattle.rule_term.specs.Typings.{size_of};

use crate::term::Term;

/// How many nodes the term has, which a number of 64 bits can say.
#[cycle(nodes)]
#[tactic(auto, using(crate::proofs::NodesLemmas::size_steps))]
pub fn nodes_in(term: &Term) -> usize
    requires small { size_of (terms_of (term.now ∷ [])) < 2 ^ 64 }
    ensures count { result ≡ size_of (terms_of (term.now ∷ [])) }
{
    match term {
        Term::Var { .. } => 1,
        Term::Lit { .. } => 1,
        Term::App { args, .. } => nodes_in_list(args.as_slice()) + 1,
    }
}

/// How many nodes the terms have together.
#[cycle(nodes)]
#[tactic(auto, using(crate::proofs::NodesLemmas::size_steps))]
fn nodes_in_list(terms: &[Term]) -> usize
    requires small { size_of (terms_of terms.now) < 2 ^ 64 }
    ensures count { result ≡ size_of (terms_of terms.now) }
{
    let mut count = 0;
    for term in terms {
        count += nodes_in(term);
    }
    count
}
