//! How many variants a rule has.

ghost use Rattle.std.specs.Prelude.{◌≡◌, ◌-◌, [], ◌∷◌};
ghost use Rattle.rule_term.specs.Terms.{terms_of};
ghost use Rattle.rule_term.specs.Variants.{commutes, variant_count};

use crate::bits::is_commutative;
use rule_term::{Rule, Term};

// Commutative opcodes are counted as what they leave of 8: each takes one away, as long as there is one.

/// What a term leaves.
#[cycle(commutes)]
fn without_term(term: &Term, left: u32) -> u32
    ensures { result ≡ left - commutes (terms_of (term.now ∷ [])) }
{
    match term {
        Term::Var { .. } => left,
        Term::Lit { .. } => left,
        Term::App { op, args, .. } => {
            if is_commutative(*op) {
                return without_terms(args.as_slice(), left.saturating_sub(1));
            }
            without_terms(args.as_slice(), left)
        }
    }
}

/// What terms leave.
#[cycle(commutes)]
fn without_terms(terms: &[Term], left: u32) -> u32
    ensures { result ≡ left - commutes (terms_of terms.now) }
{
    let mut left = left;
    for term in terms {
        left = without_term(term, left);
    }
    left
}

/// How many variants a rule has: 2 to the number of the commutative opcodes of its search side, of which at most 8 count.
pub fn variant_count(rule: &Rule) -> u32
    ensures { result ≡ variant_count rule.now }
{
    1 << (8 - without_term(&rule.search, 8))
}
