//! The sizes of replacements, worked out by hand.

ghost use Rattle.std.specs.Prelude.{◌≡◌, [], ◌∷◌, IfSome};
ghost use Rattle.rule_term.specs.Terms.{terms_of};
ghost use Rattle.rule_term.specs.Typings.{size_of};

use nir_ops::Width::{self, W1, W8, W16, W32, W64};
use rule_read::read_rules;
use rule_term::{Rule, Term, replace_widths};
use std::alloc::Global;
use std::process::Abort;
use std::test::Fail;

/// A text of one rule, sizes of its search side, and those of the replacement; none where there are no such.
type Row = (&'static str, &'static [Width], &'static [Width]);

static ROWS: [Row; 20] = [
    // All nodes have one size, of more than one bit.
    (SUM, &[W16; 5], &[W16; 5]),
    (SUM, &[W64; 5], &[W64; 5]),
    (SUM, &[W1; 5], &[]),
    (SUM, &[W16, W16, W16, W16, W8], &[]),
    // A variable has its size.
    (NARROWED, &[W8, W32, W16], &[W8, W16]),
    (NARROWED, &[W8, W32, W64], &[W8, W64]),
    (NARROWED, &[W8, W16, W16], &[]),
    (NARROWED, &[W8, W32, W1], &[]),
    // A variable has one size.
    (WIDENED, &[W32, W32, W8, W32, W8], &[W32, W8]),
    (WIDENED, &[W32, W32, W8, W32, W16], &[]),
    // A free size is the least.
    ("[((ult, a, 0), (ieq, 1, 0))]", &[W1, W64, W64], &[W1; 3]),
    (
        "[((ult, a, 0), (ieq, 2, 0))]",
        &[W1, W64, W64],
        &[W1, W8, W8],
    ),
    ("[((ult, a, 0), (ieq, -1, 0))]", &[W1, W64, W64], &[W1; 3]),
    (
        "[((ult, a, 0), (ieq, -128, 0))]",
        &[W1, W64, W64],
        &[W1, W8, W8],
    ),
    (
        "[((ult, a, 0), (ieq, 300, 0))]",
        &[W1, W64, W64],
        &[W1, W16, W16],
    ),
    (
        "[((ult, a, 0), (ieq, 65536, 0))]",
        &[W1, W64, W64],
        &[W1, W32, W32],
    ),
    // A number has to fit.
    (FROM_300, &[W8, W8], &[]),
    (FROM_300, &[W16, W16], &[W16; 3]),
    (NEGATED_BYTE, &[W8, W8], &[W8; 2]),
    (NEGATED_BYTE, &[W16, W16], &[]),
];

const SUM: &str = "[((isub, (iadd, a, -1), b), (iadd, (isub, a, b), -1))]";

const NARROWED: &str = "[((u2u8, (u2u32, a)), (u2u8, a))]";

const WIDENED: &str = "[((iand, (u2u32, a), (u2u32, a)), (u2u32, a))]";

const FROM_300: &str = "[((ineg, a), (isub, 300, a))]";

const NEGATED_BYTE: &str = "[((ineg, 'a@8'), (ineg, a))]";

#[test]
fn replacements_have_their_sizes(rt: HostRuntime) -> Result<(), Fail> {
    for &(text, search, sizes) in &ROWS {
        let file = read_rules(rt.alloc(), text.as_bytes())?;
        let entry = file.entries.get(0).ok_or("a rule")?;
        expect_sizes(&rt, &entry.rule, search, sizes);
    }
    Ok(())
}

/// The sizes of the replacement are these where the search side has those; no sizes where there are none.
fn expect_sizes(rt: &impl Abort, rule: &Rule, search: &[Width], sizes: &[Width]) {
    let nodes = nodes_in(&rule.search);
    assert!(rt; nodes == Some(search.len()), "a size for each node");
    match replace_widths(rule, search) {
        Some(widths) => assert!(rt; widths.as_slice() == sizes, "{sizes:?}"),
        None => assert!(rt; sizes.is_empty(), "none for {sizes:?}"),
    }
}

/// How many nodes the term has, where a number of 64 bits can say it.
#[cycle(nodes)]
#[tactic(auto, using(crate::proofs::NodesLemmas::size_steps))]
fn nodes_in(term: &Term) -> Option<usize>
    ensures { IfSome result (λ count. count ≡ size_of (terms_of (term.now ∷ []))) }
{
    match term {
        Term::Var { .. } => Some(1),
        Term::Lit { .. } => Some(1),
        Term::App { args, .. } => nodes_in_list(args.as_slice())?.checked_add(1),
    }
}

/// How many nodes the terms have together.
#[cycle(nodes)]
#[tactic(auto, using(crate::proofs::NodesLemmas::size_steps))]
fn nodes_in_list(terms: &[Term]) -> Option<usize>
    ensures { IfSome result (λ count. count ≡ size_of (terms_of terms.now)) }
{
    let mut count = 0usize;
    for term in terms {
        count = count.checked_add(nodes_in(term)?)?;
    }
    Some(count)
}
