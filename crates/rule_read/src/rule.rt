//! Rules: a side that is sought, one that replaces it, and the options under which it does.

ghost use Rattle.std.specs.Prelude.{◌≡◌, ◌<◌, true, length};
ghost use Rattle.rule_term.specs.FormedTest.{sides_formed};
ghost use Rattle.grammar.specs.Grammar.{terminal};
ghost use Rattle.grammar.specs.Terminals.{AQuoted, TheMark};
ghost use Rattle.rule_spelling.specs.Files.{ARule};
ghost use Rattle.rule_spelling.specs.RuleFiles.{options, rule};
ghost use Rattle.rule_spelling.specs.Tokens.{formula_taken, rule_begun, rule_ended};
ghost use Rattle.formula_read.specs.Formulas.{when_says};
ghost use Rattle.term_read.specs.Gives.{Gives};
ghost use Rattle.rule_read.specs.Says.{rule_says};
ghost use Rattle.term_read.specs.Source.{reads};
ghost use Rattle.term_read.specs.Views.{source, term_says};

use formula_read::formula;
use rule_term::{Rule, Term, When};
use rule_variants::variant_count;
use std::alloc::Global;
use term_read::{Place, Reader, RuleFault, app, expr, unquoted};

/// How many rules a file may have.
const MOST_RULES: u32 = 4_096;

/// How many variants all rules of a file may have together.
const MOST_VARIANTS: u64 = 65_536;

/// A rule.
pub fn rule<'a>(alloc: Global, reader: &mut Reader<'a>) -> Result<Rule, RuleFault>
    ensures { Gives (λ x. (ARule (rule_says x), source reader.new)) result (reads rule (source reader.old)) }
{
    begin(reader)?;
    let search = app(alloc, Place::Search, reader)?;
    reader.side(b',')?;
    let replace = expr(alloc, Place::Replace, reader)?;
    let when = options(alloc, reader)?;
    let rule = ended(search, replace, when, reader)?;
    Ok(rule)
}

/// The `(` of a rule, of which a file has at most 4,096.
#[tactic(auto, unfolding(rule_spelling::specs::Tokens::rule_begun))]
fn begin<'a>(reader: &mut Reader<'a>) -> Result<(), RuleFault>
    ensures { Gives (λ x. (x, source reader.new)) result (reads (terminal (TheMark 40) rule_begun) (source reader.old)) }
{
    let at = reader.point;
    if !at.is_mark(b'(') {
        return Err(at.expected());
    }
    if reader.state.rules() >= MOST_RULES {
        return Err(RuleFault::TooLarge(at.place()));
    }
    reader.state.begin_rule();
    reader.point = at.next();
    Ok(())
}

/// The options of a rule, each part of which may be absent.
#[tactic(auto, using(crate::proofs::Options::always_says))]
fn options<'a>(alloc: Global, reader: &mut Reader<'a>) -> Result<When, RuleFault>
    ensures { Gives (λ x. (when_says x, source reader.new)) result (reads options (source reader.old)) }
{
    if !reader.point.is_mark(b',') {
        return Ok(When::Always);
    }
    reader.mark(b',')?;
    if !reader.point.is_quoted() {
        return Ok(When::Always);
    }
    let when = formula_here(alloc, reader)?;
    reader.maybe_comma()?;
    Ok(when)
}

/// A formula over options.
#[tactic(auto, unfolding(rule_spelling::specs::Tokens::formula_taken))]
fn formula_here<'a>(alloc: Global, reader: &mut Reader<'a>) -> Result<When, RuleFault>
    ensures { Gives (λ x. (when_says x, source reader.new)) result (reads (terminal AQuoted formula_taken) (source reader.old)) }
{
    let at = reader.point;
    if !at.is_quoted() {
        return Err(at.expected());
    }
    match formula(alloc, unquoted(at.bytes()))? {
        Some(when) => {
            reader.point = at.next();
            Ok(when)
        }
        None => Err(RuleFault::BadOption(at.place())),
    }
}

/// The `)` of a rule whose sides are formed. All rules have at most 65,536 variants together.
#[tactic(auto, unfolding(rule_spelling::specs::Tokens::rule_ended))]
fn ended<'a>(
    search: Term,
    replace: Term,
    when: When,
    reader: &mut Reader<'a>,
) -> Result<Rule, RuleFault>
    requires formed { sides_formed (length reader.old.state.names) (term_says search) (term_says replace) ≡ true }
    requires few { reader.old.state.rules < 4096 }
    ensures { Gives (λ x. (ARule (rule_says x), source reader.new)) result (reads (terminal (TheMark 41) (rule_ended (term_says search) (term_says replace) (when_says when))) (source reader.old)) }
{
    let at = reader.point;
    if !at.is_mark(b')') {
        return Err(at.expected());
    }
    let rule = formed_rule(
        reader.state.rules(),
        search,
        replace,
        when,
        reader.state.vars(),
    );
    let variants = variant_count(&rule);
    if u64::from(reader.state.variants()) + u64::from(variants) > MOST_VARIANTS {
        return Err(RuleFault::TooLarge(at.place()));
    }
    reader.state.end_rule(variants);
    reader.point = at.next();
    Ok(rule)
}

/// The rule of sides that are formed.
fn formed_rule(number: u32, search: Term, replace: Term, when: When, vars: u32) -> Rule
    requires { sides_formed vars (term_says search) (term_says replace) ≡ true }
    ensures { result ≡ record { number = number; search = term_says search; replace = term_says replace; when = when; vars = vars } }
{
    match Rule::new(number, search, replace, when, vars) {
        Some(rule) => rule,
        None => unreachable!(),
    }
}
