//! Terms: opcodes over their sources, variables and literals.

ghost use Rattle.std.specs.Prelude.{◌≡◌, false, length, map, [], ◌∷◌, ◌||◌};
ghost use Rattle.std.specs.Option.{option_map};
ghost use Rattle.nir_lex.specs.Kinds.{is_end};
ghost use Rattle.nir_lex.specs.declared.token.TokenKind.TheVariants.{Number};
ghost use Rattle.nir_ops.specs.Lookup.{op_named};
ghost use Rattle.rule_term.specs.Formed.{may_stand};
ghost use Rattle.grammar.specs.Terminals.{has, is_among, starts, TheMark, WordBut, AQuoted};
ghost use Rattle.grammar.specs.Grammar.{terminal, named};
ghost use Rattle.grammar.specs.Words.{each_behind_comma_then_maybe_one};
ghost use Rattle.rule_spelling.specs.RuleFiles.{rule_files, app, op, truths, expr_firsts};
ghost use Rattle.rule_spelling.specs.Tokens.{Search, named_op, named_var, variable, var_taken, number_taken, closed, may_ask, is_once, is_plain};
ghost use Rattle.term_read.specs.Gives.{Gives};
ghost use Rattle.term_read.specs.Parts.{leaf, truth, sought_source};
ghost use Rattle.term_read.specs.Source.{reads, takes, told_at};
ghost use Rattle.term_read.specs.Views.{annotated, head_says, here, place_of, source, term_says, terminals};

use crate::annotated::{Annotated, said};
use crate::fault::RuleFault;
use crate::point::Point;
use crate::reader::Reader;
use crate::state::State;
use nir_lex::TokenKind;
use nir_ops::{Op, Width, info, op_by_bytes};
use op_eval::{Shape, shape_on_lists};
use rule_term::{Cond, Term, Terms};
use std::alloc::Global;

/// Where a term stands.
#[derive(Clone, Copy, Debug, PartialEq, Eq)]
pub enum Place {
    Search,
    Replace,
    Evidence,
}

/// An opcode with what is asked of it: the size of its result, and that the result has one use.
#[derive(Clone, Copy)]
pub struct Head {
    op: Op,
    size: Option<Width>,
    once: bool,
}

/// Whether one use is asked for.
fn is_once(cond: Option<Cond>) -> bool
    ensures { result ≡ is_once cond }
{
    match cond {
        Some(Cond::UsedOnce) => true,
        None
        | Some(
            Cond::PosPow2
            | Cond::NegPow2
            | Cond::MultipleOf4
            | Cond::UpperHalfZero
            | Cond::LowerHalfZero
            | Cond::NotConst,
        ) => false,
    }
}

/// Whether an opcode there may ask for this: one use at most, on the search side.
fn may_ask(place: Place, word: &Annotated<'_>) -> bool
    ensures { result ≡ may_ask (place_of place) (annotated word.now) }
{
    if word.constant {
        return false;
    }
    if word.cond.is_none() {
        return true;
    }
    match place {
        Place::Search => is_once(word.cond),
        Place::Replace | Place::Evidence => false,
    }
}

/// The opcode that a word names, which is counted.
fn named_op(
    place: Place,
    word: &Annotated<'_>,
    at: &Point<'_>,
    state: &mut State<'_>,
) -> Result<Head, RuleFault>
    ensures { Gives (λ x. (head_says x, state.new)) result (told_at at.now.text.now (terminals at.now) (named_op (place_of place) state.old (annotated word.now) (op_named word.now.name.now))) }
{
    let Some(op) = op_by_bytes(word.name) else {
        if may_ask(place, word) {
            return Err(RuleFault::UnknownOp(at.place()));
        }
        return Err(at.expected());
    };
    if !may_stand(op) {
        return Err(RuleFault::Excluded(at.place()));
    }
    if !may_ask(place, word) {
        return Err(at.expected());
    }
    if state.ops() >= 16 {
        return Err(RuleFault::TooLarge(at.place()));
    }
    state.count_op();
    Ok(Head {
        op,
        size: word.size,
        once: is_once(word.cond),
    })
}

/// An opcode that may stand in a rule: it works place by place, and is no move.
#[tactic(auto, unfolding(rule_term::specs::Formed::may_stand))]
fn may_stand(op: Op) -> bool
    ensures { result ≡ may_stand op }
{
    if let Op::Mov = op {
        return false;
    }
    match shape_on_lists(op) {
        Shape::EachPlace => true,
        Shape::Gathers | Shape::AllEqual | Shape::SomeDiffer => false,
    }
}

/// An opcode: a word or a quoted text.
#[tactic(auto, using(crate::proofs::Terms::op_reads), unfolding(rule_spelling::specs::Tokens::op_taken))]
fn opcode<'a>(place: Place, reader: &mut Reader<'a>) -> Result<Head, RuleFault>
    ensures { Gives (λ x. (head_says x, source reader.new)) result (reads (op (place_of place)) (source reader.old)) }
{
    let at = reader.point;
    if !is_word_or_quoted(&at) {
        return Err(at.expected());
    }
    let word = said(&at)?;
    let head = named_op(place, &word, &at, &mut reader.state)?;
    reader.point = at.next();
    Ok(head)
}

/// Whether a word or a quoted text stands here.
fn is_word_or_quoted(at: &Point<'_>) -> bool
    ensures { result ≡ (has (WordBut []) (here at.now) || has AQuoted (here at.now)) }
{
    match at.kind() {
        TokenKind::Word | TokenKind::Quoted => true,
        TokenKind::Number { .. } | TokenKind::Name | TokenKind::Punct { .. } | TokenKind::End => {
            false
        }
    }
}

/// A variable of this name. On the search side it takes the next number where it first stands; elsewhere
/// it has one, and nothing is asked of it.
#[tactic(auto, using(crate::proofs::Terms::term_steps))]
fn named_variable<'a>(
    place: Place,
    word: &Annotated<'a>,
    at: &Point<'a>,
    state: &mut State<'a>,
) -> Result<Term, RuleFault>
    ensures { Gives (λ x. (term_says x, state.new)) result (told_at at.now.text.now (terminals at.now) (named_var (place_of place) state.old (annotated word.now))) }
{
    match place {
        Place::Search => numbered_variable(word, at, state),
        Place::Replace | Place::Evidence => {
            if !is_plain(word) {
                return Err(at.expected());
            }
            let Some(var) = state.place(word.name) else {
                return Err(RuleFault::Unbound(at.place()));
            };
            Ok(variable_of(word, var))
        }
    }
}

/// Whether nothing is asked of the variable.
fn is_plain(word: &Annotated<'_>) -> bool
    ensures { result ≡ is_plain (annotated word.now) }
{
    if word.constant {
        return false;
    }
    if word.size.is_some() {
        return false;
    }
    word.cond.is_none()
}

#[tactic(auto, using(crate::proofs::Terms::term_steps))]
fn variable_of(word: &Annotated<'_>, var: u32) -> Term
    ensures { term_says result ≡ variable (annotated word.now) var }
{
    Term::Var {
        var,
        constant: word.constant,
        size: word.size,
        cond: word.cond,
    }
}

fn numbered_variable<'a>(
    word: &Annotated<'a>,
    at: &Point<'a>,
    state: &mut State<'a>,
) -> Result<Term, RuleFault>
    ensures { Gives (λ x. (term_says x, state.new)) result (told_at at.now.text.now (terminals at.now) (named_var Search state.old (annotated word.now))) }
{
    if let Some(var) = state.place(word.name) {
        return Ok(variable_of(word, var));
    }
    let var = state.vars();
    if var >= 16 {
        return Err(RuleFault::TooLarge(at.place()));
    }
    state.add_name(word.name)?;
    Ok(variable_of(word, var))
}

/// A variable, where a word or a quoted text stands.
#[tactic(auto, unfolding(rule_spelling::specs::Tokens::var_taken))]
fn variable<'a>(place: Place, reader: &mut Reader<'a>) -> Result<Term, RuleFault>
    requires { is_end (here reader.old.point).kind ≡ false }
    ensures { Gives (λ x. (term_says x, source reader.new)) result (takes (var_taken (place_of place)) (source reader.old)) }
{
    let at = reader.point;
    let word = said(&at)?;
    let term = named_variable(place, &word, &at, &mut reader.state)?;
    reader.point = at.next();
    Ok(term)
}

/// A number from -2^63 to 2^64 - 1.
#[tactic(auto, using(crate::proofs::Terms::term_steps), unfolding(rule_spelling::specs::Tokens::number_taken))]
fn number<'a>(reader: &mut Reader<'a>, value: i128) -> Result<Term, RuleFault>
    requires { (here reader.old.point).kind ≡ Number value }
    ensures { Gives (λ x. (term_says x, source reader.new)) result (takes number_taken (source reader.old)) }
{
    let at = reader.point;
    if value < -(1 << 63) {
        return Err(at.expected());
    }
    if value >= 1 << 64 {
        return Err(at.expected());
    }
    reader.point = at.next();
    Ok(Term::Lit {
        value,
        boolean: false,
    })
}

/// A truth value, where its word stands.
#[tactic(auto, using(crate::proofs::Terms::term_steps))]
fn truth_value<'a>(reader: &mut Reader<'a>) -> Result<Term, RuleFault>
    ensures { Gives (λ x. (term_says x, source reader.new)) result (reads truth (source reader.old)) }
{
    let at = reader.point;
    if at.is_word(b"True") {
        reader.point = at.next();
        return Ok(Term::Lit {
            value: 1,
            boolean: true,
        });
    }
    if at.is_word(b"False") {
        reader.point = at.next();
        return Ok(Term::Lit {
            value: 0,
            boolean: true,
        });
    }
    Err(at.expected())
}

/// A variable, a number or a truth value.
fn leaf<'a>(place: Place, reader: &mut Reader<'a>) -> Result<Term, RuleFault>
    ensures { Gives (λ x. (term_says x, source reader.new)) result (reads (leaf (place_of place)) (source reader.old)) }
{
    let at = reader.point;
    match at.kind() {
        TokenKind::Word => {
            if is_truth(at.bytes()) {
                return truth_value(reader);
            }
            variable(place, reader)
        }
        TokenKind::Quoted => variable(place, reader),
        TokenKind::Number { value } => number(reader, value),
        TokenKind::Name | TokenKind::Punct { .. } | TokenKind::End => Err(at.expected()),
    }
}

/// Whether the word is a truth value.
fn is_truth(word: &[u8]) -> bool
    ensures { result ≡ is_among word.now truths }
{
    if word == b"True".as_slice() {
        return true;
    }
    word == b"False".as_slice()
}

/// A term. On each side, and in each expression, at most 16 opcodes stand over one another.
#[cycle(terms)]
pub fn expr<'a>(alloc: Global, place: Place, reader: &mut Reader<'a>) -> Result<Term, RuleFault>
    ensures { Gives (λ x. (term_says x, source reader.new)) result (reads (named (place_of place)) (source reader.old)) }
{
    if reader.point.is_mark(b'(') {
        return app(alloc, place, reader);
    }
    leaf(place, reader)
}

/// An opcode over its sources.
#[cycle(terms)]
pub fn app<'a>(alloc: Global, place: Place, reader: &mut Reader<'a>) -> Result<Term, RuleFault>
    ensures { Gives (λ x. (term_says x, source reader.new)) result (reads (app (place_of place)) (source reader.old)) }
{
    reader.mark(b'(')?;
    let head = opcode(place, reader)?;
    let args = sources(alloc, place, reader)?;
    let term = closed(head, args, reader)?;
    Ok(term)
}

/// The sources of an opcode, each behind a comma.
#[cycle(terms)]
fn sources<'a>(alloc: Global, place: Place, reader: &mut Reader<'a>) -> Result<Terms, RuleFault>
    ensures { Gives (λ x. (map term_says x, source reader.new)) result (reads (each_behind_comma_then_maybe_one rule_files (named (place_of place))) (source reader.old)) }
{
    let mut list = Terms::new(alloc);
    'sources: while reader.point.is_mark(b',') {
        let source = source_at(alloc, place, reader)?;
        match source {
            Some(term) => list.push(term)?,
            None => return Ok(list),
        }
    }
    Ok(list)
}

/// A source behind its comma, or none behind the last comma.
#[cycle(terms)]
fn source_at<'a>(
    alloc: Global,
    place: Place,
    reader: &mut Reader<'a>,
) -> Result<Option<Term>, RuleFault>
    ensures { Gives (λ x. (option_map term_says x, source reader.new)) result (reads (sought_source (place_of place)) (source reader.old)) }
{
    reader.mark(b',')?;
    if !begins_expr(&reader.point) {
        return Ok(None);
    }
    let term = expr(alloc, place, reader)?;
    Ok(Some(term))
}

/// Whether a term begins here.
fn begins_expr(at: &Point<'_>) -> bool
    ensures { result ≡ starts expr_firsts (terminals at.now) }
{
    match at.kind() {
        TokenKind::Word | TokenKind::Quoted | TokenKind::Number { .. } => true,
        TokenKind::Punct { byte } => byte == b'(',
        TokenKind::Name | TokenKind::End => false,
    }
}

/// The `)` behind the sources of an opcode, which has as many as it takes.
#[tactic(auto, using(crate::proofs::Terms::term_steps), unfolding(rule_spelling::specs::Tokens::closed))]
fn closed<'a>(head: Head, args: Terms, reader: &mut Reader<'a>) -> Result<Term, RuleFault>
    ensures { Gives (λ x. (term_says x, source reader.new)) result (reads (terminal (TheMark 41) (closed (head_says head) (map term_says args))) (source reader.old)) }
{
    let at = reader.point;
    if !at.is_mark(b')') {
        return Err(at.expected());
    }
    if args.len() != info(head.op).inputs.len() {
        return Err(RuleFault::Arity(at.place()));
    }
    reader.point = at.next();
    Ok(Term::App {
        op: head.op,
        size: head.size,
        once: head.once,
        args,
    })
}
