//! Weights of opcodes.

ghost use Rattle.std.specs.Prelude.{◌≡◌, []};
ghost use Rattle.nir_lex.specs.declared.token.TokenKind.TheVariants.{Number};
ghost use Rattle.nir_ops.specs.Lookup.{op_named};
ghost use Rattle.rule_term.specs.Formed.{is_mov};
ghost use Rattle.grammar.specs.Grammar.{terminal};
ghost use Rattle.grammar.specs.Terminals.{ANumber, WordBut};
ghost use Rattle.rule_spelling.specs.Files.{AWeight};
ghost use Rattle.rule_spelling.specs.RuleFiles.{weight};
ghost use Rattle.rule_spelling.specs.Tokens.{weight_of, weight_taken, weighed_op, weighed_taken};
ghost use Rattle.term_read.specs.Gives.{Gives};
ghost use Rattle.term_read.specs.Source.{reads, takes, told_at};
ghost use Rattle.term_read.specs.Views.{here, source, terminals};

use crate::entry::WeightLine;
use nir_lex::TokenKind;
use nir_ops::{Op, op_by_bytes};
use term_read::{Point, Reader, RuleFault, State};

/// The greatest weight.
const MOST: i128 = 60;

/// A line that weighs an opcode.
pub fn weight<'a>(reader: &mut Reader<'a>) -> Result<WeightLine, RuleFault>
    ensures { Gives (λ x. (AWeight x.op x.weight, source reader.new)) result (reads weight (source reader.old)) }
{
    reader.word(b"weight")?;
    let op = weighed(reader)?;
    let weight = weight_here(reader)?;
    Ok(WeightLine { op, weight })
}

/// The opcode that is weighed.
#[tactic(auto, unfolding(rule_spelling::specs::Tokens::weighed_taken))]
fn weighed<'a>(reader: &mut Reader<'a>) -> Result<Op, RuleFault>
    ensures { Gives (λ x. (x, source reader.new)) result (reads (terminal (WordBut []) weighed_taken) (source reader.old)) }
{
    let at = reader.point;
    if !at.is_any_word() {
        return Err(at.expected());
    }
    let op = weighed_op(&at, &mut reader.state)?;
    reader.point = at.next();
    Ok(op)
}

/// The opcode of a word, which is weighed once, and is not mov.
fn weighed_op<'a>(at: &Point<'a>, state: &mut State<'a>) -> Result<Op, RuleFault>
    ensures { Gives (λ x. (x, state.new)) result (told_at at.now.text.now (terminals at.now) (weighed_op state.old (here at.now).text (op_named (here at.now).text))) }
{
    let name = at.bytes();
    let Some(op) = op_by_bytes(name) else {
        return Err(RuleFault::UnknownOp(at.place()));
    };
    if is_mov(op) {
        return Err(RuleFault::Weight(at.place()));
    }
    if state.is_weighed(name) {
        return Err(RuleFault::Weight(at.place()));
    }
    state.weigh(name)?;
    Ok(op)
}

fn is_mov(op: Op) -> bool
    ensures { result ≡ is_mov op }
{
    if let Op::Mov = op {
        return true;
    }
    false
}

/// A weight from 0 to 60.
fn weight_here<'a>(reader: &mut Reader<'a>) -> Result<u8, RuleFault>
    ensures { Gives (λ x. (x, source reader.new)) result (reads (terminal ANumber weight_taken) (source reader.old)) }
{
    let at = reader.point;
    match at.kind() {
        TokenKind::Number { value } => weight_number(reader, value),
        TokenKind::Word
        | TokenKind::Name
        | TokenKind::Quoted
        | TokenKind::Punct { .. }
        | TokenKind::End => Err(at.expected()),
    }
}

/// A weight, where this number stands.
#[tactic(auto, unfolding(rule_spelling::specs::Tokens::weight_taken))]
fn weight_number<'a>(reader: &mut Reader<'a>, value: i128) -> Result<u8, RuleFault>
    requires { (here reader.old.point).kind ≡ Number value }
    ensures { Gives (λ x. (x, source reader.new)) result (takes weight_taken (source reader.old)) }
{
    let at = reader.point;
    if value < 0 {
        return Err(RuleFault::Weight(at.place()));
    }
    if value > MOST {
        return Err(RuleFault::Weight(at.place()));
    }
    reader.point = at.next();
    Ok(value as u8)
}
