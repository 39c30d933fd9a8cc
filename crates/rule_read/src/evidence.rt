//! Lines of evidence: for which typing, and how it is shown that the rule holds there.

ghost use Rattle.std.specs.Prelude.{◌≡◌, codes};
ghost use Rattle.grammar.specs.Grammar.{terminal};
ghost use Rattle.grammar.specs.Terminals.{TheWord};
ghost use Rattle.rule_spelling.specs.Files.{ALine};
ghost use Rattle.rule_spelling.specs.RuleFiles.{evidence, log_step, proof};
ghost use Rattle.rule_spelling.specs.Tokens.{evidence_begun};
ghost use Rattle.rule_read.specs.Evidence.{typing};
ghost use Rattle.rule_read.specs.Says.{line_says, log_step_says, proof_says};
ghost use Rattle.term_read.specs.Gives.{Gives};
ghost use Rattle.term_read.specs.Source.{reads};
ghost use Rattle.term_read.specs.Views.{source};

use crate::entry::{Line, Proof};
use crate::list::{Listed, in_brackets};
use crate::number::index;
use clause_check::{Log, LogStep};
use std::alloc::Global;
use term_read::{Point, Reader, RuleFault};

/// A clause of a log, and the numbers of those from which it follows.
fn log_step<'a>(alloc: Global, reader: &mut Reader<'a>) -> Result<LogStep, RuleFault>
    ensures { Gives (λ x. (log_step_says x, source reader.new)) result (reads log_step (source reader.old)) }
{
    reader.mark(b'(')?;
    let clause = in_brackets(alloc, reader)?;
    reader.mark(b',')?;
    let hints = in_brackets(alloc, reader)?;
    reader.mark(b')')?;
    Ok(LogStep { clause, hints })
}

impl Listed for Log {
    ghost use Rattle.std.specs.Prelude.{map};
    ghost use Rattle.grammar.specs.Terminals.{TheMark};
    ghost use Rattle.rule_spelling.specs.Files.{LogStep as Said};
    ghost use Rattle.rule_spelling.specs.RuleFiles.{log_step};
    ghost use Rattle.rule_read.specs.Says.{log_step_says};

    ghost Item = { Said };

    ghost class = { TheMark 40 };

    ghost grammar = { log_step };

    ghost says = { λ list. map log_step_says list };

    fn none(alloc: Global) -> Log {
        Log::new(alloc)
    }

    fn begins(at: &Point<'_>) -> bool {
        at.is_mark(b'(')
    }

    fn read_another<'a>(
        &mut self,
        alloc: Global,
        reader: &mut Reader<'a>,
    ) -> Result<(), RuleFault> {
        let step = log_step(alloc, reader)?;
        self.push(step)?;
        Ok(())
    }
}

/// How it is shown that the rule holds.
fn proof<'a>(alloc: Global, reader: &mut Reader<'a>) -> Result<Proof, RuleFault>
    ensures { Gives (λ x. (proof_says x, source reader.new)) result (reads proof (source reader.old)) }
{
    if reader.point.is_word(b"cases") {
        reader.word(b"cases")?;
        return Ok(Proof::Cases);
    }
    if reader.point.is_word(b"derive") {
        reader.word(b"derive")?;
        let steps = in_brackets(alloc, reader)?;
        return Ok(Proof::Derive(steps));
    }
    reader.word(b"log")?;
    let steps = in_brackets(alloc, reader)?;
    Ok(Proof::Logged(steps))
}

/// The word before evidence, which belongs to the rule before it.
#[tactic(auto, unfolding(rule_spelling::specs::Tokens::evidence_begun))]
fn begin<'a>(reader: &mut Reader<'a>) -> Result<(), RuleFault>
    ensures { Gives (λ x. (x, source reader.new)) result (reads (terminal (TheWord (codes "by")) evidence_begun) (source reader.old)) }
{
    let at = reader.point;
    if !at.is_word(b"by") {
        return Err(at.expected());
    }
    if reader.state.rules() == 0 {
        return Err(at.expected());
    }
    reader.point = at.next();
    Ok(())
}

/// The typing for which the line is: all, or that of a number.
fn typing<'a>(reader: &mut Reader<'a>) -> Result<Option<u32>, RuleFault>
    ensures { Gives (λ x. (x, source reader.new)) result (reads typing (source reader.old)) }
{
    if reader.point.is_mark(b'*') {
        reader.mark(b'*')?;
        return Ok(None);
    }
    let number = index(reader)?;
    Ok(Some(number))
}

/// A line of evidence.
pub fn evidence<'a>(alloc: Global, reader: &mut Reader<'a>) -> Result<Line, RuleFault>
    ensures { Gives (λ x. (ALine (line_says x), source reader.new)) result (reads evidence (source reader.old)) }
{
    begin(reader)?;
    let typing = typing(reader)?;
    let proof = proof(alloc, reader)?;
    Ok(Line { typing, proof })
}
