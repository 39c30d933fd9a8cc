//! The last shader of a run is printed.

ghost use Rattle.std.specs.Prelude.{◌≡◌, ◌++◌, ◌≤◌, ℕ, List, [], IfOk, Ok, if◌then◌else◌};
ghost use Rattle.nir_search.specs.Weight.{weight_of};
ghost use Rattle.rule_read.specs.RuleFile.{RuleFile as File};
ghost use Rattle.rule_read.specs.Says.{file_says};
ghost use Rattle.rule_term.specs.Table.{op_weight};
ghost use Rattle.journal_text.specs.Journal.{journal_text};
ghost use Rattle.nir_validate.specs.Valid.{Valid};
ghost use Rattle.run_words.specs.Views.{given, IsFew};
ghost use Rattle.nir_opt.specs.Answers.{stopped_text};
ghost use Rattle.nir_opt.specs.Asked.{rules_answer, shader_answer};
ghost use Rattle.nir_opt.specs.Texts.{IsTableOf};
ghost use Rattle.nir_opt.specs.Printed.{PrintsLast, limit_or};

use crate::lines::stopped_line;
use crate::optimise::optimise;
use journal_text::push_journal;
use nir_host::{Bytes, OutOfMemory};
use nir_ir::{Journal, Shader, Step};
use nir_print::print_shader;
use nir_search::{Steps, weight_of};
use print_meaning::{
    renumbering_keeps_meaning, renumbering_keeps_shape, renumbering_keeps_validity,
};
use rule_term::Table;
use run_words::RunWords;
use std::alloc::Global;
use std::sync::ledger::Ledger;

/// How many rewrites there may be beside the weight of the shader, where no limit is said.
const SPARE_REWRITES: u64 = 4_096;

/// What is printed, the steps to it, how many of them were rewrites, the limit on these, whether it stopped the run, and the line that tells so.
#[derive(Debug, Drop)]
pub struct Printed {
    pub text: Bytes,
    pub journal: Journal,
    pub rewrites: u64,
    pub limit: u64,
    pub stopped: bool,
    pub line: Bytes,
}

/// The limit on rewrites: the one that is said, else the weight of the shader and 4,096.
fn limit_of(given: &RunWords<'_>, table: &Table, shader: &Shader) -> u64
    requires said { IsFew given.now }
    requires few { shader.now.next_value ≤ 16384 }
    ensures limit { result ≡ limit_or given.now.limit (weight_of (op_weight table.now) shader.now) }
    ensures few { result ≤ 1000000 }
{
    match given.limit {
        Some(limit) => limit,
        None => weight_of(table, shader) + SPARE_REWRITES,
    }
}

/// The text of a shader and, where they are asked for, of the steps behind it.
fn with_remarks(text: Bytes, remarks: bool, steps: &[Step]) -> Result<Bytes, OutOfMemory>
    ensures { IfOk result (λ whole. whole ≡ text ++ (if remarks then journal_text steps.now else [])) }
{
    let mut out = text.into_vec();
    if remarks {
        push_journal(&mut out, steps)?;
    }
    Ok(Bytes::from_vec(out))
}

/// The line that tells that a run was stopped, and nothing where it was not.
fn line_if_stopped(alloc: Global, stopped: bool, rewrites: u64) -> Result<Bytes, OutOfMemory>
    ensures { IfOk result (λ line. line ≡ (if stopped then stopped_text rewrites else [])) }
{
    if stopped {
        return stopped_line(alloc, rewrites);
    }
    Ok(Bytes::new(alloc))
}

/// Uses the rules on a shader of a text, as the words say, and prints the last one.
pub fn printed_last<L: Ledger>(
    alloc: Global,
    shader: Shader,
    table: &Table,
    words: &RunWords<'_>,
    steps: &mut Steps<L>,
) -> Result<Printed, OutOfMemory>
    requires said { IsFew words.now }
    requires few { shader.next_value ≤ 16384 }
    requires valid { Valid shader }
    ensures prints { IfOk result (λ printed. (rule_text shader_text : List ℕ) (file : File) → rules_answer (given words.now).skip rule_text ≡ Ok (file_says file) →
        IsTableOf file table.now → shader_answer shader_text ≡ Ok shader → PrintsLast (given words.now) rule_text shader_text printed) }
    ensures line { IfOk result (λ printed. printed.line ≡ (if printed.stopped then stopped_text printed.rewrites else [])) }
{
    // The proof learns what numbering in text order keeps.
    renumbering_keeps_shape();
    renumbering_keeps_validity();
    renumbering_keeps_meaning();
    let limit = limit_of(words, table, &shader);
    let options = words.options(alloc)?;
    let done = optimise(alloc, shader, table, &options, limit, steps)?;
    let text = print_shader(alloc, &done.shader)?;
    let text = with_remarks(text, words.remarks, done.journal.as_slice())?;
    let line = line_if_stopped(alloc, done.stopped, done.rewrites)?;
    Ok(Printed {
        text,
        journal: done.journal,
        rewrites: done.rewrites,
        limit,
        stopped: done.stopped,
        line,
    })
}
