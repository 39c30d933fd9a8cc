//! The texts of the two sources, read to their ends: the rules, and the shader.

ghost use Rattle.std.specs.Prelude.{◌≡◌, ℕ, ◌≤◌, true, false, List, [], length, Some, IfOk, IfErr, OnOk};
ghost use Rattle.nir_host.specs.Faults.{Rose};
ghost use Rattle.nir_mean.specs.ShaderText.{ReadsToEnd};
ghost use Rattle.nir_validate.specs.Valid.{Valid};
ghost use Rattle.nir_opt.specs.Asked.{judged, rules_answer, shader_answer};
ghost use Rattle.rule_check.specs.Accepted.{entries_say, refusals};
ghost use Rattle.rule_read.specs.Says.{file_says};
ghost use Rattle.nir_opt.specs.Texts.{CheckedFits, EndsReading, EndsRules, EndsShader, FileFits, ReadFits, ends_by};

use crate::faults::is_of_rule_text;
use crate::status::Status;
use nir_host::{ReadAllFault, Source, Which, read_all};
use nir_ir::Shader;
use nir_mean::{ShaderRefusal, read_shader_bytes, valid_shader};
use rule_check::{CheckFault, Checked, RefusedList, check_file, check_file_skipping};
use rule_read::{RuleFault, RuleFile, read_rules};
use std::alloc::Global;

/// How many bytes of rules are read.
const MAX_RULES: u64 = 67_108_864;

/// Reads the rules to their end, as a rule file.
pub fn read_file<R: Source>(alloc: Global, rules: &mut R) -> Result<RuleFile, Status>
    ensures text { (text : List ℕ) → R.left rules.old ≡ Some text → FileFits result (rules_answer true text) }
    ensures end { OnOk result (ReadsToEnd (R.left rules.old) (R.left rules.new)) }
    ensures stop { IfErr result (λ status. EndsReading status (Rose (R.faults rules.old) (R.faults rules.new))) }
{
    match read_all(alloc, rules, MAX_RULES) {
        Ok(text) => file_of_text(alloc, text.as_slice()),
        Err(ReadAllFault::ReadFault) => Err(Status::ReadFault(Which::Rules)),
        Err(ReadAllFault::TooLong) => Err(Status::TooLong(Which::Rules)),
        Err(ReadAllFault::OutOfMemory) => Err(Status::OutOfMemory),
    }
}

/// The rule file of a text that was read to its end.
#[tactic(auto, using(crate::proofs::TextAnswers::file_found, crate::proofs::TextAnswers::file_faulty, crate::proofs::TextAnswers::ends_reading))]
fn file_of_text(alloc: Global, text: &[u8]) -> Result<RuleFile, Status>
    requires { length text.now ≤ 67108864 }
    ensures text { FileFits result (rules_answer true text.now) }
    ensures stop { IfErr result (λ status. EndsReading status ⊥) }
{
    match read_rules(alloc, text) {
        Ok(file) => Ok(file),
        Err(fault) => Err(ends_by(fault)),
    }
}

/// How reading a rule text with this fault ends.
fn ends_by(fault: RuleFault) -> Status
    ensures { result ≡ ends_by fault }
{
    if is_of_rule_text(&fault) {
        Status::RulesSyntax(fault)
    } else {
        Status::OutOfMemory
    }
}

/// The table of the rules of a file that are accepted, and the others, which there may be where rules are skipped.
pub fn check_rules(alloc: Global, file: RuleFile, skip: bool) -> Result<Checked, Status>
    ensures fits { CheckedFits result (judged skip (file_says file) (refusals (entries_say file.entries))) }
    ensures off { IfOk result (λ checked. skip ≡ false → checked.refused ≡ []) }
    ensures stop { IfErr result (λ status. EndsRules status ⊥) }
{
    if skip {
        return match check_file_skipping(alloc, file) {
            Ok(checked) => Ok(checked),
            Err(_no_memory) => Err(Status::OutOfMemory),
        };
    }
    match check_file(alloc, file) {
        Ok(table) => Ok(Checked {
            table,
            refused: RefusedList::new(alloc),
        }),
        Err(CheckFault::Refused(refused)) => Err(Status::RuleRefused(refused)),
        Err(CheckFault::OutOfMemory) => Err(Status::OutOfMemory),
    }
}

/// Reads the rules to their end, and makes the table of those that are accepted. Where one is not, it is refused or, where rules are
/// skipped, told.
pub fn read_table<R: Source>(alloc: Global, rules: &mut R, skip: bool) -> Result<Checked, Status>
    ensures text { (text : List ℕ) → R.left rules.old ≡ Some text → CheckedFits result (rules_answer skip text) }
    ensures off { IfOk result (λ checked. skip ≡ false → checked.refused ≡ []) }
    ensures end { OnOk result (ReadsToEnd (R.left rules.old) (R.left rules.new)) }
    ensures stop { IfErr result (λ status. EndsRules status (Rose (R.faults rules.old) (R.faults rules.new))) }
{
    match read_file(alloc, rules) {
        Ok(file) => check_rules(alloc, file, skip),
        Err(status) => Err(status),
    }
}

/// Reads the shader to its end, and finds it valid. A text defines at most 16,384 values.
pub fn read_shader_text<S: Source>(alloc: Global, shader: &mut S) -> Result<Shader, Status>
    ensures text { (text : List ℕ) → S.left shader.old ≡ Some text → ReadFits result (shader_answer text) }
    ensures end { OnOk result (ReadsToEnd (S.left shader.old) (S.left shader.new)) }
    ensures stop { IfErr result (λ status. EndsShader status (Rose (S.faults shader.old) (S.faults shader.new))) }
    ensures few { IfOk result (λ shader. shader.next_value ≤ 16384) }
    ensures valid { IfOk result (λ shader. Valid shader) }
{
    match read_shader_bytes(alloc, shader) {
        Ok(text) => shader_of_text(alloc, text.as_slice()),
        Err(ReadAllFault::ReadFault) => Err(Status::ReadFault(Which::Shader)),
        Err(ReadAllFault::TooLong) => Err(Status::TooLong(Which::Shader)),
        Err(ReadAllFault::OutOfMemory) => Err(Status::OutOfMemory),
    }
}

/// The shader of a text that was read to its end.
#[tactic(auto, using(crate::proofs::TextAnswers::answer_long, crate::proofs::TextAnswers::answer_fault, crate::proofs::TextAnswers::answer_invalid, crate::proofs::TextAnswers::answer_sound))]
fn shader_of_text(alloc: Global, text: &[u8]) -> Result<Shader, Status>
    requires short { length text.now ≤ 4194304 }
    ensures text { ReadFits result (shader_answer text.now) }
    ensures stop { IfErr result (λ status. EndsShader status ⊥) }
    ensures few { IfOk result (λ shader. shader.next_value ≤ 16384) }
    ensures valid { IfOk result (λ shader. Valid shader) }
{
    match valid_shader(alloc, text) {
        Ok(shader) => Ok(shader),
        Err(ShaderRefusal::ReadFault) => Err(Status::ReadFault(Which::Shader)),
        Err(ShaderRefusal::TooLong) => Err(Status::TooLong(Which::Shader)),
        Err(ShaderRefusal::Syntax(fault)) => Err(Status::ShaderSyntax(fault)),
        Err(ShaderRefusal::Invalid { rule, item }) => Err(Status::ShaderInvalid { rule, item }),
        Err(ShaderRefusal::OutOfMemory) => Err(Status::OutOfMemory),
    }
}
