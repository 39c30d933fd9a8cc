//! A shader that is read from a source, and is valid.

ghost use Rattle.std.specs.Prelude.{◌≡◌, ◌≢◌, ℕ, ◌≤◌, List, length, Some, Err, IfOk, OnOk};
ghost use Rattle.nir_host.specs.Faults.{Rose};
ghost use Rattle.nir_validate.specs.Valid.{Valid};
ghost use Rattle.nir_mean.specs.ShaderText.{Answers, AreRead, answer_of, ReadsToEnd, TellsFault};

use crate::faults::is_of_text;
use nir_host::{Bytes, ReadAllFault, Source, read_all};
use nir_ir::Shader;
use nir_text::{TextFault, read_shader};
use nir_validate::{ValidateFault, validate};
use std::alloc::Global;

/// How many bytes of a shader are read.
const MAX_SHADER: u64 = 4_194_304;

/// Why a source gives no valid shader.
#[derive(Clone, Copy, Debug, PartialEq, Eq)]
pub enum ShaderRefusal {
    /// A fault of the source was counted.
    ReadFault,
    /// More than 4 MiB came.
    TooLong,
    /// The text is not in the grammar. Want of memory is never the fault in it.
    Syntax(TextFault),
    /// The shader breaks this rule of valid shaders first, at this item.
    Invalid { rule: u8, item: u64 },
    /// There was no memory.
    OutOfMemory,
}

/// Reads the bytes of a shader text to their end, at most 4 MiB of them.
///
/// `ReadFault` comes only where a fault of the source was counted in this call, and `TooLong` exactly where
/// more than 4 MiB came.
pub fn read_shader_bytes<S: Source>(alloc: Global, source: &mut S) -> Result<Bytes, ReadAllFault>
    ensures told { (text : List ℕ) → S.left source.old ≡ Some text → AreRead result text }
    ensures short { IfOk result (λ bytes. length bytes ≤ 4194304) }
    ensures end { OnOk result (ReadsToEnd (S.left source.old) (S.left source.new)) }
    ensures fault { result ≡ Err ReadAllFault.ReadFault → Rose (S.faults source.old) (S.faults source.new) }
{
    match read_all(alloc, source, MAX_SHADER) {
        Ok(text) => Ok(text),
        Err(fault) => Err(fault),
    }
}

/// The shader of a text that is not too long, where it is valid.
///
/// `Syntax` comes exactly where the text is not in the grammar, with its first fault, and `Invalid` exactly where it
/// is and its shader breaks a rule, with the first that it breaks. A text defines at most 16,384 values.
#[tactic(auto, using(crate::proofs::TextLemmas::answer_fault, crate::proofs::TextLemmas::answer_sound, crate::proofs::TextLemmas::answer_invalid))]
pub fn valid_shader(alloc: Global, text: &[u8]) -> Result<Shader, ShaderRefusal>
    requires { length text.now ≤ 4194304 }
    ensures told { Answers result (answer_of text.now) }
    ensures valid { IfOk result (λ shader. Valid shader) }
    ensures few { IfOk result (λ shader. shader.next_value ≤ 16384) }
    ensures syntax { TellsFault result }
    ensures no_read_fault { result ≢ Err ShaderRefusal.ReadFault }
{
    let shader = match read_shader(alloc, text) {
        Ok(shader) => shader,
        Err(fault) => {
            if is_of_text(&fault) {
                return Err(ShaderRefusal::Syntax(fault));
            }
            return Err(ShaderRefusal::OutOfMemory);
        }
    };
    match validate(alloc, &shader) {
        Ok(()) => Ok(shader),
        Err(ValidateFault::Invalid { rule, item }) => Err(ShaderRefusal::Invalid { rule, item }),
        Err(ValidateFault::OutOfMemory) => Err(ShaderRefusal::OutOfMemory),
    }
}

/// Reads a shader text to its end, and gives its shader where it is valid.
///
/// `ReadFault` comes only where a fault of the source was counted in this call, and `TooLong` exactly where
/// more than 4 MiB came; `Syntax` and `Invalid` come as those of `valid_shader`.
pub fn read_valid<S: Source>(alloc: Global, source: &mut S) -> Result<Shader, ShaderRefusal>
    ensures told { (text : List ℕ) → S.left source.old ≡ Some text → Answers result (answer_of text) }
    ensures valid { IfOk result (λ shader. Valid shader) }
    ensures few { IfOk result (λ shader. shader.next_value ≤ 16384) }
    ensures syntax { TellsFault result }
    ensures end { OnOk result (ReadsToEnd (S.left source.old) (S.left source.new)) }
    ensures fault { result ≡ Err ShaderRefusal.ReadFault → Rose (S.faults source.old) (S.faults source.new) }
{
    match read_shader_bytes(alloc, source) {
        Ok(text) => valid_shader(alloc, text.as_slice()),
        Err(ReadAllFault::ReadFault) => Err(ShaderRefusal::ReadFault),
        Err(ReadAllFault::TooLong) => Err(ShaderRefusal::TooLong),
        Err(ReadAllFault::OutOfMemory) => Err(ShaderRefusal::OutOfMemory),
    }
}
