//! The canonical text of shaders.
#![tactic(auto)]

ghost use Rattle.std.specs.Prelude.{◌≡◌, ◌++◌, [], OnOk, IfOk, codes, decimal};
ghost use Rattle.nir_print.specs.RoundTrip.{HasMachineNumbers, IsTextOf, printed_names, ReadingGivesRenumbered, TextDenotes};
ghost use Rattle.nir_spelling.specs.Resolving.{IsWithinLimits};
ghost use Rattle.nir_text.specs.Tree.{Reads};
ghost use Rattle.nir_print.specs.Naming.{naming_of};
ghost use Rattle.nir_print.specs.Renumber.{renumber};
ghost use Rattle.nir_print.specs.Text.{text_of, line, kinds_text};

mod collect;
mod line;
mod naming;
mod sources;
mod tree;
mod word;

use naming::Naming;
use nir_host::{Bytes, OutOfMemory, Seq};
use nir_ir::{Kinds, Shader};
use nir_lex::{blanks_are_passed, spelled_is_read};
use std::alloc::Global;
use text_bytes::{push, push_number};
use tree::{push_line, push_nodes};
use word::push_kinds;

/// The canonical text of a shader: values and blocks are named by their places in text order, the sources
/// of a phi stand in block order, and each part has a line of its own. It is in the grammar of shader
/// texts, however large it is, and denotes the shader in text order; within the limits of texts it is read
/// as that. The only other answer is `OutOfMemory`.
pub fn print_shader(alloc: Global, shader: &Shader) -> Result<Bytes, OutOfMemory>
    ensures text { IfOk result (λ text. text ≡ text_of shader.now) }
    ensures numbers { IfOk result (λ _. HasMachineNumbers shader.now) }
    ensures denotes { IfOk result (λ text. IsTextOf text (printed_names shader.now.body) (renumber shader.now)) }
    ensures reads { IfOk result (λ text. IsWithinLimits (renumber shader.now) → Reads text (renumber shader.now)) }
{
    text_denotes();
    reading_gives_renumbered();
    // The proof learns that the shader is shaped.
    let _ = &shader.body;
    let naming = Naming::new(alloc, shader)?;
    let text = named_text(alloc, shader, &naming)?;
    Ok(text)
}

/// The canonical text under these names.
fn named_text(alloc: Global, shader: &Shader, naming: &Naming) -> Result<Bytes, OutOfMemory>
    requires { naming.now ≡ naming_of shader.now.body }
    ensures { IfOk result (λ text. text ≡ text_of shader.now) }
{
    let mut out = Vec::new(alloc);
    push_line(&mut out, b"", b"shader")?;
    push_slots(&mut out, b"inputs", &shader.inputs)?;
    push_slots(&mut out, b"outputs", &shader.outputs)?;
    push_buffers(&mut out, shader.buffers)?;
    push_line(&mut out, b"", b"{")?;
    push_nodes(alloc, &mut out, naming, b"  ", shader.body.as_slice())?;
    push_line(&mut out, b"", b"}")?;
    Ok(Seq::from_vec(out))
}

/// The canonical text is in the grammar of shader texts, and spells the shader in text order.
#[tactic(auto, using(crate::proofs::RoundTrip::text_denotes))]
pub fn text_denotes()
    ensures { TextDenotes }
{
    spelled_is_read();
    blanks_are_passed();
}

/// Reading the canonical text gives the shader in text order, where that is within the limits of texts.
#[tactic(auto, using(crate::proofs::RoundTrip::reading_gives_renumbered))]
pub fn reading_gives_renumbered()
    ensures { ReadingGivesRenumbered }
{
    text_denotes();
    nir_spelling::spelled_is_read();
}

/// Adds the line of the declared inputs or outputs.
fn push_slots(out: &mut Vec<u8>, word: &[u8], kinds: &Kinds) -> Result<(), OutOfMemory>
    ensures { OnOk result (out.new.items ≡ out.old.items ++ line [] (kinds_text word.now kinds.now)) }
{
    push(out, word)?;
    push(out, b" [")?;
    push_kinds(out, kinds.as_slice())?;
    push(out, b"]\n")
}

/// Adds the line of the declared buffers.
fn push_buffers(out: &mut Vec<u8>, buffers: u32) -> Result<(), OutOfMemory>
    ensures { OnOk result (out.new.items ≡ out.old.items ++ line [] (codes "buffers " ++ decimal buffers)) }
{
    push(out, b"buffers ")?;
    push_number(out, u64::from(buffers))?;
    push(out, b"\n")
}
