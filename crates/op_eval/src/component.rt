//! Opcodes on words.

ghost use Rattle.std.specs.Prelude.{◌≡◌, ◌<◌, ◌^◌, true, slice_get, slice_index};
ghost use Rattle.nir_ops.specs.Width.{width_bits};
ghost use Rattle.op_eval.specs.Calls.{Fits, bits_of, per_component, unsized_width};
ghost use Rattle.op_eval.specs.Meaning.{op_mean};
ghost use Rattle.op_eval.specs.Words.{words_bits, words_widths};

use crate::apply::apply;
use crate::size::unsized_at;
use crate::word::Word;
use nir_ops::{Op, Width};

/// The word that the opcode makes of these words, at the bit size of its result. The opcode works component by
/// component, and the bit sizes and the number of the words fit it.
// Inlined, the words of a call stay in registers.
#[inline(always)]
pub fn eval(op: Op, dst: Width, args: &[Word]) -> u64
    requires each { per_component op ≡ true }
    requires fits { Fits op dst (words_widths args.now) }
    ensures value { result ≡ op_mean op (width_bits (unsized_width op dst (words_widths args.now))) (width_bits dst) (words_bits args.now) }
    ensures small { result < 2 ^ width_bits dst }
{
    let width = call_width(op, dst, args);
    apply(
        op,
        width,
        bits_at(args, 0),
        bits_at(args, 1),
        bits_at(args, 2),
    )
}

/// The unsized bit size of the call.
#[inline(always)]
pub fn call_width(op: Op, dst: Width, args: &[Word]) -> Width
    ensures { result ≡ unsized_width op dst (words_widths args.now) }
{
    match args.first() {
        Some(word) => unsized_at(op, dst, word.width),
        None => dst,
    }
}

/// The bits of the word at a place, and 0 past the end.
#[inline(always)]
fn bits_at(args: &[Word], at: usize) -> u64
    ensures value { result ≡ slice_index (words_bits args.now) at }
    ensures small { result < 2 ^ bits_of (slice_get (words_widths args.now) at) }
{
    if at < args.len() { args[at].bits } else { 0 }
}
