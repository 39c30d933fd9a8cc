//! The words of opcodes, and those that the grammar keeps for itself.

ghost use Rattle.std.specs.Prelude.{◌≡◌, map};
ghost use Rattle.std.specs.List.{list_any};
ghost use Rattle.std.specs.Str.{bytes_eq};
ghost use Rattle.nir_text.specs.Reading.{Gives};
ghost use Rattle.nir_text.specs.Instrs.{is_keyword, opcode_at};
ghost use Rattle.nir_text.specs.View.{point};

use crate::fault::TextFault;
use crate::point::Point;
use nir_ops::{Op, op_by_bytes};

/// The words of the grammar, none of which names an opcode.
const KEYWORDS: [&[u8]; 17] = [
    b"shader",
    b"inputs",
    b"outputs",
    b"buffers",
    b"block",
    b"break",
    b"continue",
    b"if",
    b"else",
    b"loop",
    b"phi",
    b"const",
    b"undef",
    b"input",
    b"load",
    b"output",
    b"store",
];

#[tactic(auto, unfolding(crate::specs::Instrs::is_keyword))]
fn is_keyword(word: &[u8]) -> bool
    ensures { result ≡ is_keyword word.now }
{
    is_one_of(&KEYWORDS, word)
}

/// Whether the word is one of these.
fn is_one_of(words: &[&[u8]], word: &[u8]) -> bool
    ensures { result ≡ list_any (λ one. bytes_eq one word.now) (map (λ one. one.now) words.now) }
{
    for one in words {
        if *one == word {
            return true;
        }
    }
    false
}

/// The opcode that a word names.
#[tactic(auto, unfolding(crate::specs::Instrs::opcode_at))]
pub fn opcode_at<'a>(p: &Point<'a>) -> Result<(Op, Point<'a>), TextFault>
    ensures { Gives (λ x. (x.0, point x.1)) result (opcode_at (point p.now)) }
{
    let sign = p.here();
    let Some(word) = sign.word() else {
        return Err(TextFault::Expected(sign.place));
    };
    if is_keyword(word) {
        return Err(TextFault::Expected(sign.place));
    }
    let Some(op) = op_by_bytes(word) else {
        return Err(TextFault::UnknownOp(sign.place));
    };
    Ok((op, p.next()))
}
