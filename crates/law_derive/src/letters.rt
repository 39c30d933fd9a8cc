//! The letters of laws: their numbers, their names and their sizes.

ghost use Rattle.std.specs.Prelude.{◌≡◌};
ghost use Rattle.std.specs.List.{list_any};
ghost use Rattle.law_derive.specs.Derivations.{has_letter, is_letter, letter_named, letter_size};
ghost use Rattle.law_derive.specs.Views.{law_says, letter_number, part_says, side_says};

use crate::law::{Law, LawNode};
use nir_ops::Width;

/// The number of a letter by its byte: x, y, z, b and c have those from 0 to 4, and another byte has 5.
pub(crate) fn number_of(byte: u8) -> u32
    ensures { result ≡ letter_number byte }
{
    match byte {
        b'x' => 0,
        b'y' => 1,
        b'z' => 2,
        b'b' => 3,
        b'c' => 4,
        _ => 5,
    }
}

/// The number of the letter of a name.
#[tactic(auto, using(crate::proofs::LetterLemmas::named_steps))]
pub(crate) fn letter_named(name: &[u8]) -> Option<u32>
    ensures { result ≡ letter_named name.now }
{
    let [byte] = name else {
        return None;
    };
    match number_of(*byte) {
        5 => None,
        letter => Some(letter),
    }
}

/// The size of a letter in a law of this size.
pub(crate) fn letter_size(width: Width, letter: u32) -> Width
    ensures { result ≡ letter_size width letter }
{
    if letter == 3 {
        return Width::W1;
    }
    width
}

/// Whether the letter stands on a side of the law.
pub(crate) fn has_letter(law: &Law, letter: u32) -> bool
    ensures { result ≡ has_letter (law_says law.now) letter }
{
    if stands_in(law.left, letter) {
        return true;
    }
    stands_in(law.right, letter)
}

/// Whether the letter stands on the side.
fn stands_in(side: &[LawNode], letter: u32) -> bool
    ensures { result ≡ list_any (is_letter letter) (side_says side.now) }
{
    for part in side {
        if is_letter(*part, letter) {
            return true;
        }
    }
    false
}

fn is_letter(part: LawNode, letter: u32) -> bool
    ensures { result ≡ is_letter letter (part_says part) }
{
    match part {
        LawNode::Letter { letter: own } => number_of(own) == letter,
        LawNode::App { .. } | LawNode::Lit { .. } => false,
    }
}
