//! Laws: two terms over letters that have one value at each size of the law.

use nir_ops::Op;
use rule_term::Cond;

/// A node of a side of a law: an opcode over its sources, which stand behind it, a letter, or a number. A letter is its byte: x, y and z
/// have the law's size, b has 1 bit, and c may be asked for a condition.
#[derive(Clone, Copy, Debug, PartialEq, Eq)]
pub enum LawNode {
    App { op: Op },
    Letter { letter: u8 },
    Lit { value: i64, boolean: bool },
}

/// Both sides in preorder; whether the law holds at 1 bit too, and not from 8 bits on alone; and the condition that is asked of
/// the letter c.
#[derive(Clone, Copy)]
pub struct Law {
    pub left: &'static [LawNode],
    pub right: &'static [LawNode],
    pub bit: bool,
    pub cond: Option<Cond>,
}
