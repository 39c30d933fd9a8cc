//! Where a reader stands in a text.

ghost use Rattle.std.specs.Prelude.{◌≡◌, ℕ, ◌+◌, ◌^◌, ◌<◌, ◌≤◌, length};
ghost use Rattle.nir_text.specs.Naming.{is_among_first};
ghost use Rattle.nir_text.specs.Within.{AreWithin, AreWithin-prop};

use crate::counts::Counts;
use crate::fault::TextFault;
use crate::sign::Sign;
use crate::table::NameTable;
use nir_ir::{BlockId, ValueId};
use nir_lex::Token;

/// How many values a text may have.
pub const MAX_VALUES: u32 = 16_384;

/// What is left of a text, and how much was named before it. Each number that is given out takes a
/// token, so none of them passes 32 bits.
#[derive(Clone, Copy)]
pub struct Point<'a> {
    pub(crate) text: &'a [u8],
    pub(crate) tokens: &'a [Token],
    pub(crate) counts: Counts,
    ghost within: { AreWithin (length text.now) tokens.now } by { AreWithin-prop (length text.now) tokens.now },
    ghost few: { counts.values + counts.blocks + counts.effects + counts.ifs + counts.loops + length tokens.now < 2 ^ 32 },
}

impl<'a> Point<'a> {
    ghost use Rattle.std.specs.Prelude.{◌≡◌, ◌<◌, ◌≤◌, ◌^◌, length};
    ghost use Rattle.nir_text.specs.Within.{AreWithin};
    ghost use Rattle.nir_text.specs.Signs.{signs_of};
    ghost use Rattle.nir_text.specs.Reading.{here, next, Gives, value_begun, block_begun, value_defined_at, block_defined_at};
    ghost use Rattle.nir_text.specs.Table.{naming};
    ghost use Rattle.nir_text.specs.View.{sign, point};
    ghost use Rattle.nir_text.specs.Instrs.{effect_begun};
    ghost use Rattle.nir_text.specs.Tree.{if_begun, loop_begun, no_counts};

    /// Behind the first token of a text. That token takes no number, so the numbers fit.
    pub fn behind_first(text: &'a [u8], tokens: &'a [Token]) -> Point<'a>
        requires within { AreWithin (length text.now) tokens.now }
        requires few { length tokens.now ≤ 2 ^ 32 }
        ensures { point result ≡ next (record { rest = signs_of text.now tokens.now; counts = no_counts }) }
    {
        let rest = match tokens {
            [] => tokens,
            [_, rest @ ..] => rest,
        };
        Point {
            text,
            tokens: rest,
            counts: Counts {
                values: 0,
                blocks: 0,
                effects: 0,
                ifs: 0,
                loops: 0,
            },
        }
    }

    /// How many tokens are left.
    pub fn len(&self) -> usize
        ensures { result ≡ length (point self.now).rest }
    {
        self.tokens.len()
    }

    pub fn counts(&self) -> Counts
        ensures { result ≡ (point self.now).counts }
    {
        self.counts
    }

    /// The token that stands here.
    pub fn here(&self) -> Sign<'a>
        ensures { sign result ≡ here (point self.now) }
    {
        Sign::first(self.text, self.tokens)
    }

    /// Behind the token that stands here.
    pub fn next(&self) -> Point<'a>
        ensures { point result ≡ next (point self.now) }
    {
        match self.tokens {
            [] => *self,
            [_, rest @ ..] => Point {
                text: self.text,
                tokens: rest,
                counts: self.counts,
            },
        }
    }

    /// The name of a value where it is defined: its number is that of the values before it.
    #[tactic(auto, unfolding(crate::specs::Reading::value_defined_at))]
    pub fn value_defined(&self, names: &NameTable<'_>) -> Result<(ValueId, Point<'a>), TextFault>
        ensures { Gives (λ x. (x.0, point x.1)) result (value_defined_at (naming names.now) (point self.now)) }
    {
        let sign = self.here();
        let Some(name) = sign.name() else {
            return Err(TextFault::Expected(sign.place));
        };
        let values = self.counts.values;
        if is_among_first(values, names.value_place(name)) {
            return Err(TextFault::Twice(sign.place));
        }
        if values >= MAX_VALUES {
            return Err(TextFault::TooMany(sign.place));
        }
        Ok((ValueId(values), self.with_value()))
    }

    /// The word of a block where it is defined: its number is that of the blocks before it.
    #[tactic(auto, unfolding(crate::specs::Reading::block_defined_at))]
    pub fn block_defined(&self, names: &NameTable<'_>) -> Result<(BlockId, Point<'a>), TextFault>
        ensures { Gives (λ x. (x.0, point x.1)) result (block_defined_at (naming names.now) (point self.now)) }
    {
        let sign = self.here();
        let Some(word) = sign.word() else {
            return Err(TextFault::Expected(sign.place));
        };
        let blocks = self.counts.blocks;
        if is_among_first(blocks, names.block_place(word)) {
            return Err(TextFault::Twice(sign.place));
        }
        Ok((BlockId(blocks), self.with_block()))
    }

    /// Behind the token that stands here, with one more value.
    fn with_value(&self) -> Point<'a>
        requires { 0 < length (point self.now).rest }
        ensures { point result ≡ value_begun (point self.now) }
    {
        let mut counts = self.counts;
        counts.values += 1;
        Point {
            text: self.text,
            tokens: &self.tokens[1..],
            counts,
        }
    }

    /// Behind the token that stands here, with one more block.
    fn with_block(&self) -> Point<'a>
        requires { 0 < length (point self.now).rest }
        ensures { point result ≡ block_begun (point self.now) }
    {
        let mut counts = self.counts;
        counts.blocks += 1;
        Point {
            text: self.text,
            tokens: &self.tokens[1..],
            counts,
        }
    }

    /// Behind the word of an output or a store, which takes the next number of an effect.
    pub fn with_effect(&self) -> Point<'a>
        requires { 0 < length (point self.now).rest }
        ensures { point result ≡ effect_begun (point self.now) }
    {
        let mut counts = self.counts;
        counts.effects += 1;
        Point {
            text: self.text,
            tokens: &self.tokens[1..],
            counts,
        }
    }

    /// Behind the word of an if, which takes the next number of an if.
    pub fn with_if(&self) -> Point<'a>
        requires { 0 < length (point self.now).rest }
        ensures { point result ≡ if_begun (point self.now) }
    {
        let mut counts = self.counts;
        counts.ifs += 1;
        Point {
            text: self.text,
            tokens: &self.tokens[1..],
            counts,
        }
    }

    /// Behind the word of a loop, which takes the next number of a loop.
    pub fn with_loop(&self) -> Point<'a>
        requires { 0 < length (point self.now).rest }
        ensures { point result ≡ loop_begun (point self.now) }
    {
        let mut counts = self.counts;
        counts.loops += 1;
        Point {
            text: self.text,
            tokens: &self.tokens[1..],
            counts,
        }
    }
}

/// The place is one of the first so many.
fn is_among_first(count: u32, place: Option<u32>) -> bool
    ensures { result ≡ is_among_first count place }
{
    match place {
        None => false,
        Some(place) => place < count,
    }
}
