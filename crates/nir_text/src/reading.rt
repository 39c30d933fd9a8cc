//! The smallest readers: a mark, a word, a kind, a number, and a value or a block that is used.

ghost use Rattle.std.specs.Prelude.{◌≡◌, length};
ghost use Rattle.nir_text.specs.Reading.{Gives, mark_at, word_at, kind_at, index_at, value_used_at, block_used_at};
ghost use Rattle.nir_text.specs.Table.{naming};
ghost use Rattle.nir_text.specs.View.{point};

use crate::fault::TextFault;
use crate::kinds::kind_named;
use crate::point::Point;
use crate::table::NameTable;
use nir_ir::{BlockId, Kind, ValueId};
use nir_lex::TokenKind;

/// Behind this mark of punctuation.
#[tactic(auto, unfolding(crate::specs::Reading::mark_at))]
pub fn mark_at<'a>(p: &Point<'a>, mark: u8) -> Result<Point<'a>, TextFault>
    ensures { Gives point result (mark_at mark (point p.now)) }
{
    let sign = p.here();
    if !sign.is_mark(mark) {
        return Err(TextFault::Expected(sign.place));
    }
    Ok(p.next())
}

/// Behind this word.
#[tactic(auto, unfolding(crate::specs::Reading::word_at))]
pub fn word_at<'a>(p: &Point<'a>, word: &[u8]) -> Result<Point<'a>, TextFault>
    ensures { Gives point result (word_at word.now (point p.now)) }
{
    let sign = p.here();
    if !sign.is_word(word) {
        return Err(TextFault::Expected(sign.place));
    }
    Ok(p.next())
}

/// The kind that a word names.
#[tactic(auto, unfolding(crate::specs::Reading::kind_at))]
pub fn kind_at<'a>(p: &Point<'a>) -> Result<(Kind, Point<'a>), TextFault>
    ensures { Gives (λ x. (x.0, point x.1)) result (kind_at (point p.now)) }
{
    let sign = p.here();
    let Some(word) = sign.word() else {
        return Err(TextFault::Expected(sign.place));
    };
    let Some(kind) = kind_named(word) else {
        return Err(TextFault::Expected(sign.place));
    };
    Ok((kind, p.next()))
}

/// A number from 0 to 2^32 - 1.
#[tactic(auto, unfolding(crate::specs::Reading::index_at))]
pub fn index_at<'a>(p: &Point<'a>) -> Result<(u32, Point<'a>), TextFault>
    ensures { Gives (λ x. (x.0, point x.1)) result (index_at (point p.now)) }
{
    let sign = p.here();
    let TokenKind::Number { value } = sign.kind else {
        return Err(TextFault::Expected(sign.place));
    };
    let Ok(index) = u32::try_from(value) else {
        return Err(TextFault::Expected(sign.place));
    };
    Ok((index, p.next()))
}

/// The number of a value where it is used. What the text does not define is found at its end, and
/// has the number 0 until then.
#[tactic(auto, unfolding(crate::specs::Reading::value_used_at))]
pub fn value_used_at<'a>(
    names: &NameTable<'_>,
    p: &Point<'a>,
) -> Result<(ValueId, Point<'a>), TextFault>
    ensures { Gives (λ x. (x.0, point x.1)) result (value_used_at (naming names.now) (point p.now)) }
{
    let sign = p.here();
    let Some(name) = sign.name() else {
        return Err(TextFault::Expected(sign.place));
    };
    Ok((ValueId(names.value_number(name)), p.next()))
}

/// The number of a block where it is used, as of a value.
#[tactic(auto, unfolding(crate::specs::Reading::block_used_at))]
pub fn block_used_at<'a>(
    names: &NameTable<'_>,
    p: &Point<'a>,
) -> Result<(BlockId, Point<'a>), TextFault>
    ensures { Gives (λ x. (x.0, point x.1)) result (block_used_at (naming names.now) (point p.now)) }
{
    let sign = p.here();
    let Some(word) = sign.word() else {
        return Err(TextFault::Expected(sign.place));
    };
    Ok((BlockId(names.block_number(word)), p.next()))
}
