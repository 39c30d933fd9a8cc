//! Words without gates: their literals are constant, or those of other words in other places.

ghost use Rattle.std.specs.Prelude.{◌≡◌, ◌++◌, replicate, take, drop, IfOk, OnOk};
ghost use Rattle.circuit_laws.specs.Literals.{constant};
ghost use Rattle.circuit_laws.specs.Blocks.{flipped, top_negated, raised, lowered, turned_up, turned_down, top, resized};
ghost use Rattle.bit_circuit.specs.Moves.{moved_by};

use crate::literal::Literal;
use nir_host::{OutOfMemory, Seq};
use std::alloc::Global;

/// Literals, the lowest bit first.
pub(crate) type Word = Seq<Literal>;

/// How the literals of a word move by a number of places.
#[derive(Clone, Copy, Debug)]
pub(crate) enum Move {
    /// Up, and this literal enters below.
    Raise(Literal),
    /// Down, and this literal enters above.
    Lower(Literal),
    /// Up, and those at the top enter below.
    TurnUp,
    /// Down, and those at the bottom enter above.
    TurnDown,
}

/// Adds a literal so many times.
fn fill(word: &mut Word, literal: Literal, count: usize) -> Result<(), OutOfMemory>
    ensures { OnOk result (word.new ≡ word.old ++ replicate count literal) }
{
    for _at in 0..count {
        word.push(literal)?;
    }
    Ok(())
}

/// A literal so many times.
pub(crate) fn filled(alloc: Global, literal: Literal, count: usize) -> Result<Word, OutOfMemory>
    ensures { IfOk result (λ word. word ≡ replicate count literal) }
{
    let mut word = Seq::new(alloc);
    fill(&mut word, literal, count)?;
    Ok(word)
}

/// A number as a word of so many bits.
pub(crate) fn constant(alloc: Global, count: usize, value: u64) -> Result<Word, OutOfMemory>
    ensures { IfOk result (λ word. word ≡ constant count value) }
{
    let mut word = Seq::new(alloc);
    let mut left = value;
    for at in 0..count {
        word.push(Literal::of_bit(left % 2 == 1))?;
        left /= 2;
    }
    Ok(word)
}

/// One word behind another.
pub(crate) fn joined(alloc: Global, low: &[Literal], high: &[Literal]) -> Result<Word, OutOfMemory>
    ensures { IfOk result (λ word. word ≡ low.now ++ high.now) }
{
    let mut word = Seq::from_slice(alloc, low)?;
    word.extend_from_slice(high)?;
    Ok(word)
}

/// The negations of the literals.
pub(crate) fn flipped(alloc: Global, xs: &[Literal]) -> Result<Word, OutOfMemory>
    ensures { IfOk result (λ word. word ≡ flipped xs.now) }
{
    let mut word = Seq::new(alloc);
    for literal in xs {
        word.push(literal.negated())?;
    }
    Ok(word)
}

/// The literal at the top.
#[tactic(auto, using(crate::proofs::WordLemmas::top_last))]
pub(crate) fn top(xs: &[Literal]) -> Literal
    ensures { result ≡ top xs.now }
{
    if xs.is_empty() {
        return Literal::no();
    }
    xs[xs.len() - 1]
}

/// The word with its top literal negated.
#[tactic(auto, using(crate::proofs::WordLemmas::top_negated_parts))]
pub(crate) fn top_negated(alloc: Global, xs: &[Literal]) -> Result<Word, OutOfMemory>
    ensures { IfOk result (λ word. word ≡ top_negated xs.now) }
{
    if xs.is_empty() {
        return Ok(Seq::new(alloc));
    }
    let below = xs.len() - 1;
    let mut word = Seq::from_slice(alloc, &xs[..below])?;
    word.push(xs[below].negated())?;
    Ok(word)
}

/// The word cut to so many bits, or with this literal above.
#[tactic(auto, using(crate::proofs::WordLemmas::take_least))]
pub(crate) fn resized(
    alloc: Global,
    literal: Literal,
    count: usize,
    xs: &[Literal],
) -> Result<Word, OutOfMemory>
    ensures { IfOk result (λ word. word ≡ resized literal count xs.now) }
{
    let kept = xs.len().min(count);
    let mut word = Seq::from_slice(alloc, &xs[..kept])?;
    fill(&mut word, literal, count - kept)?;
    Ok(word)
}

/// The lowest bits of the word, at most so many.
#[tactic(auto, using(crate::proofs::WordLemmas::take_least))]
pub(crate) fn low(alloc: Global, count: usize, xs: &[Literal]) -> Result<Word, OutOfMemory>
    ensures { IfOk result (λ word. word ≡ take count xs.now) }
{
    let kept = xs.len().min(count);
    Seq::from_slice(alloc, &xs[..kept])
}

/// The bits of the word without so many of the lowest.
#[tactic(auto, using(crate::proofs::WordLemmas::drop_least))]
pub(crate) fn high(alloc: Global, count: usize, xs: &[Literal]) -> Result<Word, OutOfMemory>
    ensures { IfOk result (λ word. word ≡ drop count xs.now) }
{
    let gone = xs.len().min(count);
    Seq::from_slice(alloc, &xs[gone..])
}

/// The word moved by so many places.
pub(crate) fn moved(
    alloc: Global,
    how: &Move,
    places: usize,
    xs: &[Literal],
) -> Result<Word, OutOfMemory>
    ensures { IfOk result (λ word. word ≡ moved_by how.now places xs.now) }
{
    match how {
        Move::Raise(literal) => raised(alloc, *literal, places, xs),
        Move::Lower(literal) => lowered(alloc, *literal, places, xs),
        Move::TurnUp => {
            let cut = xs.len().saturating_sub(places);
            joined(alloc, &xs[cut..], &xs[..cut])
        }
        Move::TurnDown => {
            let cut = xs.len().min(places);
            joined(alloc, &xs[cut..], &xs[..cut])
        }
    }
}

/// The word moved up, with this literal below.
fn raised(
    alloc: Global,
    literal: Literal,
    places: usize,
    xs: &[Literal],
) -> Result<Word, OutOfMemory>
    ensures { IfOk result (λ word. word ≡ raised literal places xs.now) }
{
    let kept = xs.len().saturating_sub(places);
    let mut word = filled(alloc, literal, xs.len() - kept)?;
    word.extend_from_slice(&xs[..kept])?;
    Ok(word)
}

/// The word moved down, with this literal above.
fn lowered(
    alloc: Global,
    literal: Literal,
    places: usize,
    xs: &[Literal],
) -> Result<Word, OutOfMemory>
    ensures { IfOk result (λ word. word ≡ lowered literal places xs.now) }
{
    let gone = xs.len().min(places);
    let mut word = Seq::from_slice(alloc, &xs[gone..])?;
    fill(&mut word, literal, gone)?;
    Ok(word)
}
