//! The words with which a shader is run.

ghost use Rattle.std.specs.Prelude.{◌≡◌, false, is_some, map, IfOk};
ghost use Rattle.std.specs.List.{flat_map};
ghost use Rattle.std.specs.Option.{option_map};
ghost use Rattle.eval_words.specs.EvalWords.{all_some, are_read, buffer_said, bytes_in_hex, decimal_of, decimals_of, eval_words, input_said, only, said, says_turns, turns_said};

use crate::numbers::{are_decimals, are_hex, bytes_in_hex, decimal, decimals};
use nir_host::{Bytes, OutOfMemory, Seq};
use nir_ir::Comps;
use std::alloc::Global;

/// What one word says.
#[derive(Debug, Drop)]
pub enum Said {
    /// How often a loop may go back at each entry.
    Turns(u64),
    /// The components of the next input.
    Given(Comps),
    /// The bytes of the next buffer.
    Filled(Bytes),
}

/// What all words say: the number of repeats, and the inputs and buffers in the order of their words.
#[derive(Debug, Drop)]
pub struct EvalWords {
    pub turns: u64,
    pub inputs: Seq<Comps>,
    pub buffers: Seq<Bytes>,
}

fn turns(text: &[u8]) -> Option<Said>
    ensures { result ≡ option_map Said.Turns (decimal_of text.now) }
{
    match decimal(text) {
        Some(turns) => Some(Said::Turns(turns)),
        None => None,
    }
}

fn given(alloc: Global, text: &[u8]) -> Result<Option<Said>, OutOfMemory>
    ensures { IfOk result (λ found. found ≡ option_map Said.Given (decimals_of text.now)) }
{
    match decimals(alloc, text)? {
        Some(comps) => Ok(Some(Said::Given(comps))),
        None => Ok(None),
    }
}

fn filled(alloc: Global, text: &[u8]) -> Result<Option<Said>, OutOfMemory>
    ensures { IfOk result (λ found. found ≡ option_map Said.Filled (bytes_in_hex text.now)) }
{
    match bytes_in_hex(alloc, text)? {
        Some(bytes) => Ok(Some(Said::Filled(bytes))),
        None => Ok(None),
    }
}

/// What a word says, None where it has no reading.
#[tactic(auto, unfolding(crate::specs::EvalWords::said))]
fn said_by(alloc: Global, word: &[u8]) -> Result<Option<Said>, OutOfMemory>
    ensures { IfOk result (λ found. found ≡ said word.now) }
{
    if word.starts_with(b"--turns=") {
        return Ok(turns(&word[8..]));
    }
    if word.starts_with(b"--input=") {
        let found = given(alloc, &word[8..])?;
        return Ok(found);
    }
    if word.starts_with(b"--buffer=") {
        let found = filled(alloc, &word[9..])?;
        return Ok(found);
    }
    Ok(None)
}

fn turns_form(text: &[u8]) -> Option<bool>
    ensures { result ≡ option_map says_turns (option_map Said.Turns (decimal_of text.now)) }
{
    match decimal(text) {
        Some(_) => Some(true),
        None => None,
    }
}

fn given_form(text: &[u8]) -> Option<bool>
    ensures { result ≡ option_map says_turns (option_map Said.Given (decimals_of text.now)) }
{
    if are_decimals(text) {
        Some(false)
    } else {
        None
    }
}

fn filled_form(text: &[u8]) -> Option<bool>
    ensures { result ≡ option_map says_turns (option_map Said.Filled (bytes_in_hex text.now)) }
{
    if are_hex(text) { Some(false) } else { None }
}

/// Whether a word tells the repeats, None where it has no reading. Takes no memory.
#[tactic(auto, unfolding(crate::specs::EvalWords::said))]
fn says_turns(word: &[u8]) -> Option<bool>
    ensures { result ≡ option_map says_turns (said word.now) }
{
    if word.starts_with(b"--turns=") {
        return turns_form(&word[8..]);
    }
    if word.starts_with(b"--input=") {
        return given_form(&word[8..]);
    }
    if word.starts_with(b"--buffer=") {
        return filled_form(&word[9..]);
    }
    None
}

/// Whether words have a reading: each has one, and the repeats are said once. Takes no memory.
#[tactic(auto, using(crate::proofs::WordLemmas::reading_is))]
pub fn have_reading(words: &[Bytes]) -> bool
    ensures { result ≡ is_some (eval_words words.now) }
{
    are_read(words)
}

fn are_read(words: &[Bytes]) -> bool
    ensures { result ≡ are_read false words.now }
{
    let mut told = false;
    for word in words {
        match says_turns(word.as_slice()) {
            None => return false,
            Some(false) => {}
            Some(true) => {
                if told {
                    return false;
                }
                told = true;
            }
        }
    }
    told
}

/// What each word says, None where one has no reading.
#[tactic(auto, using(crate::proofs::WordLemmas::behind_none, crate::proofs::WordLemmas::behind_more))]
fn all_said(alloc: Global, words: &[Bytes]) -> Result<Option<Seq<Said>>, OutOfMemory>
    ensures { IfOk result (λ found. found ≡ all_some (map said words.now)) }
{
    let mut all = Seq::new(alloc);
    for word in words {
        let Some(one) = said_by(alloc, word.as_slice())? else {
            return Ok(None);
        };
        all.push(one)?;
    }
    Ok(Some(all))
}

/// The repeats, where they are said once.
fn turns_of(all: &[Said]) -> Option<u64>
    ensures { result ≡ only (flat_map turns_said all.now) }
{
    let mut found = None;
    for one in all {
        match one {
            Said::Turns(turns) => {
                if found.is_some() {
                    return None;
                }
                found = Some(*turns);
            }
            Said::Given(_) | Said::Filled(_) => {}
        }
    }
    found
}

fn copied(alloc: Global, comps: &Comps) -> Result<Comps, OutOfMemory>
    ensures { IfOk result (λ copy. copy ≡ comps.now) }
{
    let mut copy = Comps::new(alloc);
    for comp in comps.as_slice() {
        copy.push(*comp)?;
    }
    Ok(copy)
}

fn inputs_of(alloc: Global, all: &[Said]) -> Result<Seq<Comps>, OutOfMemory>
    ensures { IfOk result (λ inputs. inputs ≡ flat_map input_said all.now) }
{
    let mut inputs = Seq::new(alloc);
    for one in all {
        match one {
            Said::Given(comps) => inputs.push(copied(alloc, comps)?)?,
            Said::Turns(_) | Said::Filled(_) => {}
        }
    }
    Ok(inputs)
}

fn buffers_of(alloc: Global, all: &[Said]) -> Result<Seq<Bytes>, OutOfMemory>
    ensures { IfOk result (λ buffers. buffers ≡ flat_map buffer_said all.now) }
{
    let mut buffers = Seq::new(alloc);
    for one in all {
        match one {
            Said::Filled(bytes) => buffers.push(Bytes::from_slice(alloc, bytes.as_slice())?)?,
            Said::Turns(_) | Said::Given(_) => {}
        }
    }
    Ok(buffers)
}

/// The reading of words, in any order: `--turns=N` once, and `--input=V,V` and `--buffer=HEX` as often as they come.
/// None where a word has no reading, or the repeats are not said once. `OutOfMemory` where there is no memory for the reading.
#[tactic(auto, unfolding(crate::specs::EvalWords::eval_words))]
pub fn eval_words(alloc: Global, words: &[Bytes]) -> Result<Option<EvalWords>, OutOfMemory>
    ensures { IfOk result (λ found. found ≡ eval_words words.now) }
{
    let Some(all) = all_said(alloc, words)? else {
        return Ok(None);
    };
    let Some(turns) = turns_of(all.as_slice()) else {
        return Ok(None);
    };
    let inputs = inputs_of(alloc, all.as_slice())?;
    let buffers = buffers_of(alloc, all.as_slice())?;
    Ok(Some(EvalWords {
        turns,
        inputs,
        buffers,
    }))
}
