//! The words with which a shader is optimised.

ghost use Rattle.std.specs.Prelude.{◌≡◌, IfOk, IfSome, None, Some, false, true};
ghost use Rattle.std.specs.Option.{option_map, option_and_then};
ghost use Rattle.run_words.specs.RunWords.{all_said, also, begins_with_dashes, is_rules_alone, limited, named, nothing_said, run_words, said};
ghost use Rattle.eval_words.specs.EvalWords.{decimal_of};
ghost use Rattle.run_words.specs.Views.{given, meant, IsFew, SaysFew};

use arrayvec::ArrayVec;
use eval_words::decimal;
use nir_host::{Bytes, OutOfMemory};
use nir_lex::is_word;
use rule_term::{Names, Options};
use std::alloc::Global;

/// The most rewrites that a word may allow.
const MOST_REWRITES: u64 = 1_000_000;

/// What one word says.
#[derive(Clone, Copy)]
enum Said<'a> {
    /// How many rewrites there may be.
    Limit(u64),
    /// An option is set.
    Set(&'a [u8]),
    /// The steps are printed behind the shader.
    Remarks,
    /// Rules that are not accepted are left out.
    Skip,
}

/// What all words say: the limit on rewrites, where one is said; the names of options, in the order of their words; whether the
/// steps are printed behind the shader; and whether rules that are not accepted are left out.
#[derive(Drop)]
pub struct RunWords<'a> {
    pub limit: Option<u64>,
    pub names: ArrayVec<&'a [u8], 64>,
    pub remarks: bool,
    pub skip: bool,
}

/// A limit on rewrites.
fn limited(text: &[u8]) -> Option<Said<'_>>
    ensures value { option_map meant result ≡ option_and_then limited (decimal_of text.now) }
    ensures few { IfSome result SaysFew }
{
    let number = decimal(text)?;
    if number > MOST_REWRITES {
        return None;
    }
    Some(Said::Limit(number))
}

/// An option of this name.
fn named(text: &[u8]) -> Option<Said<'_>>
    ensures value { option_map meant result ≡ named text.now }
    ensures few { IfSome result SaysFew }
{
    if !is_word(text) {
        return None;
    }
    Some(Said::Set(text))
}

/// What a word says, None where it has no reading.
#[tactic(auto, unfolding(crate::specs::RunWords::said))]
fn said_by(word: &[u8]) -> Option<Said<'_>>
    ensures value { option_map meant result ≡ said word.now }
    ensures few { IfSome result SaysFew }
{
    if word.starts_with(b"--limit=") {
        return limited(&word[8..]);
    }
    if word.starts_with(b"--option=") {
        return named(&word[9..]);
    }
    if word == b"--remarks".as_slice() {
        return Some(Said::Remarks);
    }
    if word == b"--skip".as_slice() {
        return Some(Said::Skip);
    }
    None
}

impl<'a> RunWords<'a> {
    /// Nothing is said. This takes no memory.
    fn new() -> RunWords<'a>
        ensures value { given result ≡ nothing_said }
        ensures few { IsFew result }
    {
        RunWords {
            limit: None,
            names: ArrayVec::new(),
            remarks: false,
            skip: false,
        }
    }

    /// One thing more is said. Whether it may be: each but an option once, and at most 64 options.
    fn also(&mut self, one: Said<'a>) -> bool
        ensures goes { result ≡ true → also (given self.old) (meant one.entry) ≡ Some (given self.new) }
        ensures stops { result ≡ false → also (given self.old) (meant one.entry) ≡ None }
        ensures few { IsFew self.old → SaysFew one.entry → IsFew self.new }
    {
        match one {
            Said::Limit(number) => {
                if self.limit.is_some() {
                    return false;
                }
                self.limit = Some(number);
                true
            }
            Said::Set(name) => self.names.try_push(name).is_ok(),
            Said::Remarks => {
                if self.remarks {
                    return false;
                }
                self.remarks = true;
                true
            }
            Said::Skip => {
                if self.skip {
                    return false;
                }
                self.skip = true;
                true
            }
        }
    }

    /// The options that are set, with copies of their names.
    pub fn options(&self, alloc: Global) -> Result<Options, OutOfMemory>
        ensures { IfOk result (λ options. options.names ≡ (given self.now).names) }
    {
        let mut names = Names::new(alloc);
        for name in self.names.as_slice() {
            names.push(Bytes::from_slice(alloc, *name)?)?;
        }
        Ok(Options { names })
    }
}

/// What all of these words say, None where one has no reading or may not be said.
fn all_said<'a>(words: &'a [Bytes]) -> Option<RunWords<'a>>
    ensures value { option_map given result ≡ all_said nothing_said words.now }
    ensures few { IfSome result IsFew }
{
    let mut so_far = RunWords::new();
    for word in words {
        let one = said_by(word.as_slice())?;
        if !so_far.also(one) {
            return None;
        }
    }
    Some(so_far)
}

fn begins_with_dashes(word: &Bytes) -> bool
    ensures { result ≡ begins_with_dashes word.now }
{
    word.as_slice().starts_with(b"--")
}

/// The reading of words: RULES, which is any word that does not begin with `--`, and behind it in any order `--limit=N`, with a
/// decimal number of at most 1,000,000, `--option=NAME`, at most 64 times, with a word of the token rules, `--remarks` and `--skip`.
/// None where a word has no reading, or one but `--option=NAME` stands twice. This takes no memory.
#[tactic(auto, unfolding(crate::specs::RunWords::run_words))]
pub fn run_words<'a>(words: &'a [Bytes]) -> Option<RunWords<'a>>
    ensures value { option_map given result ≡ run_words words.now }
    ensures few { IfSome result IsFew }
{
    match words {
        [] => None,
        [rules, others @ ..] => {
            if begins_with_dashes(rules) {
                return None;
            }
            all_said(others)
        }
    }
}

/// Whether the words are RULES alone. This takes no memory.
#[tactic(auto, unfolding(crate::specs::RunWords::is_rules_alone))]
pub fn is_rules_alone(words: &[Bytes]) -> bool
    ensures { result ≡ is_rules_alone words.now }
{
    match words {
        [rules] => !begins_with_dashes(rules),
        [] | [_, _, ..] => false,
    }
}
