//! The words of the program: a rule file, the number of a rule in it, and the number of one of the rule's typings.

ghost use Rattle.std.specs.Prelude.{◌≡◌};
ghost use Rattle.rule_clauses.specs.Words.{choice_of, number_in};

use eval_words::decimal;
use nir_host::Bytes;

/// A rule by its number in its file, and one of its typings by its number, both from 0.
#[derive(Clone, Copy, Debug, PartialEq, Eq)]
pub struct Choice {
    pub rule: u32,
    pub typing: u32,
}

/// A number below 2^32: decimal digits, which do not begin with 0 unless they are `0`.
fn number_in(word: &[u8]) -> Option<u32>
    ensures { result ≡ number_in word.now }
{
    let number = decimal(word)?;
    u32::try_from(number).ok()
}

/// The reading of words: RULES, which is any word that does not begin with `--`, RULE and TYPING. None where they have no reading. This
/// takes no memory.
#[tactic(auto, unfolding(crate::specs::Words::choice_of))]
pub fn choice_of(words: &[Bytes]) -> Option<Choice>
    ensures { result ≡ choice_of words.now }
{
    match words {
        [rules, rule, typing] => {
            if rules.as_slice().starts_with(b"--") {
                return None;
            }
            let rule = number_in(rule.as_slice())?;
            let typing = number_in(typing.as_slice())?;
            Some(Choice { rule, typing })
        }
        [] | [_] | [_, _] | [_, _, _, _, ..] => None,
    }
}
