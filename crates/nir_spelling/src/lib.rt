//! How a shader is spelled: the grammar of shader texts, and that its texts are exactly those that
//! are read as the shader.
#![tactic(auto)]

ghost use Rattle.nir_spelling.specs.Laws.{
  NamesAreFound,
  ReadIsSpelled,
  SpelledIsRead,
  SpelledSignsAreRead,
};

use nir_lex::tokens_are_in_order;

/// A text that is read as a shader spells it, under names that resolve, and is within the limits.
pub fn read_is_spelled()
    ensures { ReadIsSpelled }
{
    tokens_are_in_order();
}

/// A text that spells a shader, under names that resolve and within the limits, is read as it.
pub fn spelled_is_read()
    ensures texts { SpelledIsRead }
    // So are the tokens themselves, wherever they stand.
    ensures tokens { SpelledSignsAreRead }
    // The names that are found in it are those under which it is spelled.
    ensures names { NamesAreFound }
{}
