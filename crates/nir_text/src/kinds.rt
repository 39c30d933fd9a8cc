//! The words of kinds.

ghost use Rattle.std.specs.Prelude.{◌≡◌, find};
ghost use Rattle.std.specs.Option.{option_map};
ghost use Rattle.std.specs.Str.{bytes_eq};
ghost use Rattle.nir_text.specs.Kinds.{kind_named};
ghost use Rattle.nir_text.specs.KindTable.{entries_of};

use nir_ir::Kind;
use nir_ops::Width;

/// The kind of a word, None where it is the word of no kind.
pub fn kind_named(word: &[u8]) -> Option<Kind>
    ensures { result ≡ kind_named word.now }
{
    first_with_word(&KIND_WORDS, word)
}

/// The word of each kind, with its bit size and number of components.
const KIND_WORDS: [(&[u8], Width, u8); 20] = [
    (b"w1x1", Width::W1, 1),
    (b"w1x2", Width::W1, 2),
    (b"w1x3", Width::W1, 3),
    (b"w1x4", Width::W1, 4),
    (b"w8x1", Width::W8, 1),
    (b"w8x2", Width::W8, 2),
    (b"w8x3", Width::W8, 3),
    (b"w8x4", Width::W8, 4),
    (b"w16x1", Width::W16, 1),
    (b"w16x2", Width::W16, 2),
    (b"w16x3", Width::W16, 3),
    (b"w16x4", Width::W16, 4),
    (b"w32x1", Width::W32, 1),
    (b"w32x2", Width::W32, 2),
    (b"w32x3", Width::W32, 3),
    (b"w32x4", Width::W32, 4),
    (b"w64x1", Width::W64, 1),
    (b"w64x2", Width::W64, 2),
    (b"w64x3", Width::W64, 3),
    (b"w64x4", Width::W64, 4),
];

/// The kind behind the first of the words that is this one.
fn first_with_word(words: &[(&[u8], Width, u8)], word: &[u8]) -> Option<Kind>
    ensures { result ≡ option_map (λ entry. entry.kind) (find (λ entry. bytes_eq entry.word word.now) (entries_of words.now)) }
{
    for entry in words {
        if entry.0 == word {
            return Some(Kind {
                width: entry.1,
                count: entry.2,
            });
        }
    }
    None
}
