//! Swizzles.

ghost use Rattle.std.specs.Prelude.{◌≡◌, ◌≤◌, ◌<◌, length};
ghost use Rattle.std.specs.List.{range_with_len};
ghost use Rattle.nir_text.specs.Instrs.{letter_of, letters_of, swizzle_of};

use nir_ir::Swizzle;

/// The component that a letter names.
fn letter_of(byte: u8) -> Option<u8>
    ensures { result ≡ letter_of byte }
{
    match byte {
        b'x' => Some(0),
        b'y' => Some(1),
        b'z' => Some(2),
        b'w' => Some(3),
        _ => None,
    }
}

/// The components that the letters name, in order.
fn letters_of(letters: &[u8]) -> Option<Swizzle>
    requires { length letters.now ≤ 16 }
    ensures { result ≡ letters_of letters.now }
{
    let mut swizzle = Swizzle::new();
    for byte in letters {
        match letter_of(*byte) {
            Some(component) => swizzle.push(component),
            None => return None,
        }
    }
    Some(swizzle)
}

/// The swizzle that a word of 1 to 4 letters names.
#[tactic(auto, unfolding(crate::specs::Instrs::swizzle_of))]
pub fn swizzle_of(word: &[u8]) -> Option<Swizzle>
    ensures { result ≡ swizzle_of word.now }
{
    if word.is_empty() || word.len() > 4 {
        return None;
    }
    letters_of(word)
}

/// All components of a value, in order.
pub fn all_components(count: u8) -> Swizzle
    requires { count ≤ 4 }
    ensures { result ≡ range_with_len 0 count }
{
    let mut swizzle = Swizzle::new();
    for component in 0..count {
        swizzle.push(component);
    }
    swizzle
}
