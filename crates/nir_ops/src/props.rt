//! The marks of an opcode.

ghost use Rattle.std.specs.Prelude.{⊤, [], ◌∷◌, codes};

use bitflags::{Flag, Flags, bitflag_items};

/// A set of marks of an opcode. Contracts see its bits.
#[derive(Clone, Copy, Debug, PartialEq, Eq)]
pub struct Props(u8);

bitflag_items! {
    impl Props: u8 {
        const COMMUTATIVE = 1;
        const ASSOCIATIVE = 2;
    }
}

impl Props {
    /// No mark.
    pub const NONE: Props = Props(0);

    /// Both marks.
    pub const BOTH: Props = Props(3);
}

impl Flags for Props {
    type Bits = u8;

    ghost exact = { ⊤ };

    ghost table = { (codes "COMMUTATIVE", 1) ∷ (codes "ASSOCIATIVE", 2) ∷ [] };

    ghost set_of = { λ p. p.0 };

    fn flags<'a>() -> &'a [Flag<Props>] {
        Props::FLAGS
    }

    fn bits(&self) -> u8 {
        self.0
    }

    fn from_bits_retain(bits: u8) -> Props {
        Props(bits)
    }
}
