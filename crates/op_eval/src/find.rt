//! Counts and places of bits.

ghost use Rattle.std.specs.Prelude.{◌≡◌, ◌<◌, ◌^◌, pos, cond, nat_lt};
ghost use Rattle.std.specs.Int.{w32, reverse_bits};
ghost use Rattle.std.specs.Int.RustNames.{count_ones};
ghost use Rattle.op_eval.specs.Word.{residue, negated, highest_one, lowest_one};

/// The place of no bit: -1 in 32 bits.
const NO_PLACE: u64 = 0xffff_ffff;

/// How many bits are 1.
#[tactic(auto, unfolding(crate::specs::Word::residue))]
pub fn bit_count(x: u64) -> u64
    requires { x < 2 ^ 64 }
    ensures { result ≡ residue 32 (pos (count_ones x)) }
{
    x.count_ones() as u64
}

/// The place of the highest 1, and -1 for 0.
#[tactic(auto, unfolding(crate::specs::Word::residue, crate::specs::Word::highest_one))]
pub fn ufind_msb(x: u64) -> u64
    requires { x < 2 ^ 64 }
    ensures { result ≡ residue 32 (highest_one x) }
{
    if x == 0 {
        return NO_PLACE;
    }
    (63 - x.leading_zeros()) as u64
}

/// The place of the lowest 1, and -1 for 0.
#[tactic(auto, unfolding(crate::specs::Word::residue, crate::specs::Word::lowest_one))]
pub fn find_lsb(x: u64) -> u64
    requires { x < 2 ^ 64 }
    ensures { result ≡ residue 32 (lowest_one x) }
{
    if x == 0 {
        return NO_PLACE;
    }
    x.trailing_zeros() as u64
}

/// The place of the highest bit of 32 that differs from bit 31, and -1 where none does.
pub fn ifind_msb(x: u64) -> u64
    requires { x < 2 ^ 32 }
    ensures { result ≡ residue 32 (highest_one (cond (nat_lt x (2 ^ 31)) x (negated 32 x))) }
{
    if x < 0x8000_0000 {
        ufind_msb(x)
    } else {
        ufind_msb(0xffff_ffff - x)
    }
}

/// The 32 bits in the other order.
#[tactic(auto, unfolding(crate::specs::Word::residue))]
pub fn bitfield_reverse(x: u64) -> u64
    requires { x < 2 ^ 32 }
    ensures { result ≡ residue 32 (pos (reverse_bits w32 x)) }
{
    (x as u32).reverse_bits() as u64
}
