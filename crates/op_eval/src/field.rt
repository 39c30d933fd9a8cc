//! Fields of bits in words of 32 bits.

ghost use Rattle.std.specs.Prelude.{◌≡◌, ◌<◌, ◌^◌, ◌-◌, ◌*◌, ◌%◌, pos, cond, ◌==◌};
ghost use Rattle.std.specs.Int.Count.{count_trailing_zeros};
ghost use Rattle.op_eval.specs.Word.{residue, signed, picked, field, signed_field};

/// x modulo 32 ones from place y modulo 32 on.
#[tactic(auto, unfolding(crate::specs::Word::residue))]
pub fn bfm(x: u64, y: u64) -> u64
    requires x { x < 2 ^ 32 }
    requires y { y < 2 ^ 32 }
    ensures { result ≡ residue 32 (pos ((2 ^ (x % 32) - 1) * 2 ^ (y % 32))) }
{
    let ones = (1u64 << (x % 32)) - 1;
    (ones << (y % 32)) & 0xffff_ffff
}

/// y raised to the lowest 1 of the mask x, where the mask has 1, and z where it has 0; z where the mask is 0.
#[tactic(auto, unfolding(crate::specs::Word::residue, crate::specs::Word::picked))]
pub fn bfi(x: u64, y: u64, z: u64) -> u64
    requires x { x < 2 ^ 32 }
    requires y { y < 2 ^ 32 }
    requires z { z < 2 ^ 32 }
    ensures { result ≡ residue 32 (cond (x == 0) (pos z) (pos (picked 32 x (y * 2 ^ count_trailing_zeros 64 x) z))) }
{
    if x == 0 {
        return z;
    }
    let raised = y << x.trailing_zeros();
    (x & raised) | ((0xffff_ffff - x) & z)
}

/// z modulo 32 bits of x from place y modulo 32 on.
pub fn ubfe(x: u64, y: u64, z: u64) -> u64
    requires x { x < 2 ^ 32 }
    requires y { y < 2 ^ 32 }
    requires z { z < 2 ^ 32 }
    ensures { result ≡ residue 32 (cond (z % 32 == 0) (pos 0) (pos (field x (y % 32) (z % 32)))) }
{
    let count = z % 32;
    if count == 0 {
        return 0;
    }
    low_bits(x >> (y % 32), count)
}

/// z modulo 32 bits of x from place y modulo 32 on, read as signed; what is left from the place on where they would pass the top.
#[tactic(auto, using(crate::proofs::ShiftLemmas::floor_div_shr), unfolding(crate::specs::Word::residue, crate::specs::Word::signed, crate::specs::Word::signed_field))]
pub fn ibfe(x: u64, y: u64, z: u64) -> u64
    requires x { x < 2 ^ 32 }
    requires y { y < 2 ^ 32 }
    requires z { z < 2 ^ 32 }
    ensures { result ≡ residue 32 (cond (z % 32 == 0) (pos 0) (signed_field x (y % 32) (z % 32))) }
{
    let place = y % 32;
    let count = z % 32;
    if count == 0 {
        return 0;
    }
    if place + count < 32 {
        return signed_bits(low_bits(x >> place, count), count);
    }
    let read = (x as u32).cast_signed();
    (read >> (place as u32)).cast_unsigned() as u64
}

/// The lowest bits of a number.
fn low_bits(number: u64, count: u64) -> u64
    requires { count < 64 }
    ensures { result ≡ number % 2 ^ count }
{
    number & ((1 << count) - 1)
}

/// A word of fewer than 32 bits, read as signed, in 32 bits.
fn signed_bits(word: u64, count: u64) -> u64
    requires some { 0 < count }
    requires count { count < 32 }
    requires word { word < 2 ^ count }
    ensures { result ≡ residue 32 (signed count word) }
{
    if word < (1 << (count - 1)) {
        word
    } else {
        word + 0x1_0000_0000 - (1 << count)
    }
}
