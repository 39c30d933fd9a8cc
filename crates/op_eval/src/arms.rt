//! The macros that lay out the arms of a function for 8, 16, 32 and 64 bits, with another for one bit.

/// The result over the unsigned type of each bit size.
macro_rules! unsigned {
    ($width:expr, ($($x:ident),+), $one_bit:expr, $out:expr) => {
        match $width {
            Width::W1 => $one_bit,
            Width::W8 => { $(let $x = $x as u8;)+ $out as u64 }
            Width::W16 => { $(let $x = $x as u16;)+ $out as u64 }
            Width::W32 => { $(let $x = $x as u32;)+ $out as u64 }
            Width::W64 => $out as u64,
        }
    };
}

/// The result over the signed type of each bit size, where the result is a word.
macro_rules! signed_words {
    ($width:expr, ($($x:ident),+), $one_bit:expr, $out:expr) => {
        match $width {
            Width::W1 => $one_bit,
            Width::W8 => { $(let $x = ($x as u8).cast_signed();)+ $out }
            Width::W16 => { $(let $x = ($x as u16).cast_signed();)+ $out }
            Width::W32 => { $(let $x = ($x as u32).cast_signed();)+ $out }
            Width::W64 => { $(let $x = $x.cast_signed();)+ $out }
        }
    };
}

/// The result over the signed type of each bit size, where the result is of that type.
macro_rules! signed {
    ($width:expr, ($($x:ident),+), $one_bit:expr, $out:expr) => {
        match $width {
            Width::W1 => $one_bit,
            Width::W8 => { $(let $x = ($x as u8).cast_signed();)+ ($out).cast_unsigned() as u64 }
            Width::W16 => { $(let $x = ($x as u16).cast_signed();)+ ($out).cast_unsigned() as u64 }
            Width::W32 => { $(let $x = ($x as u32).cast_signed();)+ ($out).cast_unsigned() as u64 }
            Width::W64 => { $(let $x = $x.cast_signed();)+ ($out).cast_unsigned() }
        }
    };
}

/// The result over the unsigned type of each bit size, of words that are raised by half of the power of the bit size
/// and of a result that is lowered by it, so that words stand in the order of their signed readings.
macro_rules! biased {
    ($width:expr, ($($x:ident),+), $one_bit:expr, $out:expr) => {
        match $width {
            Width::W1 => $one_bit,
            Width::W8 => { $(let $x = ($x as u8).wrapping_add(0x80);)+ ($out).wrapping_add(0x80) as u64 }
            Width::W16 => { $(let $x = ($x as u16).wrapping_add(0x8000);)+ ($out).wrapping_add(0x8000) as u64 }
            Width::W32 => { $(let $x = ($x as u32).wrapping_add(0x8000_0000);)+ ($out).wrapping_add(0x8000_0000) as u64 }
            Width::W64 => {
                $(let $x = $x.wrapping_add(0x8000_0000_0000_0000);)+
                ($out).wrapping_add(0x8000_0000_0000_0000)
            }
        }
    };
}

/// The high word of a signed product, by a product in the signed type of twice the bits.
macro_rules! wide_product {
    ($x:ident, $y:ident, $word:ty, $wide:ty, $bits:literal) => {{
        let left = ($x as $word).cast_signed() as $wide;
        let right = ($y as $word).cast_signed() as $wide;
        ((left * right).cast_unsigned() >> $bits) as u64
    }};
}

pub(crate) use biased;
pub(crate) use signed;
pub(crate) use signed_words;
pub(crate) use unsigned;
pub(crate) use wide_product;
