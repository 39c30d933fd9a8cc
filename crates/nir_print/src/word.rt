//! The words of a text, each added at the end of what is written.

ghost use Rattle.std.specs.Prelude.{◌≡◌, ◌++◌, OnOk, codes, get_or, map};
ghost use Rattle.std.specs.List.{range_with_len};
ghost use Rattle.std.specs.Str.{bytes_eq};
ghost use Rattle.text_bytes.specs.Lists.{listed};
ghost use Rattle.nir_spelling.specs.Spelling.{kind_word, swizzle_word};
ghost use Rattle.nir_print.specs.Text.{value_text, block_name, is_whole, src_text};

use crate::naming::Naming;
use nir_host::OutOfMemory;
use nir_ir::{BlockId, Kind, Src, ValueId};
use text_bytes::{push, push_number};

/// Adds a kind.
pub(crate) fn push_kind(out: &mut Vec<u8>, kind: Kind) -> Result<(), OutOfMemory>
    ensures { OnOk result (out.new.items ≡ out.old.items ++ kind_word kind) }
{
    push(out, b"w")?;
    push_number(out, u64::from(kind.width.bits()))?;
    push(out, b"x")?;
    push_number(out, u64::from(kind.count))
}

/// Adds the name of a value.
pub(crate) fn push_value(
    out: &mut Vec<u8>,
    naming: &Naming,
    value: ValueId,
) -> Result<(), OutOfMemory>
    ensures { OnOk result (out.new.items ≡ out.old.items ++ value_text naming.now value) }
{
    push(out, b"%")?;
    push_number(out, naming.value_place(value) as u64)
}

/// Adds the name of a block.
pub(crate) fn push_block_name(
    out: &mut Vec<u8>,
    naming: &Naming,
    block: BlockId,
) -> Result<(), OutOfMemory>
    ensures { OnOk result (out.new.items ≡ out.old.items ++ block_name naming.now block) }
{
    push(out, b"b")?;
    push_number(out, naming.block_place(block) as u64)
}

/// The letter of a component; 0 for a number of none, which no source of a shader has.
fn letter(component: u8) -> u8
    ensures { result ≡ get_or (codes "xyzw") component 0 }
{
    match component {
        0 => b'x',
        1 => b'y',
        2 => b'z',
        3 => b'w',
        _ => 0,
    }
}

/// Adds the letters of a swizzle.
fn push_letters(out: &mut Vec<u8>, swizzle: &[u8]) -> Result<(), OutOfMemory>
    ensures { OnOk result (out.new.items ≡ out.old.items ++ swizzle_word swizzle.now) }
{
    for component in swizzle {
        push(out, &[letter(*component)])?;
    }
    Ok(())
}

/// Whether a swizzle is the numbers from 0 to below the count, in order.
fn is_in_order(swizzle: &[u8], count: u8) -> bool
    ensures { result ≡ bytes_eq swizzle.now (range_with_len 0 count) }
{
    let mut next = 0;
    for component in swizzle {
        if next == count {
            return false;
        }
        if *component != next {
            return false;
        }
        next += 1;
    }
    next == count
}

/// Whether a source takes all components of its value in order.
fn is_whole(naming: &Naming, src: &Src) -> bool
    ensures { result ≡ is_whole naming.now src.now }
{
    match naming.kind_of(src.value) {
        Some(kind) => is_in_order(src.swizzle.as_slice(), kind.count),
        None => false,
    }
}

/// Adds a source of an ALU instruction.
fn push_src(out: &mut Vec<u8>, naming: &Naming, src: &Src) -> Result<(), OutOfMemory>
    ensures { OnOk result (out.new.items ≡ out.old.items ++ src_text naming.now src.now) }
{
    push_value(out, naming, src.value)?;
    if is_whole(naming, src) {
        return Ok(());
    }
    push(out, b".")?;
    push_letters(out, src.swizzle.as_slice())
}

/// Adds the sources of an ALU instruction.
pub(crate) fn push_srcs(out: &mut Vec<u8>, naming: &Naming, srcs: &[Src]) -> Result<(), OutOfMemory>
    ensures { OnOk result (out.new.items ≡ out.old.items ++ listed (map (src_text naming.now) srcs.now)) }
{
    match srcs {
        [] => Ok(()),
        [first, rest @ ..] => {
            push_src(out, naming, first)?;
            for src in rest {
                push(out, b", ")?;
                push_src(out, naming, src)?;
            }
            Ok(())
        }
    }
}

/// Adds the kinds of a declaration.
pub(crate) fn push_kinds(out: &mut Vec<u8>, kinds: &[Kind]) -> Result<(), OutOfMemory>
    ensures { OnOk result (out.new.items ≡ out.old.items ++ listed (map kind_word kinds.now)) }
{
    match kinds {
        [] => Ok(()),
        [first, rest @ ..] => {
            push_kind(out, *first)?;
            for kind in rest {
                push(out, b", ")?;
                push_kind(out, *kind)?;
            }
            Ok(())
        }
    }
}
