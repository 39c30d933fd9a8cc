//! Texts of bytes, built at their end.
//!
//! A text is a `Vec<u8>` that grows. Each call adds one thing behind what stands there. Where it answers `OutOfMemory` the
//! text may still be read, but how much was added is not told.
#![tactic(auto)]

ghost use Rattle.std.specs.Prelude.{◌≡◌, ◌++◌, OnOk, decimal};
ghost use Rattle.text_bytes.specs.Lists.{numbers_text};

use itoa::Buffer;
use nir_host::OutOfMemory;

/// Adds bytes as they are. `OutOfMemory` where there is no memory for them.
pub fn push(out: &mut Vec<u8>, text: &[u8]) -> Result<(), OutOfMemory>
    ensures { OnOk result (out.new.items ≡ out.old.items ++ text.now) }
{
    match out.extend_from_slice(text) {
        Ok(()) => Ok(()),
        Err(_failed) => Err(OutOfMemory),
    }
}

/// Adds a number in unsigned decimal. `OutOfMemory` where there is no memory for it.
pub fn push_number(out: &mut Vec<u8>, number: u64) -> Result<(), OutOfMemory>
    ensures { OnOk result (out.new.items ≡ out.old.items ++ decimal number) }
{
    let mut buffer = Buffer::new();
    push(out, buffer.format(number).as_bytes())
}

/// Adds numbers in unsigned decimal, with a comma and a blank between them. `OutOfMemory` where there is no memory for
/// all of them.
pub fn push_numbers(out: &mut Vec<u8>, numbers: &[u64]) -> Result<(), OutOfMemory>
    ensures { OnOk result (out.new.items ≡ out.old.items ++ numbers_text numbers.now) }
{
    match numbers {
        [] => Ok(()),
        [first, rest @ ..] => {
            push_number(out, *first)?;
            for number in rest {
                push(out, b", ")?;
                push_number(out, *number)?;
            }
            Ok(())
        }
    }
}
