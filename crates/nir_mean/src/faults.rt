//! Faults of a shader text, as they are told.

ghost use Rattle.std.specs.Prelude.{◌≡◌, codes};
ghost use Rattle.nir_mean.specs.Faults.{fault_place, fault_what, is_of_text};

use nir_lex::LexFault;
use nir_text::TextFault;

/// Whether it is a fault that the text has, and no want of memory in reading it.
pub fn is_of_text(fault: &TextFault) -> bool
    ensures { result ≡ is_of_text fault.now }
{
    match fault {
        TextFault::Lex(LexFault::BadByte(_) | LexFault::BadNumber(_))
        | TextFault::Expected(_)
        | TextFault::UnknownOp(_)
        | TextFault::UnknownName(_)
        | TextFault::Twice(_)
        | TextFault::TooDeep(_)
        | TextFault::TooMany(_) => true,
        TextFault::Lex(LexFault::OutOfMemory) | TextFault::OutOfMemory => false,
    }
}

/// Where the text has the fault, in bytes from its start.
pub fn fault_place(fault: &TextFault) -> u64
    ensures { result ≡ fault_place fault.now }
{
    match fault {
        TextFault::Lex(LexFault::BadByte(place) | LexFault::BadNumber(place))
        | TextFault::Expected(place)
        | TextFault::UnknownOp(place)
        | TextFault::UnknownName(place)
        | TextFault::Twice(place)
        | TextFault::TooDeep(place)
        | TextFault::TooMany(place) => *place,
        TextFault::Lex(LexFault::OutOfMemory) | TextFault::OutOfMemory => 0,
    }
}

/// What the fault is called in its line.
pub fn fault_what(fault: &TextFault) -> &'static [u8]
    ensures { result.now ≡ fault_what fault.now }
{
    match fault {
        TextFault::Lex(LexFault::BadByte(_)) => b"bad byte",
        TextFault::Lex(LexFault::BadNumber(_)) => b"bad number",
        TextFault::Expected(_) => b"unexpected",
        TextFault::UnknownOp(_) => b"unknown opcode",
        TextFault::UnknownName(_) => b"unknown name",
        TextFault::Twice(_) => b"named twice",
        TextFault::TooDeep(_) => b"too deep",
        TextFault::TooMany(_) => b"too many",
        TextFault::Lex(LexFault::OutOfMemory) | TextFault::OutOfMemory => b"",
    }
}
