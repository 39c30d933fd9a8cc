//! The faults of a rule text and of sizes: where they stand, and the words in which they are told.

ghost use Rattle.std.specs.Prelude.{◌≡◌};
ghost use Rattle.rule_clauses.specs.Answers.{fault_place, fault_what, is_of_sizes, is_of_text};

use nir_lex::LexFault;
use rule_read::RuleFault;
use size_infer::SizeFault;

/// Whether the text has the fault, which is no want of memory in reading it.
pub fn is_of_text(fault: &RuleFault) -> bool
    ensures { result ≡ is_of_text fault.now }
{
    match fault {
        RuleFault::Lex(LexFault::BadByte(_) | LexFault::BadNumber(_))
        | RuleFault::Expected(_)
        | RuleFault::UnknownOp(_)
        | RuleFault::Arity(_)
        | RuleFault::Unbound(_)
        | RuleFault::TooLarge(_)
        | RuleFault::BadOption(_)
        | RuleFault::Excluded(_)
        | RuleFault::Weight(_) => true,
        RuleFault::Lex(LexFault::OutOfMemory) | RuleFault::OutOfMemory => false,
    }
}

/// The place of a fault in its text, in bytes from the start; 0 for want of memory.
pub fn fault_place(fault: &RuleFault) -> u64
    ensures { result ≡ fault_place fault.now }
{
    match fault {
        RuleFault::Lex(LexFault::BadByte(place) | LexFault::BadNumber(place)) => *place,
        RuleFault::Expected(place)
        | RuleFault::UnknownOp(place)
        | RuleFault::Arity(place)
        | RuleFault::Unbound(place)
        | RuleFault::TooLarge(place)
        | RuleFault::BadOption(place)
        | RuleFault::Excluded(place)
        | RuleFault::Weight(place) => *place,
        RuleFault::Lex(LexFault::OutOfMemory) | RuleFault::OutOfMemory => 0,
    }
}

/// What a fault is called; nothing for want of memory.
pub fn fault_what(fault: &RuleFault) -> &'static [u8]
    ensures { result.now ≡ fault_what fault.now }
{
    match fault {
        RuleFault::Lex(LexFault::BadByte(_)) => b"bad byte",
        RuleFault::Lex(LexFault::BadNumber(_)) => b"bad number",
        RuleFault::Lex(LexFault::OutOfMemory) => b"",
        RuleFault::Expected(_) => b"unexpected",
        RuleFault::UnknownOp(_) => b"unknown opcode",
        RuleFault::Arity(_) => b"wrong number of sources",
        RuleFault::Unbound(_) => b"unbound variable",
        RuleFault::TooLarge(_) => b"too large",
        RuleFault::BadOption(_) => b"bad condition",
        RuleFault::Excluded(_) => b"left out",
        RuleFault::Weight(_) => b"bad weight",
        RuleFault::OutOfMemory => b"",
    }
}

/// Whether the sizes have the fault, which is no want of memory for them.
pub fn is_of_sizes(fault: SizeFault) -> bool
    ensures { result ≡ is_of_sizes fault }
{
    match fault {
        SizeFault::Contradiction | SizeFault::Ambiguous(_) | SizeFault::TooMany => true,
        SizeFault::OutOfMemory => false,
    }
}
