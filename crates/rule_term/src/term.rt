//! Terms: variables, numbers, and opcodes over terms.

use crate::cond::Cond;
use nir_host::Seq;
use nir_ops::{Op, Width};

/// The sources of an opcode in a term.
pub type Terms = Seq<Term>;

/// One side of a rule, or a part of it.
#[derive(Debug, Drop)]
pub enum Term {
    /// A variable by its number. `constant` asks for a const; a size is that of the value.
    Var {
        var: u32,
        constant: bool,
        size: Option<Width>,
        cond: Option<Cond>,
    },
    /// A number, read modulo 2 to the bit size. `boolean` asks for one bit.
    Lit {
        value: i128,
        boolean: bool,
    },
    /// An opcode over its sources. A size is that of the result; `once` asks for exactly one use of it.
    App {
        op: Op,
        size: Option<Width>,
        once: bool,
        args: Terms,
    },
}
