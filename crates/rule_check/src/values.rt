//! The values of a rule's variables.

use nir_host::Seq;

/// The values of a rule's variables, in the order of their numbers.
pub type Values = Seq<u64>;
