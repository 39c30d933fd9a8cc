//! The kinds of values.

use nir_host::Seq;
use nir_ops::Width;

/// The bit size of a value's components, and how many it has.
#[derive(Clone, Copy, Debug, PartialEq, Eq)]
pub struct Kind {
    pub width: Width,
    pub count: u8,
}

/// The kinds of declared slots, in slot order.
pub type Kinds = Seq<Kind>;
