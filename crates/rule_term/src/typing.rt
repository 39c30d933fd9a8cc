//! Bit sizes for the nodes of a rule.

use nir_host::Seq;
use nir_ops::Width;

/// Bit sizes in the order of the nodes that they are for.
pub type Widths = Seq<Width>;

/// A bit size for each node of a rule: those of the search side in preorder, then those of the replacement.
#[derive(Debug, Drop)]
pub struct Typing {
    pub widths: Widths,
}
