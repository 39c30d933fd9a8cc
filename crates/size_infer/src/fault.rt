//! Why the sizes of a rule are of no use.

ghost use Rattle.std.specs.Prelude.{◌≡◌};
ghost use Rattle.size_infer.specs.declared.fault.SizeFault.TheVariants.{OutOfMemory as NoMemory};

use nir_host::OutOfMemory;

/// Why a rule has no list of typings. A fault is told where those above it do not stand.
#[derive(Clone, Copy, Debug, PartialEq, Eq, Drop)]
pub enum SizeFault {
    /// The rule has no typing.
    Contradiction,
    /// Two typings agree on the search side and differ at this node of the replacement. Nodes are counted from 0 in
    /// preorder of the replacement, and this is the first such node.
    Ambiguous(u32),
    /// The rule has more than 64 typings.
    TooMany,
    /// There was no memory for the typings.
    OutOfMemory,
}

impl From<OutOfMemory> for SizeFault {
    ghost from_gives = { λ _ e. e ≡ NoMemory };

    fn from(_no_memory: OutOfMemory) -> SizeFault {
        SizeFault::OutOfMemory
    }
}
