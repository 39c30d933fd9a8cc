//! What may fail at the outside, and how faults are counted. Want of memory is not here.

ghost use Rattle.std.specs.Prelude.{◌≡◌, ◌↔◌, IsTrue};
ghost use Rattle.std.specs.List.{Contains};
ghost use Rattle.nir_host.specs.Faults.{next_count};

/// A read or a write failed. Its source or sink has counted the fault.
#[derive(Clone, Copy, Debug, PartialEq, Eq)]
pub struct Failed;

/// Which of the two texts that are read an answer is about.
#[derive(Clone, Copy, Debug, PartialEq, Eq)]
pub enum Which {
    /// The text of the rules.
    Rules,
    /// The text of the shader.
    Shader,
}

// The count after one more, which stops at `u64::MAX`.
pub(crate) fn raised(count: u64) -> u64
    ensures { result ≡ next_count count }
{
    count.saturating_add(1)
}

// Whether the call of this number is one of those that are to fail.
pub(crate) fn is_failing(failing: &[u64], call: u64) -> bool
    ensures { IsTrue result ↔ Contains failing.now call }
{
    failing.contains(&call)
}
