//! What is wrong with a shader.

ghost use Rattle.std.specs.Prelude.{◌≡◌, Some};
ghost use Rattle.nir_validate.specs.Least.{sooner};
ghost use Rattle.nir_validate.specs.Valid.{is_before, least, unless};

/// Why no answer that the shader is valid was given.
#[derive(Clone, Copy, Debug, PartialEq, Eq)]
pub enum ValidateFault {
    /// The first rule that is broken, from 1 to 9, and the item that breaks it. Items are numbered
    /// from 0 in text order: each block's head, phis, instructions and jump, and each head of an if or a loop.
    Invalid { rule: u8, item: u64 },
    /// No memory for the tables.
    OutOfMemory,
}

/// A rule, and an item that breaks it.
#[derive(Clone, Copy, Debug, PartialEq, Eq)]
pub struct Fault {
    pub rule: u8,
    pub item: u64,
}

/// Whether one fault comes before another: at a lesser item, and at one item where its rule is less.
fn is_before(a: Fault, b: Fault) -> bool
    ensures { result ≡ is_before a b }
{
    if a.item < b.item {
        return true;
    }
    if a.item > b.item {
        return false;
    }
    a.rule < b.rule
}

/// The earlier of what was found and a further fault.
pub(crate) fn sooner(found: Option<Fault>, other: Fault) -> Option<Fault>
    ensures { result ≡ sooner found (Some other) }
{
    match found {
        None => Some(other),
        Some(fault) => if is_before(other, fault) {
            Some(other)
        } else {
            Some(fault)
        },
    }
}

/// What was found, or the fault where a rule is not kept.
pub(crate) fn kept(found: Option<Fault>, is_kept: bool, rule: u8, item: u64) -> Option<Fault>
    ensures { result ≡ sooner found (least (unless is_kept rule item)) }
{
    if is_kept {
        found
    } else {
        sooner(found, Fault { rule, item })
    }
}
