//! The sources of a phi in the order of their blocks.

ghost use Rattle.std.specs.Prelude.{◌≡◌, ◌++◌, OnOk, IfOk, map};
ghost use Rattle.nir_print.specs.Naming.{in_block_order};
ghost use Rattle.text_bytes.specs.Lists.{listed};
ghost use Rattle.nir_print.specs.Text.{phi_source_text};

use crate::naming::Naming;
use crate::word::{push_block_name, push_value};
use nir_host::OutOfMemory;
use nir_ir::PhiSource;
use std::alloc::Global;
use text_bytes::push;

/// The sources in the order of their blocks in the text, those of one block in the order they had.
fn in_block_order(
    alloc: Global,
    naming: &Naming,
    sources: &[PhiSource],
) -> Result<Vec<PhiSource>, OutOfMemory>
    ensures { IfOk result (λ ordered. ordered.items ≡ in_block_order naming.now sources.now) }
{
    let mut ordered = Vec::from_slice(alloc, sources)?;
    ordered.sort_by_key(|source| naming.block_place(source.from))?;
    Ok(ordered)
}

fn push_phi_source(out: &mut Vec<u8>, naming: &Naming, source: PhiSource) -> Result<(), OutOfMemory>
    ensures { OnOk result (out.new.items ≡ out.old.items ++ phi_source_text naming.now source) }
{
    push_block_name(out, naming, source.from)?;
    push(out, b": ")?;
    push_value(out, naming, source.value)
}

fn push_listed(out: &mut Vec<u8>, naming: &Naming, sources: &[PhiSource]) -> Result<(), OutOfMemory>
    ensures { OnOk result (out.new.items ≡ out.old.items ++ listed (map (phi_source_text naming.now) sources.now)) }
{
    match sources {
        [] => Ok(()),
        [first, rest @ ..] => {
            push_phi_source(out, naming, *first)?;
            for source in rest {
                push(out, b", ")?;
                push_phi_source(out, naming, *source)?;
            }
            Ok(())
        }
    }
}

/// Adds the sources of a phi.
pub(crate) fn push_phi_sources(
    alloc: Global,
    out: &mut Vec<u8>,
    naming: &Naming,
    sources: &[PhiSource],
) -> Result<(), OutOfMemory>
    ensures { OnOk result (out.new.items
        ≡ out.old.items ++ listed (map (phi_source_text naming.now) (in_block_order naming.now sources.now))) }
{
    let ordered = in_block_order(alloc, naming, sources)?;
    push_listed(out, naming, ordered.as_slice())
}
