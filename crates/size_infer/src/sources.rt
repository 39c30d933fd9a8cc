//! What an opcode asks of the sizes of its result and its sources.

ghost use Rattle.std.specs.Prelude.{◌≡◌, ◌++◌, OnOk, map};
ghost use Rattle.size_infer.specs.Meant.{meant, never};
ghost use Rattle.size_laws.specs.NodeRules.{op_rules, source_rule, source_rules, unsized_place};

use crate::size_rule::{SizeRule, SizeRules};
use nir_host::OutOfMemory;
use nir_ops::{Op, OpInput, Width, info};
use rule_term::WidthSet;

/// Adds what the opcode at a place asks of it and of its sources, whose places these are.
pub(crate) fn add_op(
    op: Op,
    place: usize,
    sources: &[usize],
    rules: &mut SizeRules,
) -> Result<(), OutOfMemory>
    ensures { OnOk result (map meant rules.new ≡ map meant rules.old ++ op_rules op place sources.now) }
{
    let row = info(op);
    let free = unsized_place(row.out.size, place, sources);
    rules.push(SizeRule::Within {
        place: free,
        set: WidthSet::of_op(op),
    })?;
    rules.push(SizeRule::Within {
        place,
        set: WidthSet::written(row.out.size),
    })?;
    add_sources(row.inputs.as_slice(), free, sources, rules)
}

/// A node that has the unsized size: the result, or the first source where the result has a size of its own.
fn unsized_place(out: Option<Width>, place: usize, sources: &[usize]) -> usize
    ensures { result ≡ unsized_place out place sources.now }
{
    if out.is_none() {
        return place;
    }
    match sources.first() {
        Some(first) => *first,
        None => place,
    }
}

/// Adds that each source has the size of its input. An opcode that lacks sources or has too many has no sizes.
fn add_sources(
    inputs: &[OpInput],
    free: usize,
    sources: &[usize],
    rules: &mut SizeRules,
) -> Result<(), OutOfMemory>
    ensures { OnOk result (map meant rules.new ≡ map meant rules.old ++ source_rules (λ input. input.kind.size) free inputs.now sources.now) }
{
    for (at, source) in sources.iter().enumerate() {
        match inputs.get(at) {
            Some(input) => rules.push(source_rule(free, input.kind.size, *source))?,
            None => return add_never(free, rules),
        }
    }
    if sources.len() < inputs.len() {
        return add_never(free, rules);
    }
    Ok(())
}

/// What an input of this size asks of its source.
fn source_rule(free: usize, size: Option<Width>, source: usize) -> SizeRule
    ensures { meant result ≡ source_rule free size source }
{
    match size {
        Some(_) => SizeRule::Within {
            place: source,
            set: WidthSet::written(size),
        },
        None => SizeRule::Same {
            one: free,
            other: source,
        },
    }
}

/// Adds that a node has no size.
fn add_never(place: usize, rules: &mut SizeRules) -> Result<(), OutOfMemory>
    ensures { OnOk result (map meant rules.new ≡ map meant rules.old ++ never place) }
{
    rules.push(SizeRule::Within {
        place,
        set: WidthSet::empty(),
    })
}
