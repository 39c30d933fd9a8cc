//! Whether a shader is valid.

ghost use Rattle.std.specs.Prelude.{◌≡◌, ◌^◌, ◌<◌, IfErr, IfOk, OnOk, length};
ghost use Rattle.nir_ir.specs.Items.{items};
ghost use Rattle.nir_validate.specs.Answers.{IsFirstInvalid};
ghost use Rattle.nir_validate.specs.Valid.{Valid, first_round, least, second_round};

use crate::fault::{Fault, ValidateFault};
use crate::first::{Pass, pass_list};
use crate::kinds::kinds_of;
use crate::order::place_list;
use crate::second::second_round;
use nir_host::OutOfMemory;
use nir_ir::Shader;
use std::alloc::Global;

/// The first fault of the first round. More items than a number has room for are no answer: no memory
/// holds them.
fn first_round(alloc: Global, shader: &Shader) -> Result<Option<Fault>, OutOfMemory>
    ensures found { IfOk result (λ found. found ≡ least (first_round shader.now)) }
    ensures items_few { IfOk result (λ found. length (items shader.now.body) < 2 ^ 64) }
{
    let kinds = kinds_of(alloc, shader)?;
    let placed = place_list(shader.body.as_slice(), 0, Pass { at: 0, found: None });
    if placed.at == u64::MAX {
        return Err(OutOfMemory);
    }
    let start = Pass {
        at: 0,
        found: placed.found,
    };
    let passed = pass_list(
        kinds.as_slice(),
        shader,
        shader.body.as_slice(),
        false,
        start,
    );
    Ok(passed.found)
}

/// Ok exactly where the shader is valid (`specs/Valid.antt`). Else `Invalid` tells the first rule that it
/// breaks: the first round looks at rules 1, 2, 3, 4, 8 and 9, and the second, where the first finds nothing,
/// at 5, 6 and 7. In a round the fault with the least item is told, and for one item the least rule.
/// `OutOfMemory` comes where there is no memory for the tables, which are in proportion to the number of
/// items and to `next_value`.
#[tactic(auto, using(crate::specs::Answers::by_rounds))]
pub fn validate(alloc: Global, shader: &Shader) -> Result<(), ValidateFault>
    ensures valid { OnOk result (Valid shader.now) }
    ensures invalid { IfErr result (λ fault. IsFirstInvalid shader.now fault) }
{
    match first_round(alloc, shader) {
        Ok(Some(fault)) => return Err(ValidateFault::Invalid {
            rule: fault.rule,
            item: fault.item,
        }),
        Ok(None) => {}
        Err(OutOfMemory) => return Err(ValidateFault::OutOfMemory),
    }
    match second_round(alloc, shader) {
        Ok(Some(fault)) => Err(ValidateFault::Invalid {
            rule: fault.rule,
            item: fault.item,
        }),
        Ok(None) => Ok(()),
        Err(OutOfMemory) => Err(ValidateFault::OutOfMemory),
    }
}
