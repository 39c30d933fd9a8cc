//! The evaluation of a shader.

ghost use Rattle.std.specs.Prelude.{◌≡◌, length, IfOk};
ghost use Rattle.nir_mean.specs.Outcome.{outcome};
ghost use Rattle.nir_mean.specs.Same.{InputsFit};
ghost use Rattle.nir_validate.specs.Typed.{IsTyped};

use crate::given::Given;
use crate::machine::Machine;
use crate::outcome::{Buffers, Inputs, Outcome};
use crate::run::run_body;
use crate::start::{start_buffers, start_outputs, start_table};
use crate::world::Outside;
use nir_host::{OutOfMemory, Seq};
use nir_ir::Shader;
use std::alloc::Global;

/// What the shader does for these inputs and contents of its buffers, where a loop goes back at most `turns` times for
/// each time that it is entered. The shader is typed, inputs fit its declarations, and there are as many buffers as it declares. It ends for every number
/// of turns, in time that grows with the steps that are run. `OutOfMemory` may come at any step.
pub fn evaluate(
    alloc: Global,
    shader: &Shader,
    inputs: &Inputs,
    buffers: &Buffers,
    turns: u64,
) -> Result<Outcome, OutOfMemory>
    requires typed { IsTyped shader.now }
    requires inputs { InputsFit shader.now.inputs inputs.now }
    requires buffers { length buffers.now ≡ shader.now.buffers }
    ensures { IfOk result (λ answer. answer ≡ outcome shader.now inputs.now buffers.now turns) }
{
    let given = Given {
        alloc,
        shader,
        inputs,
        turns,
    };
    let mut machine = Machine {
        table: start_table(alloc, shader)?,
        outside: Outside {
            buffers: start_buffers(alloc, buffers.as_slice())?,
            outputs: start_outputs(alloc, shader.outputs.as_slice())?,
            stores: Seq::new(alloc),
        },
        room: Vec::new(alloc),
    };
    let ending = run_body(&given, &mut machine)?;
    let Machine { outside, .. } = machine;
    let Outside {
        outputs,
        stores,
        ..
    } = outside;
    Ok(Outcome {
        ending,
        stores,
        outputs,
    })
}
