//! The run of a shader: step by step, by a stack of lists.

ghost use Rattle.std.specs.Prelude.{◌≡◌, ◌+◌, cond, nat_eq, None, IfOk, OnOk};
ghost use Rattle.nir_ir.specs.Nodes.{nodes_of};
ghost use Rattle.nir_mean.specs.Frames.{FramesSound, Stepped, cost, frames_cost, outcome_after};
ghost use Rattle.nir_mean.specs.Run.{run_list, scalar};
ghost use Rattle.nir_mean.specs.Same.{InputsFit};
ghost use Rattle.nir_mean.specs.Seen.{inputs_of, setting_of, shader_of, state_of, world_seen};
ghost use Rattle.nir_mean.specs.Outcome.{outcome_of, told};
ghost use Rattle.nir_mean.specs.Sound.{NodesSound};
ghost use Rattle.nir_mean.specs.Table.{IsTable, values_of};

use crate::frames::{Frame, Step, Turn, fall, jump, push};
use crate::given::Given;
use crate::machine::Machine;
use crate::outcome::Ending;
use nir_host::OutOfMemory;
use nir_ir::{BlockId, Node, ValueId};

/// The list of an if that is run: the first where the condition is 1.
fn chosen<'a>(
    machine: &Machine,
    condition: ValueId,
    first: &'a [Node],
    second: &'a [Node],
) -> &'a [Node]
    ensures { result.now ≡ cond (nat_eq (scalar (values_of machine.now.table.views) condition) 1) first.now second.now }
{
    if machine.table.scalar(condition) == 1 {
        first
    } else {
        second
    }
}

/// Runs the first node of a list, or goes on where the list has ended.
fn step<'a>(
    given: &Given<'a>,
    machine: &mut Machine,
    stack: &mut Vec<Frame<'a>>,
    nodes: &'a [Node],
    from: Option<BlockId>,
) -> Result<Step<'a>, OutOfMemory>
    requires table { IsTable (shader_of given.now) machine.old.table.views }
    requires inputs { InputsFit (shader_of given.now).inputs (inputs_of given.now) }
    requires frames { FramesSound (shader_of given.now) stack.old.items }
    requires nodes { NodesSound (shader_of given.now) (nodes_of nodes.now) }
    ensures step { IfOk result (λ step. Stepped (shader_of given.now) (setting_of given.now) (outcome_after (setting_of given.now) stack.old.items (run_list (setting_of given.now) (nodes_of nodes.now) from (state_of machine.old))) (cost given.now.turns (nodes_of nodes.now) + frames_cost given.now.turns stack.old.items) stack.new.items (state_of machine.new) step) }
    ensures table { OnOk result (IsTable (shader_of given.now) machine.new.table.views) }
{
    match nodes.split_first() {
        None => {
            let step = fall(given, stack, from)?;
            Ok(step)
        }
        Some((node, rest)) => match node {
            Node::Block(block) => {
                machine.run_block(given, from, block)?;
                let step = jump(given, stack, block, rest)?;
                Ok(step)
            }
            Node::If { cond, yes, no, .. } => {
                let nodes = chosen(machine, *cond, yes.as_slice(), no.as_slice());
                push(stack, Frame::Rest(rest))?;
                Ok(Step::Run { nodes, from })
            }
            Node::Loop { body, .. } => {
                let body = body.as_slice();
                push(stack, Frame::Rest(rest))?;
                push(
                    stack,
                    Frame::Again(Turn {
                        body,
                        left: given.turns,
                    }),
                )?;
                Ok(Step::Run { nodes: body, from })
            }
        },
    }
}

/// Runs the body of a shader, and says how the run ends.
pub(crate) fn run_body(given: &Given<'_>, machine: &mut Machine) -> Result<Ending, OutOfMemory>
    requires table { IsTable (shader_of given.now) machine.old.table.views }
    requires inputs { InputsFit (shader_of given.now).inputs (inputs_of given.now) }
    requires body { NodesSound (shader_of given.now) (shader_of given.now).body }
    ensures { IfOk result (λ ending. told ending (world_seen machine.new.outside) ≡ outcome_of (run_list (setting_of given.now) (shader_of given.now).body None (state_of machine.old))) }
{
    let mut stack = Vec::new(given.alloc);
    let shader = given.shader;
    let mut nodes = shader.body.as_slice();
    let mut from = None;
    'steps: loop {
        match step(given, machine, &mut stack, nodes, from)? {
            Step::Run {
                nodes: next,
                from: last,
            } => {
                nodes = next;
                from = last;
            }
            Step::End(ending) => return Ok(ending),
        }
    }
}
