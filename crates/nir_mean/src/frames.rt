//! The stack of lists: what is still to be run when a list ends.

ghost use Rattle.std.specs.Prelude.{◌≡◌, ◌+◌, ◌≤◌, [], ◌∷◌, ◌++◌, Option, Some, IfSome, IfNone, OnOk, IfOk};
ghost use Rattle.nir_ir.specs.declared.ids.BlockId.{BlockId as block_id};
ghost use Rattle.nir_ir.specs.Nodes.{nodes_of};
ghost use Rattle.nir_mean.specs.Frames.{FramesSound, Stepped, cost, frames_cost, left_by, outcome_after, resumed, turn_cost, turn_cost_of, turned};
ghost use Rattle.nir_mean.specs.Run.{Break as broken, Continue as going_on, Fall as fallen, after_fall, jump_exit, run_list};
ghost use Rattle.nir_mean.specs.Seen.{setting_of, shader_of};
ghost use Rattle.nir_mean.specs.Sound.{NodesSound};
ghost use Rattle.nir_mean.specs.State.{State};

use crate::given::Given;
use crate::outcome::Ending;
use nir_host::OutOfMemory;
use nir_ir::{Block, BlockId, Jump, Node};

/// The body of a loop, and how often it may be run again.
#[derive(Clone, Copy)]
pub(crate) struct Turn<'a> {
    pub body: &'a [Node],
    pub left: u64,
}

/// What is to be run when a list ends.
#[derive(Clone, Copy)]
pub(crate) enum Frame<'a> {
    /// The rest of the list around an if or a loop.
    Rest(&'a [Node]),
    /// The body of a loop.
    Again(Turn<'a>),
}

/// What a run does next.
#[derive(Clone, Copy)]
pub(crate) enum Step<'a> {
    /// It runs a list, from the block that control came from.
    Run {
        nodes: &'a [Node],
        from: Option<BlockId>,
    },
    /// It ends.
    End(Ending),
}

/// Puts a frame on the stack.
pub(crate) fn push<'a>(stack: &mut Vec<Frame<'a>>, frame: Frame<'a>) -> Result<(), OutOfMemory>
    ensures { OnOk result (stack.new.items ≡ stack.old.items ++ frame.entry ∷ []) }
{
    match stack.push(frame) {
        Ok(()) => Ok(()),
        Err(_failed) => Err(OutOfMemory),
    }
}

/// Goes back to the start of a loop, or cuts the run where no repeat is left.
fn go_back<'a>(
    given: &Given<'_>,
    stack: &mut Vec<Frame<'a>>,
    from: Option<BlockId>,
    turn: Turn<'a>,
) -> Result<Step<'a>, OutOfMemory>
    requires frames { FramesSound (shader_of given.now) stack.old.items }
    requires body { NodesSound (shader_of given.now) (nodes_of turn.body.now) }
    ensures { IfOk result (λ step. (state : State) → Stepped (shader_of given.now) (setting_of given.now) (outcome_after (setting_of given.now) stack.old.items (turned (setting_of given.now) turn.entry.left (nodes_of turn.entry.body.now) (fallen from state))) (turn_cost given.now.turns turn.entry + frames_cost given.now.turns stack.old.items) stack.new.items state step) }
{
    let _ = given;
    if turn.left == 0 {
        return Ok(Step::End(Ending::Cut));
    }
    let left = turn.left - 1;
    push(
        stack,
        Frame::Again(Turn {
            body: turn.body,
            left,
        }),
    )?;
    Ok(Step::Run {
        nodes: turn.body,
        from,
    })
}

/// Goes on where a list has ended.
pub(crate) fn fall<'a>(
    given: &Given<'_>,
    stack: &mut Vec<Frame<'a>>,
    from: Option<BlockId>,
) -> Result<Step<'a>, OutOfMemory>
    requires { FramesSound (shader_of given.now) stack.old.items }
    ensures { IfOk result (λ step. (state : State) → Stepped (shader_of given.now) (setting_of given.now) (outcome_after (setting_of given.now) stack.old.items (fallen from state)) (1 + frames_cost given.now.turns stack.old.items) stack.new.items state step) }
{
    match stack.pop() {
        None => Ok(Step::End(Ending::Done)),
        Some(Frame::Rest(rest)) => Ok(Step::Run { nodes: rest, from }),
        Some(Frame::Again(turn)) => {
            let step = go_back(given, stack, from, turn)?;
            Ok(step)
        }
    }
}

/// Takes the frames down to the innermost loop, and that loop's, which it answers; all frames where no
/// loop is on the stack.
fn leave_loop<'a>(given: &Given<'_>, stack: &mut Vec<Frame<'a>>) -> Option<Turn<'a>>
    requires { FramesSound (shader_of given.now) stack.old.items }
    ensures frames { FramesSound (shader_of given.now) stack.new.items }
    ensures body { IfSome result (λ turn. NodesSound (shader_of given.now) (nodes_of turn.body.now)) }
    ensures cost { frames_cost given.now.turns stack.new.items + turn_cost_of given.now.turns result ≤ frames_cost given.now.turns stack.old.items }
    ensures breaks { (from : Option block_id) → (state : State) → resumed (setting_of given.now) stack.old.items (broken from state) ≡ resumed (setting_of given.now) stack.new.items (left_by (setting_of given.now) result (broken from state)) }
    ensures continues { (from : Option block_id) → (state : State) → resumed (setting_of given.now) stack.old.items (going_on from state) ≡ resumed (setting_of given.now) stack.new.items (left_by (setting_of given.now) result (going_on from state)) }
    ensures none { IfNone result (stack.new.items ≡ []) }
{
    let _ = given;
    while let Some(frame) = stack.pop() {
        match frame {
            Frame::Rest(_) => {}
            Frame::Again(turn) => return Some(turn),
        }
    }
    None
}

/// Goes on behind the innermost loop.
fn break_loop<'a>(given: &Given<'_>, stack: &mut Vec<Frame<'a>>, from: Option<BlockId>) -> Step<'a>
    requires { FramesSound (shader_of given.now) stack.old.items }
    ensures { (state : State) → Stepped (shader_of given.now) (setting_of given.now) (outcome_after (setting_of given.now) stack.old.items (broken from state)) (2 + frames_cost given.now.turns stack.old.items) stack.new.items state result }
{
    let _turn = leave_loop(given, stack);
    Step::Run { nodes: &[], from }
}

/// Goes back to the start of the innermost loop.
fn continue_loop<'a>(
    given: &Given<'_>,
    stack: &mut Vec<Frame<'a>>,
    from: Option<BlockId>,
) -> Result<Step<'a>, OutOfMemory>
    requires { FramesSound (shader_of given.now) stack.old.items }
    ensures { IfOk result (λ step. (state : State) → Stepped (shader_of given.now) (setting_of given.now) (outcome_after (setting_of given.now) stack.old.items (going_on from state)) (2 + frames_cost given.now.turns stack.old.items) stack.new.items state step) }
{
    match leave_loop(given, stack) {
        Some(turn) => {
            let step = go_back(given, stack, from, turn)?;
            Ok(step)
        }
        None => Ok(Step::Run { nodes: &[], from }),
    }
}

/// Goes on at the end of a block.
pub(crate) fn jump<'a>(
    given: &Given<'_>,
    stack: &mut Vec<Frame<'a>>,
    block: &Block,
    rest: &'a [Node],
) -> Result<Step<'a>, OutOfMemory>
    requires frames { FramesSound (shader_of given.now) stack.old.items }
    requires rest { NodesSound (shader_of given.now) (nodes_of rest.now) }
    ensures { IfOk result (λ step. (state : State) → Stepped (shader_of given.now) (setting_of given.now) (outcome_after (setting_of given.now) stack.old.items (after_fall (jump_exit block.now.jump (Some block.now.id) state) (run_list (setting_of given.now) (nodes_of rest.now)))) (1 + cost given.now.turns (nodes_of rest.now) + frames_cost given.now.turns stack.old.items) stack.new.items state step) }
{
    let from = Some(block.id);
    match block.jump {
        None => Ok(Step::Run { nodes: rest, from }),
        Some(jump) => match jump {
            Jump::Break => {
                let step = break_loop(given, stack, from);
                Ok(step)
            }
            Jump::Continue => {
                let step = continue_loop(given, stack, from)?;
                Ok(step)
            }
        },
    }
}
