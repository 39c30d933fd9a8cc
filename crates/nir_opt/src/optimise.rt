//! Rules are used on a shader until none matches, or the limit stops it.

ghost use Rattle.std.specs.Prelude.{◌≡◌, ◌+◌, ◌*◌, ◌^◌, ◌<◌, ◌≤◌, not, true, false, IfOk, length, Some};
ghost use Rattle.nir_search.specs.Steps.{replay, is_settled};
ghost use Rattle.nir_search.specs.Weight.{weight_of};
ghost use Rattle.rule_term.specs.Descending.{is_descending};
ghost use Rattle.rule_term.specs.Table.{op_weight};
ghost use Rattle.nir_ir.specs.Shaped.{IsShaped};
ghost use Rattle.nir_mean.specs.Same.{Same};
ghost use Rattle.nir_validate.specs.Valid.{Valid};

use nir_host::OutOfMemory;
use nir_ir::{Journal, Shader};
use nir_search::{Steps, Work};
use rewrite_pass::{is_settled, rewrite_all};
use rule_term::{Options, Table};
use std::alloc::Global;
use std::sync::ledger::Ledger;

/// What became of a shader: the last one, the steps to it, how many of them were rewrites, and whether the limit on these stopped it.
#[derive(Debug, Drop)]
pub struct Optimised {
    pub shader: Shader,
    pub journal: Journal,
    pub rewrites: u64,
    pub stopped: bool,
}

/// Uses the rules of the table, under these options, until none matches at any value or there were as many rewrites as the limit allows. It was
/// stopped exactly where a rule still matches somewhere. By a table that leads to lighter opcodes each rewrite leaves the shader lighter,
/// and a limit of at least the weight of the shader stops nothing.
pub fn optimise<L: Ledger>(
    alloc: Global,
    shader: Shader,
    table: &Table,
    options: &Options,
    limit: u64,
    steps: &mut Steps<L>,
) -> Result<Optimised, OutOfMemory>
    requires valid { Valid shader }
    requires fresh { shader.next_value + 64 * limit < 2 ^ 32 }
    ensures replayed { IfOk result (λ done. replay options.now table.now.rules shader done.journal ≡ Some done.shader) }
    ensures counted { IfOk result (λ done. done.rewrites ≡ length done.journal) }
    ensures few { IfOk result (λ done. done.rewrites ≤ limit) }
    ensures settled { IfOk result (λ done. done.stopped ≡ not (is_settled options.now table.now.rules done.shader)) }
    ensures at_limit { IfOk result (λ done. done.stopped ≡ true → done.rewrites ≡ limit) }
    ensures lighter { IfOk result (λ done. is_descending table.now ≡ true →
        weight_of (op_weight table.now) done.shader + done.rewrites ≤ weight_of (op_weight table.now) shader) }
    ensures unstopped { IfOk result (λ done. is_descending table.now ≡ true → weight_of (op_weight table.now) shader ≤ limit → done.stopped ≡ false) }
    ensures shaped { IfOk result (λ done. IsShaped done.shader) }
    ensures valid { IfOk result (λ done. Valid done.shader) }
    ensures same { IfOk result (λ done. Same shader done.shader) }
{
    let mut journal = Journal::new(alloc);
    let mut work = Work::new(alloc, shader, table)?;
    let rewrites = rewrite_all(alloc, &mut work, table, options, limit, &mut journal, steps)?;
    let stopped = !is_settled(&work, table, options, steps);
    // The proof learns that the last shader is shaped and valid.
    work.keeps_shape();
    let shader = work.into_shader(alloc)?;
    Ok(Optimised {
        shader,
        journal,
        rewrites,
        stopped,
    })
}
