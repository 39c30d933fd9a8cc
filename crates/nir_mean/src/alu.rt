//! Instructions with an opcode.

ghost use Rattle.std.specs.Prelude.{◌≡◌, ◌≤◌, IfOk};
ghost use Rattle.nir_ir.specs.Definitions.{kind_at};
ghost use Rattle.nir_mean.specs.Seen.{shader_of};
ghost use Rattle.nir_mean.specs.Table.{IsTable, kind_seen, values_of};
ghost use Rattle.nir_validate.specs.Typed.{AluFits};
ghost use Rattle.nir_mean.specs.Values.{alu_mean};

use crate::given::Given;
use crate::table::Table;
use crate::view::zero_view;
use nir_host::OutOfMemory;
use nir_ir::{Kind, Src};
use nir_ops::Op;
use op_eval::{View, eval_view};

/// What an opcode makes of its sources. `room` keeps its memory from call to call.
pub(crate) fn alu_view(
    given: &Given<'_>,
    table: &Table,
    room: &mut Vec<View>,
    op: Op,
    kind: Kind,
    srcs: &[Src],
) -> Result<View, OutOfMemory>
    requires table { IsTable (shader_of given.now) table.now.views }
    requires fits { AluFits (kind_at (shader_of given.now).body) op kind srcs.now }
    requires few { kind.count ≤ 16 }
    ensures kind { IfOk result (λ view. kind_seen view ≡ kind) }
    ensures value { IfOk result (λ view. view.comps ≡ alu_mean (kind_at (shader_of given.now).body) op kind srcs.now (values_of table.now.views)) }
{
    table.read_all(srcs, room)?;
    let mut out = zero_view(kind);
    eval_view(op, kind.width, room.as_slice(), &mut out);
    Ok(out)
}
