//! The state of a run, and what one instruction does to it.

ghost use Rattle.std.specs.Prelude.{◌≡◌, ◌≤◌, Some, OnOk, IfOk};
ghost use Rattle.std.specs.List.{AllByRecursion};
ghost use Rattle.nir_ir.specs.Definitions.{kind_at};
ghost use Rattle.nir_mean.specs.Run.{kind_of, run_instr, run_instrs, run_phis, scalar};
ghost use Rattle.nir_mean.specs.Same.{InputsFit};
ghost use Rattle.nir_mean.specs.Seen.{inputs_of, setting_of, shader_of, state_of, world_seen};
ghost use Rattle.nir_mean.specs.Sound.{BlockSound, DefinesIn, InstrSound};
ghost use Rattle.nir_mean.specs.State.{store, with_value};
ghost use Rattle.nir_mean.specs.Table.{IsTable, kind_seen, values_of};
ghost use Rattle.nir_validate.specs.Rules.{offset_kind};

use crate::alu::alu_view;
use crate::given::Given;
use crate::outcome::Stored;
use crate::phis::run_phis;
use crate::table::Table;
use crate::view::{comps_of, view_of, zero_view};
use crate::world::Outside;
use nir_host::OutOfMemory;
use nir_ir::{Block, BlockId, Instr, ValueId};
use op_eval::View;

/// The state of a run: the values, what is outside of them, and room for what an instruction reads.
#[derive(Drop)]
pub(crate) struct Machine {
    pub table: Table,
    pub outside: Outside,
    pub room: Vec<View>,
}

impl Machine {
    /// Gives a value its components.
    fn define(&mut self, given: &Given<'_>, id: ValueId, view: View)
        requires table { IsTable (shader_of given.now) self.old.table.views }
        requires defines { DefinesIn (shader_of given.now) (Some id) (Some (kind_seen view)) }
        ensures state { state_of self.new ≡ record (state_of self.old) { values = with_value id view.comps (values_of self.old.table.views) } }
        ensures table { IsTable (shader_of given.now) self.new.table.views }
    {
        let _ = given;
        self.table.define(id, view);
    }

    /// Lists a store, and makes it.
    fn store(
        &mut self,
        given: &Given<'_>,
        buffer: u32,
        offset: ValueId,
        src: ValueId,
    ) -> Result<(), OutOfMemory>
        requires table { IsTable (shader_of given.now) self.old.table.views }
        requires offset { kind_at (shader_of given.now).body offset ≡ Some offset_kind }
        ensures state { OnOk result (state_of self.new ≡ record (state_of self.old) { world = store (record { buffer = buffer; offset = scalar (values_of self.old.table.views) offset; kind = kind_of (kind_at (shader_of given.now).body) src; comps = values_of self.old.table.views src.0 }) (world_seen self.old.outside) }) }
        ensures table { OnOk result (self.new.table.views ≡ self.old.table.views) }
    {
        let made = Stored {
            buffer,
            offset: self.table.offset(offset),
            kind: self.table.kind(src),
            comps: comps_of(given.alloc, self.table.comps(src))?,
        };
        self.outside.store(made)
    }

    /// Runs one instruction.
    fn run_instr(&mut self, given: &Given<'_>, instr: &Instr) -> Result<(), OutOfMemory>
        requires sound { InstrSound (shader_of given.now) instr.now }
        requires table { IsTable (shader_of given.now) self.old.table.views }
        requires inputs { InputsFit (shader_of given.now).inputs (inputs_of given.now) }
        ensures state { OnOk result (state_of self.new ≡ run_instr (setting_of given.now) instr.now (state_of self.old)) }
        ensures table { OnOk result (IsTable (shader_of given.now) self.new.table.views) }
    {
        match instr {
            Instr::Alu {
                value,
                op,
                kind,
                srcs,
            } => {
                let view = alu_view(
                    given,
                    &self.table,
                    &mut self.room,
                    *op,
                    *kind,
                    srcs.as_slice(),
                )?;
                self.define(given, *value, view);
            }
            Instr::Const { value, kind, comps } => {
                self.define(given, *value, view_of(kind.width, comps.as_slice()));
            }
            Instr::Undef { value, kind } => {
                self.define(given, *value, zero_view(*kind));
            }
            Instr::Input { value, kind, slot } => {
                self.define(given, *value, given.input_view(*kind, *slot));
            }
            Instr::Output { slot, src, .. } => {
                let comps = comps_of(given.alloc, self.table.comps(*src))?;
                self.outside.put_out(*slot, comps);
            }
            Instr::LoadBuf {
                value,
                kind,
                buffer,
                offset,
            } => {
                let view = self
                    .outside
                    .load(*kind, *buffer, self.table.offset(*offset));
                self.define(given, *value, view);
            }
            Instr::StoreBuf {
                buffer,
                offset,
                src,
                ..
            } => {
                self.store(given, *buffer, *offset, *src)?;
            }
        }
        Ok(())
    }

    /// Runs instructions, in order.
    fn run_instrs(&mut self, given: &Given<'_>, instrs: &[Instr]) -> Result<(), OutOfMemory>
        requires sound { AllByRecursion (InstrSound (shader_of given.now)) instrs.now }
        requires table { IsTable (shader_of given.now) self.old.table.views }
        requires inputs { InputsFit (shader_of given.now).inputs (inputs_of given.now) }
        ensures state { OnOk result (state_of self.new ≡ run_instrs (setting_of given.now) instrs.now (state_of self.old)) }
        ensures table { OnOk result (IsTable (shader_of given.now) self.new.table.views) }
    {
        for instr in instrs {
            self.run_instr(given, instr)?;
        }
        Ok(())
    }

    /// Runs the phis and the instructions of a block.
    pub fn run_block(
        &mut self,
        given: &Given<'_>,
        from: Option<BlockId>,
        block: &Block,
    ) -> Result<(), OutOfMemory>
        requires sound { BlockSound (shader_of given.now) block.now }
        requires table { IsTable (shader_of given.now) self.old.table.views }
        requires inputs { InputsFit (shader_of given.now).inputs (inputs_of given.now) }
        ensures state { OnOk result (state_of self.new ≡ run_instrs (setting_of given.now) block.now.instrs (record (state_of self.old) { values = run_phis from block.now.phis (values_of self.old.table.views) })) }
        ensures table { OnOk result (IsTable (shader_of given.now) self.new.table.views) }
    {
        run_phis(
            given,
            &mut self.table,
            from,
            block.phis.as_slice(),
            &mut self.room,
        )?;
        self.run_instrs(given, block.instrs.as_slice())?;
        Ok(())
    }
}
