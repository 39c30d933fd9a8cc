//! The shader in work: a valid shader with its index.

ghost use Rattle.std.specs.Prelude.{◌≡◌, IfOk, List, OnErr, nat_eq};
ghost use Rattle.std.specs.Option.{option_copied};
ghost use Rattle.nir_ir.specs.Definitions.{instr_defining, phi_defining, kind_at};
ghost use Rattle.nir_ir.specs.Shaped.{IsShaped};
ghost use Rattle.nir_ir.specs.Uses.{use_count};
ghost use Rattle.nir_tree.specs.Users.{AreUsers};
ghost use Rattle.nir_validate.specs.Valid.{Valid};
ghost use Rattle.rule_term.specs.Rule.{Rule as Whole};
ghost use Rattle.nir_search.specs.Work.{Fits, MayReplace, replaced_by};

use nir_host::OutOfMemory;
use nir_index::Indexed;
use nir_ir::{Instr, Instrs, Kind, Phi, Shader, ValueId};
use nir_tree::{Uses, copied, users};
use rule_term::Table;
use std::alloc::Global;
use std::marker::Model;

/// A valid shader in work. What defines a value, its kind and how often it is used are found in constant time.
#[derive(Debug, Drop)]
pub struct Work {
    indexed: Indexed,
}

impl Model for Work {
    ghost use Rattle.nir_search.specs.Work.{InWork, IsKept, work_code};

    ghost Value = { InWork };

    ghost coded = { work_code };

    ghost view = { λ w. record { shader = w.indexed } };

    ghost invariant = { λ w. IsKept (record { shader = w.indexed }) };
}

impl Work {
    /// The shader, put to work with a table. `OutOfMemory` where there is no memory for its index, or where a value has
    /// 2^64 uses. Linear in the size of the shader.
    pub fn new(alloc: Global, shader: Shader, table: &Table) -> Result<Work, OutOfMemory>
        requires valid { Valid shader }
        ensures shader { IfOk result (λ work. work.shader ≡ shader) }
        ensures fits { IfOk result (λ work. Fits work table.now.rules) }
    {
        let _ = table;
        let indexed = Indexed::new(alloc, shader)?;
        indexed.keeps_shape();
        Ok(Work { indexed })
    }

    /// The shader, which is not in work any more. It takes no memory so far: `OutOfMemory` is for other ways to keep it.
    pub fn into_shader(self, alloc: Global) -> Result<Shader, OutOfMemory>
        ensures { IfOk result (λ shader. shader ≡ self.shader) }
    {
        let _ = alloc;
        let Work { indexed } = self;
        Ok(indexed.into_shader())
    }

    /// A copy of the shader. `OutOfMemory` where there is no memory for it. Linear in the size of the shader.
    pub fn to_shader(&self, alloc: Global) -> Result<Shader, OutOfMemory>
        ensures { IfOk result (λ shader. shader ≡ self.now.shader) }
    {
        copied(alloc, self.indexed.shader())
    }

    /// The shader is shaped and valid. It does nothing: the contract is the law.
    pub fn keeps_shape(&self)
        ensures shaped { IsShaped self.now.shader }
        ensures valid { Valid self.now.shader }
    {
        let _ = &self.indexed;
    }

    /// The instruction that defines the value; None exactly where none does.
    pub fn instr(&self, value: ValueId) -> Option<&Instr>
        ensures { option_copied result ≡ instr_defining value self.now.shader.body }
    {
        self.indexed.instr(value)
    }

    /// The phi that defines the value; None exactly where none does. A search through the tree, linear in its size.
    pub fn phi(&self, value: ValueId) -> Option<&Phi>
        ensures { option_copied result ≡ phi_defining value self.now.shader.body }
    {
        self.indexed.phi(value)
    }

    /// The kind of the value; None exactly where nothing defines it.
    pub fn kind(&self, value: ValueId) -> Option<Kind>
        ensures { result ≡ kind_at self.now.shader.body value }
    {
        self.indexed.kind(value)
    }

    /// The next fresh number.
    pub fn next_value(&self) -> u32
        ensures { result ≡ self.now.shader.next_value }
    {
        self.indexed.next_value()
    }

    /// How many sources and conditions are the value.
    pub fn uses(&self, value: ValueId) -> u64
        ensures { result ≡ use_count value self.now.shader.body }
    {
        self.indexed.uses(value)
    }

    /// Whether exactly one source or condition is the value.
    pub fn is_used_once(&self, value: ValueId) -> bool
        ensures { result ≡ nat_eq (use_count value self.now.shader.body) 1 }
    {
        self.uses(value) == 1
    }

    /// Each use of the value once. `OutOfMemory` where there is no memory for the list. Linear in the size of the shader.
    pub fn users(&self, alloc: Global, value: ValueId) -> Result<Uses, OutOfMemory>
        ensures { IfOk result (λ uses. AreUsers value self.now.shader.body uses) }
    {
        users(alloc, self.indexed.shader(), value)
    }

    /// Puts the instructions in the place of the one that defines the value. `OutOfMemory` where there is no memory for it, or
    /// where a value would have 2^64 uses; then nothing has changed.
    pub fn replace_in_place(
        &mut self,
        alloc: Global,
        value: ValueId,
        with: &Instrs,
    ) -> Result<(), OutOfMemory>
        requires may { MayReplace self.old.shader value with.now }
        ensures done { IfOk result (λ u. self.new.shader ≡ replaced_by self.old.shader value with.now) }
        ensures undone { OnErr result (self.new ≡ self.old) }
        ensures fits { (table : List Whole) → Fits self.old table → Fits self.new table }
    {
        let fresh = with.len().saturating_sub(1) as u32;
        let next = self.indexed.next_value() + fresh;
        self.indexed.replace(alloc, value, with.as_slice(), next)
    }
}
