//! A shader with an index. Contracts see the shader.

ghost use Rattle.std.specs.Prelude.{◌≡◌, IfOk, OnErr, IsSome, nat_eq};
ghost use Rattle.std.specs.Option.{option_copied};
ghost use Rattle.nir_ir.specs.Definitions.{instr_defining, phi_defining, kind_at};
ghost use Rattle.nir_ir.specs.Edits.{with_news, ArePlaced};
ghost use Rattle.nir_ir.specs.Shaped.{IsShaped};
ghost use Rattle.nir_ir.specs.Uses.{use_count};

use crate::exchange::exchange;
use crate::index::{Index, count_at, index_of, instr_at};
use nir_host::OutOfMemory;
use nir_ir::{Instr, Kind, Phi, Shader, ValueId};
use nir_tree::with_instrs;
use std::alloc::Global;
use std::marker::Model;

/// A shader, and an index by which what defines a value, its kind and how often it is used are found in constant time.
#[derive(Debug, Drop)]
pub struct Indexed {
    shader: Shader,
    index: Index,
}

impl Model for Indexed {
    ghost use Rattle.nir_ir.specs.Shader.{Shader as Whole, shader_code};

    ghost Value = { Whole };

    ghost coded = { shader_code };

    ghost use Rattle.nir_index.specs.Index.{IsIndex};

    ghost view = { λ i. i.shader };

    ghost invariant = { λ i. IsIndex i.shader.body i.index };
}

impl Indexed {
    /// The shader with its index. `OutOfMemory` where there is no memory for the index, or where a value has 2^64 uses.
    /// Linear in the size of the shader.
    pub fn new(alloc: Global, shader: Shader) -> Result<Indexed, OutOfMemory>
        ensures { IfOk result (λ indexed. indexed ≡ shader) }
    {
        let index = index_of(alloc, &shader)?;
        Ok(Indexed { shader, index })
    }

    /// The shader without its index. Takes no memory.
    pub fn into_shader(self) -> Shader
        ensures { result ≡ self }
    {
        let Indexed {
            shader,
            index: _index,
        } = self;
        shader
    }

    pub fn shader(&self) -> &Shader
        ensures { result.now ≡ self.now }
    {
        &self.shader
    }

    /// The shader is shaped. It does nothing: the contract is the law.
    pub fn keeps_shape(&self)
        ensures { IsShaped self.now }
    {
        let shader = &self.shader;
        let _ = &shader.body;
    }

    /// The instruction that defines the value; None exactly where none does.
    pub fn instr(&self, value: ValueId) -> Option<&Instr>
        ensures { option_copied result ≡ instr_defining value self.now.body }
    {
        instr_at(self.index.definers.as_slice(), value)
    }

    /// The phi that defines the value; None exactly where none does. A search through the tree.
    pub fn phi(&self, value: ValueId) -> Option<&Phi>
        ensures { option_copied result ≡ phi_defining value self.now.body }
    {
        self.shader.phi(value)
    }

    /// The kind of the value; None exactly where nothing defines it.
    pub fn kind(&self, value: ValueId) -> Option<Kind>
        ensures { result ≡ kind_at self.now.body value }
    {
        match self.index.definers.get(value.0 as usize) {
            Some(definer) => match &definer.instr {
                Some(instr) => match instr.defines() {
                    Some((_value, kind)) => Some(kind),
                    None => definer.phi,
                },
                None => definer.phi,
            },
            None => None,
        }
    }

    /// The next fresh number.
    pub fn next_value(&self) -> u32
        ensures { result ≡ self.now.next_value }
    {
        self.shader.next_value
    }

    /// How many sources and conditions are the value.
    pub fn uses(&self, value: ValueId) -> u64
        ensures { result ≡ use_count value self.now.body }
    {
        count_at(self.index.counts.as_slice(), value)
    }

    /// Puts these instructions in the place of the one that defines the value; `next` is the next fresh number then. `OutOfMemory`
    /// where there is no memory for it, or where a value would have 2^64 uses; then nothing has changed. Linear in the size of the shader.
    pub fn replace(
        &mut self,
        alloc: Global,
        value: ValueId,
        news: &[Instr],
        next: u32,
    ) -> Result<(), OutOfMemory>
        requires defined { IsSome (instr_defining value self.old.body) }
        requires placed { ArePlaced self.old.next_value next value news.now }
        requires shaped { IsShaped (with_news self.old value news.now next) }
        ensures done { IfOk result (λ done. self.new ≡ with_news self.old value news.now next) }
        ensures undone { OnErr result (self.new ≡ self.old) }
    {
        self.keeps_shape();
        let shader = with_instrs(alloc, &self.shader, value, news, next)?;
        exchange(alloc, &mut self.index, value, news, next)?;
        self.shader = shader;
        Ok(())
    }
}
