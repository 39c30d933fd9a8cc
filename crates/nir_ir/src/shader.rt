//! A whole shader.

use crate::kind::Kinds;
use crate::node::List;
use std::marker::Model;

/// Declarations, and a tree of lists of blocks, ifs and loops. Its type keeps that it is shaped
/// (`specs/Shaped.antt`): each number names one thing, what is used is defined, and each part has
/// the size that its kind or opcode says. Value numbers are below `next_value`.
#[derive(Debug, Drop)]
pub struct Shader {
    pub inputs: Kinds,
    pub outputs: Kinds,
    pub buffers: u32,
    pub body: List,
    pub next_value: u32,
}

impl Model for Shader {
    ghost use Rattle.nir_ir.specs.Shader.{Shader as Whole, shader_code};

    ghost Value = { Whole };

    ghost coded = { shader_code };

    ghost use Rattle.nir_ir.specs.Nodes.{nodes_of};
    ghost use Rattle.nir_ir.specs.Shaped.{IsShaped};

    ghost view = { λ s. record { inputs = s.inputs; outputs = s.outputs; buffers = s.buffers; body = nodes_of s.body; next_value = s.next_value } };

    ghost invariant = { λ s. IsShaped (record { inputs = s.inputs; outputs = s.outputs; buffers = s.buffers; body = nodes_of s.body; next_value = s.next_value }) };
}
