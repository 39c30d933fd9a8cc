//! The parts of a shader, before it is known that it is shaped.

ghost use Rattle.std.specs.Prelude.{◌≡◌};
ghost use Rattle.nir_ir.specs.Shaped.{IsShaped};
ghost use Rattle.nir_text.specs.Parts.{parts};

use nir_ir::{Kinds, List, Shader};

/// The declarations, the body, and how many values were read.
#[derive(Drop)]
pub struct Parts {
    pub inputs: Kinds,
    pub outputs: Kinds,
    pub buffers: u32,
    pub body: List,
    pub next_value: u32,
}

impl Parts {
    /// The shader of these parts.
    pub fn into_shader(self) -> Shader
        requires { IsShaped (parts self) }
        ensures { result ≡ parts self }
    {
        let Parts {
            inputs,
            outputs,
            buffers,
            body,
            next_value,
        } = self;
        Shader {
            inputs,
            outputs,
            buffers,
            body,
            next_value,
        }
    }
}
