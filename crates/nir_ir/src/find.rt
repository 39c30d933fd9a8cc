//! The instruction or phi that defines a value, sought through the whole tree.

ghost use Rattle.std.specs.Prelude.{◌≡◌, [], ◌∷◌, find};
ghost use Rattle.std.specs.Option.{option_copied};
ghost use Rattle.nir_ir.specs.Nodes.{nodes_of};
ghost use Rattle.nir_ir.specs.Definitions.{phi_defining, instr_defining, is_phi_of, is_target};

use crate::ids::ValueId;
use crate::instr::Instr;
use crate::kind::Kind;
use crate::node::{Node, Phi};
use crate::shader::Shader;

impl Instr {
    ghost use Rattle.nir_ir.specs.Items.{target};
    ghost use Rattle.nir_ir.specs.Parts.{parts};

    /// The value that the instruction defines, and its kind; None for an output and a store.
    pub fn defines(&self) -> Option<(ValueId, Kind)>
        ensures { result ≡ (parts self.now).defines }
    {
        match self {
            Instr::Alu { value, kind, .. } => Some((*value, *kind)),
            Instr::Const { value, kind, .. } => Some((*value, *kind)),
            Instr::Undef { value, kind } => Some((*value, *kind)),
            Instr::Input { value, kind, .. } => Some((*value, *kind)),
            Instr::Output { .. } => None,
            Instr::LoadBuf { value, kind, .. } => Some((*value, *kind)),
            Instr::StoreBuf { .. } => None,
        }
    }

    /// The value that the instruction defines; None for an output and a store.
    pub fn target(&self) -> Option<ValueId>
        ensures { result ≡ target self.now }
    {
        match self.defines() {
            Some((value, _kind)) => Some(value),
            None => None,
        }
    }
}

impl Shader {
    ghost use Rattle.nir_ir.specs.Definitions.{phi_defining, instr_defining};

    /// The instruction that defines the value, None exactly where none does. A plain search through the
    /// tree, linear in the size of the shader: an index is to replace it where many values are sought.
    pub fn instr(&self, value: ValueId) -> Option<&Instr>
        ensures { option_copied result ≡ instr_defining value self.now.body }
    {
        instr_in_list(self.body.as_slice(), value)
    }

    /// The phi that defines the value, None exactly where none does. A plain search, as that of `instr`.
    pub fn phi(&self, value: ValueId) -> Option<&Phi>
        ensures { option_copied result ≡ phi_defining value self.now.body }
    {
        phi_in_list(self.body.as_slice(), value)
    }
}

/// Whether the instruction defines the value.
pub(crate) fn is_target(value: ValueId, instr: &Instr) -> bool
    ensures { result ≡ is_target value instr.now }
{
    match instr.target() {
        Some(target) => target.0 == value.0,
        None => false,
    }
}

/// The first of the instructions that defines the value.
fn first_instr(instrs: &[Instr], value: ValueId) -> Option<&Instr>
    ensures { option_copied result ≡ find (is_target value) instrs.now }
{
    for instr in instrs {
        if is_target(value, instr) {
            return Some(instr);
        }
    }
    None
}

/// The instruction of a list of nodes that defines the value.
#[cycle(instr)]
#[tactic(auto, using(crate::proofs::FindLemmas::instr_steps))]
pub(crate) fn instr_in_list(list: &[Node], value: ValueId) -> Option<&Instr>
    ensures { option_copied result ≡ instr_defining value (nodes_of list.now) }
{
    for node in list {
        match instr_in_node(node, value) {
            Some(instr) => return Some(instr),
            None => {}
        }
    }
    None
}

/// The instruction of a node that defines the value.
#[cycle(instr)]
#[tactic(auto, using(crate::proofs::FindLemmas::instr_steps))]
fn instr_in_node(node: &Node, value: ValueId) -> Option<&Instr>
    ensures { option_copied result ≡ instr_defining value (nodes_of (node.now ∷ [])) }
{
    match node {
        Node::Block(block) => first_instr(block.instrs.as_slice(), value),
        Node::If { yes, no, .. } => {
            match instr_in_list(yes.as_slice(), value) {
                Some(instr) => Some(instr),
                None => instr_in_list(no.as_slice(), value),
            }
        }
        Node::Loop { body, .. } => instr_in_list(body.as_slice(), value),
    }
}

/// The first of the phis that defines the value.
fn first_phi(phis: &[Phi], value: ValueId) -> Option<&Phi>
    ensures { option_copied result ≡ find (is_phi_of value) phis.now }
{
    for phi in phis {
        if phi.value.0 == value.0 {
            return Some(phi);
        }
    }
    None
}

/// The phi of a list of nodes that defines the value.
#[cycle(phi)]
#[tactic(auto, using(crate::proofs::FindLemmas::phi_steps))]
pub(crate) fn phi_in_list(list: &[Node], value: ValueId) -> Option<&Phi>
    ensures { option_copied result ≡ phi_defining value (nodes_of list.now) }
{
    for node in list {
        match phi_in_node(node, value) {
            Some(phi) => return Some(phi),
            None => {}
        }
    }
    None
}

/// The phi of a node that defines the value.
#[cycle(phi)]
#[tactic(auto, using(crate::proofs::FindLemmas::phi_steps))]
fn phi_in_node(node: &Node, value: ValueId) -> Option<&Phi>
    ensures { option_copied result ≡ phi_defining value (nodes_of (node.now ∷ [])) }
{
    match node {
        Node::Block(block) => first_phi(block.phis.as_slice(), value),
        Node::If { yes, no, .. } => {
            match phi_in_list(yes.as_slice(), value) {
                Some(phi) => Some(phi),
                None => phi_in_list(no.as_slice(), value),
            }
        }
        Node::Loop { body, .. } => phi_in_list(body.as_slice(), value),
    }
}
