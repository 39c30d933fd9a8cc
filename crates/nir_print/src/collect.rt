//! The values and blocks of a shader, listed in text order.

ghost use Rattle.std.specs.Prelude.{◌≡◌, ◌^◌, ◌<◌, [], ◌∷◌, ◌++◌, OnOk, fold, map, true};
ghost use Rattle.std.specs.List.{flat_map};
ghost use Rattle.nir_ir.specs.Nodes.{nodes_of};
ghost use Rattle.nir_ir.specs.Items.{PhiItem, InstrItem, items, block_items};
ghost use Rattle.nir_print.specs.Naming.{with_value, with_instr, with_item};
ghost use Rattle.nir_print.specs.RoundTrip.{are_words, addresses_of, addresses};

use nir_host::{OutOfMemory, Seq};
use nir_ir::{Block, BlockId, Instr, Kind, Node, Phi, ValueId};
use std::alloc::Global;
use std::marker::Model;

/// What the text has named so far.
#[derive(Drop)]
pub(crate) struct Found {
    pub(crate) values: Seq<u32>,
    pub(crate) kinds: Seq<Kind>,
    pub(crate) blocks: Seq<u32>,
}

impl Model for Found {
    ghost use Rattle.nir_print.specs.Naming.{Naming, naming_code};

    ghost Value = { Naming };

    ghost coded = { naming_code };

    ghost view = { λ f. record { values = f.values; kinds = f.kinds; blocks = f.blocks } };
}

impl Found {
    pub(crate) fn new(alloc: Global) -> Found
        ensures { result ≡ record { values = []; kinds = []; blocks = [] } }
    {
        Found {
            values: Seq::new(alloc),
            kinds: Seq::new(alloc),
            blocks: Seq::new(alloc),
        }
    }

    fn add_value(&mut self, value: ValueId, kind: Kind) -> Result<(), OutOfMemory>
        ensures { OnOk result (self.new ≡ with_value self.old value kind) }
    {
        self.values.push(value.0)?;
        self.kinds.push(kind)
    }

    fn add_block(&mut self, block: BlockId) -> Result<(), OutOfMemory>
        ensures { OnOk result (self.new ≡ record { values = self.old.values; kinds = self.old.kinds; blocks = self.old.blocks ++ block.0 ∷ [] }) }
    {
        self.blocks.push(block.0)
    }
}

fn collect_instr(found: &mut Found, instr: &Instr) -> Result<(), OutOfMemory>
    ensures { OnOk result (found.new ≡ with_instr found.old instr.now) }
{
    match instr.defines() {
        Some((value, kind)) => found.add_value(value, kind),
        None => Ok(()),
    }
}

/// Does nothing: contracts learn here that a number of 32 bits is one.
pub(crate) fn read_word(number: u32)
    ensures { number < 2 ^ 32 }
{
    let _ = number;
}

/// Does nothing, likewise.
fn read_address(instr: &Instr)
    ensures { are_words (addresses_of instr.now) ≡ true }
{
    match instr {
        Instr::Input { slot, .. } | Instr::Output { slot, .. } => {
            let _slot = *slot;
        }
        Instr::LoadBuf { buffer, .. } | Instr::StoreBuf { buffer, .. } => {
            let _buffer = *buffer;
        }
        Instr::Alu { .. } | Instr::Const { .. } | Instr::Undef { .. } => {}
    }
}

fn collect_phis(found: &mut Found, phis: &[Phi]) -> Result<(), OutOfMemory>
    ensures { OnOk result (found.new ≡ fold with_item found.old (map PhiItem phis.now)) }
{
    for phi in phis {
        found.add_value(phi.value, phi.kind)?;
    }
    Ok(())
}

fn collect_instrs(found: &mut Found, instrs: &[Instr]) -> Result<(), OutOfMemory>
    ensures found { OnOk result (found.new ≡ fold with_item found.old (map InstrItem instrs.now)) }
    ensures words { OnOk result (are_words (flat_map addresses_of instrs.now) ≡ true) }
{
    for instr in instrs {
        collect_instr(found, instr)?;
        read_address(instr);
    }
    Ok(())
}

fn collect_block(found: &mut Found, block: &Block) -> Result<(), OutOfMemory>
    ensures found { OnOk result (found.new ≡ fold with_item found.old (block_items block.now)) }
    ensures words { OnOk result (are_words (flat_map addresses_of block.now.instrs) ≡ true) }
{
    found.add_block(block.id)?;
    collect_phis(found, block.phis.as_slice())?;
    collect_instrs(found, block.instrs.as_slice())
}

/// Adds what a list of nodes defines.
#[cycle(collect)]
#[tactic(auto, using(crate::proofs::Walks::node_items, crate::proofs::WordLemmas::node_words))]
pub(crate) fn collect_list(found: &mut Found, list: &[Node]) -> Result<(), OutOfMemory>
    ensures found { OnOk result (found.new ≡ fold with_item found.old (items (nodes_of list.now))) }
    ensures words { OnOk result (are_words (addresses (nodes_of list.now)) ≡ true) }
{
    for node in list {
        collect_node(found, node)?;
    }
    Ok(())
}

#[cycle(collect)]
#[tactic(auto, using(crate::proofs::Walks::node_items, crate::proofs::WordLemmas::node_words))]
fn collect_node(found: &mut Found, node: &Node) -> Result<(), OutOfMemory>
    ensures found { OnOk result (found.new ≡ fold with_item found.old (items (nodes_of (node.now ∷ [])))) }
    ensures words { OnOk result (are_words (addresses (nodes_of (node.now ∷ []))) ≡ true) }
{
    match node {
        Node::Block(block) => collect_block(found, block),
        Node::If { yes, no, .. } => {
            collect_list(found, yes.as_slice())?;
            collect_list(found, no.as_slice())
        }
        Node::Loop { body, .. } => collect_list(found, body.as_slice()),
    }
}
