//! What an index of a shader holds, and how one is made: by one walk over the tree.

ghost use Rattle.std.specs.Prelude.{◌≡◌, [], ◌∷◌, length, map, replicate, slice_index, IfOk, Some};
ghost use Rattle.std.specs.Option.{option_copied, option_or};
ghost use Rattle.nir_ir.specs.Items.{block_items, items, reads, uses, InstrItem, PhiItem};
ghost use Rattle.nir_ir.specs.Nodes.{nodes_of};
ghost use Rattle.nir_index.specs.Index.{blank, counted, known_instr, noted, told, IsIndex};

use nir_host::{OutOfMemory, Seq};
use nir_ir::{Block, Instr, Kind, Node, Phi, PhiSource, Shader, Src, ValueId};
use nir_tree::copied_instr;
use std::alloc::Global;

/// What defines a value: an instruction, of which this is a copy, or a phi of this kind, or nothing.
#[derive(Debug, Drop)]
pub(crate) struct Definer {
    pub instr: Option<Instr>,
    pub phi: Option<Kind>,
}

/// What defines each value, by its number.
pub(crate) type Definers = Seq<Definer>;

/// How often each value is used, by its number.
pub(crate) type Counts = Seq<u64>;

/// What defines each value, and how often it is used.
#[derive(Debug, Drop)]
pub(crate) struct Index {
    pub definers: Definers,
    pub counts: Counts,
}

/// The index of a shader. `OutOfMemory` where there is no memory for it, or where a value has 2^64 uses.
/// Linear in the size of the shader.
pub(crate) fn index_of(alloc: Global, shader: &Shader) -> Result<Index, OutOfMemory>
    ensures { IfOk result (λ index. IsIndex shader.now.body index) }
{
    let mut index = blank(alloc, shader.next_value)?;
    note_list(alloc, &mut index, shader.body.as_slice())?;
    Ok(index)
}

/// How often a value is used; 0 past the end.
pub(crate) fn count_at(counts: &[u64], value: ValueId) -> u64
    ensures { result ≡ slice_index counts.now value.0 }
{
    let at = value.0 as usize;
    if at < counts.len() { counts[at] } else { 0 }
}

/// The instruction that is known to define the value.
pub(crate) fn instr_at(definers: &[Definer], value: ValueId) -> Option<&Instr>
    ensures { option_copied result ≡ known_instr definers.now value }
{
    match definers.get(value.0 as usize) {
        Some(definer) => definer.instr.as_ref(),
        None => None,
    }
}

/// The index in which so many values are neither defined nor used.
fn blank(alloc: Global, values: u32) -> Result<Index, OutOfMemory>
    ensures { IfOk result (λ index. index ≡ blank values) }
{
    let mut definers = Seq::new(alloc);
    let mut counts = Seq::new(alloc);
    for _value in 0..values {
        definers.push(Definer {
            instr: None,
            phi: None,
        })?;
        counts.push(0)?;
    }
    Ok(Index { definers, counts })
}

/// One use of a value more.
pub(crate) fn count_use(counts: &mut Counts, used: ValueId) -> Result<(), OutOfMemory>
    ensures { IfOk result (λ done. counts.new ≡ counted (used ∷ []) counts.old) }
{
    let at = used.0 as usize;
    if at < counts.len() {
        let count = counts.at_mut(at);
        match count.checked_add(1) {
            Some(more) => *count = more,
            None => return Err(OutOfMemory),
        }
    }
    Ok(())
}

/// The uses that sources are.
fn count_srcs(counts: &mut Counts, srcs: &[Src]) -> Result<(), OutOfMemory>
    ensures { IfOk result (λ done. counts.new ≡ counted (map (λ src. src.value) srcs.now) counts.old) }
{
    for src in srcs {
        count_use(counts, src.value)?;
    }
    Ok(())
}

/// The uses that the sources of a phi are.
fn count_sources(counts: &mut Counts, sources: &[PhiSource]) -> Result<(), OutOfMemory>
    ensures { IfOk result (λ done. counts.new ≡ counted (map (λ source. source.value) sources.now) counts.old) }
{
    for source in sources {
        count_use(counts, source.value)?;
    }
    Ok(())
}

/// The uses that an instruction makes.
pub(crate) fn count_reads(counts: &mut Counts, instr: &Instr) -> Result<(), OutOfMemory>
    ensures { IfOk result (λ done. counts.new ≡ counted (reads instr.now) counts.old) }
{
    match instr {
        Instr::Alu { srcs, .. } => count_srcs(counts, srcs.as_slice()),
        Instr::Const { .. } => Ok(()),
        Instr::Undef { .. } => Ok(()),
        Instr::Input { .. } => Ok(()),
        Instr::Output { src, .. } => count_use(counts, *src),
        Instr::LoadBuf { offset, .. } => count_use(counts, *offset),
        Instr::StoreBuf { offset, src, .. } => {
            count_use(counts, *offset)?;
            count_use(counts, *src)
        }
    }
}

/// An instruction that defines the value, unless one is known.
fn learn_instr(alloc: Global, definer: &mut Definer, instr: &Instr) -> Result<(), OutOfMemory>
    ensures { IfOk result (λ done. definer.new ≡ record definer.old { instr = option_or definer.old.instr (Some instr.now) }) }
{
    match definer.instr {
        Some(_) => {}
        None => definer.instr = Some(copied_instr(alloc, instr)?),
    }
    Ok(())
}

/// The kind of a phi that defines the value, unless one is known.
fn learn_phi(definer: &mut Definer, kind: Kind)
    ensures { definer.new ≡ record definer.old { phi = option_or definer.old.phi (Some kind) } }
{
    match definer.phi {
        Some(_) => {}
        None => definer.phi = Some(kind),
    }
}

/// What an instruction defines.
fn tell_instr(alloc: Global, definers: &mut Definers, instr: &Instr) -> Result<(), OutOfMemory>
    ensures { IfOk result (λ done. definers.new ≡ told (InstrItem instr.now ∷ []) definers.old) }
{
    if let Some(value) = instr.target() {
        let at = value.0 as usize;
        if at < definers.len() {
            learn_instr(alloc, definers.at_mut(at), instr)?;
        }
    }
    Ok(())
}

/// What a phi defines.
fn tell_phi(definers: &mut Definers, phi: &Phi)
    ensures { definers.new ≡ told (PhiItem phi.now ∷ []) definers.old }
{
    let at = phi.value.0 as usize;
    if at < definers.len() {
        learn_phi(definers.at_mut(at), phi.kind);
    }
}

/// What an instruction defines and uses.
fn note_instr(alloc: Global, index: &mut Index, instr: &Instr) -> Result<(), OutOfMemory>
    ensures { IfOk result (λ done. index.new ≡ noted (InstrItem instr.now ∷ []) index.old) }
{
    tell_instr(alloc, &mut index.definers, instr)?;
    count_reads(&mut index.counts, instr)
}

/// What the instructions of a block define and use.
fn note_instrs(alloc: Global, index: &mut Index, instrs: &[Instr]) -> Result<(), OutOfMemory>
    ensures { IfOk result (λ done. index.new ≡ noted (map InstrItem instrs.now) index.old) }
{
    for instr in instrs {
        note_instr(alloc, index, instr)?;
    }
    Ok(())
}

/// What a phi defines and uses.
fn note_phi(index: &mut Index, phi: &Phi) -> Result<(), OutOfMemory>
    ensures { IfOk result (λ done. index.new ≡ noted (PhiItem phi.now ∷ []) index.old) }
{
    tell_phi(&mut index.definers, phi);
    count_sources(&mut index.counts, phi.sources.as_slice())
}

/// What the phis of a block define and use.
fn note_phis(index: &mut Index, phis: &[Phi]) -> Result<(), OutOfMemory>
    ensures { IfOk result (λ done. index.new ≡ noted (map PhiItem phis.now) index.old) }
{
    for phi in phis {
        note_phi(index, phi)?;
    }
    Ok(())
}

/// What a block defines and uses.
fn note_block(alloc: Global, index: &mut Index, block: &Block) -> Result<(), OutOfMemory>
    ensures { IfOk result (λ done. index.new ≡ noted (block_items block.now) index.old) }
{
    note_phis(index, block.phis.as_slice())?;
    note_instrs(alloc, index, block.instrs.as_slice())
}

/// What a list of nodes defines and uses.
#[cycle(note)]
fn note_list(alloc: Global, index: &mut Index, list: &[Node]) -> Result<(), OutOfMemory>
    ensures { IfOk result (λ done. index.new ≡ noted (items (nodes_of list.now)) index.old) }
{
    for node in list {
        note_node(alloc, index, node)?;
    }
    Ok(())
}

/// What a node defines and uses.
#[cycle(note)]
fn note_node(alloc: Global, index: &mut Index, node: &Node) -> Result<(), OutOfMemory>
    ensures { IfOk result (λ done. index.new ≡ noted (items (nodes_of (node.now ∷ []))) index.old) }
{
    match node {
        Node::Block(block) => note_block(alloc, index, block),
        Node::If { cond, yes, no, .. } => {
            count_use(&mut index.counts, *cond)?;
            note_list(alloc, index, yes.as_slice())?;
            note_list(alloc, index, no.as_slice())
        }
        Node::Loop { body, .. } => note_list(alloc, index, body.as_slice()),
    }
}
