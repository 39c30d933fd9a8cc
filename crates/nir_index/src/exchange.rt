//! An index that is kept up where instructions take the place of one: only what they read or define changes.

ghost use Rattle.std.specs.Prelude.{◌≡◌, [], ◌∷◌, ◌++◌, ◌-◌, IfOk, OnErr, length, map, replicate};
ghost use Rattle.std.specs.List.{flat_map};
ghost use Rattle.std.specs.Option.{option_to_list};
ghost use Rattle.nir_ir.specs.Items.{reads};
ghost use Rattle.nir_index.specs.Index.{IsLengthened, IsLonger, counted, exchange_of, exchanged, known_instr, lengthened, uncounted};

use crate::index::{Counts, Definer, Definers, Index, count_reads, instr_at};
use nir_host::{OutOfMemory, Seq};
use nir_ir::{Instr, Instrs, Src, ValueId};
use nir_tree::copied_instr;
use std::alloc::Global;

/// The index where these instructions came to the place of the one that defines the value, and as many values as `values` are numbered.
/// All that can want memory goes first: after `OutOfMemory` the index says what it said. Linear in the number of values, by a copy of the counts.
pub(crate) fn exchange(
    alloc: Global,
    index: &mut Index,
    value: ValueId,
    news: &[Instr],
    values: u32,
) -> Result<(), OutOfMemory>
    ensures done { IfOk result (λ done. index.new ≡ exchange_of index.old value news.now values) }
    ensures undone { OnErr result (IsLonger index.old index.new) }
{
    let copies = copied_instrs(alloc, news)?;
    let counts = exchanged_counts(alloc, index, value, news, values)?;
    lengthen_definers(&mut index.definers, values)?;
    exchange_definers(&mut index.definers, copies);
    index.counts = counts;
    Ok(())
}

fn copied_instrs(alloc: Global, instrs: &[Instr]) -> Result<Instrs, OutOfMemory>
    ensures { IfOk result (λ copies. copies ≡ instrs.now) }
{
    let mut copies = Seq::new(alloc);
    for instr in instrs {
        copies.push(copied_instr(alloc, instr)?)?;
    }
    Ok(copies)
}

/// One use of a value less.
fn drop_use(counts: &mut Counts, used: ValueId)
    ensures { counts.new ≡ uncounted (used ∷ []) counts.old }
{
    let at = used.0 as usize;
    if at < counts.len() {
        let count = counts.at_mut(at);
        *count = count.saturating_sub(1);
    }
}

/// Without the uses that sources are.
fn drop_srcs(counts: &mut Counts, srcs: &[Src])
    ensures { counts.new ≡ uncounted (map (λ src. src.value) srcs.now) counts.old }
{
    for src in srcs {
        drop_use(counts, src.value);
    }
}

/// Without the uses that an instruction makes.
fn drop_reads(counts: &mut Counts, instr: &Instr)
    ensures { counts.new ≡ uncounted (reads instr.now) counts.old }
{
    match instr {
        Instr::Alu { srcs, .. } => drop_srcs(counts, srcs.as_slice()),
        Instr::Const { .. } => {}
        Instr::Undef { .. } => {}
        Instr::Input { .. } => {}
        Instr::Output { src, .. } => drop_use(counts, *src),
        Instr::LoadBuf { offset, .. } => drop_use(counts, *offset),
        Instr::StoreBuf { offset, src, .. } => {
            drop_use(counts, *offset);
            drop_use(counts, *src);
        }
    }
}

/// Without the uses that the instruction makes which is known to define the value.
fn drop_known(counts: &mut Counts, definers: &[Definer], value: ValueId)
    ensures { counts.new ≡ uncounted (flat_map reads (option_to_list (known_instr definers.now value))) counts.old }
{
    match instr_at(definers, value) {
        Some(instr) => drop_reads(counts, instr),
        None => {}
    }
}

/// The uses that instructions make.
fn count_instrs(counts: &mut Counts, instrs: &[Instr]) -> Result<(), OutOfMemory>
    ensures { IfOk result (λ done. counts.new ≡ counted (flat_map reads instrs.now) counts.old) }
{
    for instr in instrs {
        count_reads(counts, instr)?;
    }
    Ok(())
}

/// At least so many counts, of which the new ones are 0.
fn lengthen_counts(counts: &mut Counts, values: u32) -> Result<(), OutOfMemory>
    ensures { IfOk result (λ done. counts.new ≡ counts.old ++ replicate (values - length counts.old) 0) }
{
    let missing = (values as usize).saturating_sub(counts.len());
    for _more in 0..missing {
        counts.push(0)?;
    }
    Ok(())
}

/// The counts with what the new instructions use, and without what the one uses whose place they take.
fn exchanged_counts(
    alloc: Global,
    index: &Index,
    value: ValueId,
    news: &[Instr],
    values: u32,
) -> Result<Counts, OutOfMemory>
    ensures { IfOk result (λ counts. counts ≡ (exchange_of index.now value news.now values).counts) }
{
    let mut counts = Seq::from_slice(alloc, index.counts.as_slice())?;
    lengthen_counts(&mut counts, values)?;
    count_instrs(&mut counts, news)?;
    drop_known(&mut counts, index.definers.as_slice(), value);
    Ok(counts)
}

/// At least so many definers, of which the new ones know nothing.
fn lengthen_definers(definers: &mut Definers, values: u32) -> Result<(), OutOfMemory>
    ensures done { IfOk result (λ done. definers.new ≡ lengthened values definers.old) }
    ensures undone { OnErr result (IsLengthened definers.old definers.new) }
{
    let missing = (values as usize).saturating_sub(definers.len());
    for _more in 0..missing {
        definers.push(Definer {
            instr: None,
            phi: None,
        })?;
    }
    Ok(())
}

/// The instruction came to define its value.
fn exchange_definer(definers: &mut Definers, instr: Instr)
    ensures { definers.new ≡ exchanged (instr ∷ []) definers.old }
{
    if let Some(value) = instr.target() {
        let at = value.0 as usize;
        if at < definers.len() {
            let definer = definers.at_mut(at);
            definer.instr = Some(instr);
        }
    }
}

/// The instructions came to define their values: the last goes first, so that of two for one value the first counts.
fn exchange_definers(definers: &mut Definers, news: Instrs)
    ensures { definers.new ≡ exchanged news definers.old }
{
    let mut news = news;
    while let Some(instr) = news.pop() {
        exchange_definer(definers, instr);
    }
}
