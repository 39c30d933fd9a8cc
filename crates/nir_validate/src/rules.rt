//! The tests of single items: whether an item keeps each of the rules that look at it alone.

ghost use Rattle.std.specs.Prelude.{◌≡◌, length, map, nat_eq, nat_lt};
ghost use Rattle.std.specs.List.{list_all};
ghost use Rattle.std.specs.Cmp.Lexicographic.{pointwise};
ghost use Rattle.op_eval.specs.Calls.{same_width, size_at, sizes_fit, unsized_of};
ghost use Rattle.op_eval.specs.Views.{count_at};
ghost use Rattle.nir_validate.specs.KindTable.{kinds_in};
ghost use Rattle.nir_validate.specs.Rules.{condition_kind, counts_fit, declares, has_kind, has_kind_that, instr_is_declared, instr_kinds_fit, instr_names_components, is_storable, names_components, offset_kind, same_kind, width_in, count_in};

use crate::kinds::kind_of;
use nir_ir::{Instr, Kind, Phi, PhiSource, Shader, Src, ValueId};
use nir_ops::{Op, OpInput, Width, allowed, info};

/// One word of 32 bits.
const OFFSET: Kind = Kind {
    width: Width::W32,
    count: 1,
};

/// One bit.
const CONDITION: Kind = Kind {
    width: Width::W1,
    count: 1,
};

fn same_width(a: Width, b: Width) -> bool
    ensures { result ≡ same_width a b }
{
    match a {
        Width::W1 => matches!(b, Width::W1),
        Width::W8 => matches!(b, Width::W8),
        Width::W16 => matches!(b, Width::W16),
        Width::W32 => matches!(b, Width::W32),
        Width::W64 => matches!(b, Width::W64),
    }
}

fn same_kind(a: Kind, b: Kind) -> bool
    ensures { result ≡ same_kind a b }
{
    same_width(a.width, b.width) && a.count == b.count
}

/// Whether the value has this kind.
fn has_kind(kinds: &[Option<Kind>], value: ValueId, kind: Kind) -> bool
    ensures { result ≡ has_kind (kinds_in kinds.now) value kind }
{
    match kind_of(kinds, value) {
        Some(found) => same_kind(kind, found),
        None => false,
    }
}

/// Whether loads and stores may be of this kind: of whole bytes.
fn is_storable(kind: Kind) -> bool
    ensures { result ≡ is_storable kind }
{
    !same_width(kind.width, Width::W1)
}

fn has_storable_kind(kinds: &[Option<Kind>], value: ValueId) -> bool
    ensures { result ≡ has_kind_that (kinds_in kinds.now) value is_storable }
{
    match kind_of(kinds, value) {
        Some(found) => is_storable(found),
        None => false,
    }
}

/// The bit size of a value; 1 for one that is defined nowhere.
fn width_of(kinds: &[Option<Kind>], value: ValueId) -> Width
    ensures { result ≡ width_in (kinds_in kinds.now) value }
{
    match kind_of(kinds, value) {
        Some(found) => found.width,
        None => Width::W1,
    }
}

/// The bit size of a source or result of this size, where the unsized ones have another.
fn size_at(size: Option<Width>, width: Width) -> Width
    ensures { result ≡ size_at size width }
{
    match size {
        Some(size) => size,
        None => width,
    }
}

/// The unsized bit size of an instruction: that of the result where it is unsized, else that of the first source.
fn unsized_of(kinds: &[Option<Kind>], out: Option<Width>, width: Width, srcs: &[Src]) -> Width
    ensures { result ≡ unsized_of out width (map (λ src. width_in (kinds_in kinds.now) src.value) srcs.now) }
{
    match out {
        None => width,
        Some(_) => match srcs {
            [] => width,
            [first, ..] => width_of(kinds, first.value),
        },
    }
}

/// Whether the bit sizes of sources are those of the opcode's inputs at this unsized bit size.
fn inputs_fit(kinds: &[Option<Kind>], inputs: &[OpInput], width: Width, srcs: &[Src]) -> bool
    ensures { result ≡ pointwise same_width (map (λ input. size_at input.kind.size width) inputs.now) (map (λ src. width_in (kinds_in kinds.now) src.value) srcs.now) }
{
    match (inputs, srcs) {
        ([], []) => true,
        ([], [_, ..]) => false,
        ([_, ..], []) => false,
        ([input, inputs @ ..], [src, srcs @ ..]) => {
            if !same_width(size_at(input.kind.size, width), width_of(kinds, src.value)) {
                return false;
            }
            inputs_fit(kinds, inputs, width, srcs)
        }
    }
}

/// Whether the numbers of components of sources are those of the opcode's inputs, where the result has so many.
fn input_counts_fit(inputs: &[OpInput], count: u8, srcs: &[Src]) -> bool
    ensures { result ≡ pointwise nat_eq (map (λ input. count_at input.count count) inputs.now) (map (λ src. length src.swizzle) srcs.now) }
{
    match (inputs, srcs) {
        ([], []) => true,
        ([], [_, ..]) => false,
        ([_, ..], []) => false,
        ([input, inputs @ ..], [src, srcs @ ..]) => {
            if usize::from(count_at(input.count, count)) != src.swizzle.len() {
                return false;
            }
            input_counts_fit(inputs, count, srcs)
        }
    }
}

/// So many components, where 0 means as many as the result has.
fn count_at(fixed: u8, count: u8) -> u8
    ensures { result ≡ count_at fixed count }
{
    if fixed == 0 { count } else { fixed }
}

/// Whether the bit sizes of an instruction with an opcode fit it.
#[tactic(auto, unfolding(op_eval::specs::Calls::result_width, op_eval::specs::Calls::source_widths, op_eval::specs::Calls::unsized_width, op_eval::specs::Calls::sizes_fit))]
fn sizes_fit(kinds: &[Option<Kind>], op: Op, width: Width, srcs: &[Src]) -> bool
    ensures { result ≡ sizes_fit op width (map (λ src. width_in (kinds_in kinds.now) src.value) srcs.now) }
{
    let row = info(op);
    let free = unsized_of(kinds, row.out.size, width, srcs);
    if !allowed(op, free) {
        return false;
    }
    if !same_width(size_at(row.out.size, free), width) {
        return false;
    }
    inputs_fit(kinds, row.inputs.as_slice(), free, srcs)
}

/// Whether the numbers of components of an instruction with an opcode fit it.
#[tactic(auto, unfolding(crate::specs::Rules::counts_fit))]
fn counts_fit(op: Op, count: u8, srcs: &[Src]) -> bool
    ensures { result ≡ counts_fit op count (map (λ src. length src.swizzle) srcs.now) }
{
    let row = info(op);
    if count_at(row.out_count, count) != count {
        return false;
    }
    input_counts_fit(row.inputs.as_slice(), count, srcs)
}

/// How many components a value has; 0 for one that is defined nowhere.
fn count_of(kinds: &[Option<Kind>], value: ValueId) -> u8
    ensures { result ≡ count_in (kinds_in kinds.now) value }
{
    match kind_of(kinds, value) {
        Some(found) => found.count,
        None => 0,
    }
}

/// Whether the entries of a swizzle are below the number of components.
fn are_below(entries: &[u8], count: u8) -> bool
    ensures { result ≡ list_all (λ entry. nat_lt entry count) entries.now }
{
    for entry in entries {
        if *entry >= count {
            return false;
        }
    }
    true
}

/// Whether sources name components that their values have.
fn name_components(kinds: &[Option<Kind>], srcs: &[Src]) -> bool
    ensures { result ≡ list_all (names_components (kinds_in kinds.now)) srcs.now }
{
    for src in srcs {
        if !are_below(src.swizzle.as_slice(), count_of(kinds, src.value)) {
            return false;
        }
    }
    true
}

/// Whether the slot is declared with this kind.
fn declares(slots: &[Kind], slot: u32, kind: Kind) -> bool
    ensures { result ≡ declares slots.now slot kind }
{
    match slots.get(slot as usize) {
        Some(found) => same_kind(kind, *found),
        None => false,
    }
}

/// Whether the slot is declared with the kind of the value.
fn declares_kind_of(kinds: &[Option<Kind>], slots: &[Kind], slot: u32, value: ValueId) -> bool
    ensures { result ≡ has_kind_that (kinds_in kinds.now) value (declares slots.now slot) }
{
    match kind_of(kinds, value) {
        Some(found) => declares(slots, slot, found),
        None => false,
    }
}

/// V1 of a phi: its sources have its kind.
pub(crate) fn sources_have_kind(kinds: &[Option<Kind>], sources: &[PhiSource], kind: Kind) -> bool
    ensures { result ≡ list_all (λ source. has_kind (kinds_in kinds.now) source.value kind) sources.now }
{
    for source in sources {
        if !has_kind(kinds, source.value, kind) {
            return false;
        }
    }
    true
}

/// V1 of an instruction: bit sizes and numbers of components fit.
pub(crate) fn instr_kinds_fit(kinds: &[Option<Kind>], instr: &Instr) -> bool
    ensures { result ≡ instr_kinds_fit (kinds_in kinds.now) instr.now }
{
    match instr {
        Instr::Alu { op, kind, srcs, .. } => {
            if !sizes_fit(kinds, *op, kind.width, srcs.as_slice()) {
                return false;
            }
            counts_fit(*op, kind.count, srcs.as_slice())
        }
        Instr::Const { .. } => true,
        Instr::Undef { .. } => true,
        Instr::Input { .. } => true,
        Instr::Output { .. } => true,
        Instr::LoadBuf { kind, offset, .. } => {
            if !has_kind(kinds, *offset, OFFSET) {
                return false;
            }
            is_storable(*kind)
        }
        Instr::StoreBuf { offset, src, .. } => {
            if !has_kind(kinds, *offset, OFFSET) {
                return false;
            }
            has_storable_kind(kinds, *src)
        }
    }
}

/// V2: the slot or buffer is declared, with the same kind.
pub(crate) fn instr_is_declared(kinds: &[Option<Kind>], shader: &Shader, instr: &Instr) -> bool
    ensures { result ≡ instr_is_declared (kinds_in kinds.now) shader.now instr.now }
{
    match instr {
        Instr::Alu { .. } => true,
        Instr::Const { .. } => true,
        Instr::Undef { .. } => true,
        Instr::Input { kind, slot, .. } => declares(shader.inputs.as_slice(), *slot, *kind),
        Instr::Output { slot, src, .. } => declares_kind_of(
            kinds,
            shader.outputs.as_slice(),
            *slot,
            *src,
        ),
        Instr::LoadBuf { buffer, .. } => *buffer < shader.buffers,
        Instr::StoreBuf { buffer, .. } => *buffer < shader.buffers,
    }
}

/// V8: swizzles name components that the values have.
pub(crate) fn instr_names_components(kinds: &[Option<Kind>], instr: &Instr) -> bool
    ensures { result ≡ instr_names_components (kinds_in kinds.now) instr.now }
{
    match instr {
        Instr::Alu { srcs, .. } => name_components(kinds, srcs.as_slice()),
        Instr::Const { .. } => true,
        Instr::Undef { .. } => true,
        Instr::Input { .. } => true,
        Instr::Output { .. } => true,
        Instr::LoadBuf { .. } => true,
        Instr::StoreBuf { .. } => true,
    }
}

/// V9: a condition is one bit.
pub(crate) fn is_condition(kinds: &[Option<Kind>], value: ValueId) -> bool
    ensures { result ≡ has_kind (kinds_in kinds.now) value condition_kind }
{
    has_kind(kinds, value, CONDITION)
}
