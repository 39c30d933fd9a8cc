//! Sets of sizes, and those that the root of a term can have where the sizes of its variables are known.

ghost use Rattle.std.specs.Prelude.{◌≡◌, ◌≤◌, ◌&&◌, true, false, [], ◌∷◌, filter, length, map, is_some, if◌then◌else◌};
ghost use Rattle.nir_ops.specs.declared.width.Width.{Width as Size};
ghost use Rattle.std.proofs.Common.{drop};
ghost use Rattle.std.specs.List.{find};
ghost use Rattle.nir_ops.specs.Opcodes.{op_allows};
ghost use Rattle.op_eval.specs.Calls.{result_width, same_width, size_at, source_widths};
ghost use Rattle.rule_term.specs.ReplaceLeast.{can, every_width, knows, set_has, set_of};
ghost use Rattle.rule_term.specs.Terms.{terms_of};
ghost use Rattle.rule_term.specs.Typings.{first_of, has_size, literal_fits};

use crate::search_sizes::{has_size, literal_fits, same_width, size_at};
use crate::term::Term;
use nir_ops::{Op, OpInput, Width, allowed, info};

/// The size of each variable by its number, as far as it is known.
pub type Known = [Option<Width>; 16];

/// A set of sizes.
#[derive(Clone, Copy)]
pub struct WidthSet {
    pub w1: bool,
    pub w8: bool,
    pub w16: bool,
    pub w32: bool,
    pub w64: bool,
}

impl WidthSet {
    /// Whether the set has the size.
    pub fn has(self, width: Width) -> bool
        ensures { result ≡ set_has self width }
    {
        match width {
            Width::W1 => self.w1,
            Width::W8 => self.w8,
            Width::W16 => self.w16,
            Width::W32 => self.w32,
            Width::W64 => self.w64,
        }
    }

    /// How many sizes the set has.
    pub fn len(self) -> usize
        ensures count { result ≡ length (filter (set_has self) every_width) }
        ensures few { result ≤ 5 }
    {
        one_if(self.w1) + one_if(self.w8) + one_if(self.w16) + one_if(self.w32) + one_if(self.w64)
    }

    /// The sizes that both sets have.
    pub fn and(self, other: WidthSet) -> WidthSet
        ensures { result ≡ set_of (λ width. set_has self width && set_has other width) }
    {
        WidthSet {
            w1: self.w1 && other.w1,
            w8: self.w8 && other.w8,
            w16: self.w16 && other.w16,
            w32: self.w32 && other.w32,
            w64: self.w64 && other.w64,
        }
    }

    /// All sizes.
    pub fn full() -> WidthSet
        ensures { result ≡ set_of (λ width. true) }
    {
        WidthSet {
            w1: true,
            w8: true,
            w16: true,
            w32: true,
            w64: true,
        }
    }

    /// No size.
    pub fn empty() -> WidthSet
        ensures { result ≡ set_of (λ width. false) }
    {
        WidthSet {
            w1: false,
            w8: false,
            w16: false,
            w32: false,
            w64: false,
        }
    }

    /// The sizes of a node at which perhaps a size is written.
    pub fn written(size: Option<Width>) -> WidthSet
        ensures { result ≡ set_of (has_size size) }
    {
        WidthSet {
            w1: has_size(size, Width::W1),
            w8: has_size(size, Width::W8),
            w16: has_size(size, Width::W16),
            w32: has_size(size, Width::W32),
            w64: has_size(size, Width::W64),
        }
    }

    /// The sizes that the number fits.
    pub fn of_literal(value: i128, boolean: bool) -> WidthSet
        ensures { result ≡ set_of (literal_fits value boolean) }
    {
        WidthSet {
            w1: literal_fits(value, boolean, Width::W1),
            w8: literal_fits(value, boolean, Width::W8),
            w16: literal_fits(value, boolean, Width::W16),
            w32: literal_fits(value, boolean, Width::W32),
            w64: literal_fits(value, boolean, Width::W64),
        }
    }

    /// The unsized sizes at which the opcode works.
    pub fn of_op(op: Op) -> WidthSet
        ensures { result ≡ set_of (op_allows op) }
    {
        WidthSet {
            w1: allowed(op, Width::W1),
            w8: allowed(op, Width::W8),
            w16: allowed(op, Width::W16),
            w32: allowed(op, Width::W32),
            w64: allowed(op, Width::W64),
        }
    }
}

fn one_if(has: bool) -> usize
    ensures { result ≡ (if has then 1 else 0) }
{
    if has { 1 } else { 0 }
}

/// Whether the variable has the size.
fn knows(known: &Known, var: u32, width: Width) -> bool
    ensures { result ≡ knows known.now var width }
{
    match known.get(var as usize) {
        Some(Some(size)) => same_width(*size, width),
        Some(None) => false,
        None => false,
    }
}

/// Whether a variable at which perhaps a size is written may have this one.
fn var_may(known: &Known, var: u32, size: Option<Width>, width: Width) -> bool
    ensures { result ≡ (has_size size width && knows known.now var width) }
{
    if !has_size(size, width) {
        return false;
    }
    knows(known, var, width)
}

/// The sizes that a variable may have.
fn sizes_of_var(known: &Known, var: u32, size: Option<Width>) -> WidthSet
    ensures { result ≡ set_of (λ width. has_size size width && knows known.now var width) }
{
    WidthSet {
        w1: var_may(known, var, size, Width::W1),
        w8: var_may(known, var, size, Width::W8),
        w16: var_may(known, var, size, Width::W16),
        w32: var_may(known, var, size, Width::W32),
        w64: var_may(known, var, size, Width::W64),
    }
}

/// Whether the set has the unsized size, and the sizes of a source have the one that it has then.
fn goes_with(set: WidthSet, size: Option<Width>, sizes: WidthSet, free: Width) -> bool
    ensures { result ≡ (set_has set free && set_has sizes (size_at size free)) }
{
    if !set.has(free) {
        return false;
    }
    sizes.has(size_at(size, free))
}

/// The unsized sizes of the set at which a source can have its size, which is perhaps one of its own.
fn narrowed(set: WidthSet, size: Option<Width>, sizes: WidthSet) -> WidthSet
    ensures { result ≡ set_of (λ free. set_has set free && set_has sizes (size_at size free)) }
{
    WidthSet {
        w1: goes_with(set, size, sizes, Width::W1),
        w8: goes_with(set, size, sizes, Width::W8),
        w16: goes_with(set, size, sizes, Width::W16),
        w32: goes_with(set, size, sizes, Width::W32),
        w64: goes_with(set, size, sizes, Width::W64),
    }
}

/// Whether an opcode has a result of the size where the unsized size is the other, which the set has.
#[tactic(auto, unfolding(op_eval::specs::Calls::result_width))]
fn gives(op: Op, set: WidthSet, dst: Width, free: Width) -> bool
    ensures { result ≡ (set_has set free && same_width (result_width op free) dst) }
{
    if !set.has(free) {
        return false;
    }
    same_width(size_at(info(op).out.size, free), dst)
}

/// The least unsized size of the set at which the result of the opcode has the size.
pub fn unsized_for(op: Op, set: WidthSet, dst: Width) -> Option<Width>
    ensures { result ≡ find (λ free. set_has set free && same_width (result_width op free) dst) every_width }
{
    if gives(op, set, dst, Width::W1) {
        return Some(Width::W1);
    }
    if gives(op, set, dst, Width::W8) {
        return Some(Width::W8);
    }
    if gives(op, set, dst, Width::W16) {
        return Some(Width::W16);
    }
    if gives(op, set, dst, Width::W32) {
        return Some(Width::W32);
    }
    if gives(op, set, dst, Width::W64) {
        return Some(Width::W64);
    }
    None
}

/// Whether a result of the opcode at which perhaps a size is written can have this one.
fn result_may(op: Op, set: WidthSet, size: Option<Width>, dst: Width) -> bool
    ensures { result ≡ (has_size size dst && is_some (find (λ free. set_has set free && same_width (result_width op free) dst) every_width)) }
{
    if !has_size(size, dst) {
        return false;
    }
    unsized_for(op, set, dst).is_some()
}

/// The sizes that a result of the opcode can have, where the set is that of its unsized sizes.
fn sizes_of_result(op: Op, set: WidthSet, size: Option<Width>) -> WidthSet
    ensures { result ≡ set_of (λ dst. has_size size dst && is_some (find (λ free. set_has set free && same_width (result_width op free) dst) every_width)) }
{
    WidthSet {
        w1: result_may(op, set, size, Width::W1),
        w8: result_may(op, set, size, Width::W8),
        w16: result_may(op, set, size, Width::W16),
        w32: result_may(op, set, size, Width::W32),
        w64: result_may(op, set, size, Width::W64),
    }
}

/// The size that an opcode has for a source at a place, if it is not unsized: past the end it is 1.
pub fn demanded(inputs: &[OpInput], at: usize) -> Option<Width>
    ensures { (free : Size) → size_at result free ≡ first_of (drop at (map (λ input. size_at input.kind.size free) inputs.now)) }
{
    match inputs.get(at) {
        Some(input) => input.kind.size,
        None => Some(Width::W1),
    }
}

/// The sizes that the root of the term can have, where variables have the sizes that are known. It takes no memory, and
/// visits each node once.
#[cycle(sizes)]
pub fn sizes_of_term(term: &Term, known: &Known) -> WidthSet
    ensures { result ≡ set_of (λ width. can (knows known.now) (terms_of (term.now ∷ [])) (width ∷ [])) }
{
    match term {
        Term::Var { var, size, .. } => sizes_of_var(known, *var, *size),
        Term::Lit { value, boolean } => WidthSet::of_literal(*value, *boolean),
        Term::App { op, size, args, .. } => {
            let set = usable(*op, args.as_slice(), known);
            sizes_of_result(*op, set, *size)
        }
    }
}

/// The unsized sizes at which the opcode works and its sources can have their sizes.
#[cycle(sizes)]
pub fn usable(op: Op, args: &[Term], known: &Known) -> WidthSet
    ensures { result ≡ set_of (λ free. op_allows op free && can (knows known.now) (terms_of args.now) (source_widths op free)) }
{
    let row = info(op);
    let inputs = row.inputs.as_slice();
    let mut set = WidthSet::of_op(op);
    for (at, term) in args.iter().enumerate() {
        let sizes = sizes_of_term(term, known);
        set = narrowed(set, demanded(inputs, at), sizes);
    }
    set
}
