//! Opcodes on views.

ghost use Rattle.std.specs.Prelude.{◌≡◌, ◌<◌, ◌≤◌, ◌^◌, ℕ, List, [], ◌∷◌, true, not, map, replicate, length, slice_get, slice_index};
ghost use Rattle.std.specs.List.{range_with_len, slice_index_or};
ghost use Rattle.nir_ops.specs.Width.{width_bits};
ghost use Rattle.nir_ops.specs.Opcodes.{op_info};
ghost use Rattle.op_eval.specs.Calls.{Fits, bits_of, per_component, unsized_width};
ghost use Rattle.op_eval.specs.Meaning.{op_mean};
ghost use Rattle.op_eval.specs.Views.{CountsFit, bit_of, column, sources_equal, view_mean, views_comps, views_counts, views_widths};

use crate::apply::apply;
use crate::shape::{Shape, shape_on_lists};
use crate::size::unsized_at;
use crate::view::{Components, View};
use nir_ops::{Op, Width};

/// The components that the opcode makes of these views, as many as `out` has, at the bit size of its result. The bit sizes,
/// the numbers of components and the number of the views fit the opcode.
pub fn eval_view(op: Op, dst: Width, args: &[View], out: &mut View)
    requires fits { Fits op dst (views_widths args.now) }
    requires counts { CountsFit op (length out.old.comps) (views_counts args.now) }
    ensures width { out.new.width ≡ dst }
    ensures value { out.new.comps ≡ view_mean op (width_bits (unsized_width op dst (views_widths args.now))) (width_bits dst) (length out.old.comps) (views_comps args.now) }
{
    match shape_on_lists(op) {
        Shape::EachPlace => each_place(op, dst, args, out),
        Shape::Gathers => gather(dst, args, out),
        Shape::AllEqual => one_bit(dst, same_components(args), out),
        Shape::SomeDiffer => one_bit(dst, !same_components(args), out),
    }
}

/// An opcode that works component by component, at each place.
fn each_place(op: Op, dst: Width, args: &[View], out: &mut View)
    requires each { per_component op ≡ true }
    requires fits { Fits op dst (views_widths args.now) }
    ensures width { out.new.width ≡ dst }
    ensures value { out.new.comps ≡ map (λ at. op_mean op (width_bits (unsized_width op dst (views_widths args.now))) (width_bits dst) (column at (views_comps args.now))) (range_with_len 0 (length out.old.comps)) }
{
    let count = out.comps.len();
    let mut comps = Components::new();
    for at in 0..count {
        comps.push(place(op, dst, args, at));
    }
    *out = View { width: dst, comps };
}

/// What an opcode makes at one place.
fn place(op: Op, dst: Width, args: &[View], at: usize) -> u64
    requires each { per_component op ≡ true }
    requires fits { Fits op dst (views_widths args.now) }
    ensures value { result ≡ op_mean op (width_bits (unsized_width op dst (views_widths args.now))) (width_bits dst) (column at (views_comps args.now)) }
    ensures small { result < 2 ^ width_bits dst }
{
    let width = call_width(op, dst, args);
    apply(
        op,
        width,
        component_at(args, 0, at),
        component_at(args, 1, at),
        component_at(args, 2, at),
    )
}

/// The unsized bit size of the call.
fn call_width(op: Op, dst: Width, args: &[View]) -> Width
    ensures { result ≡ unsized_width op dst (views_widths args.now) }
{
    match args.first() {
        Some(view) => unsized_at(op, dst, view.width),
        None => dst,
    }
}

/// A component of a source, and 0 past the ends.
fn component_at(args: &[View], source: usize, at: usize) -> u64
    ensures value { result ≡ slice_index (column at (views_comps args.now)) source }
    ensures small { result < 2 ^ bits_of (slice_get (views_widths args.now) source) }
{
    if source < args.len() {
        args[source].comps.component(at)
    } else {
        0
    }
}

/// The first component of each source, of which all have the bit size of the result.
fn gather(dst: Width, args: &[View], out: &mut View)
    requires few { length args.now ≤ 16 }
    requires same { views_widths args.now ≡ replicate (length args.now) dst }
    ensures width { out.new.width ≡ dst }
    ensures value { out.new.comps ≡ column 0 (views_comps args.now) }
{
    let mut comps = Components::new();
    for view in args {
        comps.push(view.comps.component(0));
    }
    *out = View { width: dst, comps };
}

/// Whether the first two sources have the same components.
fn same_components(args: &[View]) -> bool
    ensures { result ≡ sources_equal (views_comps args.now) }
{
    components_of(args, 0) == components_of(args, 1)
}

/// The components of a source, and none past the end.
fn components_of(args: &[View], source: usize) -> &[u64]
    ensures { result.now ≡ slice_index_or (views_comps args.now) source [] }
{
    if source < args.len() {
        args[source].comps.as_slice()
    } else {
        &[]
    }
}

/// One component, which is 1 or 0.
fn one_bit(dst: Width, test: bool, out: &mut View)
    ensures width { out.new.width ≡ dst }
    ensures value { out.new.comps ≡ bit_of test ∷ [] }
{
    let mut comps = Components::new();
    comps.push(test as u64);
    *out = View { width: dst, comps };
}
