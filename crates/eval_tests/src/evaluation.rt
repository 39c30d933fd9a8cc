//! Opcodes on words, by the table of values, and on lists of components.

ghost use Rattle.std.specs.Prelude.{◌≡◌, ◌==◌, true, IfOk};
ghost use Rattle.std.specs.List.{list_all};
ghost use Rattle.op_eval.specs.Calls.{Fits, per_component, result_width, size_at, source_widths, unsized_width};
ghost use Rattle.op_eval.specs.Views.{CountsFit, count_at, views_counts, views_widths};
ghost use Rattle.op_eval.specs.Words.{words_widths};

use crate::values::VALUES;
use nir_host::{OutOfMemory, Seq};
use nir_ops::Width::{self, W1, W8, W16, W32, W64};
use nir_ops::{Inputs, Op, OpInput, allowed, info};
use op_eval::{Components, View, Word, eval, eval_view};
use std::alloc::Global;
use std::process::Abort;
use std::test::Fail;

#[test]
fn opcodes_have_their_values(rt: HostRuntime) -> Result<(), Fail> {
    for &(op, width, dst, args, value) in &VALUES {
        let sources = info(op).inputs;
        let words = [
            word(source_at(&sources, 0, width), args[0]),
            word(source_at(&sources, 1, width), args[1]),
            word(source_at(&sources, 2, width), args[2]),
        ];
        let count = sources.len();
        assert!(rt; count <= 3);
        let words = &words[..count];
        let widths = widths_of_words(rt.alloc(), words)?;
        let fit = is_each(op) && fits(op, dst, widths.as_slice());
        assert!(rt; fit, "{op:?} at {width:?}");
        if fit {
            let made = eval(op, dst, words);
            assert!(rt; made == value, "{op:?} at {width:?}: {made}");
        }
    }
    Ok(())
}

/// All ones, of which a bit size takes the lowest.
const ONES: u64 = u64::MAX;

/// An opcode on lists of components.
struct Row {
    op: Op,
    /// The unsized bit sizes at which it is called.
    sizes: &'static [Width],
    /// The bit size of its result, where that is another.
    out: Option<Width>,
    /// The components of its sources, and those that it makes of them. A bit size takes the lowest bits.
    args: &'static [&'static [u64]],
    made: &'static [u64],
}

const EVERY: &[Width] = &[W1, W8, W16, W32, W64];

/// Lists that differ in their last component alone, and equal ones.
static ROWS: [Row; 16] = [
    Row {
        op: Op::Iadd,
        sizes: &[W8],
        out: None,
        args: &[&[ONES, 1], &[ONES, 1]],
        made: &[0xfe, 2],
    },
    Row {
        op: Op::Vec2,
        sizes: EVERY,
        out: None,
        args: &[&[ONES], &[0]],
        made: &[ONES, 0],
    },
    Row {
        op: Op::BallIequal2,
        sizes: EVERY,
        out: Some(W1),
        args: &[&[ONES, 0], &[ONES, 0]],
        made: &[1],
    },
    Row {
        op: Op::BallIequal2,
        sizes: EVERY,
        out: Some(W1),
        args: &[&[ONES, 0], &[ONES, 1]],
        made: &[0],
    },
    Row {
        op: Op::BanyInequal2,
        sizes: EVERY,
        out: Some(W1),
        args: &[&[ONES, 0], &[ONES, 0]],
        made: &[0],
    },
    Row {
        op: Op::BanyInequal2,
        sizes: EVERY,
        out: Some(W1),
        args: &[&[ONES, 0], &[ONES, 1]],
        made: &[1],
    },
    Row {
        op: Op::Vec3,
        sizes: EVERY,
        out: None,
        args: &[&[ONES], &[ONES], &[0]],
        made: &[ONES, ONES, 0],
    },
    Row {
        op: Op::BallIequal3,
        sizes: EVERY,
        out: Some(W1),
        args: &[&[ONES, ONES, 0], &[ONES, ONES, 0]],
        made: &[1],
    },
    Row {
        op: Op::BallIequal3,
        sizes: EVERY,
        out: Some(W1),
        args: &[&[ONES, ONES, 0], &[ONES, ONES, 1]],
        made: &[0],
    },
    Row {
        op: Op::BanyInequal3,
        sizes: EVERY,
        out: Some(W1),
        args: &[&[ONES, ONES, 0], &[ONES, ONES, 0]],
        made: &[0],
    },
    Row {
        op: Op::BanyInequal3,
        sizes: EVERY,
        out: Some(W1),
        args: &[&[ONES, ONES, 0], &[ONES, ONES, 1]],
        made: &[1],
    },
    Row {
        op: Op::Vec4,
        sizes: EVERY,
        out: None,
        args: &[&[ONES], &[ONES], &[ONES], &[0]],
        made: &[ONES, ONES, ONES, 0],
    },
    Row {
        op: Op::BallIequal4,
        sizes: EVERY,
        out: Some(W1),
        args: &[&[ONES, ONES, ONES, 0], &[ONES, ONES, ONES, 0]],
        made: &[1],
    },
    Row {
        op: Op::BallIequal4,
        sizes: EVERY,
        out: Some(W1),
        args: &[&[ONES, ONES, ONES, 0], &[ONES, ONES, ONES, 1]],
        made: &[0],
    },
    Row {
        op: Op::BanyInequal4,
        sizes: EVERY,
        out: Some(W1),
        args: &[&[ONES, ONES, ONES, 0], &[ONES, ONES, ONES, 0]],
        made: &[0],
    },
    Row {
        op: Op::BanyInequal4,
        sizes: EVERY,
        out: Some(W1),
        args: &[&[ONES, ONES, ONES, 0], &[ONES, ONES, ONES, 1]],
        made: &[1],
    },
];

#[test]
fn lists_have_their_values(rt: HostRuntime) -> Result<(), Fail> {
    for row in &ROWS {
        for &width in row.sizes {
            row_at(&rt, row, width)?;
        }
    }
    Ok(())
}

/// The row at an unsized bit size.
fn row_at(rt: &(impl Abort + AllocGlobal), row: &Row, width: Width) -> Result<(), Fail> {
    let mut views = Seq::new(rt.alloc());
    for &bits in row.args {
        views.push(view(width, bits))?;
    }
    let views = views.as_slice();
    let dst = sized(row.out, width);
    let made = view(dst, row.made);
    let mut out = view(dst, row.made);
    let widths = widths_of_views(rt.alloc(), views)?;
    let counts = counts_of(rt.alloc(), views)?;
    let fit = fits(row.op, dst, widths.as_slice())
        && counts_fit(row.op, out.comps.len(), counts.as_slice());
    assert!(rt; fit, "{:?} at {width:?}", row.op);
    if fit {
        eval_view(row.op, dst, views, &mut out);
        assert!(rt;
            out.comps.as_slice() == made.comps.as_slice(),
            "{:?} at {width:?}",
            row.op
        );
    }
    Ok(())
}

/// The components of this bit size that are the lowest bits of these.
fn view(width: Width, bits: &[u64]) -> View
    ensures { result.width ≡ width }
{
    let mut comps = Components::new();
    for &bits in bits {
        if comps.len() < 16 {
            comps.push(word(width, bits).bits);
        }
    }
    View { width, comps }
}

/// The bit size of a source, at an unsized bit size.
fn source_at(sources: &Inputs, at: usize, width: Width) -> Width {
    match sources.get(at) {
        Some(input) => sized(input.kind.size, width),
        None => width,
    }
}

fn sized(size: Option<Width>, width: Width) -> Width
    ensures { result ≡ size_at size width }
{
    match size {
        None => width,
        Some(size) => size,
    }
}

/// A word of this bit size, of the lowest of these bits.
fn word(width: Width, bits: u64) -> Word
    ensures { result.width ≡ width }
{
    let bits = match width {
        W1 => bits & 1,
        W8 => bits & 0xff,
        W16 => bits & 0xffff,
        W32 => bits & 0xffff_ffff,
        W64 => bits,
    };
    Word { width, bits }
}

fn widths_of_words(alloc: Global, words: &[Word]) -> Result<Seq<Width>, OutOfMemory>
    ensures { IfOk result (λ widths. widths ≡ words_widths words.now) }
{
    let mut widths = Seq::new(alloc);
    for word in words {
        widths.push(word.width)?;
    }
    Ok(widths)
}

fn widths_of_views(alloc: Global, views: &[View]) -> Result<Seq<Width>, OutOfMemory>
    ensures { IfOk result (λ widths. widths ≡ views_widths views.now) }
{
    let mut widths = Seq::new(alloc);
    for view in views {
        widths.push(view.width)?;
    }
    Ok(widths)
}

fn counts_of(alloc: Global, views: &[View]) -> Result<Seq<usize>, OutOfMemory>
    ensures { IfOk result (λ counts. counts ≡ views_counts views.now) }
{
    let mut counts = Seq::new(alloc);
    for view in views {
        counts.push(view.comps.len())?;
    }
    Ok(counts)
}

/// Whether the opcode works component by component. Only a yes is told.
#[tactic(auto, unfolding(op_eval::specs::Calls::per_component))]
fn is_each(op: Op) -> bool
    ensures { result ≡ true → per_component op ≡ true }
{
    let row = info(op);
    if row.out_count != 0 {
        return false;
    }
    are_free(row.inputs.as_slice())
}

/// Whether each of the sources has as many components as the result.
fn are_free(inputs: &[OpInput]) -> bool
    ensures { result ≡ list_all (λ input. input.count == 0) inputs.now }
{
    inputs.iter().all(|input| input.count == 0)
}

/// Whether a result and sources of these bit sizes fit the opcode. Only a yes is told.
fn fits(op: Op, dst: Width, widths: &[Width]) -> bool
    ensures { result ≡ true → Fits op dst widths.now }
{
    let width = unsized_at(op, dst, widths);
    if !allowed(op, width) {
        return false;
    }
    if result_at(op, width) != dst {
        return false;
    }
    sources_fit(op, width, widths)
}

/// The unsized bit size of a call.
#[tactic(auto, unfolding(op_eval::specs::Calls::unsized_width))]
fn unsized_at(op: Op, dst: Width, widths: &[Width]) -> Width
    ensures { result ≡ unsized_width op dst widths.now }
{
    match info(op).out.size {
        None => dst,
        Some(_) => match widths {
            [] => dst,
            [first, ..] => *first,
        },
    }
}

/// The bit size of the result, at an unsized bit size.
#[tactic(auto, unfolding(op_eval::specs::Calls::result_width))]
fn result_at(op: Op, width: Width) -> Width
    ensures { result ≡ result_width op width }
{
    sized(info(op).out.size, width)
}

/// Whether the sources have these bit sizes. Only a yes is told.
fn sources_fit(op: Op, width: Width, widths: &[Width]) -> bool
    ensures { result ≡ true → source_widths op width ≡ widths.now }
{
    let sources = info(op).inputs;
    let sources = sources.as_slice();
    if sources.len() != widths.len() {
        return false;
    }
    for at in 0..widths.len() {
        if sized(sources[at].kind.size, width) != widths[at] {
            return false;
        }
    }
    true
}

/// Whether a result and sources of so many components fit the opcode. Only a yes is told.
fn counts_fit(op: Op, count: usize, counts: &[usize]) -> bool
    ensures { result ≡ true → CountsFit op count counts.now }
{
    let row = info(op);
    if counted(row.out_count, count) != count {
        return false;
    }
    let sources = row.inputs.as_slice();
    if sources.len() != counts.len() {
        return false;
    }
    for at in 0..counts.len() {
        if counted(sources[at].count, count) != counts[at] {
            return false;
        }
    }
    true
}

/// So many components, where 0 means as many as the result has.
fn counted(fixed: u8, count: usize) -> usize
    ensures { result ≡ count_at fixed count }
{
    if fixed == 0 {
        count
    } else {
        usize::from(fixed)
    }
}
