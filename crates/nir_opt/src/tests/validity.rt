//! Which rule of valid shaders a text breaks first, and at which item.

use super::texts::{LEAK, RULE};
use super::{Case, REFUSED, Text, all_end, ends, uncounted};
use nir_host::OutOfMemory;
use std::alloc::Global;
use std::process::Abort;

/// What stands behind a front, and the line of the whole: none, where it is valid. A valid text stands below the
/// ones that it is beside.
type Row<'a> = (&'a [u8], &'a [u8]);

/// Three slots, and a value of each in the first block: items 0 to 3. The next item is 4.
const FRONT: &[u8] =
    b"shader inputs [w32x1, w1x1, w8x2] outputs [w32x1, w8x2] buffers 1 { block b0 { %x = input w32x1 @0 %c = input w1x1 @1 %v = input w8x2 @2 ";

/// No slot, and no block so far.
const BARE: &[u8] = b"shader inputs [] outputs [] buffers 0 { ";

/// A value that is used before the line that defines it.
const LATE: &[u8] = br"shader
inputs [w8x1]
outputs [w8x1]
buffers 0
{
  block b0 {
    output @0, %0
    %0 = input w8x1 @0
  }
}
";

/// A jump outside of loops.
const JUMP: &[u8] = br"shader
inputs []
outputs []
buffers 0
{
  block b0 {
    break
  }
}
";

/// An input of a slot that is not declared, at 32 bits.
const NO_SLOT: &[u8] = br"shader
inputs []
outputs []
buffers 0
{
  block b0 {
    %0 = input w32x1 @0
  }
}
";

/// Two ifs with no block between them.
const TWO_IFS: &[u8] = br"shader
inputs [w1x1]
outputs []
buffers 0
{
  block b0 {
    %0 = input w1x1 @0
  }
  if %0 {
    block b1 {
    }
  } else {
    block b2 {
    }
  }
  if %0 {
    block b3 {
    }
  } else {
    block b4 {
    }
  }
  block b5 {
  }
}
";

/// A text that is not valid.
const INVALID: Case<'static> = Case {
    number: 8,
    ..REFUSED
};

static ROW: Case = INVALID;

/// The text of a row behind the front, refused with the line of the row.
fn broken<'a>(front: &'a [u8], row: &Row<'a>) -> Case<'a> {
    let shader = Text::Repeated {
        front,
        piece: row.0,
        times: 1,
        end: b"",
    };
    Case {
        shader,
        notes: row.1,
        ..ROW
    }
}

/// The text of a row ends a run with the status and the line of the rule that it breaks first, or, where it is valid, is printed.
fn is_judged<'a>(
    rt: &impl Abort,
    alloc: Global,
    front: &'a [u8],
    row: &Row<'a>,
) -> Result<(), OutOfMemory> {
    let case = broken(front, row);
    if !row.1.is_empty() {
        return ends(rt, alloc, &case);
    }
    let number = uncounted(alloc, &case)?.ended.number();
    assert_eq!(rt; number, 0);
    Ok(())
}

fn all_are_judged<'a>(rt: &impl Abort, alloc: Global, front: &'a [u8], rows: &[Row<'a>]) {
    for row in rows {
        is_judged(rt, alloc, front, row).expect(rt, "memory");
    }
}

static WITHOUT_SLOTS: [Row; 6] = [
    // an empty body
    (b"}", b"shader: V3 at item 0\n"),
    (b"block b0 { } }", b""),
    // a loop at the beginning
    (
        b"loop { block b0 { break } } block b1 { } }",
        b"shader: V3 at item 0\n",
    ),
    (
        b"block b2 { } loop { block b0 { break } } block b1 { } }",
        b"",
    ),
    // a jump outside of loops
    (b"block b0 { break } }", b"shader: V4 at item 1\n"),
    // a phi in the first block
    (
        b"block b0 { %p = phi w32x1 [] } }",
        b"shader: V6 at item 1\n",
    ),
];

#[test]
fn shaders_without_slots_are_judged(rt: HostRuntime) {
    all_are_judged(&rt, rt.alloc(), BARE, &WITHOUT_SLOTS);
}

static OPCODES: [Row; 12] = [
    // a source of another width
    (b"%y = iadd w32x1 %x, %c } }", b"shader: V1 at item 4\n"),
    (b"%y = iadd w32x1 %x, %x } }", b""),
    // a shift count that is not of 32 bits
    (b"%y = ishl w8x2 %v, %v } }", b"shader: V1 at item 4\n"),
    (b"%y = ishl w8x2 %v, %x.xx } }", b""),
    // a source with too few components
    (b"%y = iadd w8x2 %v, %v.x } }", b"shader: V1 at item 4\n"),
    (b"%y = iadd w8x2 %v, %v.xx } }", b""),
    // a comparison whose result is not one bit
    (b"%y = ieq w32x1 %x, %x } }", b"shader: V1 at item 4\n"),
    (b"%y = ieq w1x1 %x, %x } }", b""),
    // an opcode at a width that it does not have
    (b"%y = iadd w1x1 %c, %c } }", b"shader: V1 at item 4\n"),
    (b"%y = iand w1x1 %c, %c } }", b""),
    // a vector with one component too many
    (b"%y = vec2 w32x1 %x, %x } }", b"shader: V1 at item 4\n"),
    (b"%y = vec2 w32x2 %x, %x } }", b""),
];

static KINDS: [Row; 8] = [
    // a load of one bit
    (b"%y = load w1x1 @0, %x } }", b"shader: V1 at item 4\n"),
    (b"%y = load w8x4 @0, %x } }", b""),
    // an offset of another kind
    (b"%y = load w32x1 @0, %v } }", b"shader: V1 at item 4\n"),
    (b"%y = load w32x1 @0, %x } }", b""),
    // a store of one bit
    (b"store @0, %x, %c } }", b"shader: V1 at item 4\n"),
    (b"store @0, %x, %v } }", b""),
    // a phi with a source of another kind
    (
        b"} if %c { block b1 { } } else { block b2 { } } block b3 { %p = phi w32x1 [b1: %x, b2: %v] } }",
        b"shader: V1 at item 8\n",
    ),
    (
        b"} if %c { block b1 { } } else { block b2 { } } block b3 { %p = phi w32x1 [b1: %x, b2: %x] } }",
        b"",
    ),
];

#[test]
fn kinds_fit(rt: HostRuntime) {
    all_are_judged(&rt, rt.alloc(), FRONT, &OPCODES);
    all_are_judged(&rt, rt.alloc(), FRONT, &KINDS);
}

static SLOTS: [Row; 11] = [
    // an input slot that is not declared
    (b"%y = input w32x1 @3 } }", b"shader: V2 at item 4\n"),
    // an input of another kind
    (b"%y = input w32x1 @1 } }", b"shader: V2 at item 4\n"),
    (b"%y = input w1x1 @1 } }", b""),
    // an output of another kind
    (b"output @0, %v } }", b"shader: V2 at item 4\n"),
    (b"output @1, %v } }", b""),
    // an output slot that is not declared
    (b"output @2, %x } }", b"shader: V2 at item 4\n"),
    // a load from a buffer that is not declared
    (b"%y = load w32x1 @1, %x } }", b"shader: V2 at item 4\n"),
    (b"%y = load w32x1 @0, %x } }", b""),
    // a store to a buffer that is not declared
    (b"store @1, %x, %x } }", b"shader: V2 at item 4\n"),
    (b"store @0, %x, %x } }", b""),
    // two rules at one item: the least
    (b"store @1, %c, %x } }", b"shader: V1 at item 4\n"),
];

#[test]
fn slots_and_buffers_are_declared_with_their_kinds(rt: HostRuntime) {
    all_are_judged(&rt, rt.alloc(), FRONT, &SLOTS);
}

static LISTS: [Row; 9] = [
    // two ifs with no block between
    (
        b"} if %c { block b1 { } } else { block b2 { } } if %c { block b3 { } } else { block b4 { } } block b5 { } }",
        b"shader: V3 at item 7\n",
    ),
    (
        b"} if %c { block b1 { } } else { block b2 { } } block b6 { } if %c { block b3 { } } else { block b4 { } } block b5 { } }",
        b"",
    ),
    // an empty list of an if
    (
        b"} if %c { block b1 { } } else { } block b2 { } }",
        b"shader: V3 at item 4\n",
    ),
    // an if at the end
    (
        b"} if %c { block b1 { } } else { block b2 { } } }",
        b"shader: V3 at item 4\n",
    ),
    // two blocks
    (b"} block b1 { } }", b"shader: V3 at item 4\n"),
    // an empty loop
    (b"} loop { } block b1 { } }", b"shader: V3 at item 4\n"),
    // two blocks in a loop, and the list around it ends with the loop
    (
        b"} loop { block b1 { break } block b2 { } } }",
        b"shader: V3 at item 4\n",
    ),
    // two blocks in a loop
    (
        b"} loop { block b1 { break } block b2 { } } block b3 { } }",
        b"shader: V3 at item 7\n",
    ),
    // an item before it that breaks another rule of the same round
    (
        b"} if %x { block b1 { } block b2 { } } else { block b3 { } } block b4 { } }",
        b"shader: V9 at item 4\n",
    ),
];

#[test]
fn blocks_alternate_with_ifs_and_loops(rt: HostRuntime) {
    all_are_judged(&rt, rt.alloc(), FRONT, &LISTS);
}

static JUMPS: [Row; 4] = [
    // a jump in an if outside of loops
    (
        b"} if %c { block b1 { continue } } else { block b2 { } } block b3 { } }",
        b"shader: V4 at item 6\n",
    ),
    // a jump behind a loop
    (
        b"} loop { block b1 { break } } block b2 { break } }",
        b"shader: V4 at item 8\n",
    ),
    (b"} loop { block b1 { break } } block b2 { } }", b""),
    // beside it, in an if in a loop
    (
        b"} loop { block b1 { } if %c { block b2 { break } } else { block b3 { continue } } block b4 { } } block b5 { } }",
        b"",
    ),
];

#[test]
fn jumps_stand_in_loops(rt: HostRuntime) {
    all_are_judged(&rt, rt.alloc(), FRONT, &JUMPS);
}

static UNREACHED: [Row; 11] = [
    // an instruction behind a loop that nothing leaves
    (
        b"} loop { block b1 { continue } } block b2 { output @0, %x } }",
        b"shader: V5 at item 7\n",
    ),
    (b"} loop { block b1 { continue } } block b2 { } }", b""),
    // a block that is not reached and not last
    (
        b"} loop { block b1 { continue } } block b2 { } if %c { block b3 { } } else { block b4 { } } block b5 { } }",
        b"shader: V5 at item 7\n",
    ),
    // an if that is not reached, behind a jump
    (
        b"} loop { block b1 { break } if %c { block b2 { } } else { block b3 { } } block b4 { } } block b5 { } }",
        b"shader: V5 at item 7\n",
    ),
    (
        b"} loop { block b1 { } if %c { block b2 { break } } else { block b3 { } } block b4 { } } block b5 { } }",
        b"",
    ),
    // a loop that is not reached
    (
        b"} loop { block b1 { break } loop { block b2 { break } } block b3 { } } block b4 { } }",
        b"shader: V5 at item 7\n",
    ),
    // a jump that is not reached
    (
        b"} loop { block b1 { } loop { block b2 { continue } } block b3 { break } } block b4 { } }",
        b"shader: V5 at item 9\n",
    ),
    (
        b"} loop { block b1 { } loop { block b2 { break } } block b3 { break } } block b4 { } }",
        b"",
    ),
    // a phi that is not reached
    (
        b"} loop { block b1 { continue } } block b2 { %p = phi w32x1 [b1: %x] } }",
        b"shader: V5 at item 7\n",
    ),
    // behind an if of which both lists break
    (
        b"} loop { block b1 { } if %c { block b2 { break } } else { block b3 { break } } block b4 { %y = ineg w32x1 %x } } block b5 { } }",
        b"shader: V5 at item 11\n",
    ),
    (
        b"} loop { block b1 { } if %c { block b2 { break } } else { block b3 { break } } block b4 { } } block b5 { } }",
        b"",
    ),
];

#[test]
fn what_is_not_reached_does_nothing(rt: HostRuntime) {
    all_are_judged(&rt, rt.alloc(), FRONT, &UNREACHED);
}

static PHIS: [Row; 13] = [
    // a phi without the source for one predecessor
    (
        b"} if %c { block b1 { } } else { block b2 { } } block b3 { %p = phi w32x1 [b1: %x] } }",
        b"shader: V6 at item 8\n",
    ),
    // a phi with a source for a block that is no predecessor
    (
        b"} if %c { block b1 { } } else { block b2 { } } block b3 { %p = phi w32x1 [b1: %x, b2: %x, b0: %x] } }",
        b"shader: V6 at item 8\n",
    ),
    // a phi with two sources for one predecessor
    (
        b"} if %c { block b1 { } } else { block b2 { } } block b3 { %p = phi w32x1 [b1: %x, b2: %x, b1: %x] } }",
        b"shader: V6 at item 8\n",
    ),
    (
        b"} if %c { block b1 { } } else { block b2 { } } block b3 { %p = phi w32x1 [b2: %x, b1: %x] } }",
        b"",
    ),
    // a loop's phi without the source for the body's end
    (
        b"} loop { block b1 { %p = phi w32x1 [b0: %x] } if %c { block b2 { break } } else { block b3 { } } block b4 { } } block b5 { } }",
        b"shader: V6 at item 6\n",
    ),
    // a loop's phi without the source for a continue
    (
        b"} loop { block b1 { %p = phi w32x1 [b0: %x, b4: %x] } if %c { block b2 { break } } else { block b3 { continue } } block b4 { } } block b5 { } }",
        b"shader: V6 at item 6\n",
    ),
    (
        b"} loop { block b1 { %p = phi w32x1 [b0: %x, b3: %x] } if %c { block b2 { break } } else { block b3 { continue } } block b4 { } } block b5 { } }",
        b"",
    ),
    // a phi behind an if with a source for the list that breaks
    (
        b"} loop { block b1 { } if %c { block b2 { } } else { block b3 { break } } block b4 { %p = phi w32x1 [b2: %x, b3: %x] } } block b5 { } }",
        b"shader: V6 at item 11\n",
    ),
    (
        b"} loop { block b1 { } if %c { block b2 { } } else { block b3 { break } } block b4 { %p = phi w32x1 [b2: %x] } } block b5 { } }",
        b"",
    ),
    // a phi behind a loop without the source for one break
    (
        b"} loop { block b1 { } if %c { block b2 { break } } else { block b3 { } } block b4 { break } } block b5 { %p = phi w32x1 [b2: %x] } }",
        b"shader: V6 at item 13\n",
    ),
    (
        b"} loop { block b1 { } if %c { block b2 { break } } else { block b3 { } } block b4 { break } } block b5 { %p = phi w32x1 [b2: %x, b4: %x] } }",
        b"",
    ),
    // a phi in a list of an if that names a block of the other list
    (
        b"} if %c { block b1 { } } else { block b2 { %p = phi w32x1 [b1: %x] } } block b3 { } }",
        b"shader: V6 at item 7\n",
    ),
    (
        b"} if %c { block b1 { } } else { block b2 { %p = phi w32x1 [b0: %x] } } block b3 { } }",
        b"",
    ),
];

#[test]
fn phis_have_a_source_for_each_predecessor(rt: HostRuntime) {
    all_are_judged(&rt, rt.alloc(), FRONT, &PHIS);
}

static USES: [Row; 13] = [
    // a use before the definition
    (
        b"output @0, %y %y = ineg w32x1 %x } }",
        b"shader: V7 at item 4\n",
    ),
    (b"%y = ineg w32x1 %x output @0, %y } }", b""),
    // a value of one list behind an if
    (
        b"} if %c { block b1 { %y = ineg w32x1 %x } } else { block b2 { } } block b3 { output @0, %y } }",
        b"shader: V7 at item 9\n",
    ),
    // beside it, where the other list breaks
    (
        b"} loop { block b1 { } if %c { block b2 { %y = ineg w32x1 %x } } else { block b3 { break } } block b4 { output @0, %y } } block b5 { } }",
        b"",
    ),
    // a value of one list in the other
    (
        b"} if %c { block b1 { %y = ineg w32x1 %x } } else { block b2 { output @0, %y } } block b3 { } }",
        b"shader: V7 at item 8\n",
    ),
    // a value of a loop's end at its beginning
    (
        b"} loop { block b1 { output @0, %y } if %c { block b2 { break } } else { block b3 { } } block b4 { %y = ineg w32x1 %x } } block b5 { } }",
        b"shader: V7 at item 6\n",
    ),
    // beside it, through a phi
    (
        b"} loop { block b1 { %p = phi w32x1 [b0: %x, b4: %y] output @0, %p } if %c { block b2 { break } } else { block b3 { } } block b4 { %y = ineg w32x1 %x } } block b5 { } }",
        b"",
    ),
    // a source of a phi that is not defined at its predecessor
    (
        b"} if %c { block b1 { %y = ineg w32x1 %x } } else { block b2 { } } block b3 { %p = phi w32x1 [b1: %x, b2: %y] } }",
        b"shader: V7 at item 9\n",
    ),
    (
        b"} if %c { block b1 { %y = ineg w32x1 %x } } else { block b2 { } } block b3 { %p = phi w32x1 [b1: %y, b2: %x] } }",
        b"",
    ),
    // a condition that is defined behind it
    (
        b"} if %d { block b1 { } } else { block b2 { } } block b3 { %d = ieq w1x1 %x, %x } }",
        b"shader: V7 at item 4\n",
    ),
    // a value behind a loop that is defined on one of two ways out
    (
        b"} loop { block b1 { } if %c { block b2 { break } } else { block b3 { } } block b4 { %y = ineg w32x1 %x break } } block b5 { output @0, %y } }",
        b"shader: V7 at item 14\n",
    ),
    (
        b"} loop { block b1 { %y = ineg w32x1 %x } if %c { block b2 { break } } else { block b3 { } } block b4 { break } } block b5 { output @0, %y } }",
        b"",
    ),
    // a phi that reads another phi of its block
    (
        b"} if %c { block b1 { } } else { block b2 { } } block b3 { %p = phi w32x1 [b1: %x, b2: %x] %q = phi w32x1 [b1: %p, b2: %x] } }",
        b"shader: V7 at item 9\n",
    ),
];

#[test]
fn values_are_defined_on_every_path_to_a_use(rt: HostRuntime) {
    all_are_judged(&rt, rt.alloc(), FRONT, &USES);
}

static SWIZZLES: [Row; 6] = [
    // a component that a value of one has not
    (b"%y = ineg w32x1 %x.y } }", b"shader: V8 at item 4\n"),
    (b"%y = ineg w32x1 %x.x } }", b""),
    // a third component of two
    (b"%y = ineg w8x2 %v.xz } }", b"shader: V8 at item 4\n"),
    (b"%y = ineg w8x2 %v.yx } }", b""),
    // in the second source
    (b"%y = iadd w32x1 %x, %x.w } }", b"shader: V8 at item 4\n"),
    // two rules at one item: the least
    (b"%y = iadd w8x2 %v, %x.y } }", b"shader: V1 at item 4\n"),
];

#[test]
fn swizzles_name_components_that_are_there(rt: HostRuntime) {
    all_are_judged(&rt, rt.alloc(), FRONT, &SWIZZLES);
}

static CONDITIONS: [Row; 5] = [
    // a condition of 32 bits
    (
        b"} if %x { block b1 { } } else { block b2 { } } block b3 { } }",
        b"shader: V9 at item 4\n",
    ),
    (
        b"} if %c { block b1 { } } else { block b2 { } } block b3 { } }",
        b"",
    ),
    // a condition of two components
    (
        b"%d = ieq w1x2 %v, %v } if %d { block b1 { } } else { block b2 { } } block b3 { } }",
        b"shader: V9 at item 5\n",
    ),
    // in a loop
    (
        b"} loop { block b1 { } if %v { block b2 { break } } else { block b3 { } } block b4 { } } block b5 { } }",
        b"shader: V9 at item 6\n",
    ),
    // the first round goes before the second
    (
        b"output @0, %y %y = ineg w32x1 %x } if %x { block b1 { } } else { block b2 { } } block b3 { } }",
        b"shader: V9 at item 6\n",
    ),
];

#[test]
fn conditions_are_of_one_bit(rt: HostRuntime) {
    all_are_judged(&rt, rt.alloc(), FRONT, &CONDITIONS);
}

pub(super) static BROKEN: [Case; 6] = [
    Case {
        shader: Text::Whole(LATE),
        notes: b"shader: V7 at item 1\n",
        ..INVALID
    },
    Case {
        shader: Text::Repeated {
            front: LATE,
            piece: b" ",
            times: 65_429,
            end: b"",
        },
        notes: b"shader: V7 at item 1\n",
        ..INVALID
    },
    Case {
        rules: Text::Whole(RULE),
        shader: Text::Whole(NO_SLOT),
        notes: b"shader: V2 at item 1\n",
        ..INVALID
    },
    Case {
        shader: Text::Whole(JUMP),
        notes: b"shader: V4 at item 1\n",
        ..INVALID
    },
    Case {
        shader: Text::Whole(LEAK),
        notes: b"shader: V7 at item 8\n",
        ..INVALID
    },
    Case {
        shader: Text::Whole(TWO_IFS),
        notes: b"shader: V3 at item 5\n",
        ..INVALID
    },
];

#[test]
fn texts_that_are_not_valid_are_refused(rt: HostRuntime) {
    assert_eq!(rt; LATE.len(), 108);
    all_end(&rt, rt.alloc(), &BROKEN);
}
