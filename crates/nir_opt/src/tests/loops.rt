//! Rules in ifs and loops, on views, after earlier steps, and on values that have to be used once.

use super::rewriting::step;
use super::texts::{EMPTY_BLOCK, RULE};
use super::{Case, PRINTED, REFUSED, Text, all_end};
use nir_ir::{Step, ValueId};

/// The sum of the numbers below the input. In each turn 0 is added to the counter, which is a phi.
const SUM: &[u8] = br"shader
inputs [w8x1]
outputs [w8x1]
buffers 0
{
  block b0 {
    %0 = input w8x1 @0
    %1 = const w8x1 (0)
    %2 = const w8x1 (1)
  }
  loop {
    block b1 {
      %3 = phi w8x1 [b0: %1, b4: %7]
      %4 = phi w8x1 [b0: %1, b4: %8]
      %5 = uge w1x1 %4, %0
    }
    if %5 {
      block b2 {
        break
      }
    } else {
      block b3 {
      }
    }
    block b4 {
      %6 = iadd w8x1 %4, %1
      %7 = iadd w8x1 %3, %6
      %8 = iadd w8x1 %4, %2
    }
  }
  block b5 {
    output @0, %3
  }
}
";

const SUM_MOVED: &[u8] = br"shader
inputs [w8x1]
outputs [w8x1]
buffers 0
{
  block b0 {
    %0 = input w8x1 @0
    %1 = const w8x1 (0)
    %2 = const w8x1 (1)
  }
  loop {
    block b1 {
      %3 = phi w8x1 [b0: %1, b4: %7]
      %4 = phi w8x1 [b0: %1, b4: %8]
      %5 = uge w1x1 %4, %0
    }
    if %5 {
      block b2 {
        break
      }
    } else {
      block b3 {
      }
    }
    block b4 {
      %6 = mov w8x1 %4
      %7 = iadd w8x1 %3, %6
      %8 = iadd w8x1 %4, %2
    }
  }
  block b5 {
    output @0, %3
  }
}
";

/// A sum with 0 that is used before a loop, in an if in the loop, and behind it.
const AROUND: &[u8] = br"shader
inputs [w8x1]
outputs [w8x1, w8x1]
buffers 1
{
  block b0 {
    %0 = input w8x1 @0
    %1 = const w8x1 (0)
    %2 = const w32x1 (0)
    %3 = iadd w8x1 %0, %1
    %4 = ineg w8x1 %3
  }
  loop {
    block b1 {
      %5 = uge w1x1 %3, %4
    }
    if %5 {
      block b2 {
        %6 = iadd w8x1 %1, %3
        store @0, %2, %6
        break
      }
    } else {
      block b3 {
      }
    }
    block b4 {
    }
  }
  block b5 {
    output @0, %3
    output @1, %4
  }
}
";

const AROUND_MOVED: &[u8] = br"shader
inputs [w8x1]
outputs [w8x1, w8x1]
buffers 1
{
  block b0 {
    %0 = input w8x1 @0
    %1 = const w8x1 (0)
    %2 = const w32x1 (0)
    %3 = mov w8x1 %0
    %4 = ineg w8x1 %3
  }
  loop {
    block b1 {
      %5 = uge w1x1 %3, %4
    }
    if %5 {
      block b2 {
        %6 = mov w8x1 %3
        store @0, %2, %6
        break
      }
    } else {
      block b3 {
      }
    }
    block b4 {
    }
  }
  block b5 {
    output @0, %3
    output @1, %4
  }
}
";

static LOOPS: [Case; 2] = [
    Case {
        rules: Text::Whole(RULE),
        shader: Text::Whole(SUM),
        out: SUM_MOVED,
        limit: 4100,
        journal: &[step!(6, 0, 0)],
        ..PRINTED
    },
    Case {
        rules: Text::Whole(RULE),
        shader: Text::Whole(AROUND),
        out: AROUND_MOVED,
        limit: 4100,
        journal: &[step!(3, 0, 0), step!(6, 0, 1)],
        ..PRINTED
    },
];

#[test]
fn rules_are_used_in_ifs_and_loops(rt: HostRuntime) {
    all_end(&rt, rt.alloc(), &LOOPS);
}

/// An evaluation of the sum.
const EVALUATED: Case<'static> = Case {
    rules: Text::Whole(b""),
    shader: Text::Whole(SUM),
    ..REFUSED
};

static SUMS: [Case; 6] = [
    Case {
        words: &[b"eval", b"--turns=0", b"--input=5"],
        out: b"end cut\noutput @0 (0)\n",
        ..EVALUATED
    },
    Case {
        words: &[b"eval", b"--turns=1", b"--input=5"],
        out: b"end cut\noutput @0 (0)\n",
        ..EVALUATED
    },
    Case {
        words: &[b"eval", b"--turns=10", b"--input=5"],
        out: b"end done\noutput @0 (10)\n",
        ..EVALUATED
    },
    Case {
        words: &[b"eval", b"--turns=0", b"--input=5"],
        shader: Text::Whole(SUM_MOVED),
        out: b"end cut\noutput @0 (0)\n",
        ..EVALUATED
    },
    Case {
        words: &[b"eval", b"--turns=1", b"--input=5"],
        shader: Text::Whole(SUM_MOVED),
        out: b"end cut\noutput @0 (0)\n",
        ..EVALUATED
    },
    Case {
        words: &[b"eval", b"--turns=10", b"--input=5"],
        shader: Text::Whole(SUM_MOVED),
        out: b"end done\noutput @0 (10)\n",
        ..EVALUATED
    },
];

#[test]
fn a_sum_is_the_same_before_and_after(rt: HostRuntime) {
    all_end(&rt, rt.alloc(), &SUMS);
}

/// A value less itself, of which the components are turned round.
const TURNED: &[u8] = br"shader
inputs [w8x2]
outputs [w8x2]
buffers 0
{
  block b0 {
    %0 = input w8x2 @0
    %1 = ineg w8x2 %0.yx
    %2 = iadd w8x2 %0, %1
    output @0, %2
  }
}
";

const STRAIGHT: &[u8] = br"shader
inputs [w8x2]
outputs [w8x2]
buffers 0
{
  block b0 {
    %0 = input w8x2 @0
    %1 = ineg w8x2 %0
    %2 = iadd w8x2 %0, %1
    output @0, %2
  }
}
";

const STRAIGHT_ZERO: &[u8] = br"shader
inputs [w8x2]
outputs [w8x2]
buffers 0
{
  block b0 {
    %0 = input w8x2 @0
    %1 = ineg w8x2 %0
    %2 = const w8x2 (0, 0)
    output @0, %2
  }
}
";

/// The components turned round twice: by the negation, and by the sum.
const TWICE_TURNED: &[u8] = br"shader
inputs [w8x2]
outputs [w8x2]
buffers 0
{
  block b0 {
    %0 = input w8x2 @0
    %1 = ineg w8x2 %0.yx
    %2 = iadd w8x2 %1.yx, %0
    output @0, %2
  }
}
";

const TWICE_TURNED_ZERO: &[u8] = br"shader
inputs [w8x2]
outputs [w8x2]
buffers 0
{
  block b0 {
    %0 = input w8x2 @0
    %1 = ineg w8x2 %0.yx
    %2 = const w8x2 (0, 0)
    output @0, %2
  }
}
";

/// One component in both places, with a number that has 0 in one of its own.
const PICKED: &[u8] = br"shader
inputs [w8x4]
outputs [w8x2]
buffers 0
{
  block b0 {
    %0 = input w8x4 @0
    %1 = const w8x3 (7, 0, 9)
    %2 = iadd w8x2 %0.wz, %1.yy
    output @0, %2
  }
}
";

const PICKED_MOVED: &[u8] = br"shader
inputs [w8x4]
outputs [w8x2]
buffers 0
{
  block b0 {
    %0 = input w8x4 @0
    %1 = const w8x3 (7, 0, 9)
    %2 = mov w8x2 %0.wz
    output @0, %2
  }
}
";

/// A value and the same negated have the sum 0.
const NEGATED_SUM: &[u8] = b"[(('iadd', 'a@8', ('ineg', a)), 0), by * cases]";

static VIEWS: [Case; 4] = [
    Case {
        rules: Text::Whole(NEGATED_SUM),
        shader: Text::Whole(TURNED),
        out: TURNED,
        limit: 4098,
        ..PRINTED
    },
    Case {
        rules: Text::Whole(NEGATED_SUM),
        shader: Text::Whole(STRAIGHT),
        out: STRAIGHT_ZERO,
        limit: 4098,
        journal: &[step!(2, 0, 0)],
        ..PRINTED
    },
    Case {
        rules: Text::Whole(NEGATED_SUM),
        shader: Text::Whole(TWICE_TURNED),
        out: TWICE_TURNED_ZERO,
        limit: 4098,
        journal: &[step!(2, 0, 1)],
        ..PRINTED
    },
    Case {
        rules: Text::Whole(RULE),
        shader: Text::Whole(PICKED),
        out: PICKED_MOVED,
        limit: 4097,
        journal: &[step!(2, 0, 0)],
        ..PRINTED
    },
];

#[test]
fn views_are_told_apart(rt: HostRuntime) {
    all_end(&rt, rt.alloc(), &VIEWS);
}

/// A difference that is 0 once the one before it is, and the complement of a complement that has other uses at first.
const LATER: &[u8] = br"shader
inputs [w8x1]
outputs [w8x1, w8x1, w8x1]
buffers 0
{
  block b0 {
    %0 = input w8x1 @0
    %1 = inot w8x1 %0
    %2 = inot w8x1 %1
    %3 = isub w8x1 %1, %1
    %4 = iadd w8x1 %0, %3
    output @0, %2
    output @1, %3
    output @2, %4
  }
}
";

const LATER_DONE: &[u8] = br"shader
inputs [w8x1]
outputs [w8x1, w8x1, w8x1]
buffers 0
{
  block b0 {
    %0 = input w8x1 @0
    %1 = inot w8x1 %0
    %2 = mov w8x1 %0
    %3 = const w8x1 (0)
    %4 = mov w8x1 %0
    output @0, %2
    output @1, %3
    output @2, %4
  }
}
";

static AFTER_STEPS: [Case; 1] = [Case {
    rules: Text::Whole(
        b"[(('iadd', 'a@8', 0), 'a'), by * cases, (('isub', 'a@8', 'a'), 0), by * cases, (('inot', ('inot(is_used_once)', 'a@8')), 'a'), by * cases]",
    ),
    shader: Text::Whole(LATER),
    out: LATER_DONE,
    limit: 4100,
    journal: &[step!(3, 1, 0), step!(4, 0, 0), step!(2, 2, 0)],
    ..PRINTED
}];

#[test]
fn a_step_makes_room_for_others(rt: HostRuntime) {
    all_end(&rt, rt.alloc(), &AFTER_STEPS);
}

/// One complement, used twice by one instruction.
const BOTH_SOURCES: &[u8] = br"shader
inputs [w8x1]
outputs [w8x1]
buffers 0
{
  block b0 {
    %0 = input w8x1 @0
    %1 = inot w8x1 %0
    %2 = ixor w8x1 %1, %1
    output @0, %2
  }
}
";

/// Two complements, each used once.
const TWO_SOURCES: &[u8] = br"shader
inputs [w8x1]
outputs [w8x1]
buffers 0
{
  block b0 {
    %0 = input w8x1 @0
    %1 = inot w8x1 %0
    %2 = inot w8x1 %0
    %3 = ixor w8x1 %1, %2
    output @0, %3
  }
}
";

const TWO_SOURCES_ZERO: &[u8] = br"shader
inputs [w8x1]
outputs [w8x1]
buffers 0
{
  block b0 {
    %0 = input w8x1 @0
    %1 = inot w8x1 %0
    %2 = inot w8x1 %0
    %3 = const w8x1 (0)
    output @0, %3
  }
}
";

/// Two complements of one value, of which the first has no other use.
const COMPLEMENTS: &[u8] =
    b"[(('ixor', ('inot(is_used_once)', 'a@8'), ('inot', 'a')), 0), by * cases]";

static ONE_USE: [Case; 2] = [
    Case {
        rules: Text::Whole(COMPLEMENTS),
        shader: Text::Whole(BOTH_SOURCES),
        out: BOTH_SOURCES,
        limit: 4098,
        ..PRINTED
    },
    Case {
        rules: Text::Whole(COMPLEMENTS),
        shader: Text::Whole(TWO_SOURCES),
        out: TWO_SOURCES_ZERO,
        limit: 4099,
        journal: &[step!(3, 0, 0)],
        ..PRINTED
    },
];

#[test]
fn two_sources_are_two_uses(rt: HostRuntime) {
    all_end(&rt, rt.alloc(), &ONE_USE);
}

/// Blanks behind a shader of 59 bytes.
static LONG_TEXT: [Case; 1] = [Case {
    shader: Text::Repeated {
        front: EMPTY_BLOCK,
        piece: b" ",
        times: 65_478,
        end: b"",
    },
    ..PRINTED
}];

#[test]
fn long_shader_texts_are_printed(rt: HostRuntime) {
    all_end(&rt, rt.alloc(), &LONG_TEXT);
}
