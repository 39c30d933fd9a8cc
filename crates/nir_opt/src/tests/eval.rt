//! The command `eval`, through the program, over sources and sinks in memory.

use super::texts::LEAK;
use super::{Case, REFUSED, Text, all_end, all_end_unheard, words_of};
use crate::program::rules_at;

/// Loads and stores that stand across the end of a buffer of six bytes.
const ACROSS: &[u8] = br"shader
inputs []
outputs [w32x1, w16x3, w16x1]
buffers 1
{
  block b0 {
    %0 = const w32x1 (4)
    %1 = const w32x1 (2)
    %2 = load w32x1 @0, %0
    %3 = load w16x3 @0, %1
    %4 = const w16x2 (257, 258)
    store @0, %0, %4
    %5 = load w16x1 @0, %0
    output @0, %2
    output @1, %3
    output @2, %5
  }
}
";

/// What is told of them on the bytes 1 to 6.
const ACROSS_RUN: &[u8] = br"end done
store @0 4 (257, 258)
output @0 (0)
output @1 (1027, 1541, 0)
output @2 (257)
";

/// A loop without an end.
const ENDLESS: &[u8] = br"shader
inputs [w32x1]
outputs [w32x1]
buffers 0
{
  block b0 {
    %0 = input w32x1 @0
    output @0, %0
  }
  loop {
    block b1 {
    }
  }
  block b2 {
  }
}
";

const ONCE: &[u8] = br"shader
inputs [w32x1]
outputs [w32x1]
buffers 0
{
  block b0 {
    %0 = input w32x1 @0
  }
  loop {
    block b1 {
      %1 = ineg w32x1 %0
      break
    }
  }
  block b2 {
    output @0, %1
  }
}
";

/// The sum of the numbers below the input.
const SUM: &[u8] = br"shader
inputs [w32x1]
outputs [w32x1]
buffers 0
{
  block b0 {
    %0 = input w32x1 @0
    %1 = const w32x1 (0)
    %2 = const w32x1 (1)
  }
  loop {
    block b1 {
      %3 = phi w32x1 [b0: %1, b4: %7]
      %4 = phi w32x1 [b0: %1, b4: %8]
      %5 = uge w1x1 %4, %0
    }
    if %5 {
      block b2 {
        break
      }
    } else {
      block b3 {
      }
    }
    block b4 {
      %6 = iadd w32x1 %4, %1
      %7 = iadd w32x1 %3, %6
      %8 = iadd w32x1 %4, %2
    }
  }
  block b5 {
    output @0, %3
  }
}
";

/// Two phis that change places at each turn.
const PLACES: &[u8] = br"shader
inputs []
outputs [w8x1, w8x1]
buffers 0
{
  block b0 {
    %0 = const w8x1 (1)
    %1 = const w8x1 (2)
    %2 = const w1x1 (0)
  }
  loop {
    block b1 {
      %3 = phi w8x1 [b0: %0, b2: %4]
      %4 = phi w8x1 [b0: %1, b2: %3]
      output @0, %3
      output @1, %4
    }
    if %2 {
      block b3 {
        break
      }
    } else {
      block b4 {
      }
    }
    block b2 {
    }
  }
  block b5 {
  }
}
";

/// A loop in a loop; the outer one is broken out of and continued, the inner one broken out of.
const NESTED: &[u8] =
    br"shader inputs [] outputs [w32x1] buffers 0 { block b0 { %zero = const w32x1 (0) %one = const w32x1 (1) %two = const w32x1 (2) %three = const w32x1 (3) }
loop {
 block o { %i = phi w32x1 [b0: %zero, skip: %k, last: %k] %t = phi w32x1 [b0: %zero, skip: %t, last: %u] %k = iadd w32x1 %i, %one %done = uge w1x1 %i, %three }
 if %done { block q { break } } else { block r { } }
 block s { %is1 = ieq w1x1 %i, %one }
 if %is1 { block skip { continue } } else { block nn { } }
 block before { }
 loop {
   block h { %j = phi w32x1 [before: %zero, hend: %j2] %u = phi w32x1 [before: %t, hend: %u2] %jd = uge w1x1 %j, %two }
   if %jd { block hq { break } } else { block hr { } }
   block hend { %j2 = iadd w32x1 %j, %one %u2 = iadd w32x1 %u, %one }
 }
 block last { }
}
block out { output @0, %t } }";

/// Each width in a buffer, a store across its end, and one far behind it.
const WIDTHS: &[u8] =
    br"shader inputs [] outputs [w8x4, w16x2, w32x1, w64x1, w8x1] buffers 1 { block b0 {
%0 = const w32x1 (0) %2 = const w32x1 (2) %4 = const w32x1 (4) %v = const w64x1 (72623859790382856) store @0, %0, %v
%a = load w8x4 @0, %0 %b = load w16x2 @0, %2 %c = load w32x1 @0, %4 %d = load w64x1 @0, %0
%8 = const w32x1 (8) %x = const w32x1 (305419896) store @0, %8, %x %e = load w8x1 @0, %8
%9 = const w32x1 (4294967295) store @0, %9, %x
output @0, %a output @1, %b output @2, %c output @3, %d output @4, %e } }";

/// What is told of them on ten bytes, of which the last is 9.
const WIDTHS_RUN: &[u8] = br"end done
store @0 0 (72623859790382856)
store @0 8 (305419896)
store @0 4294967295 (305419896)
output @0 (8, 7, 6, 5)
output @1 (1286, 772)
output @2 (16909060)
output @3 (72623859790382856)
output @4 (0)
";

/// An if, a loop, a load and a store, on two buffers.
const WHOLE: &[u8] = br"shader
inputs [w32x1, w32x1]
outputs []
buffers 2
{
  block b0 {
    %0 = input w32x1 @0
    %1 = input w32x1 @1
    %2 = const w32x1 (0)
    %3 = const w32x1 (1)
    %4 = const w32x1 (4)
    %5 = const w32x1 (16)
    %6 = uge w1x1 %0, %1
    %7 = inot w1x1 %6
  }
  if %7 {
    block b1 {
      %8 = imul w32x1 %0, %5
      %9 = iadd w32x1 %8, %2
    }
    loop {
      block b2 {
        %10 = phi w32x1 [b1: %2, b5: %20]
        %11 = phi w32x1 [b1: %2, b5: %19]
        %12 = uge w1x1 %10, %4
      }
      if %12 {
        block b3 {
          break
        }
      } else {
        block b4 {
        }
      }
      block b5 {
        %13 = imul w32x1 %10, %4
        %14 = iadd w32x1 %9, %13
        %15 = load w32x1 @0, %14
        %16 = ineg w32x1 %15
        %17 = ineg w32x1 %16
        %18 = iand w32x1 %17, %17
        %19 = iadd w32x1 %11, %18
        %20 = iadd w32x1 %10, %3
      }
    }
    block b6 {
      %21 = udiv w32x1 %11, %4
      %22 = imul w32x1 %0, %4
      store @1, %22, %21
    }
  } else {
    block b7 {
    }
  }
  block b8 {
  }
}
";

/// An evaluation without inputs and buffers. The source of rules fails at once, so it would be told if they were read.
const DONE: Case<'static> = Case {
    words: &[b"eval", b"--turns=0"],
    rules: Text::Whole(b""),
    rules_fail: &[0],
    shader: Text::Whole(ACROSS),
    ..REFUSED
};

static ONE_TURN: [Case; 4] = [
    Case {
        words: &[b"eval", b"--turns=0", b"--buffer=010203040506"],
        out: ACROSS_RUN,
        ..DONE
    },
    Case {
        words: &[b"eval", b"--turns=3", b"--input=5"],
        shader: Text::Whole(ENDLESS),
        out: b"end cut\noutput @0 (5)\n",
        ..DONE
    },
    Case {
        words: &[b"eval", b"--turns=0", b"--input=5"],
        shader: Text::Whole(ONCE),
        out: b"end done\noutput @0 (4294967291)\n",
        ..DONE
    },
    Case {
        words: &[b"eval", b"--input=5", b"--turns=18446744073709551615"],
        shader: Text::Whole(ONCE),
        out: b"end done\noutput @0 (4294967291)\n",
        ..DONE
    },
];

#[test]
fn outcomes_of_one_turn_are_told(rt: HostRuntime) {
    all_end(&rt, rt.alloc(), &ONE_TURN);
}

static SUMS: [Case; 4] = [
    Case {
        words: &[b"eval", b"--turns=0", b"--input=5"],
        shader: Text::Whole(SUM),
        out: b"end cut\noutput @0 (0)\n",
        ..DONE
    },
    Case {
        words: &[b"eval", b"--turns=1", b"--input=5"],
        shader: Text::Whole(SUM),
        out: b"end cut\noutput @0 (0)\n",
        ..DONE
    },
    Case {
        words: &[b"eval", b"--turns=10", b"--input=5"],
        shader: Text::Whole(SUM),
        out: b"end done\noutput @0 (10)\n",
        ..DONE
    },
    Case {
        words: &[b"eval", b"--turns=2"],
        shader: Text::Whole(PLACES),
        out: b"end cut\noutput @0 (1)\noutput @1 (2)\n",
        ..DONE
    },
];

#[test]
fn sums_are_cut_or_done(rt: HostRuntime) {
    all_end(&rt, rt.alloc(), &SUMS);
}

static NESTS: [Case; 4] = [
    Case {
        words: &[b"eval", b"--turns=1"],
        shader: Text::Whole(PLACES),
        out: b"end cut\noutput @0 (2)\noutput @1 (1)\n",
        ..DONE
    },
    Case {
        words: &[b"eval", b"--turns=3"],
        shader: Text::Whole(NESTED),
        out: b"end done\noutput @0 (4)\n",
        ..DONE
    },
    Case {
        words: &[b"eval", b"--turns=2"],
        shader: Text::Whole(NESTED),
        out: b"end cut\noutput @0 (0)\n",
        ..DONE
    },
    Case {
        words: &[b"eval", b"--turns=0", b"--buffer=00000000000000000009"],
        shader: Text::Whole(WIDTHS),
        out: WIDTHS_RUN,
        ..DONE
    },
];

#[test]
fn phis_and_nested_loops_run(rt: HostRuntime) {
    all_end(&rt, rt.alloc(), &NESTS);
}

static BUFFERS: [Case; 3] = [
    Case {
        words: &[
            b"eval",
            b"--turns=4",
            b"--input=1",
            b"--buffer=0000000000000000000000000000000005000000060000000700000008000000",
            b"--input=2",
            b"--buffer=0000000000000000",
        ],
        shader: Text::Whole(WHOLE),
        out: b"end done\nstore @1 4 (6)\n",
        ..DONE
    },
    Case {
        words: &[
            b"eval",
            b"--turns=3",
            b"--input=1",
            b"--buffer=0000000000000000000000000000000005000000060000000700000008000000",
            b"--input=2",
            b"--buffer=0000000000000000",
        ],
        shader: Text::Whole(WHOLE),
        out: b"end cut\n",
        ..DONE
    },
    Case {
        words: &[
            b"eval",
            b"--turns=0",
            b"--input=2",
            b"--input=1",
            b"--buffer=",
            b"--buffer=",
        ],
        shader: Text::Whole(WHOLE),
        out: b"end done\n",
        ..DONE
    },
];

#[test]
fn buffers_are_read_and_written(rt: HostRuntime) {
    all_end(&rt, rt.alloc(), &BUFFERS);
}

/// Words that have no reading.
const USAGE: Case<'static> = Case {
    number: 2,
    notes: b"usage: nir_opt eval --turns=N [--input=V] [--buffer=HEX]\n",
    ..DONE
};

static UNREAD: [Case; 5] = [
    Case {
        words: &[b"eval"],
        ..USAGE
    },
    Case {
        words: &[b"eval", b"--turns=01"],
        ..USAGE
    },
    Case {
        words: &[b"eval", b"--turns=18446744073709551616"],
        ..USAGE
    },
    Case {
        words: &[b"eval", b"--turns=1", b"--turns=1"],
        ..USAGE
    },
    Case {
        words: &[b"eval", b"--turns=1", b"--buffer=0"],
        ..USAGE
    },
];

static OUT_OF_FORM: [Case; 5] = [
    Case {
        words: &[b"eval", b"--input=1"],
        ..USAGE
    },
    Case {
        words: &[b"eval", b"--turns="],
        ..USAGE
    },
    Case {
        words: &[b"eval", b"--turns=1", b"--input="],
        ..USAGE
    },
    Case {
        words: &[b"eval", b"--turns=1", b"--input=1,"],
        ..USAGE
    },
    Case {
        words: &[b"eval", b"--turns=1", b"--input=1,0x2"],
        ..USAGE
    },
];

#[test]
fn words_without_a_reading_are_usage(rt: HostRuntime) {
    all_end(&rt, rt.alloc(), &UNREAD);
    all_end(&rt, rt.alloc(), &OUT_OF_FORM);
}

static FAULTS: [Case; 5] = [
    Case {
        words: &[b"eval", b"--turns=1", b"--buffer=0g"],
        ..USAGE
    },
    Case {
        words: &[b"eval", b"--turns=1", b"r"],
        ..USAGE
    },
    Case {
        shader_fail: &[0],
        number: 3,
        notes: b"read failed: shader\n",
        ..DONE
    },
    Case {
        words: &[b"eval", b"--turns=0", b"--input=5"],
        shader: Text::Whole(ONCE),
        room: 3,
        number: 4,
        out: b"end",
        notes: b"write failed\n",
        ..DONE
    },
    Case {
        shader: Text::Whole(b"shader"),
        number: 7,
        notes: b"shader: byte 6: unexpected\n",
        ..DONE
    },
];

#[test]
fn faults_and_texts_have_their_lines(rt: HostRuntime) {
    all_end(&rt, rt.alloc(), &FAULTS);
}

/// Inputs or buffers that are not those of the shader.
const NO_FIT: Case<'static> = Case {
    shader: Text::Whole(ONCE),
    number: 11,
    notes: b"inputs do not fit\n",
    ..DONE
};

static UNFIT: [Case; 5] = [
    Case {
        words: &[b"eval", b"--turns=0", b"--input=5"],
        shader: Text::Whole(LEAK),
        number: 8,
        notes: b"shader: V7 at item 8\n",
        ..DONE
    },
    NO_FIT,
    Case {
        words: &[b"eval", b"--turns=0", b"--input=4294967296"],
        ..NO_FIT
    },
    Case {
        words: &[b"eval", b"--turns=0", b"--input=1,2"],
        ..NO_FIT
    },
    Case {
        words: &[b"eval", b"--turns=0", b"--input=5", b"--buffer="],
        ..NO_FIT
    },
];

#[test]
fn shaders_that_do_not_fit_have_their_lines(rt: HostRuntime) {
    all_end(&rt, rt.alloc(), &UNFIT);
}

/// A byte more than is read.
static TOO_LONG: [Case; 1] = [Case {
    shader: Text::Repeated {
        front: b"",
        piece: b" ",
        times: 4_194_305,
        end: b"",
    },
    number: 9,
    notes: b"too long: shader\n",
    ..DONE
}];

#[test]
fn a_shader_of_more_than_4_mib_is_not_run(rt: HostRuntime) {
    all_end(&rt, rt.alloc(), &TOO_LONG);
}

#[test]
fn no_status_is_changed_where_its_line_is_not_taken(rt: HostRuntime) {
    all_end_unheard(&rt, rt.alloc(), &OUT_OF_FORM);
    all_end_unheard(&rt, rt.alloc(), &FAULTS);
    all_end_unheard(&rt, rt.alloc(), &UNFIT);
    all_end_unheard(&rt, rt.alloc(), &TOO_LONG);
}

/// Words, and the place of RULES among them.
type Place<'a> = (&'a [&'a [u8]], Option<usize>);

static PLACES_OF_RULES: [Place; 7] = [
    (&[], None),
    (&[b"check"], None),
    (&[b"check", b"r"], Some(1)),
    (&[b"check", b"r", b"s"], Some(1)),
    (&[b"eval", b"r"], None),
    (&[b"r"], Some(0)),
    (&[b"--eval"], Some(0)),
];

#[test]
fn rules_stand_first_or_nowhere(rt: HostRuntime) {
    for place in &PLACES_OF_RULES {
        let words = words_of(rt.alloc(), place.0).expect(&rt, "memory");
        assert_eq!(rt; rules_at(words.as_slice()), place.1);
    }
}
