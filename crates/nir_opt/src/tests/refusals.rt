//! Words and texts that are refused, and sources and sinks that fail.

use super::rewriting::{DIFFER, REWRITTEN};
use super::texts::EMPTY_BLOCK;
use super::validity::BROKEN;
use super::{Case, PRINTED, REFUSED, Text, all_end, all_end_unheard, ends, uncounted};
use nir_host::OutOfMemory;
use std::alloc::Global;

/// Words without a reading.
const UNREAD: Case<'static> = Case {
    number: 2,
    notes: b"usage: nir_opt RULES [--limit=N] [--option=NAME] [--remarks] [--skip]\n",
    ..REFUSED
};

static USAGE: [Case; 13] = [
    Case {
        words: &[],
        ..UNREAD
    },
    Case {
        words: &[b"--skip"],
        ..UNREAD
    },
    Case {
        words: &[b"r", b"s"],
        ..UNREAD
    },
    Case {
        words: &[b"r", b"--limit=01"],
        ..UNREAD
    },
    Case {
        words: &[b"r", b"--limit=1000001"],
        ..UNREAD
    },
    Case {
        words: &[b"r", b"--limit="],
        ..UNREAD
    },
    Case {
        words: &[b"r", b"--limit=1", b"--limit=1"],
        ..UNREAD
    },
    Case {
        words: &[b"r", b"--skip", b"--skip"],
        ..UNREAD
    },
    Case {
        words: &[b"r", b"--remarks", b"--remarks"],
        ..UNREAD
    },
    Case {
        words: &[b"r", b"--option=1a"],
        ..UNREAD
    },
    Case {
        words: &[b"r", b"--option="],
        ..UNREAD
    },
    Case {
        words: &[b"r", b"--skip=1"],
        ..UNREAD
    },
    Case {
        words: &[b"r", b""],
        ..UNREAD
    },
];

#[test]
fn words_without_a_reading_are_refused(rt: HostRuntime) {
    all_end(&rt, rt.alloc(), &USAGE);
}

/// Rule texts that are not in the grammar.
const UNREAD_RULES: Case<'static> = Case {
    number: 5,
    ..REFUSED
};

static RULE_FAULTS: [Case; 15] = [
    Case {
        rules: Text::Whole(b"[ ? ]"),
        place: 2,
        notes: b"rules: byte 2: bad byte\n",
        ..UNREAD_RULES
    },
    Case {
        rules: Text::Whole(b"[((iadd, 'a@8', 0x), a), by * cases]"),
        place: 16,
        notes: b"rules: byte 16: bad number\n",
        ..UNREAD_RULES
    },
    Case {
        rules: Text::Whole(b"[]]"),
        place: 2,
        notes: b"rules: byte 2: unexpected\n",
        ..UNREAD_RULES
    },
    Case {
        rules: Text::Whole(b"[by * cases]"),
        place: 1,
        notes: b"rules: byte 1: unexpected\n",
        ..UNREAD_RULES
    },
    Case {
        rules: Text::Whole(b"[((iadd, 'a@8', 0), a), by 4294967296 cases]"),
        place: 27,
        notes: b"rules: byte 27: unexpected\n",
        ..UNREAD_RULES
    },
    Case {
        rules: Text::Whole(b"[((iadd3, a, 0), a), by * cases]"),
        place: 3,
        notes: b"rules: byte 3: unknown opcode\n",
        ..UNREAD_RULES
    },
    Case {
        rules: Text::Whole(b"[((iadd, a), a), by * cases]"),
        place: 10,
        notes: b"rules: byte 10: wrong number of sources\n",
        ..UNREAD_RULES
    },
    Case {
        rules: Text::Whole(b"[((iadd, a, 0), b), by * cases]"),
        place: 16,
        notes: b"rules: byte 16: unbound variable\n",
        ..UNREAD_RULES
    },
    Case {
        rules: Text::Whole(b"[((iadd, 'a@8', 0), a, 'options.b'), by * cases]"),
        place: 23,
        notes: b"rules: byte 23: bad condition\n",
        ..UNREAD_RULES
    },
    Case {
        rules: Text::Whole(b"[((mov, a), a), by * cases]"),
        place: 3,
        notes: b"rules: byte 3: left out\n",
        ..UNREAD_RULES
    },
    Case {
        rules: Text::Whole(b"[(('iadd', 'a@int', 0), a), by * cases]"),
        place: 11,
        notes: b"rules: byte 11: left out\n",
        ..UNREAD_RULES
    },
    Case {
        rules: Text::Whole(b"[weight imul 61]"),
        place: 13,
        notes: b"rules: byte 13: bad weight\n",
        ..UNREAD_RULES
    },
    Case {
        rules: Text::Whole(b"[weight imul 6, weight imul 6]"),
        place: 23,
        notes: b"rules: byte 23: bad weight\n",
        ..UNREAD_RULES
    },
    Case {
        rules: Text::Whole(b"[weight mov 1]"),
        place: 8,
        notes: b"rules: byte 8: bad weight\n",
        ..UNREAD_RULES
    },
    // the 17th opcode of a side
    Case {
        rules: Text::Repeated {
            front: b"[(",
            piece: b"(inot, ",
            times: 17,
            end: b"a",
        },
        place: 115,
        notes: b"rules: byte 115: too large\n",
        ..UNREAD_RULES
    },
];

#[test]
fn the_first_fault_of_a_rule_text_is_told(rt: HostRuntime) {
    all_end(&rt, rt.alloc(), &RULE_FAULTS);
}

#[test]
fn a_check_tells_the_first_fault_of_a_rule_text(rt: HostRuntime) {
    for case in &RULE_FAULTS {
        let checked = Case {
            words: &[b"check", b"r"],
            ..*case
        };
        ends(&rt, rt.alloc(), &checked).expect(&rt, "memory");
    }
}

/// Blanks behind two bytes of rules.
static LONG_RULES: [Case; 1] = [Case {
    rules: Text::Repeated {
        front: b"[]",
        piece: b"                                ",
        times: 2_097_152,
        end: b"",
    },
    number: 9,
    notes: b"too long: rules\n",
    ..REFUSED
}];

#[test]
fn rule_texts_above_64_mib_are_refused(rt: HostRuntime) {
    all_end(&rt, rt.alloc(), &LONG_RULES);
}

/// A text without its last brace.
const CUT_OFF: &[u8] = br"shader
inputs []
outputs []
buffers 0
{
  block b0 {
  }
";

/// A kind of six components.
const SIX_COMPONENTS: &[u8] = br"shader
inputs [w8x6]
outputs []
buffers 0
{
  block b0 {
  }
}
";

/// A byte that no token begins with.
const STRAY_BYTE: &[u8] = br"shader
inputs []
outputs []
buffers 0
{
  block b0 ! {
  }
}
";

/// A number without a digit.
const NO_DIGIT: &[u8] = br"shader
inputs []
outputs []
buffers 0x
{
  block b0 {
  }
}
";

/// One buffer too many.
const MANY_BUFFERS: &[u8] = br"shader
inputs []
outputs []
buffers 17
{
  block b0 {
  }
}
";

/// A name of no opcode.
const MISSPELT_OPCODE: &[u8] = br"shader
inputs [w8x1]
outputs [w8x1]
buffers 0
{
  block b0 {
    %0 = input w8x1 @0
    %1 = cnst w8x1 (0)
    %2 = iadd w8x1 %0, %1
    output @0, %2
  }
}
";

/// An output of a value that nothing defines.
const UNDEFINED: &[u8] = br"shader
inputs [w8x1]
outputs [w8x1]
buffers 0
{
  block b0 {
    %0 = input w8x1 @0
    %1 = const w8x1 (0)
    %2 = iadd w8x1 %0, %1
    output @0, %9
  }
}
";

/// Texts that are not in the grammar.
const MISSPELT: Case<'static> = Case {
    number: 7,
    ..REFUSED
};

static FAULTS: [Case; 8] = [
    Case {
        shader: Text::Whole(CUT_OFF),
        place: 57,
        notes: b"shader: byte 57: unexpected\n",
        ..MISSPELT
    },
    Case {
        shader: Text::Whole(SIX_COMPONENTS),
        place: 15,
        notes: b"shader: byte 15: unexpected\n",
        ..MISSPELT
    },
    Case {
        shader: Text::Whole(STRAY_BYTE),
        place: 51,
        notes: b"shader: byte 51: bad byte\n",
        ..MISSPELT
    },
    Case {
        shader: Text::Whole(NO_DIGIT),
        place: 36,
        notes: b"shader: byte 36: bad number\n",
        ..MISSPELT
    },
    Case {
        shader: Text::Whole(MANY_BUFFERS),
        place: 36,
        notes: b"shader: byte 36: too many\n",
        ..MISSPELT
    },
    Case {
        shader: Text::Whole(b"shader inputs [] outputs [] buffers 0 { block b { } block b { } }"),
        place: 58,
        notes: b"shader: byte 58: named twice\n",
        ..MISSPELT
    },
    Case {
        shader: Text::Whole(MISSPELT_OPCODE),
        place: 93,
        notes: b"shader: byte 93: unknown opcode\n",
        ..MISSPELT
    },
    Case {
        shader: Text::Whole(UNDEFINED),
        place: 149,
        notes: b"shader: byte 149: unknown name\n",
        ..MISSPELT
    },
];

#[test]
fn the_first_fault_of_a_shader_text_is_told(rt: HostRuntime) {
    all_end(&rt, rt.alloc(), &FAULTS);
}

/// The declarations, and the beginning of the body.
const DECLARATIONS: &[u8] = br"shader
inputs []
outputs []
buffers 0
{";

static TOO_DEEP: [Case; 1] = [Case {
    shader: Text::Repeated {
        front: DECLARATIONS,
        piece: b"loop {",
        times: 64,
        end: b"",
    },
    place: 422,
    notes: b"shader: byte 422: too deep\n",
    ..MISSPELT
}];

#[test]
fn lists_are_at_most_64_deep(rt: HostRuntime) {
    all_end(&rt, rt.alloc(), &TOO_DEEP);
}

static LEAST_SHADER: Case = PRINTED;

/// The number with which the case ends on another shader.
fn number_on<'a>(alloc: Global, shader: &'a [u8], case: &Case<'a>) -> Result<u8, OutOfMemory> {
    let shader = Text::Whole(shader);
    let left = uncounted(alloc, &Case { shader, ..*case })?;
    Ok(left.ended.number())
}

#[test]
fn a_front_of_a_shader_text_is_none(rt: HostRuntime) {
    for length in 0..60 {
        let front = EMPTY_BLOCK.split_at(length).0;
        let number = if length < 58 { 7 } else { 0 };
        let told = number_on(rt.alloc(), front, &LEAST_SHADER).expect(&rt, "memory");
        assert_eq!(rt; told, number);
    }
}

/// Blanks behind a shader of 59 bytes.
static LONG: [Case; 1] = [Case {
    shader: Text::Repeated {
        front: EMPTY_BLOCK,
        piece: b" ",
        times: 4_194_246,
        end: b"",
    },
    number: 9,
    notes: b"too long: shader\n",
    ..REFUSED
}];

#[test]
fn shader_texts_above_4_mib_are_refused(rt: HostRuntime) {
    assert_eq!(rt; EMPTY_BLOCK.len(), 59);
    all_end(&rt, rt.alloc(), &LONG);
}

static ENDED: [Case; 3] = [
    Case {
        rules_fail: &[0],
        number: 3,
        notes: b"read failed: rules\n",
        ..REFUSED
    },
    Case {
        shader_fail: &[0],
        number: 3,
        notes: b"read failed: shader\n",
        ..REFUSED
    },
    Case {
        room: 10,
        number: 4,
        out: b"shader\ninp",
        notes: b"write failed\n",
        ..REWRITTEN
    },
];

#[test]
fn faults_end_a_run(rt: HostRuntime) {
    all_end(&rt, rt.alloc(), &ENDED);
}

#[test]
fn no_status_is_changed_where_its_line_is_not_taken(rt: HostRuntime) {
    all_end_unheard(&rt, rt.alloc(), &USAGE);
    all_end_unheard(&rt, rt.alloc(), &RULE_FAULTS);
    all_end_unheard(&rt, rt.alloc(), &FAULTS);
    all_end_unheard(&rt, rt.alloc(), &LONG);
    all_end_unheard(&rt, rt.alloc(), &ENDED);
    all_end_unheard(&rt, rt.alloc(), &DIFFER);
    all_end_unheard(&rt, rt.alloc(), &BROKEN);
}
