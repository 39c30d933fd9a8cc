//! Texts with each form of the grammar, and texts with each fault.

use crate::every_form::EVERY_FORM;
use crate::shown_shaders::show_shader;
use nir_ir::Shader;
use nir_lex::LexFault;
use nir_text::{TextFault, read_shader};
use std::alloc::Global;
use std::fmt::Write;
use std::test::Fail;

/// Texts whose tokens have a fault.
static TOKEN_FAULTS: &[(&str, LexFault)] = &[
    ("nothing ?", LexFault::BadByte(8)),
    ("nothing '", LexFault::BadByte(9)),
    ("nothing 0x", LexFault::BadNumber(8)),
];

/// Reads a text that is short enough, as each text of a test is.
pub(crate) fn read(alloc: Global, text: &[u8]) -> Result<Shader, TextFault> {
    if text.len() >= 0x1_0000_0000 {
        return Err(TextFault::OutOfMemory);
    }
    read_shader(alloc, text)
}

#[test]
fn each_form_is_read(rt: HostRuntime) -> Result<(), Fail> {
    let shader = read(rt.alloc(), EVERY_FORM.as_bytes())?;
    let shown = show_shader(rt.alloc(), &shader)?;
    let wanted = "in W8x1 W32x4 out W1x1 buffers 16 next 11 { b0[ v0 input W8x1 0; \
        v1 const W8x3 [128, 255, 7]; v2 undef W1x1; v3 load W32x2 4294967295 v10; \
        v4 Iadd W8x1 v0.[0] v1.[1]; v5 Vec2 W8x2 v10.[3] v1.[2, 1, 0, 0]; v6 const W1x1 [1]; \
        e0 output 4294967295 v4; e1 store 0 v0 v5; e2 output 1 v1; ] \
        if0 v6 { loop0 { b1[ v7 phi W8x1 b0:v0 b2:v10 b1:v7; v8 phi W16x4; \
        v9 Imul W8x1 v7.[0] v1.[0, 1, 2]; continue ] b2[ break ] } } { } \
        loop1 { if1 v6 { } { loop2 { } } } \
        b3[ v10 const W64x4 [9223372036854775808, 18446744073709551615, 18446744073709551615, 0]; \
        break ] }";
    assert_eq!(rt; shown.as_str(), wanted);
    Ok(())
}

/// What reading says of a text that has a `~` where the fault is to be: nothing where the place
/// and the words are these, else what was read. The `~` is left out of the text.
fn other_fault(
    alloc: Global,
    before: &str,
    marked: &str,
    behind: &str,
    words: &str,
) -> Result<Option<String>, Fail> {
    let (first, last) = marked.split_once('~').ok_or("no mark")?;
    let mut text = String::new(alloc);
    text.push_str(before)?;
    text.push_str(first)?;
    let place = text.len();
    text.push_str(last)?;
    text.push_str(behind)?;
    let said = match read(alloc, text.as_bytes()) {
        Ok(shader) => show_shader(alloc, &shader)?,
        Err(fault) => format!(in alloc; "{fault}")?,
    };
    let wanted = format!(in alloc; "byte {place}: {words}")?;
    Ok(if said.as_str() == wanted.as_str() {
        None
    } else {
        Some(said)
    })
}

/// The smallest shader, of 59 bytes.
pub(crate) static EMPTY_TEXT: &str = r"shader
inputs []
outputs []
buffers 0
{
  block b0 {
  }
}
";

/// A kind of six components. The `~` of these texts stands where the fault is.
const SIX_COMPONENTS: &str = r"shader
inputs [~w8x6]
outputs []
buffers 0
{
  block b0 {
  }
}
";

/// A text without its last brace.
const CUT_OFF: &str = r"shader
inputs []
outputs []
buffers 0
{
  block b0 {
  }
~";

/// Whole texts, each with the words of its fault.
static TEXTS: [(&str, &str); 23] = [
    ("~", "unexpected"),
    ("# no shader~", "unexpected"),
    ("~inputs [] outputs [] buffers 0 {}", "unexpected"),
    (SIX_COMPONENTS, "unexpected"),
    (
        "shader inputs [w8x1,~] outputs [] buffers 0 {}",
        "unexpected",
    ),
    (
        "shader inputs [w8x1 ~w8x1] outputs [] buffers 0 {}",
        "unexpected",
    ),
    ("shader inputs [] ~buffers 0 {}", "unexpected"),
    ("shader inputs [] outputs [] buffers ~17 {}", "too many"),
    (
        "shader inputs [] outputs [] buffers ~4294967296 {}",
        "too many",
    ),
    ("shader inputs [] outputs [] buffers ~-1 {}", "unexpected"),
    ("shader inputs [] outputs [] buffers ~{}", "unexpected"),
    (
        "shader inputs [] outputs [] buffers 16 ~block",
        "unexpected",
    ),
    (
        "shader inputs [] outputs [] buffers 16 {} ~{}",
        "unexpected",
    ),
    ("shader inputs [] outputs [] buffers 16 {~", "unexpected"),
    (CUT_OFF, "unexpected"),
    (
        "shader inputs [] outputs [] buffers 0 { ~output @0, %1 }",
        "unexpected",
    ),
    (
        "shader inputs [] outputs [] buffers 0 { loop ~block a {} }",
        "unexpected",
    ),
    (
        "shader inputs [] outputs [] buffers 0 { block ~%a {} }",
        "unexpected",
    ),
    (
        "shader inputs [] outputs [] buffers 0 { if ~{} else {} }",
        "unexpected",
    ),
    (
        "shader inputs [] outputs [] buffers 0 { if %c {} ~{} }",
        "unexpected",
    ),
    (
        "shader inputs [] outputs [] buffers 0 { if ~%c {} else {} }",
        "unknown name",
    ),
    (
        "shader inputs [] outputs [] buffers 0 { block a {} loop { block ~a {} } }",
        "named twice",
    ),
    (
        "shader inputs [] outputs [] buffers 0 { block if {} block ~if {} }",
        "named twice",
    ),
];

/// Insides of a block, each with the words of its fault.
static BLOCKS: [(&str, &str); 42] = [
    ("%0 = input w8x1 @0 %1 = ~cnst w8x1 (0)", "unknown opcode"),
    ("%0 = ~b0", "unknown opcode"),
    ("%0 = ~block w8x1", "unexpected"),
    ("%0 = ~output w8x1 @0", "unexpected"),
    ("%0 = ~'iadd' w8x1", "unexpected"),
    ("%0 = iadd ~w8x5 %0, %0", "unexpected"),
    ("%0 ~undef w8x1", "unexpected"),
    ("%0 = undef w8x1 %1 = ~phi w8x1 []", "unexpected"),
    ("output @0, %0 %0 = ~phi w8x1 []", "unexpected"),
    ("%0 = undef w8x1 ~%0 = undef w8x1", "named twice"),
    ("%0 = phi w8x1 [] %1 = undef w8x1 ~%0 = cnst", "named twice"),
    ("%0 = const w8x1 ~0", "unexpected"),
    ("%0 = const w8x1 (~)", "unexpected"),
    ("%0 = const w8x3 (1, 2~)", "unexpected"),
    ("%0 = const w8x3 (1, 2 ~3)", "unexpected"),
    ("%0 = const w8x1 (1~, 2)", "unexpected"),
    ("%0 = const w8x1 (~256)", "unexpected"),
    ("%0 = const w8x1 (~-129)", "unexpected"),
    ("%0 = const w1x1 (~2)", "unexpected"),
    ("%0 = const w1x2 (-1, ~-2)", "unexpected"),
    ("%0 = const w32x1 (~-2147483649)", "unexpected"),
    ("%0 = input w8x1 ~0", "unexpected"),
    ("%0 = input w8x1 @~4294967296", "unexpected"),
    ("%0 = load w8x1 @~-1, %0", "unexpected"),
    ("%0 = load w8x1 @1 ~%0", "unexpected"),
    ("%0 = iadd w8x1 %0 ~%0", "unexpected"),
    ("%0 = iadd w8x1 %0 ~", "unexpected"),
    ("%0 = ineg w8x1 %0~, %0", "unexpected"),
    ("%0 = ineg w8x1 %0.~xyzwx", "unexpected"),
    ("%0 = ineg w8x1 %0.~xa", "unexpected"),
    ("%0 = ineg w8x1 %0.~1", "unexpected"),
    ("store @0, %0~", "unexpected"),
    ("output @0, ~0", "unexpected"),
    ("%0 = phi w8x1 ~%0", "unexpected"),
    ("%0 = phi w8x1 [b0 ~%0]", "unexpected"),
    ("%0 = phi w8x1 [b0: %0,~]", "unexpected"),
    ("break ~output @0, %0", "unexpected"),
    ("continue ~break", "unexpected"),
    ("output @0, %9 ~block", "unexpected"),
    (
        "%0 = input w8x1 @0 output @0, %0 output @0, ~%9 output @0, %8",
        "unknown name",
    ),
    ("%0 = phi w8x1 [~b7: %1]", "unknown name"),
    ("%0 = phi w8x1 [b0: %0, b0: ~%1, b7: %1]", "unknown name"),
];

#[test]
fn the_first_fault_is_answered(rt: HostRuntime) -> Result<(), Fail> {
    for &(text, words) in &TEXTS {
        assert_eq!(rt;
            other_fault(rt.alloc(), "", text, "", words)?,
            None,
            "{text}"
        );
    }
    let before = "shader inputs [] outputs [] buffers 0 { block b0 { ";
    for &(text, words) in &BLOCKS {
        assert_eq!(rt;
            other_fault(rt.alloc(), before, text, "} }", words)?,
            None,
            "{text}"
        );
    }
    Ok(())
}

#[test]
fn a_fault_of_the_tokens_comes_before_all_others(rt: HostRuntime) {
    for &(text, fault) in TOKEN_FAULTS {
        assert_eq!(rt;
            read(rt.alloc(), text.as_bytes()).err(),
            Some(TextFault::Lex(fault)),
            "{text:?}"
        );
    }
}

/// Declarations with so many kinds before the last.
fn kinds(alloc: Global, before: u32, last: &str) -> Result<String, Fail> {
    let mut text = String::from_str(alloc, "shader inputs [")?;
    for _kind in 0..before {
        text.push_str("w64x4, ")?;
    }
    text.push_str(last)?;
    text.push_str("] outputs [] buffers 0 {}")?;
    Ok(text)
}

/// So many lists inside one another.
fn lists(alloc: Global, depth: u32) -> Result<String, Fail> {
    let mut text = String::from_str(alloc, "shader inputs [] outputs [] buffers 0 ")?;
    for _outer in 1..depth {
        text.push_str("{loop")?;
    }
    text.push_str("~{")?;
    for _list in 0..depth {
        text.push('}')?;
    }
    Ok(text)
}

/// A block of so many values and a further one.
fn values(alloc: Global, before: u32, last: &str) -> Result<String, Fail> {
    let mut text = String::from_str(
        alloc,
        "shader inputs [] outputs [] buffers 0 { block b0 {\n",
    )?;
    for value in 0..before {
        write!(text, "%{value}=undef w1x1\n")?;
    }
    text.push_str(last)?;
    text.push_str("=undef w1x1 } }")?;
    Ok(text)
}

#[test]
fn limits_are_kept(rt: HostRuntime) -> Result<(), Fail> {
    let alloc = rt.alloc();
    for (text, words) in [
        (kinds(alloc, 64, "~w8x1")?, "too many"),
        (kinds(alloc, 64, "~w8x5")?, "unexpected"),
        (kinds(alloc, 63, "w8x1~")?, ""),
        (lists(alloc, 65)?, "too deep"),
        (lists(alloc, 64)?, ""),
        (values(alloc, 16384, "~%16384")?, "too many"),
        (values(alloc, 16384, "~%7")?, "named twice"),
        (values(alloc, 16383, "~%16383")?, ""),
    ] {
        let other = other_fault(alloc, "", text.as_str(), "", words)?;
        if words.is_empty() {
            assert!(rt;
                other.is_some_and(|said| said.as_str().starts_with("in ")),
                "{text}"
            );
        } else {
            assert_eq!(rt; other, None, "{text}");
        }
    }
    Ok(())
}

#[test]
fn a_text_that_is_cut_off_is_no_shader(rt: HostRuntime) -> Result<(), Fail> {
    let text = EMPTY_TEXT.as_bytes();
    assert_eq!(rt; text.len(), 59);
    for length in 0..58 {
        assert!(rt; read(rt.alloc(), &text[..length]).is_err(), "{length}");
    }
    for length in 58..60 {
        let shader = read(rt.alloc(), &text[..length])?;
        let shown = show_shader(rt.alloc(), &shader)?;
        assert_eq!(rt; shown.as_str(), "in out buffers 0 next 0 { b0[ ] }");
    }
    Ok(())
}
