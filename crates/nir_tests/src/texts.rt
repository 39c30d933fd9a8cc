//! Texts that were written out by hand.

use std::test::Fail;
use text_bytes::{push, push_number, push_numbers};

#[test]
fn a_text_grows_at_its_end(rt: HostRuntime) -> Result<(), Fail> {
    let mut out = Vec::from_slice(rt.alloc(), b"at ")?;
    push_number(&mut out, 90)?;
    push(&mut out, b": ")?;
    push_number(&mut out, 0)?;
    assert_eq!(rt; out.as_slice(), b"at 90: 0".as_slice());
    Ok(())
}

/// Numbers, and their text.
static NUMBERS: &[(&[u64], &str)] = &[
    (&[], ""),
    (&[10], "10"),
    (&[0, 7, 18446744073709551615], "0, 7, 18446744073709551615"),
];

#[test]
fn numbers_have_a_comma_and_a_blank_between_them(rt: HostRuntime) -> Result<(), Fail> {
    for &(numbers, want) in NUMBERS {
        let mut out = Vec::new(rt.alloc());
        push_numbers(&mut out, numbers)?;
        assert_eq!(rt; out.as_slice(), want.as_bytes());
    }
    Ok(())
}
