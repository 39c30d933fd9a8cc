//! Texts of single tokens and of several, and texts with faults.

use nir_lex::{LexFault, Token, TokenKind, is_word, tokens};
use std::test::Fail;

/// Texts of one token.
static SINGLE: &[(&str, TokenKind)] = &[
    (
        "18446744073709551615",
        TokenKind::Number {
            value: 18446744073709551615,
        },
    ),
    (
        "-9223372036854775808",
        TokenKind::Number {
            value: -9223372036854775808,
        },
    ),
    (
        "0xFfffffffFFFFffff",
        TokenKind::Number {
            value: 18446744073709551615,
        },
    ),
    ("-0", TokenKind::Number { value: 0 }),
    ("007", TokenKind::Number { value: 7 }),
    ("0x00a0", TokenKind::Number { value: 160 }),
    ("_x9", TokenKind::Word),
    ("%9", TokenKind::Name),
    ("%_Zz", TokenKind::Name),
    ("''", TokenKind::Quoted),
    ("'a \"~'", TokenKind::Quoted),
    ("\"it's # 1\"", TokenKind::Quoted),
    ("*", TokenKind::Punct { byte: b'*' }),
    ("]", TokenKind::Punct { byte: b']' }),
];

/// Texts with their first faults.
static FAULTS: &[(&str, LexFault)] = &[
    ("%", LexFault::BadByte(0)),
    ("a % b", LexFault::BadByte(2)),
    ("-", LexFault::BadByte(0)),
    ("- 1", LexFault::BadByte(0)),
    ("+1", LexFault::BadByte(0)),
    ("0x", LexFault::BadNumber(0)),
    (" 0xg", LexFault::BadNumber(1)),
    ("0x1g", LexFault::BadNumber(0)),
    ("0X10", LexFault::BadNumber(0)),
    ("-0x10", LexFault::BadNumber(0)),
    ("12a", LexFault::BadNumber(0)),
    ("12_", LexFault::BadNumber(0)),
    ("18446744073709551616", LexFault::BadNumber(0)),
    ("-9223372036854775809", LexFault::BadNumber(0)),
    ("0x10000000000000000", LexFault::BadNumber(0)),
    ("'a\x7f'", LexFault::BadByte(2)),
    ("'a\n'", LexFault::BadByte(2)),
    ("\"a'", LexFault::BadByte(3)),
    ("'", LexFault::BadByte(1)),
    ("# ?\n ?", LexFault::BadByte(5)),
    ("ab\u{e9}", LexFault::BadByte(2)),
    ("\x0b", LexFault::BadByte(0)),
    ("a 1b 'c", LexFault::BadNumber(2)),
];

/// Faults in words.
static PRINTED: &[(LexFault, &str)] = &[
    (LexFault::BadByte(7), "byte 7: bad byte"),
    (LexFault::BadNumber(0), "byte 0: bad number"),
    (LexFault::OutOfMemory, "out of memory"),
];

// The only token before the end, and its text is the whole text.
#[test]
fn single_tokens(rt: HostRuntime) -> Result<(), Fail> {
    for &(text, kind) in SINGLE {
        let length = text.len() as u64;
        let list = tokens(rt.alloc(), text.as_bytes())?;
        assert_eq!(rt; list.len(), 2, "{text:?}");
        let token = list.get(0).copied().ok_or("a token")?;
        assert_eq!(rt; token, at(kind, 0, length), "{text:?}");
        assert_eq!(rt;
            list.get(1).copied().ok_or("the end")?,
            at(TokenKind::End, length, length)
        );
    }
    Ok(())
}

#[test]
fn faults(rt: HostRuntime) {
    for &(text, fault) in FAULTS {
        assert_eq!(rt;
            tokens(rt.alloc(), text.as_bytes()).err(),
            Some(fault),
            "{text:?}"
        );
    }
}

#[test]
fn printed_faults(rt: HostRuntime) -> Result<(), Fail> {
    for &(fault, words) in PRINTED {
        let said = format!(in rt.alloc(); "{fault}")?;
        assert_eq!(rt; said.as_str(), words);
    }
    Ok(())
}

// A comment ends at the line feed alone, and names, words and numbers go on as far as they can.
#[test]
fn whole_texts(rt: HostRuntime) -> Result<(), Fail> {
    let text = b"# a\r'b\n%0x=add\t%1.x,-5#%";
    let list = tokens(rt.alloc(), text)?;
    let wanted = [
        at(TokenKind::Name, 7, 10),
        at(TokenKind::Punct { byte: b'=' }, 10, 11),
        at(TokenKind::Word, 11, 14),
        at(TokenKind::Name, 15, 17),
        at(TokenKind::Punct { byte: b'.' }, 17, 18),
        at(TokenKind::Word, 18, 19),
        at(TokenKind::Punct { byte: b',' }, 19, 20),
        at(number(-5), 20, 22),
        at(TokenKind::End, 24, 24),
    ];
    assert_eq!(rt; list.as_slice(), wanted.as_slice());
    let word = Token {
        kind: TokenKind::Word,
        start: 11,
        end: 14,
    };
    assert_eq!(rt; word.text(text), b"add".as_slice());
    assert_eq!(rt;
        tokens(rt.alloc(), b"")?.as_slice(),
        [at(TokenKind::End, 0, 0)].as_slice()
    );
    assert!(rt; is_word(b"_a1") && !is_word(b"1a") && !is_word(b"a-") && !is_word(b""));
    Ok(())
}

fn number(value: i128) -> TokenKind {
    TokenKind::Number { value }
}

fn at(kind: TokenKind, start: u64, end: u64) -> Token {
    Token { kind, start, end }
}
