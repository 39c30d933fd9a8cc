//! Numbers of evidence: of laws, typings, sources and clauses, and literals.

ghost use Rattle.std.specs.Prelude.{◌≡◌, [], ◌∷◌, ◌++◌};
ghost use Rattle.nir_lex.specs.declared.token.TokenKind.TheVariants.{Number};
ghost use Rattle.grammar.specs.Terminals.{has, ANumber};
ghost use Rattle.grammar.specs.Words.{given, number_of};
ghost use Rattle.rule_spelling.specs.Files.{Expected};
ghost use Rattle.rule_spelling.specs.RuleFiles.{index, literal};
ghost use Rattle.rule_spelling.specs.Tokens.{index_of, literal_of};
ghost use Rattle.term_read.specs.Gives.{Gives};
ghost use Rattle.term_read.specs.Source.{reads, takes};
ghost use Rattle.term_read.specs.Views.{here, source};

use crate::list::Listed;
use clause_check::Lits;
use nir_host::Seq;
use nir_lex::TokenKind;
use std::alloc::Global;
use term_read::{Point, Reader, RuleFault};

/// Whether a number stands here.
pub fn is_number(at: &Point<'_>) -> bool
    ensures { result ≡ has ANumber (here at.now) }
{
    match at.kind() {
        TokenKind::Number { .. } => true,
        TokenKind::Word
        | TokenKind::Name
        | TokenKind::Quoted
        | TokenKind::Punct { .. }
        | TokenKind::End => false,
    }
}

/// A number of 32 bits.
pub fn index<'a>(reader: &mut Reader<'a>) -> Result<u32, RuleFault>
    ensures { Gives (λ x. (x, source reader.new)) result (reads index (source reader.old)) }
{
    let at = reader.point;
    match at.kind() {
        TokenKind::Number { value } => index_number(reader, value),
        TokenKind::Word
        | TokenKind::Name
        | TokenKind::Quoted
        | TokenKind::Punct { .. }
        | TokenKind::End => Err(at.expected()),
    }
}

/// A number of 32 bits, where this number stands.
fn index_number<'a>(reader: &mut Reader<'a>, value: i128) -> Result<u32, RuleFault>
    requires { (here reader.old.point).kind ≡ Number value }
    ensures { Gives (λ x. (x, source reader.new)) result (takes (λ x first. given Expected x (index_of (number_of first.kind))) (source reader.old)) }
{
    let at = reader.point;
    if value < 0 {
        return Err(at.expected());
    }
    if value >= 1 << 32 {
        return Err(at.expected());
    }
    reader.point = at.next();
    Ok(value as u32)
}

/// A literal: a number of 32 bits with a sign, and not 0.
pub fn literal<'a>(reader: &mut Reader<'a>) -> Result<i32, RuleFault>
    ensures { Gives (λ x. (x, source reader.new)) result (reads literal (source reader.old)) }
{
    let at = reader.point;
    match at.kind() {
        TokenKind::Number { value } => literal_number(reader, value),
        TokenKind::Word
        | TokenKind::Name
        | TokenKind::Quoted
        | TokenKind::Punct { .. }
        | TokenKind::End => Err(at.expected()),
    }
}

/// A literal, where this number stands.
fn literal_number<'a>(reader: &mut Reader<'a>, value: i128) -> Result<i32, RuleFault>
    requires { (here reader.old.point).kind ≡ Number value }
    ensures { Gives (λ x. (x, source reader.new)) result (takes (λ x first. given Expected x (literal_of (number_of first.kind))) (source reader.old)) }
{
    let at = reader.point;
    if value == 0 {
        return Err(at.expected());
    }
    if value < -(1 << 31) {
        return Err(at.expected());
    }
    if value >= 1 << 31 {
        return Err(at.expected());
    }
    reader.point = at.next();
    Ok(value as i32)
}

/// Numbers: of sources, and of clauses.
impl Listed for Seq<u32> {
    ghost use Rattle.std.specs.Prelude.{ℕ};

    ghost Item = { ℕ };

    ghost class = { ANumber };

    ghost grammar = { index };

    ghost says = { λ list. list };

    fn none(alloc: Global) -> Seq<u32> {
        Seq::new(alloc)
    }

    fn begins(at: &Point<'_>) -> bool {
        is_number(at)
    }

    fn read_another<'a>(
        &mut self,
        _alloc: Global,
        reader: &mut Reader<'a>,
    ) -> Result<(), RuleFault> {
        let number = index(reader)?;
        self.push(number)?;
        Ok(())
    }
}

/// The literals of a clause.
impl Listed for Lits {
    ghost use Rattle.std.specs.Prelude.{ℤ};

    ghost Item = { ℤ };

    ghost class = { ANumber };

    ghost grammar = { literal };

    ghost says = { λ list. list };

    fn none(alloc: Global) -> Lits {
        Lits::new(alloc)
    }

    fn begins(at: &Point<'_>) -> bool {
        is_number(at)
    }

    fn read_another<'a>(
        &mut self,
        _alloc: Global,
        reader: &mut Reader<'a>,
    ) -> Result<(), RuleFault> {
        let number = literal(reader)?;
        self.push(number)?;
        Ok(())
    }
}
