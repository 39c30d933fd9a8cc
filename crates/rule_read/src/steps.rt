//! The steps of derivations: laws with their bindings, and calculations.

ghost use Rattle.std.specs.Prelude.{◌≡◌, [], ◌∷◌, codes, map};
ghost use Rattle.grammar.specs.Terminals.{WordBut};
ghost use Rattle.grammar.specs.Words.{bytes};
ghost use Rattle.rule_spelling.specs.RuleFiles.{rule_files, behind_rev, binding, bindings, bound_to, calc, law, others_behind, reading, step};
ghost use Rattle.rule_read.specs.Evidence.{law_or_calc, reading_says, rev_or_binding};
ghost use Rattle.rule_read.specs.Says.{binding_says, step_says};
ghost use Rattle.term_read.specs.Gives.{Gives};
ghost use Rattle.term_read.specs.Source.{reads};
ghost use Rattle.term_read.specs.Views.{source};

use crate::derivation::{Binding, Bindings, Derivation, DeriveStep};
use crate::list::{Listed, in_brackets, with_others};
use crate::number::{index, is_number};
use nir_host::Bytes;
use std::alloc::Global;
use term_read::{Place, Point, Reader, RuleFault, expr};

/// What stands behind the path of a law: whether it is read from right to left, and bindings.
#[derive(Debug, Drop)]
pub struct Reading {
    pub rev: bool,
    pub bindings: Bindings,
}

/// A word.
fn any_word<'a>(reader: &mut Reader<'a>) -> Result<&'a [u8], RuleFault>
    ensures { Gives (λ x. (x.now, source reader.new)) result (reads (bytes rule_files (WordBut [])) (source reader.old)) }
{
    let at = reader.point;
    if !at.is_any_word() {
        return Err(at.expected());
    }
    reader.point = at.next();
    Ok(at.bytes())
}

/// A word that is not `rev`.
fn name_of_binding<'a>(reader: &mut Reader<'a>) -> Result<&'a [u8], RuleFault>
    ensures { Gives (λ x. (x.now, source reader.new)) result (reads (bytes rule_files (WordBut (codes "rev" ∷ []))) (source reader.old)) }
{
    let at = reader.point;
    if !at.is_any_word() {
        return Err(at.expected());
    }
    if at.is_word(b"rev") {
        return Err(at.expected());
    }
    reader.point = at.next();
    Ok(at.bytes())
}

/// The `=` and the expression of a binding of this name.
fn bound_to<'a>(alloc: Global, name: &[u8], reader: &mut Reader<'a>) -> Result<Binding, RuleFault>
    ensures { Gives (λ x. (binding_says x, source reader.new)) result (reads (bound_to name.now) (source reader.old)) }
{
    reader.side(b'=')?;
    let with = expr(alloc, Place::Evidence, reader)?;
    let name = Bytes::from_slice(alloc, name)?;
    Ok(Binding { name, with })
}

/// A binding.
fn binding<'a>(alloc: Global, reader: &mut Reader<'a>) -> Result<Binding, RuleFault>
    ensures { Gives (λ x. (binding_says x, source reader.new)) result (reads binding (source reader.old)) }
{
    let name = any_word(reader)?;
    bound_to(alloc, name, reader)
}

impl Listed for Bindings {
    ghost use Rattle.std.specs.Prelude.{[], map};
    ghost use Rattle.grammar.specs.Terminals.{WordBut};
    ghost use Rattle.rule_spelling.specs.Files.{Binding as Said};
    ghost use Rattle.rule_spelling.specs.RuleFiles.{binding};
    ghost use Rattle.rule_read.specs.Says.{binding_says};

    ghost Item = { Said };

    ghost class = { WordBut [] };

    ghost grammar = { binding };

    ghost says = { λ list. map binding_says list };

    fn none(alloc: Global) -> Bindings {
        Bindings::new(alloc)
    }

    fn begins(at: &Point<'_>) -> bool {
        at.is_any_word()
    }

    fn read_another<'a>(
        &mut self,
        alloc: Global,
        reader: &mut Reader<'a>,
    ) -> Result<(), RuleFault> {
        let binding = binding(alloc, reader)?;
        self.push(binding)?;
        Ok(())
    }
}

/// Bindings, each behind a comma.
fn bindings<'a>(alloc: Global, reader: &mut Reader<'a>) -> Result<Bindings, RuleFault>
    ensures { Gives (λ x. (map binding_says x, source reader.new)) result (reads bindings (source reader.old)) }
{
    let mut list = Bindings::new(alloc);
    with_others(alloc, &mut list, reader)?;
    Ok(list)
}

/// The bindings behind the first, where the law is read from left to right.
fn others_behind<'a>(
    alloc: Global,
    first: Binding,
    reader: &mut Reader<'a>,
) -> Result<Reading, RuleFault>
    ensures { Gives (λ x. (reading_says x, source reader.new)) result (reads (others_behind (binding_says first)) (source reader.old)) }
{
    let mut bindings = Bindings::new(alloc);
    bindings.push(first)?;
    with_others(alloc, &mut bindings, reader)?;
    Ok(Reading {
        rev: false,
        bindings,
    })
}

/// What stands behind the word `rev`: the `=` of a binding of that name, or all bindings of a law that is read from right to left.
fn behind_rev<'a>(alloc: Global, reader: &mut Reader<'a>) -> Result<Reading, RuleFault>
    ensures { Gives (λ x. (reading_says x, source reader.new)) result (reads behind_rev (source reader.old)) }
{
    if reader.point.is_mark(b'=') {
        let first = bound_to(alloc, b"rev", reader)?;
        return others_behind(alloc, first, reader);
    }
    let bindings = bindings(alloc, reader)?;
    Ok(Reading {
        rev: true,
        bindings,
    })
}

/// What stands behind the path of a law.
fn law_reading<'a>(alloc: Global, reader: &mut Reader<'a>) -> Result<Reading, RuleFault>
    ensures { Gives (λ x. (reading_says x, source reader.new)) result (reads reading (source reader.old)) }
{
    if !reader.point.is_mark(b',') {
        return Ok(Reading {
            rev: false,
            bindings: Bindings::new(alloc),
        });
    }
    reader.mark(b',')?;
    rev_or_binding(alloc, reader)
}

/// The word `rev` or the first binding, and what stands behind.
fn rev_or_binding<'a>(alloc: Global, reader: &mut Reader<'a>) -> Result<Reading, RuleFault>
    ensures { Gives (λ x. (reading_says x, source reader.new)) result (reads rev_or_binding (source reader.old)) }
{
    if reader.point.is_word(b"rev") {
        reader.word(b"rev")?;
        return behind_rev(alloc, reader);
    }
    let name = name_of_binding(reader)?;
    let first = bound_to(alloc, name, reader)?;
    others_behind(alloc, first, reader)
}

/// A law at the part of the term at the end of a path.
fn law<'a>(alloc: Global, reader: &mut Reader<'a>) -> Result<DeriveStep, RuleFault>
    ensures { Gives (λ x. (step_says x, source reader.new)) result (reads law (source reader.old)) }
{
    let law = index(reader)?;
    reader.mark(b',')?;
    let path = in_brackets(alloc, reader)?;
    let Reading { rev, bindings } = law_reading(alloc, reader)?;
    Ok(DeriveStep::Apply {
        law,
        path,
        rev,
        bindings,
    })
}

/// A term in the place of the part at the end of a path.
fn calc<'a>(alloc: Global, reader: &mut Reader<'a>) -> Result<DeriveStep, RuleFault>
    ensures { Gives (λ x. (step_says x, source reader.new)) result (reads calc (source reader.old)) }
{
    reader.word(b"calc")?;
    reader.mark(b',')?;
    let path = in_brackets(alloc, reader)?;
    reader.side(b',')?;
    let with = expr(alloc, Place::Evidence, reader)?;
    Ok(DeriveStep::Calc { path, with })
}

fn law_or_calc<'a>(alloc: Global, reader: &mut Reader<'a>) -> Result<DeriveStep, RuleFault>
    ensures { Gives (λ x. (step_says x, source reader.new)) result (reads law_or_calc (source reader.old)) }
{
    if is_number(&reader.point) {
        return law(alloc, reader);
    }
    calc(alloc, reader)
}

/// A step of a derivation.
fn step<'a>(alloc: Global, reader: &mut Reader<'a>) -> Result<DeriveStep, RuleFault>
    ensures { Gives (λ x. (step_says x, source reader.new)) result (reads step (source reader.old)) }
{
    reader.mark(b'(')?;
    let step = law_or_calc(alloc, reader)?;
    reader.mark(b')')?;
    Ok(step)
}

impl Listed for Derivation {
    ghost use Rattle.std.specs.Prelude.{map};
    ghost use Rattle.grammar.specs.Terminals.{TheMark};
    ghost use Rattle.rule_spelling.specs.Files.{Step};
    ghost use Rattle.rule_spelling.specs.RuleFiles.{step};
    ghost use Rattle.rule_read.specs.Says.{step_says};

    ghost Item = { Step };

    ghost class = { TheMark 40 };

    ghost grammar = { step };

    ghost says = { λ list. map step_says list };

    fn none(alloc: Global) -> Derivation {
        Derivation::new(alloc)
    }

    fn begins(at: &Point<'_>) -> bool {
        at.is_mark(b'(')
    }

    fn read_another<'a>(
        &mut self,
        alloc: Global,
        reader: &mut Reader<'a>,
    ) -> Result<(), RuleFault> {
        let step = step(alloc, reader)?;
        self.push(step)?;
        Ok(())
    }
}
