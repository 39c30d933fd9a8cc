//! Steps of a log: whether a clause follows from those before it by its hints.

ghost use Rattle.std.specs.Prelude.{◌≡◌, [], ◌∷◌, ◌++◌, IfOk, MatchBool, false, true, slice_get};
ghost use Rattle.std.specs.Option.{option_map};
ghost use Rattle.clause_check.specs.Logs.{clashes, follow, left_in, numbered, step_fault};
ghost use Rattle.clause_check.specs.Marked.{clauses_before, clauses_of};

use crate::clause::{Clauses, LogStep};
use crate::marks::Marks;
use nir_host::OutOfMemory;

/// Why a clause does not follow.
#[derive(Clone, Copy, Debug, PartialEq, Eq)]
pub(crate) enum StepFault {
    BadHint,
    NotUnit,
}

/// What is left of a clause where its false literals go.
#[derive(Clone, Copy, Debug, PartialEq, Eq)]
pub(crate) enum Left {
    NoneLeft,
    OneLeft(i32),
    MoreLeft,
}

/// What is left of the clause.
fn left_in(marks: &Marks, clause: &[i32]) -> Left
    ensures { result ≡ left_in marks.now clause.now }
{
    let mut left = Left::NoneLeft;
    for literal in clause {
        let literal = *literal;
        if marks.is_false(literal) {
            continue;
        }
        match left {
            Left::NoneLeft => left = Left::OneLeft(literal),
            Left::OneLeft(own) => {
                if own != literal {
                    return Left::MoreLeft;
                }
            }
            Left::MoreLeft => return Left::MoreLeft,
        }
    }
    left
}

/// The clauses before a step: the first ones, and those of the steps before it.
#[derive(Clone, Copy)]
pub(crate) struct Before<'a> {
    pub(crate) clauses: &'a Clauses,
    pub(crate) steps: &'a [LogStep],
}

/// The clause of a number.
#[tactic(auto, using(crate::proofs::NumberedLemmas::among_first, crate::proofs::NumberedLemmas::behind_first))]
fn numbered<'a>(before: Before<'a>, hint: u32) -> Option<&'a [i32]>
    ensures { option_map (λ clause. clause.now) result ≡ numbered (clauses_before before.entry) hint }
{
    if hint == 0 {
        return None;
    }
    let place = hint as usize - 1;
    if let Some(clause) = before.clauses.get(place) {
        return Some(clause.as_slice());
    }
    clause_at(before.steps, place - before.clauses.len())
}

/// The clause of the step at a place.
fn clause_at(steps: &[LogStep], place: usize) -> Option<&[i32]>
    ensures { option_map (λ clause. clause.now) result ≡ slice_get (clauses_of steps.now) place }
{
    match steps.get(place) {
        Some(step) => Some(step.clause.as_slice()),
        None => None,
    }
}

/// Follows the hints, where the literals of the marks are false; None where they end well.
fn follow(
    marks: &mut Marks,
    before: Before<'_>,
    hints: &[u32],
) -> Result<Option<StepFault>, OutOfMemory>
    ensures { IfOk result (λ fault. fault ≡ follow (clauses_before before.entry) hints.now marks.old) }
{
    for hint in hints {
        let Some(clause) = numbered(before, *hint) else {
            return Ok(Some(StepFault::BadHint));
        };
        match left_in(marks, clause) {
            Left::NoneLeft => return Ok(None),
            Left::OneLeft(literal) => marks.set_true(literal)?,
            Left::MoreLeft => return Ok(Some(StepFault::NotUnit)),
        }
    }
    Ok(Some(StepFault::NotUnit))
}

/// Makes the literals of the clause false; false where one is the negation of one before it.
fn assume(marks: &mut Marks, clause: &[i32]) -> Result<bool, OutOfMemory>
    requires { marks.old ≡ [] }
    ensures { IfOk result (λ is. MatchBool is ((clashes [] clause.now ≡ false) × (marks.new ≡ clause.now)) (clashes [] clause.now ≡ true)) }
{
    for literal in clause {
        let literal = *literal;
        if marks.is_true(literal) {
            return Ok(false);
        }
        marks.set_false(literal)?;
    }
    Ok(true)
}

/// What is wrong with a step, None where its clause follows. No literal is false before it, nor behind it.
#[tactic(auto, unfolding(crate::specs::Logs::step_fault))]
pub(crate) fn step_fault(
    marks: &mut Marks,
    before: Before<'_>,
    step: &LogStep,
) -> Result<Option<StepFault>, OutOfMemory>
    requires { marks.old ≡ [] }
    ensures value { IfOk result (λ fault. fault ≡ step_fault (clauses_before before.entry) step.now) }
    ensures cleared { IfOk result (λ fault. marks.new ≡ []) }
{
    if !assume(marks, step.clause.as_slice())? {
        marks.clear();
        return Ok(Some(StepFault::NotUnit));
    }
    let fault = follow(marks, before, step.hints.as_slice())?;
    marks.clear();
    Ok(fault)
}
