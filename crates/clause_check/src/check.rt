//! Checking a log.

ghost use Rattle.std.specs.Prelude.{◌≡◌, IfOk};
ghost use Rattle.clause_check.specs.Logs.{IsUnsatisfiable, TellsFault, fault_at, has_empty, log_fault};

use crate::clause::{Clauses, Log, LogStep};
use crate::fault::LogFault;
use crate::marks::Marks;
use crate::step::{Before, StepFault, step_fault};
use std::alloc::Global;

/// How many steps a log may have.
const MOST: usize = 4_194_304;

/// That the log shows that no assignment makes all clauses true. The clauses are numbered from 1 on, and behind them those of the steps. At each step
/// the literals of its clause are assumed false, and its hints are taken in order: a clause of which one literal is left makes it true, and one
/// of which none is left ends the step well. One step has the empty clause.
///
/// The time is linear in the literals of the clauses that the hints name. It takes memory in proportion to the greatest variable that a step makes
/// true or false.
/// # Errors
/// `TooLong` where there are more than 4,194,304 steps. Else the first step that fails: `BadHint` where a hint is taken that is the number of no clause
/// before the step, `NotUnit` where the clause of the step has a literal and its negation, or several literals are left of a clause of a
/// hint, or the hints run out. `NoEmpty` where all steps end well and none has the empty clause. `OutOfMemory` may come at any time.
#[tactic(auto, unfolding(crate::specs::Logs::log_fault))]
pub fn check_log(alloc: Global, clauses: &Clauses, log: &Log) -> Result<(), LogFault>
    ensures value { TellsFault (log_fault clauses.now log.now) result }
    ensures shown { IfOk result (λ _. IsUnsatisfiable clauses.now) }
{
    let steps = log.as_slice();
    if steps.len() > MOST {
        return Err(LogFault::TooLong);
    }
    let mut marks = Marks::new(alloc);
    for (at, step) in steps.iter().enumerate() {
        let before = Before {
            clauses,
            steps: &steps[..at],
        };
        if let Some(fault) = step_fault(&mut marks, before, step)? {
            return Err(told(at as u64, fault));
        }
    }
    if !has_empty(steps) {
        return Err(LogFault::NoEmpty);
    }
    Ok(())
}

/// The fault of the step of the number.
fn told(number: u64, fault: StepFault) -> LogFault
    ensures { result ≡ fault_at number fault }
{
    match fault {
        StepFault::BadHint => LogFault::BadHint(number),
        StepFault::NotUnit => LogFault::NotUnit(number),
    }
}

/// Whether a step has the empty clause.
fn has_empty(steps: &[LogStep]) -> bool
    ensures { result ≡ has_empty steps.now }
{
    for step in steps {
        if step.clause.len() == 0 {
            return true;
        }
    }
    false
}
