//! Lines of evidence in a form of their own, by which tests tell them apart.

use crate::shown_rules::{show_name, show_term};
use clause_check::LogStep;
use rule_read::{Binding, DeriveStep, Line, Proof};
use std::alloc::AllocError;
use std::fmt::Write;

/// A line of evidence: for which typings, and what is said.
pub(crate) fn show_line(out: &mut String, line: &Line) -> Result<(), AllocError> {
    match line.typing {
        Some(typing) => write!(out, " by {typing}")?,
        None => out.push_str(" by all")?,
    }
    match &line.proof {
        Proof::Cases => out.push_str(" cases")?,
        Proof::Derive(steps) => show_derivation(out, steps.as_slice())?,
        Proof::Logged(steps) => show_log(out, steps.as_slice())?,
    }
    out.push(';')
}

fn show_derivation(out: &mut String, steps: &[DeriveStep]) -> Result<(), AllocError> {
    out.push_str(" derive")?;
    for step in steps {
        show_step(out, step)?;
    }
    Ok(())
}

fn show_step(out: &mut String, step: &DeriveStep) -> Result<(), AllocError> {
    match step {
        DeriveStep::Apply {
            law,
            path,
            rev,
            bindings,
        } => {
            write!(out, " law {law}")?;
            show_numbers(out, path.as_slice())?;
            if *rev {
                out.push_str(" rev")?;
            }
            show_bindings(out, bindings.as_slice())
        }
        DeriveStep::Calc { path, with } => {
            out.push_str(" calc")?;
            show_numbers(out, path.as_slice())?;
            show_term(out, with)
        }
    }
}

fn show_bindings(out: &mut String, bindings: &[Binding]) -> Result<(), AllocError> {
    for binding in bindings {
        out.push(' ')?;
        show_name(out, &binding.name)?;
        out.push_str(" =")?;
        show_term(out, &binding.with)?;
    }
    Ok(())
}

fn show_log(out: &mut String, steps: &[LogStep]) -> Result<(), AllocError> {
    out.push_str(" log")?;
    for step in steps {
        show_literals(out, step.clause.as_slice())?;
        show_numbers(out, step.hints.as_slice())?;
    }
    Ok(())
}

fn show_literals(out: &mut String, literals: &[i32]) -> Result<(), AllocError> {
    out.push_str(" [")?;
    for literal in literals {
        write!(out, " {literal}")?;
    }
    out.push_str(" ]")
}

fn show_numbers(out: &mut String, numbers: &[u32]) -> Result<(), AllocError> {
    out.push_str(" [")?;
    for number in numbers {
        write!(out, " {number}")?;
    }
    out.push_str(" ]")
}
