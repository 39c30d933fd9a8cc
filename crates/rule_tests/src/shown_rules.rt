//! Rules with their evidence in a form of their own, by which tests tell them apart.

use crate::shown_evidence::show_line;
use nir_host::Bytes;
use nir_ops::Width;
use rule_read::{Entry, RuleFile, WeightLine};
use rule_term::{Cond, Term, When};
use std::alloc::{AllocError, Global};
use std::fmt::Write;

/// The rules with their evidence and the weights, in a form of their own.
pub(crate) fn show_file(alloc: Global, file: &RuleFile) -> Result<String, AllocError> {
    let mut out = String::new(alloc);
    for entry in file.entries.as_slice() {
        show_entry(&mut out, entry)?;
    }
    show_weights(&mut out, file.weights.as_slice())?;
    Ok(out)
}

fn show_weights(out: &mut String, weights: &[WeightLine]) -> Result<(), AllocError> {
    out.push_str("weights:")?;
    for line in weights {
        write!(out, " {:?} {}", line.op, line.weight)?;
    }
    Ok(())
}

fn show_entry(out: &mut String, entry: &Entry) -> Result<(), AllocError> {
    write!(out, "{} of {}:", entry.rule.number, entry.rule.vars)?;
    show_term(out, &entry.rule.search)?;
    out.push_str(" ->")?;
    show_term(out, &entry.rule.replace)?;
    show_options(out, &entry.rule.when)?;
    for line in entry.lines.as_slice() {
        show_line(out, line)?;
    }
    out.push(' ')
}

fn show_options(out: &mut String, when: &When) -> Result<(), AllocError> {
    match when {
        When::Always => out.push_str(" always;"),
        When::Has { .. } | When::Not { .. } | When::Both { .. } | When::Either { .. } => {
            out.push_str(" where")?;
            show_when(out, when)?;
            out.push(';')
        }
    }
}

/// A formula over options, each operator before what it joins.
pub(crate) fn show_when(out: &mut String, when: &When) -> Result<(), AllocError> {
    match when {
        When::Always => out.push_str(" always"),
        When::Has { name } => {
            out.push(' ')?;
            show_name(out, name)
        }
        When::Not { inner } => {
            out.push_str(" not")?;
            show_when(out, inner)
        }
        When::Both { left, right } => {
            out.push_str(" both (")?;
            show_when(out, left)?;
            show_when(out, right)?;
            out.push_str(" )")
        }
        When::Either { left, right } => {
            out.push_str(" either (")?;
            show_when(out, left)?;
            show_when(out, right)?;
            out.push_str(" )")
        }
    }
}

/// The letters of a name.
pub(crate) fn show_name(out: &mut String, name: &Bytes) -> Result<(), AllocError> {
    for byte in name.as_slice() {
        out.push(char::from(*byte))?;
    }
    Ok(())
}

#[cycle(show)]
pub(crate) fn show_term(out: &mut String, term: &Term) -> Result<(), AllocError> {
    match term {
        Term::Var {
            var,
            constant,
            size,
            cond,
        } => {
            write!(out, " v{var}")?;
            if *constant {
                out.push('#')?;
            }
            show_size(out, *size)?;
            show_cond(out, *cond)
        }
        Term::Lit { value, boolean } => {
            let kind = if *boolean { "bool" } else { "" };
            write!(out, " {kind}{value}")
        }
        Term::App {
            op,
            size,
            once,
            args,
        } => {
            write!(out, " {op:?}")?;
            show_size(out, *size)?;
            if *once {
                out.push_str(" once")?;
            }
            show_terms(out, args.as_slice())
        }
    }
}

#[cycle(show)]
fn show_terms(out: &mut String, terms: &[Term]) -> Result<(), AllocError> {
    out.push_str(" (")?;
    for term in terms {
        show_term(out, term)?;
    }
    out.push_str(" )")
}

fn show_size(out: &mut String, size: Option<Width>) -> Result<(), AllocError> {
    match size {
        Some(width) => write!(out, "@{width:?}"),
        None => Ok(()),
    }
}

fn show_cond(out: &mut String, cond: Option<Cond>) -> Result<(), AllocError> {
    match cond {
        Some(cond) => write!(out, " {cond:?}"),
        None => Ok(()),
    }
}
