//! The DIMACS CNF form of clauses.

ghost use Rattle.std.specs.Prelude.{◌≡◌, ◌++◌, OnOk, IfOk};
ghost use Rattle.rule_clauses.specs.Dimacs.{clause_line, dimacs_text, greatest_in, greatest_variable, head_line, literal_text};

use clause_check::Lits;
use nir_host::{Bytes, OutOfMemory};
use std::alloc::Global;
use text_bytes::{push, push_number};

/// The greatest variable of a clause; 0 where there is none.
fn greatest_in(clause: &[i32]) -> u32
    ensures { result ≡ greatest_in clause.now }
{
    let mut greatest = 0;
    for literal in clause {
        greatest = literal.unsigned_abs().max(greatest);
    }
    greatest
}

/// The greatest variable of clauses; 0 where there is none.
fn greatest_variable(clauses: &[Lits]) -> u32
    ensures { result ≡ greatest_variable clauses.now }
{
    let mut greatest = 0;
    for clause in clauses {
        greatest = greatest_in(clause.as_slice()).max(greatest);
    }
    greatest
}

fn push_head(out: &mut Vec<u8>, variables: u32, clauses: u64) -> Result<(), OutOfMemory>
    ensures { OnOk result (out.new.items ≡ out.old.items ++ head_line variables clauses) }
{
    push(out, b"p cnf ")?;
    push_number(out, u64::from(variables))?;
    push(out, b" ")?;
    push_number(out, clauses)?;
    push(out, b"\n")
}

fn push_literal(out: &mut Vec<u8>, literal: i32) -> Result<(), OutOfMemory>
    ensures { OnOk result (out.new.items ≡ out.old.items ++ literal_text literal) }
{
    if literal < 0 {
        push(out, b"-")?;
    }
    push_number(out, u64::from(literal.unsigned_abs()))
}

fn push_clause(out: &mut Vec<u8>, clause: &[i32]) -> Result<(), OutOfMemory>
    ensures { OnOk result (out.new.items ≡ out.old.items ++ clause_line clause.now) }
{
    for literal in clause {
        push_literal(out, *literal)?;
        push(out, b" ")?;
    }
    push(out, b"0\n")
}

/// The text of clauses. `OutOfMemory` where there is no memory for it. The time is linear in the literals.
#[tactic(auto, unfolding(crate::specs::Dimacs::dimacs_text))]
pub fn dimacs_text(alloc: Global, clauses: &[Lits]) -> Result<Bytes, OutOfMemory>
    ensures { IfOk result (λ text. text ≡ dimacs_text clauses.now) }
{
    let mut out = Vec::new(alloc);
    push_head(&mut out, greatest_variable(clauses), clauses.len() as u64)?;
    for clause in clauses {
        push_clause(&mut out, clause.as_slice())?;
    }
    Ok(Bytes::from_vec(out))
}
