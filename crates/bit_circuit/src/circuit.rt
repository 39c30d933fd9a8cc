//! A circuit in the making: its clauses, and the variables that it has.

ghost use Rattle.std.specs.Prelude.{◌≡◌, [], ◌∷◌, suc, IfOk, OnOk};
ghost use Rattle.circuit_laws.specs.Literals.{Is, numbers_of};
ghost use Rattle.circuit_laws.specs.Gates.{And, Xor, Mux};

use crate::literal::Literal;
use clause_check::{Clauses, Lits};
use nir_host::{OutOfMemory, Seq};
use std::alloc::Global;

/// The numbers of variables are below this, so that each literal has its number in a clause.
const MOST: u32 = 2_147_483_647;

/// Clauses, and the variable that the next gate makes.
#[derive(Debug, Drop)]
pub(crate) struct Circuit {
    pub(crate) alloc: Global,
    clauses: Clauses,
    next: u32,
}

impl Circuit {
    ghost use Rattle.bit_circuit.specs.Growth.{asked, with_gate, with_variable};

    /// No clauses. Variable 0 is there.
    pub(crate) fn new(alloc: Global) -> Circuit
        ensures clauses { result.clauses ≡ [] }
        ensures next { result.next ≡ 1 }
    {
        Circuit {
            alloc,
            clauses: Seq::new(alloc),
            next: 1,
        }
    }

    /// Its clauses.
    pub(crate) fn into_clauses(self) -> Clauses
        ensures { result ≡ self.clauses }
    {
        self.clauses
    }

    #[tactic(auto, unfolding(crate::specs::Growth::with_variable))]
    /// One more variable. More than 2^31 are told as want of memory: a rule has few nodes, of at most some 20,000 gates.
    pub(crate) fn variable(&mut self) -> Result<Literal, OutOfMemory>
        ensures made { IfOk result (λ made. made ≡ Is self.old.next) }
        ensures grown { OnOk result (self.new ≡ with_variable self.old) }
    {
        if self.next >= MOST {
            return Err(OutOfMemory);
        }
        let made = Literal::of(self.next);
        self.next += 1;
        Ok(made)
    }

    #[tactic(auto, unfolding(crate::specs::Growth::asked))]
    /// One more clause: one of the literals is true.
    pub(crate) fn ask(&mut self, literals: &[Literal]) -> Result<(), OutOfMemory>
        ensures { OnOk result (self.new ≡ asked self.old literals.now) }
    {
        let clause = clause_of(self.alloc, literals)?;
        self.clauses.push(clause)
    }

    /// A gate that is true where both literals are.
    pub(crate) fn and(&mut self, p: Literal, q: Literal) -> Result<Literal, OutOfMemory>
        ensures made { IfOk result (λ made. made ≡ Is self.old.next) }
        ensures grown { OnOk result (self.new ≡ with_gate self.old (And p q)) }
    {
        let made = self.variable()?;
        self.ask(&[made.negated(), p])?;
        self.ask(&[made.negated(), q])?;
        self.ask(&[made, p.negated(), q.negated()])?;
        Ok(made)
    }

    /// A gate that is true where one of the literals is true and the other is false.
    pub(crate) fn xor(&mut self, p: Literal, q: Literal) -> Result<Literal, OutOfMemory>
        ensures made { IfOk result (λ made. made ≡ Is self.old.next) }
        ensures grown { OnOk result (self.new ≡ with_gate self.old (Xor p q)) }
    {
        let made = self.variable()?;
        self.ask(&[made.negated(), p, q])?;
        self.ask(&[made.negated(), p.negated(), q.negated()])?;
        self.ask(&[made, p.negated(), q])?;
        self.ask(&[made, p, q.negated()])?;
        Ok(made)
    }

    /// A gate that is `p` where the selector is true, and else `q`.
    pub(crate) fn mux(
        &mut self,
        selector: Literal,
        p: Literal,
        q: Literal,
    ) -> Result<Literal, OutOfMemory>
        ensures made { IfOk result (λ made. made ≡ Is self.old.next) }
        ensures grown { OnOk result (self.new ≡ with_gate self.old (Mux selector p q)) }
    {
        let made = self.variable()?;
        self.ask(&[selector.negated(), p.negated(), made])?;
        self.ask(&[selector.negated(), p, made.negated()])?;
        self.ask(&[selector, q.negated(), made])?;
        self.ask(&[selector, q, made.negated()])?;
        Ok(made)
    }
}

/// The clause of these literals.
fn clause_of(alloc: Global, literals: &[Literal]) -> Result<Lits, OutOfMemory>
    ensures { IfOk result (λ clause. clause ≡ numbers_of literals.now) }
{
    let mut clause = Lits::new(alloc);
    for literal in literals {
        clause.push(literal.number())?;
    }
    Ok(clause)
}
