//! Literals: a variable, or its negation.

ghost use Rattle.std.specs.Prelude.{◌≡◌, ◌≢◌, ◌<◌, pos, if◌then◌else◌};
ghost use Rattle.circuit_laws.specs.Literals.{Is, yes, no, negated, number_of};

use std::marker::Model;

/// A variable, or its negation. The number of a variable is below 2^31 - 1, so that each literal has its number in a clause.
#[derive(Clone, Copy, Debug)]
pub(crate) struct Literal {
    var: u32,
    negated: bool,
}

impl Model for Literal {
    ghost use Rattle.std.specs.Prelude.{◌<◌};
    ghost use Rattle.circuit_laws.specs.Literals.{Lit};

    ghost Value = { Lit };

    ghost use Rattle.bit_circuit.specs.Stored.{lit_of, var_of, is_negation, stored_ok};

    ghost view = { λ l. lit_of l.negated l.var };

    ghost invariant = { λ l. l.var < 2147483647 };

    ghost inverse = { λ l. record { var = var_of l; negated = is_negation l } };

    ghost inverse_ok = { λ l h. stored_ok l };
}

impl Literal {
    /// The literal that is true everywhere.
    pub(crate) fn yes() -> Literal
        ensures { result ≡ yes }
    {
        Literal {
            var: 0,
            negated: false,
        }
    }

    /// The literal that is false everywhere.
    pub(crate) fn no() -> Literal
        ensures { result ≡ no }
    {
        Literal {
            var: 0,
            negated: true,
        }
    }

    /// The variable of the number.
    pub(crate) fn of(var: u32) -> Literal
        requires { var < 2147483647 }
        ensures { result ≡ Is var }
    {
        Literal {
            var,
            negated: false,
        }
    }

    /// The literal that is as true as the bit.
    pub(crate) fn of_bit(bit: bool) -> Literal
        ensures { result ≡ (if bit then yes else no) }
    {
        if bit { Literal::yes() } else { Literal::no() }
    }

    /// The negation.
    pub(crate) fn negated(self) -> Literal
        ensures { result ≡ negated self }
    {
        Literal {
            var: self.var,
            negated: !self.negated,
        }
    }

    /// The number of the literal in a clause.
    pub(crate) fn number(self) -> i32
        ensures value { result ≡ number_of self }
        ensures some { result ≢ pos 0 }
    {
        if self.negated {
            -(self.var as i32) - 1
        } else {
            self.var as i32 + 1
        }
    }
}
