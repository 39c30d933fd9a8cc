//! Laws of the sizes of a rule's nodes: all typings of a rule are a product over classes of its nodes. Each function does
//! nothing: its contract is the law.
#![tactic(auto)]

ghost use Rattle.size_laws.specs.TypingsLaws.{TypingsAreProducts};

/// The typings of a rule are the lists that are built node by node: the first node of a class takes each size that
/// all nodes of the class may have, and the others take the size of the first.
pub fn typings_are_products()
    ensures { TypingsAreProducts }
{}
