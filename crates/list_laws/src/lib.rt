//! Laws of lists, options and truth values that several crates need and the standard library lacks: lemmas under
//! `specs/`, no code. A lemma that only one crate needs stands there.
#![tactic(auto)]
