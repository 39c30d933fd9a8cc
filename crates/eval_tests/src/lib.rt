//! Tests of opcodes: what the table says of each, and their values on words and on lists of components that were worked out
//! by hand. It has no code but tests, and calls what the libraries make public.
#![tactic(auto)]

#[cfg(test)]
mod evaluation;
#[cfg(test)]
mod opcodes;
#[cfg(test)]
mod values;
