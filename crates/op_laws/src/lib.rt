//! Laws of the opcodes: equations between what they make of the words of their sources, each once for all numbers of bits at which it
//! holds. There is no code here: `law_derive` cites the lemmas under `specs/`.
#![tactic(auto)]
