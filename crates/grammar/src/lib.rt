//! Grammars as data: what a grammar spells, how its texts are read, and the laws of both, once for all grammars. There is no
//! code here: the crates of each text's grammar cite `specs/Laws.antt`, as the worked example below does.
#![tactic(auto)]

ghost use Rattle.grammar.specs.Worked.{FaultIsFirst, ListsAreRead, ReadAreLists};

/// A worked example: the laws of lists of numbers in brackets, one in the other to any depth, with three numbers at most.
pub fn nested_lists_are_read()
    // What a text spells is read of it.
    ensures read { ListsAreRead }
    // What is read of a text is spelled by it.
    ensures spelled { ReadAreLists }
    // Reading stops at the first terminal with which no text goes on.
    ensures first { FaultIsFirst }
{}
