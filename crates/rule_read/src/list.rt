//! Lists of evidence: items with commas between them.

ghost use Rattle.std.specs.Prelude.{◌≡◌, List, []};
ghost use Rattle.grammar.specs.Grammar.{Grammar};
ghost use Rattle.grammar.specs.Lookahead.{one};
ghost use Rattle.grammar.specs.Terminals.{Class, has};
ghost use Rattle.rule_spelling.specs.RuleFiles.{rule_files, in_brackets};
ghost use Rattle.rule_read.specs.Lists.{another, another_behind, inside, with_others};
ghost use Rattle.term_read.specs.Gives.{Gives};
ghost use Rattle.term_read.specs.Source.{reads};
ghost use Rattle.term_read.specs.Views.{here, source};

use std::alloc::Global;
use term_read::{Point, Reader, RuleFault};

/// A list that is read item by item, by a grammar of its items whose texts begin with a terminal of one class.
pub trait Listed: Drop {
    // What an item says, the class of its first terminal, and its grammar; and what a list says.
    ghost Item: { Type 0 };

    ghost class: { Class };

    ghost grammar: { Grammar rule_files (one class) Item };

    ghost says: { Self → List Item };

    /// No items. This takes no memory.
    fn none(alloc: Global) -> Self
        ensures { says result ≡ [] };

    /// Whether an item begins here.
    fn begins(at: &Point<'_>) -> bool
        ensures { result ≡ has class (here at.now) };

    /// Reads one more item.
    fn read_another<'a>(&mut self, alloc: Global, reader: &mut Reader<'a>) -> Result<(), RuleFault>
        ensures { Gives (λ _. (says self.new, source reader.new)) result (another grammar (says self.old) (source reader.old)) };
}

/// A list in brackets.
pub fn in_brackets<'a, L: Listed>(alloc: Global, reader: &mut Reader<'a>) -> Result<L, RuleFault>
    ensures { Gives (λ x. (L.says x, source reader.new)) result (reads (in_brackets L.grammar) (source reader.old)) }
{
    reader.mark(b'[')?;
    let list = inside(alloc, reader)?;
    reader.mark(b']')?;
    Ok(list)
}

/// What stands between the brackets.
fn inside<'a, L: Listed>(alloc: Global, reader: &mut Reader<'a>) -> Result<L, RuleFault>
    ensures { Gives (λ x. (L.says x, source reader.new)) result (inside L.grammar (source reader.old)) }
{
    let mut list = L::none(alloc);
    if !L::begins(&reader.point) {
        return Ok(list);
    }
    list.read_another(alloc, reader)?;
    with_others(alloc, &mut list, reader)?;
    Ok(list)
}

/// The items behind those of the list, each behind a comma.
pub fn with_others<'a, L: Listed>(
    alloc: Global,
    list: &mut L,
    reader: &mut Reader<'a>,
) -> Result<(), RuleFault>
    ensures { Gives (λ _. (L.says list.new, source reader.new)) result (with_others L.grammar (L.says list.old) (source reader.old)) }
{
    'others: while reader.point.is_mark(b',') {
        another_behind(alloc, list, reader)?;
    }
    Ok(())
}

/// An item behind its comma.
fn another_behind<'a, L: Listed>(
    alloc: Global,
    list: &mut L,
    reader: &mut Reader<'a>,
) -> Result<(), RuleFault>
    ensures { Gives (λ _. (L.says list.new, source reader.new)) result (another_behind L.grammar (L.says list.old) (source reader.old)) }
{
    reader.mark(b',')?;
    list.read_another(alloc, reader)?;
    Ok(())
}
