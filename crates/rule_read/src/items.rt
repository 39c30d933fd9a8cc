//! The items of rule files, each of which is added to what was read before it.

ghost use Rattle.std.specs.Prelude.{◌≡◌};
ghost use Rattle.grammar.specs.Terminals.{starts};
ghost use Rattle.rule_spelling.specs.RuleFiles.{evidence, item, rule, weight};
ghost use Rattle.term_read.specs.Gives.{Gives};
ghost use Rattle.term_read.specs.Views.{source, terminals};
ghost use Rattle.rule_read.specs.Growing.{grown_says, no_file};
ghost use Rattle.rule_read.specs.Items.{adds_item, adds_items, adds_sought, all_items, item_firsts, other_items, sought_item};

use crate::evidence::evidence;
use crate::grown::Grown;
use crate::rule::rule;
use crate::weight::weight;
use std::alloc::Global;
use term_read::{Point, Reader, RuleFault};

/// The items of a file, or none.
pub fn items<'a>(alloc: Global, reader: &mut Reader<'a>) -> Result<Grown, RuleFault>
    ensures { Gives (λ x. (grown_says x, source reader.new)) result (adds_items no_file all_items (source reader.old)) }
{
    let mut grown = Grown::new(alloc);
    if !begins_item(&reader.point) {
        return Ok(grown);
    }
    item_into(alloc, &mut grown, reader)?;
    others_into(alloc, &mut grown, reader)?;
    Ok(grown)
}

/// Items, each behind a comma, and maybe a comma behind them.
fn others_into<'a>(
    alloc: Global,
    grown: &mut Grown,
    reader: &mut Reader<'a>,
) -> Result<(), RuleFault>
    ensures { Gives (λ _. (grown_says grown.new, source reader.new)) result (adds_items (grown_says grown.old) other_items (source reader.old)) }
{
    'items: while reader.point.is_mark(b',') {
        if !next_item(alloc, grown, reader)? {
            return Ok(());
        }
    }
    Ok(())
}

/// An item behind its comma. The answer is false where none stands behind the last comma.
fn next_item<'a>(
    alloc: Global,
    grown: &mut Grown,
    reader: &mut Reader<'a>,
) -> Result<bool, RuleFault>
    ensures { Gives (λ more. ((more, grown_says grown.new), source reader.new)) result (adds_sought (grown_says grown.old) sought_item (source reader.old)) }
{
    reader.mark(b',')?;
    if !begins_item(&reader.point) {
        return Ok(false);
    }
    item_into(alloc, grown, reader)?;
    Ok(true)
}

/// Whether an item begins here.
fn begins_item(at: &Point<'_>) -> bool
    ensures { result ≡ starts item_firsts (terminals at.now) }
{
    if at.is_word(b"weight") {
        return true;
    }
    if at.is_mark(b'(') {
        return true;
    }
    at.is_word(b"by")
}

/// An item: a weight, a rule, or a line of evidence.
fn item_into<'a>(alloc: Global, grown: &mut Grown, reader: &mut Reader<'a>) -> Result<(), RuleFault>
    ensures { Gives (λ _. (grown_says grown.new, source reader.new)) result (adds_item (grown_says grown.old) item (source reader.old)) }
{
    if reader.point.is_word(b"weight") {
        return weight_into(grown, reader);
    }
    if reader.point.is_mark(b'(') {
        return rule_into(alloc, grown, reader);
    }
    line_into(alloc, grown, reader)
}

/// A weight.
fn weight_into<'a>(grown: &mut Grown, reader: &mut Reader<'a>) -> Result<(), RuleFault>
    ensures { Gives (λ _. (grown_says grown.new, source reader.new)) result (adds_item (grown_says grown.old) weight (source reader.old)) }
{
    let line = weight(reader)?;
    grown.add_weight(line)?;
    Ok(())
}

/// A rule.
fn rule_into<'a>(alloc: Global, grown: &mut Grown, reader: &mut Reader<'a>) -> Result<(), RuleFault>
    ensures { Gives (λ _. (grown_says grown.new, source reader.new)) result (adds_item (grown_says grown.old) rule (source reader.old)) }
{
    let rule = rule(alloc, reader)?;
    grown.add_rule(alloc, rule)?;
    Ok(())
}

/// A line of evidence.
fn line_into<'a>(alloc: Global, grown: &mut Grown, reader: &mut Reader<'a>) -> Result<(), RuleFault>
    ensures { Gives (λ _. (grown_says grown.new, source reader.new)) result (adds_item (grown_says grown.old) evidence (source reader.old)) }
{
    let line = evidence(alloc, reader)?;
    grown.add_line(line)?;
    Ok(())
}
