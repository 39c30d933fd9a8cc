//! Whole rule files.

ghost use Rattle.rule_spelling.specs.RuleFiles.{file};
ghost use Rattle.term_read.specs.Gives.{Gives};
ghost use Rattle.term_read.specs.Views.{source};
ghost use Rattle.rule_read.specs.FileText.{rules_of_text};
ghost use Rattle.rule_read.specs.Growing.{grown_says, no_file};
ghost use Rattle.rule_read.specs.Items.{adds_items, read_up};
ghost use Rattle.rule_read.specs.Says.{file_says};

use crate::grown::Grown;
use crate::items::items;
use crate::rule_file::RuleFile;
use nir_lex::first_fault;
use std::alloc::Global;
use term_read::{Point, Reader, RuleFault, State};

/// The rule file of a text.
/// # Errors
/// The first fault of the text, at its place: `Lex` where it has no tokens, before all others; else at the token up to and with which no
/// text is in the grammar of rule files or within its limits (`specs/FileText.antt`). `OutOfMemory` may come at any time.
pub fn read_rules(alloc: Global, text: &[u8]) -> Result<RuleFile, RuleFault>
    ensures { Gives file_says result (rules_of_text text.now) }
{
    if let Some(fault) = first_fault(text) {
        return Err(RuleFault::Lex(fault));
    }
    let mut reader = Reader {
        point: Point::first(text),
        state: State::new(alloc),
    };
    let grown = whole(alloc, &mut reader)?;
    let Grown { entries, weights } = grown;
    Ok(RuleFile { entries, weights })
}

/// A whole file: items between brackets, and then the end of the text.
fn whole<'a>(alloc: Global, reader: &mut Reader<'a>) -> Result<Grown, RuleFault>
    ensures { Gives (λ x. (grown_says x, read_up reader.new)) result (adds_items no_file file (source reader.old)) }
{
    reader.mark(b'[')?;
    let grown = items(alloc, reader)?;
    reader.mark(b']')?;
    if !reader.point.is_end() {
        return Err(reader.point.expected());
    }
    Ok(grown)
}
