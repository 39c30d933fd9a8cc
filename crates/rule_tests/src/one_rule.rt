//! The rule of a text that has one rule.

use rule_read::read_rules;
use rule_term::Rule;
use std::alloc::Global;
use std::test::Fail;

/// The rule of the text, without its evidence.
pub(crate) fn one_rule(alloc: Global, text: &str) -> Result<Rule, Fail> {
    let mut file = read_rules(alloc, text.as_bytes())?;
    let entry = file.entries.pop().ok_or("a rule")?;
    if !file.entries.is_empty() {
        return Err("more than one rule".into());
    }
    Ok(entry.rule)
}
