//! The names that a text defines, found in one pass before it is read.

ghost use Rattle.std.specs.Prelude.{◌≡◌, ◌≤◌, ◌^◌, length, IfOk};
ghost use Rattle.nir_text.specs.Naming.{naming_of, first_unknown};
ghost use Rattle.nir_text.specs.Signs.{signs_of};
ghost use Rattle.nir_text.specs.Table.{naming};
ghost use Rattle.nir_text.specs.Within.{AreWithin};

use crate::counts::Counts;
use crate::table::NameTable;
use nir_host::OutOfMemory;
use nir_lex::Token;
use std::alloc::Global;

/// All names of a text of at most 2^32 tokens.
pub fn naming_of<'a>(
    alloc: Global,
    text: &'a [u8],
    tokens: &[Token],
) -> Result<NameTable<'a>, OutOfMemory>
    requires within { AreWithin (length text.now) tokens.now }
    requires few { length tokens.now ≤ 2 ^ 32 }
    ensures { IfOk result (λ t. naming t ≡ naming_of (signs_of text.now tokens.now)) }
{
    let mut table = NameTable::new(alloc);
    let mut rest = tokens;
    while let [token, behind @ ..] = rest {
        table.note(text, *token, behind)?;
        rest = behind;
    }
    Ok(table)
}

/// The place of the first name or block word that the text, with so many definitions, does not
/// define.
pub fn first_unknown(
    table: &NameTable,
    counts: Counts,
    text: &[u8],
    tokens: &[Token],
) -> Option<u64>
    requires { AreWithin (length text.now) tokens.now }
    ensures { result ≡ first_unknown (naming table.now) counts (signs_of text.now tokens.now) }
{
    let mut rest = tokens;
    while let [token, behind @ ..] = rest {
        if table.is_unknown(counts, text, *token, behind) {
            return Some(token.start);
        }
        rest = behind;
    }
    None
}
