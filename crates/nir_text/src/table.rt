//! The table of the names that a text defines.

ghost use Rattle.std.specs.Prelude.{◌≡◌, length};
ghost use Rattle.std.specs.List.{AllByRecursion};
ghost use Rattle.std.specs.Option.{option_map_or, option_and_then};
ghost use Rattle.nir_ir.specs.Shaped.{IsCount};
ghost use Rattle.nir_text.specs.Kinds.{kind_named};
ghost use Rattle.nir_text.specs.Naming.{count_behind};
ghost use Rattle.nir_text.specs.Signs.{word_of, signs_of};
ghost use Rattle.nir_text.specs.View.{sign};
ghost use Rattle.nir_text.specs.Within.{AreWithin, AreCounts-prop};

use crate::counts::Counts;
use crate::kinds::kind_named;
use crate::names::Names;
use crate::sign::Sign;
use nir_host::{Bytes, OutOfMemory};
use nir_ir::ValueId;
use nir_lex::Token;
use std::alloc::Global;

/// The names of a text: its values, with the number of components of each, and its blocks.
#[derive(Drop)]
pub struct NameTable<'a> {
    values: Names<'a>,
    counts: Bytes,
    blocks: Names<'a>,
    ghost counted: { AllByRecursion IsCount counts } by { AreCounts-prop counts },
}

/// The number of components of the kind that stands behind `=` and an opcode; 1 where none does.
fn count_behind(text: &[u8], behind: &[Token]) -> u8
    requires { AreWithin (length text.now) behind.now }
    ensures value { result ≡ count_behind (signs_of text.now behind.now) }
    ensures counted { IsCount result }
{
    match behind {
        [_, _, third @ ..] => count_named(&Sign::first(text, third)),
        [] | [_] => 1,
    }
}

/// The number of components of the kind of a word; 1 where it is none.
fn count_named(here: &Sign) -> u8
    ensures value { result ≡ option_map_or (λ kind. kind.count) (option_and_then kind_named (word_of (sign here.now))) 1 }
    ensures counted { IsCount result }
{
    match here.word() {
        Some(word) => match kind_named(word) {
            Some(kind) => kind.count,
            None => 1,
        },
        None => 1,
    }
}

impl<'a> NameTable<'a> {
    ghost use Rattle.std.specs.Prelude.{◌≡◌, ◌<◌, ◌≤◌, ◌^◌, length, codes, IfSome, OnOk, unwrap_or};
    ghost use Rattle.nir_ir.specs.Shaped.{IsCount};
    ghost use Rattle.nir_text.specs.Instrs.{count_of};
    ghost use Rattle.nir_text.specs.Naming.{no_names, place_of, with_value, value_noted, block_noted, noted, is_unknown_name, is_unknown_block, is_unknown};
    ghost use Rattle.nir_text.specs.Signs.{word_of, name_of, is_word, sign_of, signs_of};
    ghost use Rattle.nir_text.specs.Table.{naming};
    ghost use Rattle.nir_text.specs.View.{sign};
    ghost use Rattle.nir_text.specs.Within.{IsWithin, AreWithin};

    /// No names. This takes no memory.
    pub fn new(alloc: Global) -> NameTable<'a>
        ensures { naming result ≡ no_names }
    {
        NameTable {
            values: Names::new(alloc),
            counts: Bytes::new(alloc),
            blocks: Names::new(alloc),
        }
    }

    /// The place of a value's name among those of the values.
    pub fn value_place(&self, name: &[u8]) -> Option<u32>
        ensures value { result ≡ place_of name.now (naming self.now).values }
        ensures within { IfSome result (λ place. place < length (naming self.now).values) }
    {
        self.values.place(name)
    }

    /// The place of a block's word among those of the blocks.
    pub fn block_place(&self, word: &[u8]) -> Option<u32>
        ensures value { result ≡ place_of word.now (naming self.now).blocks }
        ensures within { IfSome result (λ place. place < length (naming self.now).blocks) }
    {
        self.blocks.place(word)
    }

    /// The number of a value's name: its place, and 0 where it has none.
    pub fn value_number(&self, name: &[u8]) -> u32
        ensures { result ≡ unwrap_or (place_of name.now (naming self.now).values) 0 }
    {
        self.values.place(name).unwrap_or(0)
    }

    /// The number of a block's word, as of a value's name.
    pub fn block_number(&self, word: &[u8]) -> u32
        ensures { result ≡ unwrap_or (place_of word.now (naming self.now).blocks) 0 }
    {
        self.blocks.place(word).unwrap_or(0)
    }

    /// The number of components of a value, as its definition says; 1 for a value that there is not.
    pub fn count_of(&self, value: ValueId) -> u8
        ensures count { result ≡ count_of (naming self.now) value }
        ensures few { result ≤ 4 }
    {
        match self.counts.get(value.0 as usize) {
            Some(count) => *count,
            None => 1,
        }
    }

    /// Takes in what a token defines before those behind it.
    pub fn note(
        &mut self,
        text: &'a [u8],
        token: Token,
        behind: &[Token],
    ) -> Result<(), OutOfMemory>
        requires within { IsWithin (length text.now) token }
        requires behind { AreWithin (length text.now) behind.now }
        requires values { length (naming self.old).values < 2 ^ 32 }
        requires blocks { length (naming self.old).blocks < 2 ^ 32 }
        ensures { OnOk result (naming self.new ≡ noted (sign_of text.now token) (signs_of text.now behind.now) (naming self.old)) }
    {
        let here = Sign::of(text, token);
        self.note_value(&here, text, behind)?;
        self.note_block(&here, Sign::first(text, behind))?;
        Ok(())
    }

    /// Takes in the value that a name defines before a `=`.
    fn note_value(
        &mut self,
        here: &Sign<'a>,
        text: &[u8],
        behind: &[Token],
    ) -> Result<(), OutOfMemory>
        requires within { AreWithin (length text.now) behind.now }
        requires few { length (naming self.old).values < 2 ^ 32 }
        ensures { OnOk result (naming self.new ≡ value_noted (name_of (sign here.now)) (signs_of text.now behind.now) (naming self.old)) }
    {
        match here.name() {
            Some(name) => {
                if !Sign::first(text, behind).is_mark(b'=') {
                    return Ok(());
                }
                self.add_value(name, count_behind(text, behind))?;
                Ok(())
            }
            None => Ok(()),
        }
    }

    /// Takes in the block that the word `block` defines before a word.
    fn note_block(&mut self, here: &Sign, next: Sign<'a>) -> Result<(), OutOfMemory>
        requires { length (naming self.old).blocks < 2 ^ 32 }
        ensures { OnOk result (naming self.new ≡ block_noted (is_word (codes "block") (sign here.now)) (word_of (sign next.entry)) (naming self.old)) }
    {
        if !here.is_word(b"block") {
            return Ok(());
        }
        match next.word() {
            Some(word) => {
                self.blocks.note(word)?;
                Ok(())
            }
            None => Ok(()),
        }
    }

    /// Puts a value's name last, if it is not there. After `OutOfMemory` the table is of no use.
    fn add_value(&mut self, name: &'a [u8], count: u8) -> Result<(), OutOfMemory>
        requires few { length (naming self.old).values < 2 ^ 32 }
        requires counted { IsCount count }
        ensures { OnOk result (naming self.new ≡ with_value name.now count (naming self.old)) }
    {
        if self.values.note(name)? {
            self.counts.push(count)?;
        }
        Ok(())
    }

    /// Whether a token is a name, or a block's word before a `:`, that the text does not define.
    pub fn is_unknown(&self, counts: Counts, text: &[u8], token: Token, behind: &[Token]) -> bool
        requires within { IsWithin (length text.now) token }
        requires behind { AreWithin (length text.now) behind.now }
        ensures { result ≡ is_unknown (naming self.now) counts (sign_of text.now token) (signs_of text.now behind.now) }
    {
        let here = Sign::of(text, token);
        if self.is_unknown_name(counts, &here) {
            return true;
        }
        if !Sign::first(text, behind).is_mark(b':') {
            return false;
        }
        self.is_unknown_block(counts, &here)
    }

    fn is_unknown_name(&self, counts: Counts, here: &Sign) -> bool
        ensures { result ≡ is_unknown_name (naming self.now) counts (name_of (sign here.now)) }
    {
        match here.name() {
            Some(name) => match self.value_place(name) {
                Some(place) => !(place < counts.values),
                None => true,
            },
            None => false,
        }
    }

    fn is_unknown_block(&self, counts: Counts, here: &Sign) -> bool
        ensures { result ≡ is_unknown_block (naming self.now) counts (word_of (sign here.now)) }
    {
        match here.word() {
            Some(word) => match self.block_place(word) {
                Some(place) => !(place < counts.blocks),
                None => true,
            },
            None => false,
        }
    }
}
