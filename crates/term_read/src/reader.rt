//! A reader of rule files: where it stands, and what it knows of what it read. Its smallest steps.

ghost use Rattle.std.specs.Prelude.{◌≡◌, ℕ, ◌∷◌, codes};
ghost use Rattle.nir_lex.specs.From.{fault_of};
ghost use Rattle.nir_lex.specs.Reading.{read_tokens};
ghost use Rattle.grammar.specs.Words.{mark, word};
ghost use Rattle.grammar.specs.Grammar.{terminal};
ghost use Rattle.grammar.specs.Terminals.{TheMark};
ghost use Rattle.rule_spelling.specs.RuleFiles.{rule_files, maybe_comma};
ghost use Rattle.rule_spelling.specs.Tokens.{side_begun};
ghost use Rattle.term_read.specs.Gives.{Gives};
ghost use Rattle.term_read.specs.Source.{reads};
ghost use Rattle.term_read.specs.Views.{source};

use crate::fault::RuleFault;
use crate::point::Point;
use crate::state::State;

#[derive(Drop)]
pub struct Reader<'a> {
    pub point: Point<'a>,
    pub state: State<'a>,
}

impl<'a> Reader<'a> {
    /// Goes behind this mark of punctuation.
    pub fn mark(&mut self, byte: u8) -> Result<(), RuleFault>
        ensures { Gives (λ x. (x, source self.new)) result (reads (mark rule_files byte) (source self.old)) }
    {
        if !self.point.is_mark(byte) {
            return Err(self.point.expected());
        }
        self.point = self.point.next();
        Ok(())
    }

    /// Goes behind this word.
    pub fn word(&mut self, text: &[u8]) -> Result<(), RuleFault>
        ensures { Gives (λ x. (x, source self.new)) result (reads (word rule_files text.now) (source self.old)) }
    {
        if !self.point.is_word(text) {
            return Err(self.point.expected());
        }
        self.point = self.point.next();
        Ok(())
    }

    /// Goes behind this mark, with which a side or an expression of evidence begins.
    #[tactic(auto, unfolding(rule_spelling::specs::Tokens::side_begun))]
    pub fn side(&mut self, byte: u8) -> Result<(), RuleFault>
        ensures { Gives (λ x. (x, source self.new)) result (reads (terminal (TheMark byte) side_begun) (source self.old)) }
    {
        if !self.point.is_mark(byte) {
            return Err(self.point.expected());
        }
        self.state.begin_side();
        self.point = self.point.next();
        Ok(())
    }

    /// Goes behind a comma, where one stands here.
    pub fn maybe_comma(&mut self) -> Result<(), RuleFault>
        ensures { Gives (λ x. (x, source self.new)) result (reads maybe_comma (source self.old)) }
    {
        if self.point.is_mark(b',') {
            self.mark(b',')?;
        }
        Ok(())
    }
}
