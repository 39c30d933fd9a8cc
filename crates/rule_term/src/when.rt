//! The options under which a rule is used.

ghost use Rattle.std.specs.Prelude.{◌≡◌};
ghost use Rattle.rule_term.specs.Options.{is_set, when_holds};

use nir_host::{Bytes, Seq};
use std::boxed::Box;

/// Names of options.
pub type Names = Seq<Bytes>;

/// The options that are set.
#[derive(Debug, Drop)]
pub struct Options {
    pub names: Names,
}

impl Options {
    /// Whether the option is set.
    pub fn has(&self, name: &[u8]) -> bool
        ensures { result ≡ is_set self.now name.now }
    {
        for set in self.names.as_slice() {
            if set.as_slice() == name {
                return true;
            }
        }
        false
    }
}

/// A formula over options. `Has` holds where the option is set.
#[derive(Debug, Drop)]
pub enum When {
    Always,
    Has { name: Bytes },
    Not { inner: Box<When> },
    Both { left: Box<When>, right: Box<When> },
    Either { left: Box<When>, right: Box<When> },
}

impl When {
    /// Whether the formula holds where these options are set.
    #[tactic(auto, unfolding(crate::specs::Options::when_holds))]
    pub fn holds(&self, options: &Options) -> bool
        ensures { result ≡ when_holds options.now self.now }
    {
        match self {
            When::Always => true,
            When::Has { name } => options.has(name.as_slice()),
            When::Not { inner } => !inner.holds(options),
            When::Both { left, right } => {
                if !left.holds(options) {
                    return false;
                }
                right.holds(options)
            }
            When::Either { left, right } => {
                if left.holds(options) {
                    return true;
                }
                right.holds(options)
            }
        }
    }
}
