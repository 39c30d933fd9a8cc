//! What a reader of rule files knows of what it read.

ghost use Rattle.std.specs.Prelude.{◌≡◌, ◌≤◌, ◌+◌, ◌<◌, ◌∷◌, ◌++◌, [], suc, length, map, OnOk, IfErr};
ghost use Rattle.grammar.specs.Terminals.{is_among};
ghost use Rattle.rule_spelling.specs.Tokens.{none_read, place_of};
ghost use Rattle.term_read.specs.declared.fault.RuleFault.TheVariants.{OutOfMemory as NoMemory};

use crate::fault::RuleFault;
use std::alloc::Global;
use std::marker::Model;

/// How many rules there are, and how many variants they have together; the names of the opcodes that were
/// weighed; those of the variables of the last rule, in the order of their numbers; and how many opcodes
/// the side or the expression has so far.
#[derive(Drop)]
pub struct State<'a> {
    rules: u32,
    variants: u32,
    weighed: Vec<&'a [u8]>,
    names: Vec<&'a [u8]>,
    ops: u32,
}

impl<'a> Model for State<'a> {
    ghost use Rattle.std.specs.Prelude.{◌≤◌, ◌^◌, ◌<◌, length, map};
    ghost use Rattle.std.specs.Coded.{codes};
    ghost use Rattle.rule_spelling.specs.Tokens.{State as Whole};

    ghost Value = { Whole };

    ghost coded = { Prim.hlevel codes };

    ghost view = { λ s. record { rules = s.rules; variants = s.variants; weighed = map (λ name. name.now) s.weighed.items; names = map (λ name. name.now) s.names.items; ops = s.ops } };

    ghost invariant = { λ s. (s.rules ≤ 4096) × (s.variants ≤ 65536) × (length s.names.items ≤ 16) × (s.ops ≤ 16) };
}

impl<'a> State<'a> {
    /// Nothing was read. This takes no memory.
    pub fn new(alloc: Global) -> State<'a>
        ensures { result ≡ none_read }
    {
        State {
            rules: 0,
            variants: 0,
            weighed: Vec::new(alloc),
            names: Vec::new(alloc),
            ops: 0,
        }
    }

    /// How many rules there are.
    pub fn rules(&self) -> u32
        ensures value { result ≡ self.now.rules }
        ensures most { result ≤ 4096 }
    {
        self.rules
    }

    /// How many variants they have together.
    pub fn variants(&self) -> u32
        ensures value { result ≡ self.now.variants }
        ensures most { result ≤ 65536 }
    {
        self.variants
    }

    /// How many variables the rule has.
    pub fn vars(&self) -> u32
        ensures value { result ≡ length self.now.names }
        ensures most { result ≤ 16 }
    {
        self.names.len() as u32
    }

    /// How many opcodes the side has so far.
    pub fn ops(&self) -> u32
        ensures value { result ≡ self.now.ops }
        ensures most { result ≤ 16 }
    {
        self.ops
    }

    /// A rule begins: it has no variables and no opcodes yet.
    pub fn begin_rule(&mut self)
        ensures { self.new ≡ record self.old { names = []; ops = 0 } }
    {
        self.names.clear();
        self.ops = 0;
    }

    /// A side begins: it has no opcodes yet.
    pub fn begin_side(&mut self)
        ensures { self.new ≡ record self.old { ops = 0 } }
    {
        self.ops = 0;
    }

    /// One more opcode.
    pub fn count_op(&mut self)
        requires { self.old.ops < 16 }
        ensures { self.new ≡ record self.old { ops = suc self.old.ops } }
    {
        self.ops += 1;
    }

    /// A rule ends that has so many variants.
    pub fn end_rule(&mut self, variants: u32)
        requires few { self.old.rules < 4096 }
        requires variants { self.old.variants + variants ≤ 65536 }
        ensures { self.new ≡ record self.old { rules = suc self.old.rules; variants = self.old.variants + variants } }
    {
        self.rules += 1;
        self.variants += variants;
    }

    /// Where a name stands among those of the variables, None where it does not. A plain search of at most 16 names.
    pub fn place(&self, name: &[u8]) -> Option<u32>
        ensures { result ≡ place_of name.now self.now.names }
    {
        place_of(self.names.as_slice(), name)
    }

    /// One more variable, at the end. After `OutOfMemory` there is none more.
    pub fn add_name(&mut self, name: &'a [u8]) -> Result<(), RuleFault>
        requires { length self.old.names < 16 }
        ensures ok { OnOk result (self.new ≡ record self.old { names = self.old.names ++ name.now ∷ [] }) }
        ensures err { IfErr result (λ fault. fault ≡ NoMemory) }
    {
        match self.names.push(name) {
            Ok(()) => Ok(()),
            Err(_failed) => Err(RuleFault::OutOfMemory),
        }
    }

    /// Whether the opcode of this name was weighed. A plain search among as many names as there are opcodes.
    pub fn is_weighed(&self, name: &[u8]) -> bool
        ensures { result ≡ is_among name.now self.now.weighed }
    {
        is_among(self.weighed.as_slice(), name)
    }

    /// The opcode of this name is weighed.
    pub fn weigh(&mut self, name: &'a [u8]) -> Result<(), RuleFault>
        ensures ok { OnOk result (self.new ≡ record self.old { weighed = name.now ∷ self.old.weighed }) }
        ensures err { IfErr result (λ fault. fault ≡ NoMemory) }
    {
        match self.weighed.insert(0, name) {
            Ok(()) => Ok(()),
            Err(_failed) => Err(RuleFault::OutOfMemory),
        }
    }
}

/// Where a name stands first in the list.
fn place_of(list: &[&[u8]], name: &[u8]) -> Option<u32>
    requires { length list.now ≤ 16 }
    ensures { result ≡ place_of name.now (map (λ one. one.now) list.now) }
{
    for (place, one) in list.iter().enumerate() {
        if *one == name {
            return Some(place as u32);
        }
    }
    None
}

fn is_among(list: &[&[u8]], name: &[u8]) -> bool
    ensures { result ≡ is_among name.now (map (λ one. one.now) list.now) }
{
    for one in list {
        if name == *one {
            return true;
        }
    }
    false
}
