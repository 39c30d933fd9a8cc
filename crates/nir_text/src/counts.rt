//! How many things a text has named so far.

/// How many values, blocks, effects, ifs and loops were read: the numbers that the next ones get.
#[derive(Clone, Copy, Debug, Default, PartialEq, Eq)]
pub struct Counts {
    pub values: u32,
    pub blocks: u32,
    pub effects: u32,
    pub ifs: u32,
    pub loops: u32,
}
