//! The numbers by which parts of a shader are named.

/// Names the phi or instruction that defines a value.
#[derive(Clone, Copy, Debug, Default, PartialEq, Eq)]
pub struct ValueId(pub u32);

/// Names a block.
#[derive(Clone, Copy, Debug, Default, PartialEq, Eq)]
pub struct BlockId(pub u32);

/// Names an output or a store.
#[derive(Clone, Copy, Debug, Default, PartialEq, Eq)]
pub struct EffectId(pub u32);

/// Names an if.
#[derive(Clone, Copy, Debug, Default, PartialEq, Eq)]
pub struct IfId(pub u32);

/// Names a loop.
#[derive(Clone, Copy, Debug, Default, PartialEq, Eq)]
pub struct LoopId(pub u32);
