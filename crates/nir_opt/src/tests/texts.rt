//! Shaders and rules that more than one case is given.

pub(super) const EMPTY_BLOCK: &[u8] = br"shader
inputs []
outputs []
buffers 0
{
  block b0 {
  }
}
";

pub(super) const ADD_ZERO: &[u8] = br"shader
inputs [w8x1]
outputs [w8x1]
buffers 0
{
  block b0 {
    %0 = input w8x1 @0
    %1 = const w8x1 (0)
    %2 = iadd w8x1 %0, %1
    output @0, %2
  }
}
";

/// The same shader at 32 bits, with the operands the other way round.
pub(super) const WIDE: &[u8] = br"shader
inputs [w32x1]
outputs [w32x1]
buffers 0
{
  block b0 {
    %0 = input w32x1 @0
    %1 = const w32x1 (0)
    %2 = iadd w32x1 %1, %0
    output @0, %2
  }
}
";

/// A free layout of the shader at 8 bits, with a comment and names of its own.
pub(super) const FREE: &[u8] = br"shader inputs[w8x1]outputs [ w8x1 ] # kinds
 buffers 0 { block start { %a = input w8x1 @0 %zero = const w8x1 (0x0)
%sum = iadd w8x1 %a,%zero output @0,%sum } }";

pub(super) const DOT: &[u8] = br"shader
inputs [w8x1]
outputs [w8x1]
buffers 0
{
  block b0 {
    %0 = input w8x1 @0
    %1 = mov w8x1 %0.x
    output @0, %1
  }
}
";

pub(super) const NO_DOT: &[u8] = br"shader
inputs [w8x1]
outputs [w8x1]
buffers 0
{
  block b0 {
    %0 = input w8x1 @0
    %1 = mov w8x1 %0
    output @0, %1
  }
}
";

/// The shader at 8 bits with a move of the input in the place of its addition.
pub(super) const MOVED: &[u8] = br"shader
inputs [w8x1]
outputs [w8x1]
buffers 0
{
  block b0 {
    %0 = input w8x1 @0
    %1 = const w8x1 (0)
    %2 = mov w8x1 %0
    output @0, %2
  }
}
";

/// The shader at 8 bits with the operands the other way round.
pub(super) const SWAPPED: &[u8] = br"shader
inputs [w8x1]
outputs [w8x1]
buffers 0
{
  block b0 {
    %0 = input w8x1 @0
    %1 = const w8x1 (0)
    %2 = iadd w8x1 %1, %0
    output @0, %2
  }
}
";

/// A sum of a sum, of which each adds 0.
pub(super) const TWICE: &[u8] = br"shader
inputs [w8x1]
outputs [w8x1]
buffers 0
{
  block b0 {
    %0 = input w8x1 @0
    %1 = const w8x1 (0)
    %2 = iadd w8x1 %0, %1
    %3 = iadd w8x1 %1, %2
    output @0, %3
  }
}
";

pub(super) const TWICE_MOVED: &[u8] = br"shader
inputs [w8x1]
outputs [w8x1]
buffers 0
{
  block b0 {
    %0 = input w8x1 @0
    %1 = const w8x1 (0)
    %2 = mov w8x1 %0
    %3 = mov w8x1 %2
    output @0, %3
  }
}
";

/// A difference with itself, which is also one with 0, and a difference with 0 alone.
pub(super) const DIFFERENCES: &[u8] = br"shader
inputs [w8x1]
outputs [w8x1]
buffers 0
{
  block b0 {
    %0 = input w8x1 @0
    %1 = const w8x1 (0)
    %2 = isub w8x1 %1, %1
    %3 = isub w8x1 %0, %1
    output @0, %2
    output @0, %3
  }
}
";

pub(super) const ZERO_THEN_MOVED: &[u8] = br"shader
inputs [w8x1]
outputs [w8x1]
buffers 0
{
  block b0 {
    %0 = input w8x1 @0
    %1 = const w8x1 (0)
    %2 = const w8x1 (0)
    %3 = mov w8x1 %0
    output @0, %2
    output @0, %3
  }
}
";

pub(super) const BOTH_MOVED: &[u8] = br"shader
inputs [w8x1]
outputs [w8x1]
buffers 0
{
  block b0 {
    %0 = input w8x1 @0
    %1 = const w8x1 (0)
    %2 = mov w8x1 %1
    %3 = mov w8x1 %0
    output @0, %2
    output @0, %3
  }
}
";

/// The difference with 1, complemented and negated: what was there.
pub(super) const NEGATED: &[u8] = br"shader
inputs [w8x1]
outputs [w8x1]
buffers 0
{
  block b0 {
    %0 = input w8x1 @0
    %1 = const w8x1 (1)
    %2 = isub w8x1 %0, %1
    %3 = inot w8x1 %2
    %4 = ineg w8x1 %3
    output @0, %4
  }
}
";

pub(super) const NEGATED_MOVED: &[u8] = br"shader
inputs [w8x1]
outputs [w8x1]
buffers 0
{
  block b0 {
    %0 = input w8x1 @0
    %1 = const w8x1 (1)
    %2 = isub w8x1 %0, %1
    %3 = inot w8x1 %2
    %4 = mov w8x1 %0
    output @0, %4
  }
}
";

/// Twice the input, by 128.
pub(super) const PRODUCT: &[u8] = br"shader
inputs [w8x1]
outputs [w8x1]
buffers 0
{
  block b0 {
    %0 = input w8x1 @0
    %1 = const w8x1 (128)
    %2 = iadd w8x1 %0, %0
    %3 = imul w8x1 %2, %1
    output @0, %3
  }
}
";

pub(super) const PRODUCT_ZERO: &[u8] = br"shader
inputs [w8x1]
outputs [w8x1]
buffers 0
{
  block b0 {
    %0 = input w8x1 @0
    %1 = const w8x1 (128)
    %2 = iadd w8x1 %0, %0
    %3 = const w8x1 (0)
    output @0, %3
  }
}
";

/// The least of 255 and the input.
pub(super) const LEAST: &[u8] = br"shader
inputs [w8x1]
outputs [w8x1]
buffers 0
{
  block b0 {
    %0 = input w8x1 @0
    %1 = const w8x1 (255)
    %2 = umin w8x1 %1, %0
    output @0, %2
  }
}
";

pub(super) const LEAST_MOVED: &[u8] = br"shader
inputs [w8x1]
outputs [w8x1]
buffers 0
{
  block b0 {
    %0 = input w8x1 @0
    %1 = const w8x1 (255)
    %2 = mov w8x1 %0
    output @0, %2
  }
}
";

/// Each opcode that is built.
pub(super) const OPCODES: &[u8] = br"shader
inputs [w8x1]
outputs [w8x1]
buffers 0
{
  block b0 {
    %0 = input w8x1 @0
    %1 = iadd w8x1 %0, %0
    %2 = isub w8x1 %1, %0
    %3 = imul w8x1 %2, %0
    %4 = ineg w8x1 %3
    %5 = inot w8x1 %4
    %6 = iand w8x1 %5, %0
    %7 = ior w8x1 %6, %0
    %8 = ixor w8x1 %7, %0
    %9 = umin w8x1 %8, %0
    %10 = mov w8x1 %9
    output @0, %10
  }
}
";

/// A number below 0, which is printed as the word that it stands for.
pub(super) const BELOW_ZERO: &[u8] = br"shader
inputs [w8x1]
outputs [w8x1]
buffers 0
{
  block b0 {
    %0 = input w8x1 @0
    %1 = const w8x1 (-128)
    %2 = iadd w8x1 %0, %1
    output @0, %2
  }
}
";

pub(super) const ABOVE_127: &[u8] = br"shader
inputs [w8x1]
outputs [w8x1]
buffers 0
{
  block b0 {
    %0 = input w8x1 @0
    %1 = const w8x1 (128)
    %2 = iadd w8x1 %0, %1
    output @0, %2
  }
}
";

/// An opcode that is not.
pub(super) const SIGNED_LEAST: &[u8] = br"shader
inputs [w8x1]
outputs [w8x1]
buffers 0
{
  block b0 {
    %0 = input w8x1 @0
    %1 = imin w8x1 %0, %0
    output @0, %1
  }
}
";

/// A value of one list of an if, used behind it.
pub(super) const LEAK: &[u8] = br"shader
inputs [w32x1]
outputs [w32x1]
buffers 0
{
  block b0 {
    %0 = input w32x1 @0
    %1 = const w1x1 (1)
  }
  if %1 {
    block b1 {
      %2 = ineg w32x1 %0
    }
  } else {
    block b2 {
    }
  }
  block b3 {
    output @0, %2
  }
}
";

/// What is added to 0 is what is there.
pub(super) const RULE: &[u8] = b"[(('iadd', 'a@8', 0), 'a'), by * cases]";

/// A difference is not what it is taken from.
pub(super) const WRONG: &[u8] = b"[(('isub', 'a@8', 'b'), 'a'), by * cases]";
