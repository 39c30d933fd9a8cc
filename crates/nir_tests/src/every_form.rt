//! A text with each form of the grammar, as it is written and as it is printed.

/// Each form of the grammar, in free layout, with comments and with names of its own.
pub(crate) static EVERY_FORM: &str = "# each form of the grammar, and \r % ' ? in a comment
shader inputs [w8x1,w32x4]outputs[w1x1]buffers 16
{block block{
  %a = input w8x1 @0 # behind it: %a = undef w8x1
  %b=const w8x3(-128,0xfF,7)
  %a_b = undef w1x1\t%1 = load w32x2 @4294967295, %later
  %0 = iadd w8x1 %a, %b.y
  %n = vec2 w8x2 %later.w, %b . zyxx
  %c = const w1x1 (-1)
  output @4294967295,%0 store @0, %a, %n output @1, %b
}
if %c {
  loop { block w1x1 {
      %p = phi w8x1 [block: %a, if: %later, w1x1: %p]
      %q = phi w16x4 []
      %r = imul w8x1 %p, %b
      continue } block if { break } } }
else { }
loop { if %c { } else { loop { } } }
block b0 { %later = const w64x4 (-9223372036854775808, 18446744073709551615, -1, 00) break
}
}";

/// The same in its canonical form: the phi's sources stand in the order of their blocks, and a
/// number below 0 is the component that it gives.
pub(crate) static EVERY_FORM_PRINTED: &str = r"shader
inputs [w8x1, w32x4]
outputs [w1x1]
buffers 16
{
  block b0 {
    %0 = input w8x1 @0
    %1 = const w8x3 (128, 255, 7)
    %2 = undef w1x1
    %3 = load w32x2 @4294967295, %10
    %4 = iadd w8x1 %0, %1.y
    %5 = vec2 w8x2 %10.w, %1.zyxx
    %6 = const w1x1 (1)
    output @4294967295, %4
    store @0, %0, %5
    output @1, %1
  }
  if %6 {
    loop {
      block b1 {
        %7 = phi w8x1 [b0: %0, b1: %7, b2: %10]
        %8 = phi w16x4 []
        %9 = imul w8x1 %7, %1
        continue
      }
      block b2 {
        break
      }
    }
  } else {
  }
  loop {
    if %6 {
    } else {
      loop {
      }
    }
  }
  block b3 {
    %10 = const w64x4 (9223372036854775808, 18446744073709551615, 18446744073709551615, 0)
    break
  }
}
";
