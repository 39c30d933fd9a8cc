//! Texts that are read and printed again.

use crate::every_form::{EVERY_FORM, EVERY_FORM_PRINTED};
use crate::reading::{EMPTY_TEXT, read};
use nir_host::Bytes;
use nir_print::print_shader;
use std::alloc::Global;
use std::test::Fail;

/// What a text is printed as.
fn read_and_printed(alloc: Global, text: &str) -> Result<Bytes, Fail> {
    let shader = read(alloc, text.as_bytes())?;
    let printed = print_shader(alloc, &shader)?;
    Ok(printed)
}

/// A loop with a way out, and a sum over a buffer in it.
static SUM_OVER_A_BUFFER: &str = r"shader
inputs [w32x1, w32x1]
outputs []
buffers 2
{
  block b0 {
    %0 = input w32x1 @0
    %1 = input w32x1 @1
    %2 = const w32x1 (0)
    %3 = const w32x1 (1)
    %4 = const w32x1 (4)
    %5 = const w32x1 (16)
    %6 = uge w1x1 %0, %1
    %7 = inot w1x1 %6
  }
  if %7 {
    block b1 {
      %8 = imul w32x1 %0, %5
      %9 = iadd w32x1 %8, %2
    }
    loop {
      block b2 {
        %10 = phi w32x1 [b1: %2, b5: %20]
        %11 = phi w32x1 [b1: %2, b5: %19]
        %12 = uge w1x1 %10, %4
      }
      if %12 {
        block b3 {
          break
        }
      } else {
        block b4 {
        }
      }
      block b5 {
        %13 = imul w32x1 %10, %4
        %14 = iadd w32x1 %9, %13
        %15 = load w32x1 @0, %14
        %16 = ineg w32x1 %15
        %17 = ineg w32x1 %16
        %18 = iand w32x1 %17, %17
        %19 = iadd w32x1 %11, %18
        %20 = iadd w32x1 %10, %3
      }
    }
    block b6 {
      %21 = udiv w32x1 %11, %4
      %22 = imul w32x1 %0, %4
      store @1, %22, %21
    }
  } else {
    block b7 {
    }
  }
  block b8 {
  }
}
";

/// Each sort of node, of instruction and of jump.
static EACH_SORT: &str = r"shader
inputs [w32x2]
outputs [w32x1]
buffers 1
{
  block b0 {
    %0 = input w32x2 @0
    %1 = const w1x1 (1)
    %2 = mov w32x1 %0.y
    %3 = iadd w32x2 %0, %0.yx
  }
  if %1 {
    block b1 {
      store @0, %2, %3
    }
  } else {
    block b2 {
    }
  }
  block b3 {
    %4 = load w32x1 @0, %2
  }
  loop {
    block b4 {
      %5 = phi w32x1 [b3: %2, b7: %6]
    }
    if %1 {
      block b5 {
        break
      }
    } else {
      block b6 {
        continue
      }
    }
    block b7 {
      %6 = undef w8x3
    }
  }
  block b8 {
    output @0, %5
  }
}
";

#[test]
fn each_form_is_printed_canonically(rt: HostRuntime) -> Result<(), Fail> {
    let printed = read_and_printed(rt.alloc(), EVERY_FORM)?;
    assert_eq!(rt; printed.as_slice(), EVERY_FORM_PRINTED.as_bytes());
    Ok(())
}

#[test]
fn canonical_texts_are_printed_as_they_were_read(rt: HostRuntime) -> Result<(), Fail> {
    for text in [EMPTY_TEXT, EACH_SORT, SUM_OVER_A_BUFFER, EVERY_FORM_PRINTED] {
        let printed = read_and_printed(rt.alloc(), text)?;
        assert_eq!(rt; printed.as_slice(), text.as_bytes());
    }
    Ok(())
}
