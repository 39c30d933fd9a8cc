//! A shader with each sort of node, and what is found in it; short lists.

use crate::every_form::EVERY_FORM;
use crate::reading::read;
use crate::shown_shaders::show_shader;
use nir_ir::{Comps, Src, Srcs, Swizzle, ValueId};
use nir_tree::{copied, users};
use std::test::Fail;

/// A block, an if, a loop and a block. Each block has a phi with an even number that is its own source, and an undef
/// with the number behind it; the condition is value 0.
static TREE: &str = r"shader
inputs []
outputs []
buffers 0
{
  block b0 {
    %0 = phi w32x1 [b0: %0]
    %1 = undef w32x1
  }
  if %0 {
    block b1 {
      %2 = phi w32x1 [b1: %2]
      %3 = undef w32x1
    }
  } else {
    block b2 {
      %4 = phi w32x1 [b2: %4]
      %5 = undef w32x1
    }
  }
  loop {
    block b3 {
      %6 = phi w32x1 [b3: %6]
      %7 = undef w32x1
    }
  }
  block b4 {
    %8 = phi w32x1 [b4: %8]
    %9 = undef w32x1
  }
}
";

#[test]
fn each_value_is_found_in_its_place(rt: HostRuntime) -> Result<(), Fail> {
    let shader = read(rt.alloc(), TREE.as_bytes())?;
    for value in 0..11 {
        let phi = shader.phi(ValueId(value)).map(|phi| phi.value.0);
        let instr = shader
            .instr(ValueId(value))
            .and_then(|instr| instr.target())
            .map(|id| id.0);
        let is_phi = value < 10 && value % 2 == 0;
        let is_instr = value < 10 && value % 2 == 1;
        assert_eq!(rt; phi, is_phi.then_some(value), "phi of {value}");
        assert_eq!(rt; instr, is_instr.then_some(value), "instruction of {value}");
    }
    Ok(())
}

#[test]
fn nothing_is_defined_in_an_empty_shader(rt: HostRuntime) -> Result<(), Fail> {
    let shader = read(rt.alloc(), b"shader inputs [] outputs [] buffers 0 {}")?;
    assert!(rt; shader.instr(ValueId(0)).is_none());
    assert!(rt; shader.phi(ValueId(0)).is_none());
    assert!(rt; users(rt.alloc(), &shader, ValueId(0))?.is_empty());
    Ok(())
}

/// Values, and how often they are used.
static USES: [(u32, usize); 8] = [
    (0, 2),
    (1, 0),
    (2, 1),
    (4, 1),
    (5, 0),
    (6, 1),
    (8, 1),
    (9, 0),
];

#[test]
fn each_source_and_condition_is_listed(rt: HostRuntime) -> Result<(), Fail> {
    let shader = read(rt.alloc(), TREE.as_bytes())?;
    for &(value, uses) in &USES {
        let listed = users(rt.alloc(), &shader, ValueId(value))?;
        assert_eq!(rt; listed.len(), uses, "uses of {value}");
    }
    Ok(())
}

#[test]
fn a_copy_is_the_same_shader(rt: HostRuntime) -> Result<(), Fail> {
    let shader = read(rt.alloc(), EVERY_FORM.as_bytes())?;
    let copy = copied(rt.alloc(), &shader)?;
    let shown = show_shader(rt.alloc(), &shader)?;
    assert_eq!(rt; show_shader(rt.alloc(), &copy)?.as_str(), shown.as_str());
    Ok(())
}

#[test]
fn short_lists_keep_what_is_pushed(rt: HostRuntime) -> Result<(), Fail> {
    let mut swizzle = Swizzle::new();
    let mut srcs = Srcs::new(rt.alloc());
    let mut comps = Comps::new(rt.alloc());
    swizzle.push(3);
    comps.push(7)?;
    srcs.push(Src {
        value: ValueId(5),
        swizzle,
    })?;
    assert_eq!(rt; comps.as_slice(), [7].as_slice());
    for src in srcs.as_slice() {
        assert_eq!(rt; src.value.0, 5);
        assert_eq!(rt; src.swizzle.as_slice(), [3].as_slice());
    }
    assert_eq!(rt; srcs.len(), 1);
    Ok(())
}
