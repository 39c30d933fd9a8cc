//! Shaders at work: what defines a value, where it is used, and the shader that is given back.

use nir_host::Bytes;
use nir_ir::ValueId;
use nir_mean::valid_shader;
use nir_print::print_shader;
use nir_search::Work;
use rule_term::Table;
use std::alloc::Global;
use std::test::Fail;

/// The shader of a text, which is valid, put to work with a table.
pub(crate) fn at_work(alloc: Global, text: &[u8], table: &Table) -> Result<Work, Fail> {
    if text.len() > 4_194_304 {
        return Err("a long text".into());
    }
    match valid_shader(alloc, text) {
        Ok(shader) => Ok(Work::new(alloc, shader, table)?),
        Err(_refusal) => Err("a text that is refused".into()),
    }
}

/// A negation with two uses, one of them in a sum.
const TWO_USES: &[u8] = br"shader
inputs [w32x1, w32x1]
outputs [w32x1]
buffers 0
{
  block b0 {
    %0 = input w32x1 @0
    %1 = input w32x1 @1
    %2 = ineg w32x1 %0
    %3 = iadd w32x1 %2, %1
    %4 = inot w32x1 %2
    output @0, %3
  }
}
";

/// Uses by phis, by conditions and by both sources of an instruction.
const SUM: &[u8] = br"shader
inputs [w32x1]
outputs [w32x1]
buffers 0
{
  block b0 {
    %0 = input w32x1 @0
    %1 = const w32x1 (0)
    %2 = const w32x1 (1)
  }
  loop {
    block b1 {
      %3 = phi w32x1 [b0: %1, b4: %7]
      %4 = phi w32x1 [b0: %1, b4: %8]
      %5 = uge w1x1 %4, %0
    }
    if %5 {
      block b2 {
        break
      }
    } else {
      block b3 {
      }
    }
    block b4 {
      %6 = iadd w32x1 %4, %1
      %7 = iadd w32x1 %3, %6
      %8 = iadd w32x1 %4, %2
    }
  }
  block b5 {
    output @0, %3
  }
}
";

/// A text, and values of it with the numbers of their uses.
type Row = (&'static [u8], &'static [(u32, u64)]);

static USES: [Row; 2] = [
    (TWO_USES, &[(2, 2), (3, 1), (4, 0), (5, 0)]),
    (SUM, &[(1, 3), (3, 2), (4, 3), (5, 1), (8, 1)]),
];

#[test]
fn uses_are_counted_and_listed(rt: HostRuntime) -> Result<(), Fail> {
    let alloc = rt.alloc();
    let table = Table::new(alloc);
    for &(text, values) in &USES {
        let work = at_work(alloc, text, &table)?;
        for &(value, count) in values {
            let value = ValueId(value);
            assert_eq!(rt; work.uses(value), count);
            assert_eq!(rt; work.is_used_once(value), count == 1);
            assert_eq!(rt; work.users(alloc, value)?.len() as u64, count);
        }
    }
    Ok(())
}

#[test]
fn what_defines_a_value_is_found(rt: HostRuntime) -> Result<(), Fail> {
    let table = Table::new(rt.alloc());
    let work = at_work(rt.alloc(), SUM, &table)?;
    assert_eq!(rt; work.next_value(), 9);
    for value in 0..10 {
        let value = ValueId(value);
        let is_phi = value.0 == 3 || value.0 == 4;
        assert_eq!(rt; work.phi(value).is_some(), is_phi);
        assert_eq!(rt; work.instr(value).is_some(), !is_phi && value.0 < 9);
        assert_eq!(rt; work.kind(value).is_some(), value.0 < 9);
    }
    Ok(())
}

/// The text of the shader at work, and that of the shader that is given back.
fn both_texts(alloc: Global, text: &[u8]) -> Result<(Bytes, Bytes), Fail> {
    let table = Table::new(alloc);
    let work = at_work(alloc, text, &table)?;
    let copy = work.to_shader(alloc)?;
    let back = work.into_shader(alloc)?;
    Ok((print_shader(alloc, &copy)?, print_shader(alloc, &back)?))
}

#[test]
fn the_shader_is_given_back(rt: HostRuntime) -> Result<(), Fail> {
    for text in [TWO_USES, SUM] {
        let (copy, back) = both_texts(rt.alloc(), text)?;
        assert_eq!(rt; copy.as_slice(), text);
        assert_eq!(rt; back.as_slice(), text);
    }
    Ok(())
}
