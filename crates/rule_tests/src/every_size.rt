//! A rule at each bit size with three opcodes and two numbers in its replacement, used through a work in a loop in an if.

ghost use Rattle.std.specs.Prelude.{◌≡◌, ◌<◌, IfOk};
ghost use Rattle.rule_term.specs.EverySize.{spread};

use crate::rules::{lit, over, over_two, var};
use crate::works::at_work;
use nir_host::{Bytes, OutOfMemory};
use nir_ir::Journal;
use nir_ops::Op;
use nir_print::print_shader;
use nir_search::Steps;
use rewrite_pass::rewrite_all;
use rule_term::{Names, Options, Rule, Table, When};
use std::alloc::{AllocError, Global};
use std::marker::Brand;
use std::sync::ledger::{Blank, Ledger};
use std::test::Fail;

/// From `(ineg a)` to `(iadd (isub 0 a) (imul a 0))`.
#[tactic(auto, using(rule_term::specs::EverySize::spread_formed), unfolding(rule_term::specs::EverySize::spread))]
fn spread(alloc: Global) -> Result<Rule, OutOfMemory>
    ensures { IfOk result (λ rule. rule ≡ spread) }
{
    let search = over(alloc, Op::Ineg, var(0, None))?;
    let difference = over_two(alloc, Op::Isub, lit(0), var(0, None))?;
    let product = over_two(alloc, Op::Imul, var(0, None), lit(0))?;
    let replace = over_two(alloc, Op::Iadd, difference, product)?;
    Ok(Rule {
        number: 0,
        search,
        replace,
        when: When::Always,
        vars: 1,
    })
}

/// The table of that rule alone.
#[tactic(auto, using(rule_term::specs::EverySize::spread_holds))]
fn table_of(alloc: Global) -> Result<Table, OutOfMemory> {
    let mut table = Table::new(alloc);
    let rule = spread(alloc)?;
    table.add(rule)?;
    Ok(table)
}

/// A negation in a loop in an if, of a phi whose components are turned round. N stands for the bit size.
const NEGATED: &[u8] = br"shader
inputs [wNx2, w1x1]
outputs [wNx2]
buffers 0
{
  block b0 {
    %0 = input wNx2 @0
    %1 = input w1x1 @1
  }
  if %1 {
    block b1 {
    }
    loop {
      block b2 {
        %2 = phi wNx2 [b1: %0, b5: %4]
        %3 = ineg wNx2 %2.yx
      }
      if %1 {
        block b3 {
          break
        }
      } else {
        block b4 {
        }
      }
      block b5 {
        %4 = iadd wNx2 %3, %0.yy
      }
    }
    block b6 {
      output @0, %3
    }
  } else {
    block b7 {
    }
  }
  block b8 {
  }
}
";

const SPREAD: &[u8] = br"shader
inputs [wNx2, w1x1]
outputs [wNx2]
buffers 0
{
  block b0 {
    %0 = input wNx2 @0
    %1 = input w1x1 @1
  }
  if %1 {
    block b1 {
    }
    loop {
      block b2 {
        %2 = phi wNx2 [b1: %0, b5: %8]
        %3 = const wNx2 (0, 0)
        %4 = isub wNx2 %3, %2.yx
        %5 = const wNx2 (0, 0)
        %6 = imul wNx2 %2.yx, %5
        %7 = iadd wNx2 %4, %6
      }
      if %1 {
        block b3 {
          break
        }
      } else {
        block b4 {
        }
      }
      block b5 {
        %8 = iadd wNx2 %7, %0.yy
      }
    }
    block b6 {
      output @0, %7
    }
  } else {
    block b7 {
    }
  }
  block b8 {
  }
}
";

/// The text at a bit size.
pub(crate) fn at_size(alloc: Global, text: &[u8], size: &[u8]) -> Result<Vec<u8>, AllocError> {
    let mut bytes = Vec::new(alloc);
    for byte in text {
        if *byte == b'N' {
            bytes.extend_from_slice(size)?;
        } else {
            bytes.extend_from_slice(&[*byte])?;
        }
    }
    Ok(bytes)
}

/// The text of a shader after all steps by the rule, of which there is one.
fn spread_in<L: Ledger>(alloc: Global, text: &[u8], blank: Blank) -> Result<Bytes, Fail>
    requires name { blank.name ≡ L.name }
    requires parts { blank.parts ≡ L.parts }
    requires some { 0 < blank.parts }
{
    let table = table_of(alloc)?;
    let options = Options {
        names: Names::new(alloc),
    };
    let mut work = at_work(alloc, text, &table)?;
    let mut journal = Journal::new(alloc);
    let mut steps = Steps::<L>::new(blank);
    if work.next_value() > 16_384 {
        return Err("too many values".into());
    }
    let rewrites = rewrite_all(
        alloc,
        &mut work,
        &table,
        &options,
        9,
        &mut journal,
        &mut steps,
    )?;
    if rewrites != 1 {
        return Err("not one step".into());
    }
    let shader = work.into_shader(alloc)?;
    Ok(print_shader(alloc, &shader)?)
}

#[test]
fn a_rule_is_used_at_each_size(rt: HostRuntime) -> Result<(), Fail> {
    let alloc = rt.alloc();
    for size in [b"8".as_slice(), b"32".as_slice(), b"64".as_slice()] {
        let text = at_size(alloc, NEGATED, size)?;
        let wanted = at_size(alloc, SPREAD, size)?;
        let told = spread_in::<Brand>(alloc, text.as_slice(), Blank::new(1))?;
        assert_eq!(rt; told.as_slice(), wanted.as_slice());
    }
    Ok(())
}
