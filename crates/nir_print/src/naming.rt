//! How a text names values and blocks.

ghost use Rattle.std.specs.Prelude.{◌≡◌, ◌^◌, ◌<◌, IfOk, nat_eq, length};
ghost use Rattle.std.specs.List.{IsDistinct};
ghost use Rattle.nir_print.specs.RoundTrip.{HasMachineNumbers};
ghost use Rattle.nir_print.specs.Naming.{place, naming_of, value_place, block_place, kind_of};

use crate::collect::{Found, collect_list, read_word};
use indexmap::IndexSet;
use nir_host::OutOfMemory;
use nir_ir::{BlockId, Kind, Kinds, Shader, ValueId};
use std::alloc::Global;
use std::marker::Model;

/// Numbers, each with its place. Contracts see the list of the numbers.
#[derive(Drop)]
struct Places {
    numbers: IndexSet<u32>,
}

impl Model for Places {
    ghost use Rattle.std.specs.Prelude.{List, ℕ};

    ghost Value = { List ℕ };

    ghost view = { λ p. p.numbers.keys };
}

impl Places {
    fn new(alloc: Global, numbers: &[u32]) -> Result<Places, OutOfMemory>
        requires { IsDistinct nat_eq numbers.now }
        ensures places { IfOk result (λ places. places ≡ numbers.now) }
        ensures counted { IfOk result (λ places. length places < 2 ^ 64) }
    {
        let mut places = IndexSet::new(alloc);
        for number in numbers {
            places.insert(*number)?;
        }
        Ok(Places { numbers: places })
    }

    /// The place of a number, or how many numbers there are where it is not one of them.
    fn place(&self, number: u32) -> usize
        ensures { result ≡ place self.now number }
    {
        match self.numbers.get_index_of(&number) {
            Some(at) => at,
            None => self.numbers.len(),
        }
    }
}

/// The names of a text: the places of its values and blocks, and the kinds of its values.
#[derive(Drop)]
pub(crate) struct Naming {
    values: Places,
    kinds: Kinds,
    blocks: Places,
}

impl Model for Naming {
    ghost use Rattle.nir_print.specs.Naming.{Naming as Names, naming_code};

    ghost Value = { Names };

    ghost coded = { naming_code };

    ghost view = { λ n. record { values = n.values; kinds = n.kinds; blocks = n.blocks } };
}

impl Naming {
    pub(crate) fn new(alloc: Global, shader: &Shader) -> Result<Naming, OutOfMemory>
        ensures named { IfOk result (λ naming. naming ≡ naming_of shader.now.body) }
        ensures numbers { IfOk result (λ _. HasMachineNumbers shader.now) }
    {
        read_word(shader.buffers);
        let mut found = Found::new(alloc);
        collect_list(&mut found, shader.body.as_slice())?;
        let Found {
            values,
            kinds,
            blocks,
        } = found;
        let values = Places::new(alloc, values.as_slice())?;
        let blocks = Places::new(alloc, blocks.as_slice())?;
        Ok(Naming {
            values,
            kinds,
            blocks,
        })
    }

    pub(crate) fn value_place(&self, value: ValueId) -> usize
        ensures { result ≡ value_place self.now value }
    {
        self.values.place(value.0)
    }

    pub(crate) fn block_place(&self, block: BlockId) -> usize
        ensures { result ≡ block_place self.now block }
    {
        self.blocks.place(block.0)
    }

    pub(crate) fn kind_of(&self, value: ValueId) -> Option<Kind>
        ensures { result ≡ kind_of self.now value }
    {
        self.kinds.get(self.value_place(value)).copied()
    }
}
