//! The table of values.

ghost use Rattle.std.specs.Prelude.{◌≡◌, ◌<◌, ◌≤◌, ◌^◌, ℕ, length, map, slice_index, OnOk};
ghost use Rattle.nir_ops.specs.declared.width.Width.TheVariants.{W32};
ghost use Rattle.nir_ops.specs.Width.{width_bits};
ghost use Rattle.op_eval.specs.Views.{views_comps, views_widths};
ghost use Rattle.nir_mean.specs.Run.{scalar};
ghost use Rattle.nir_mean.specs.State.{with_value};
ghost use Rattle.nir_mean.specs.Table.{kind_seen, kinds_of, values_of};
ghost use Rattle.nir_mean.specs.Values.{read};

use nir_host::{OutOfMemory, Seq};
use nir_ir::{Kind, Src, ValueId};
use nir_ops::Width;
use op_eval::{Components, View};

/// The components of each value, by its number.
#[derive(Drop)]
pub(crate) struct Table {
    pub views: Seq<View>,
}

/// The component at a place, 0 past the end.
fn component(comps: &[u64], at: u8) -> u64
    ensures { result ≡ slice_index comps.now at }
{
    let at = at as usize;
    if at < comps.len() { comps[at] } else { 0 }
}

impl Table {
    /// The components of a value.
    #[tactic(auto, using(crate::proofs::TableLemmas::values_past))]
    pub fn comps(&self, id: ValueId) -> &[u64]
        ensures value { result.now ≡ values_of self.now.views id.0 }
        ensures words { (at : ℕ) → slice_index result.now at < 2 ^ width_bits (kinds_of self.now.views id.0).width }
        ensures few { length result.now ≤ 16 }
    {
        let views = self.views.as_slice();
        let at = id.0 as usize;
        if at >= views.len() {
            return &[];
        }
        // Read so that it is known to be at most 16.
        let _count = views[at].comps.len();
        views[at].comps.as_slice()
    }

    /// The kind of a value.
    pub fn kind(&self, id: ValueId) -> Kind
        ensures { result ≡ kinds_of self.now.views id.0 }
    {
        match self.views.as_slice().get(id.0 as usize) {
            Some(view) => Kind {
                width: view.width,
                count: view.comps.len() as u8,
            },
            None => Kind {
                width: Width::W1,
                count: 0,
            },
        }
    }

    /// The first component of a value, 0 where it has none.
    pub fn scalar(&self, id: ValueId) -> u64
        ensures { result ≡ scalar (values_of self.now.views) id }
    {
        component(self.comps(id), 0)
    }

    /// The offset that a value of 32 bits is.
    pub fn offset(&self, id: ValueId) -> u32
        requires { (kinds_of self.now.views id.0).width ≡ W32 }
        ensures { result ≡ scalar (values_of self.now.views) id }
    {
        let offset = component(self.comps(id), 0);
        offset as u32
    }

    /// Gives a value its components, which are of its kind.
    pub fn define(&mut self, id: ValueId, view: View)
        requires within { id.0 < length self.old.views }
        requires kind { kind_seen view ≡ kinds_of self.old.views id.0 }
        ensures values { values_of self.new.views ≡ with_value id view.comps (values_of self.old.views) }
        ensures kinds { kinds_of self.new.views ≡ kinds_of self.old.views }
        ensures len { length self.new.views ≡ length self.old.views }
    {
        *self.views.at_mut(id.0 as usize) = view;
    }

    /// The components that a source has.
    pub fn read(&self, src: &Src) -> View
        ensures width { result.width ≡ (kinds_of self.now.views src.now.value.0).width }
        ensures value { result.comps ≡ read (values_of self.now.views) src.now }
    {
        let width = self.kind(src.value).width;
        let from = self.comps(src.value);
        let swizzle = src.swizzle.as_slice();
        let mut comps = Components::new();
        for entry in swizzle {
            comps.push(component(from, *entry));
        }
        View { width, comps }
    }

    /// The components of all sources, in the place of what `out` had.
    pub fn read_all(&self, srcs: &[Src], out: &mut Vec<View>) -> Result<(), OutOfMemory>
        ensures widths { OnOk result (views_widths out.new.items ≡ map (λ src. (kinds_of self.now.views src.value.0).width) srcs.now) }
        ensures comps { OnOk result (views_comps out.new.items ≡ map (read (values_of self.now.views)) srcs.now) }
    {
        out.clear();
        for src in srcs {
            out.push(self.read(src))?;
        }
        Ok(())
    }
}
