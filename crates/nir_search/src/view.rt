//! Views: which components of a value stand in each place.

ghost use Rattle.std.specs.Prelude.{◌≡◌, ◌≤◌, [], ◌∷◌, drop, length, map, slice_get, slice_index};
ghost use Rattle.std.specs.List.{range_with_len};
ghost use Rattle.std.specs.Option.{option_copied};
ghost use Rattle.nir_search.specs.Match.{child, front, same_view, swapped, whole_view};

use crate::hit::Bind;
use nir_ir::{Src, Swizzle, ValueId};

/// The component at a place of a swizzle, and 0 past its end.
fn component(swizzle: &[u8], at: u8) -> u8
    ensures { result ≡ slice_index swizzle.now at }
{
    let at = at as usize;
    if at < swizzle.len() { swizzle[at] } else { 0 }
}

/// What a source is, of which at most 16 components are viewed.
pub fn child(comps: &[u8], src: &Src) -> Bind
    requires { length comps.now ≤ 16 }
    ensures { result ≡ child comps.now src.now }
{
    let mut viewed = Swizzle::new();
    for at in comps {
        viewed.push(component(src.swizzle.as_slice(), *at));
    }
    Bind {
        value: src.value,
        comps: viewed,
    }
}

/// The source that is met at a place, where the first two may stand swapped.
fn met_source(flag: bool, srcs: &[Src], at: usize) -> Option<&Src>
    ensures { option_copied result ≡ slice_get (swapped flag srcs.now) at }
{
    if !flag {
        return srcs.get(at);
    }
    match srcs {
        [first, second, ..] => match at {
            0 => Some(second),
            1 => Some(first),
            _ => srcs.get(at),
        },
        [] | [_] => srcs.get(at),
    }
}

/// The view of the source that is met at a place; of nothing where there is none.
#[tactic(auto, using(crate::proofs::MatchLemmas::viewed_at))]
pub fn child_at(comps: &[u8], flag: bool, srcs: &[Src], at: usize) -> Bind
    requires { length comps.now ≤ 16 }
    ensures { result ≡ front (drop at (map (child comps.now) (swapped flag srcs.now))) }
{
    match met_source(flag, srcs, at) {
        Some(src) => child(comps, src),
        None => Bind {
            value: ValueId(0),
            comps: Swizzle::new(),
        },
    }
}

/// All of at most 16 components of a value, in order.
#[tactic(auto, using(crate::proofs::MatchLemmas::range_next))]
pub fn whole_view(value: ValueId, count: u8) -> Bind
    requires { count ≤ 16 }
    ensures { result ≡ whole_view value count }
{
    let mut comps = Swizzle::new();
    for at in 0..count {
        comps.push(at);
    }
    Bind { value, comps }
}

/// Whether two views are of one value and one list of components.
pub fn same_view(a: &Bind, b: &Bind) -> bool
    ensures { result ≡ same_view a.now b.now }
{
    if a.value.0 != b.value.0 {
        return false;
    }
    a.comps.as_slice() == b.comps.as_slice()
}

/// The same view.
pub fn copy_of(view: &Bind) -> Bind
    ensures { result ≡ view.now }
{
    let mut comps = Swizzle::new();
    for at in view.comps.as_slice() {
        comps.push(*at);
    }
    Bind {
        value: view.value,
        comps,
    }
}
