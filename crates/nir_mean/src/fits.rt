//! Whether the inputs and buffers of words fit a shader.

ghost use Rattle.std.specs.Prelude.{◌≡◌, ◌^◌, nat_lt};
ghost use Rattle.std.specs.List.{list_all};
ghost use Rattle.nir_ops.specs.Width.{width_bits};
ghost use Rattle.nir_mean.specs.EvalAnswers.{comps_fit, inputs_fit, words_fit};

use eval_words::EvalWords;
use nir_ir::{Comps, Kind, Shader};
use nir_ops::Width;

/// Whether a component is a word of this width.
fn is_word(width: Width, comp: u64) -> bool
    ensures { result ≡ nat_lt comp (2 ^ width_bits width) }
{
    match width {
        Width::W1 => comp < 2,
        Width::W8 => comp < 256,
        Width::W16 => comp < 65_536,
        Width::W32 => comp < 4_294_967_296,
        Width::W64 => true,
    }
}

fn are_words(width: Width, comps: &[u64]) -> bool
    ensures { result ≡ list_all (λ comp. nat_lt comp (2 ^ width_bits width)) comps.now }
{
    for comp in comps {
        if !is_word(width, *comp) {
            return false;
        }
    }
    true
}

/// As many components as the kind says, each a word of its width.
fn comps_fit(kind: Kind, comps: &[u64]) -> bool
    ensures { result ≡ comps_fit kind comps.now }
{
    if comps.len() != usize::from(kind.count) {
        return false;
    }
    are_words(kind.width, comps)
}

/// A component list for each kind, which fits it.
fn inputs_fit(kinds: &[Kind], inputs: &[Comps]) -> bool
    ensures { result ≡ inputs_fit kinds.now inputs.now }
{
    match kinds {
        [] => inputs.is_empty(),
        [kind, kinds @ ..] => match inputs {
            [] => false,
            [comps, inputs @ ..] => {
                if !comps_fit(*kind, comps.as_slice()) {
                    return false;
                }
                inputs_fit(kinds, inputs)
            }
        },
    }
}

/// Whether there is a component list for each declared input, and a buffer for each that is declared.
#[tactic(auto, unfolding(crate::specs::EvalAnswers::words_fit))]
pub fn words_fit(words: &EvalWords, shader: &Shader) -> bool
    ensures { result ≡ words_fit words.now shader.now }
{
    if !inputs_fit(shader.inputs.as_slice(), words.inputs.as_slice()) {
        return false;
    }
    words.buffers.len() as u64 == u64::from(shader.buffers)
}
