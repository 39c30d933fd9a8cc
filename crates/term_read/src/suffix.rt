//! What is written for sizes and conditions behind a name.

ghost use Rattle.std.specs.Prelude.{◌≡◌, find};
ghost use Rattle.std.specs.Option.{option_map};
ghost use Rattle.std.specs.Str.{bytes_eq};
ghost use Rattle.rule_spelling.specs.Annotated.{size_written, cond_written};
ghost use Rattle.term_read.specs.Views.{size_entries, cond_entries};

use nir_ops::Width;
use rule_term::Cond;

/// What is written for each size, or for none.
const SIZES: [(&[u8], Option<Width>); 6] = [
    (b"", None),
    (b"@1", Some(Width::W1)),
    (b"@8", Some(Width::W8)),
    (b"@16", Some(Width::W16)),
    (b"@32", Some(Width::W32)),
    (b"@64", Some(Width::W64)),
];

/// What is written for each condition, or for none.
const CONDS: [(&[u8], Option<Cond>); 8] = [
    (b"", None),
    (b"(is_pos_power_of_two)", Some(Cond::PosPow2)),
    (b"(is_neg_power_of_two)", Some(Cond::NegPow2)),
    (b"(is_unsigned_multiple_of_4)", Some(Cond::MultipleOf4)),
    (b"(is_upper_half_zero)", Some(Cond::UpperHalfZero)),
    (b"(is_lower_half_zero)", Some(Cond::LowerHalfZero)),
    (b"(is_not_const)", Some(Cond::NotConst)),
    (b"(is_used_once)", Some(Cond::UsedOnce)),
];

/// The size that a text writes, or that it writes none; None where it writes something else.
pub fn size_written(text: &[u8]) -> Option<Option<Width>>
    ensures { result ≡ size_written text.now }
{
    first_size(&SIZES, text)
}

/// The condition that a text writes, or that it writes none; None where it writes something else.
pub fn cond_written(text: &[u8]) -> Option<Option<Cond>>
    ensures { result ≡ cond_written text.now }
{
    first_cond(&CONDS, text)
}

fn first_size(entries: &[(&[u8], Option<Width>)], text: &[u8]) -> Option<Option<Width>>
    ensures { result ≡ option_map (λ entry. entry.size) (find (λ entry. bytes_eq entry.text text.now) (size_entries entries.now)) }
{
    for entry in entries {
        if entry.0 == text {
            return Some(entry.1);
        }
    }
    None
}

fn first_cond(entries: &[(&[u8], Option<Cond>)], text: &[u8]) -> Option<Option<Cond>>
    ensures { result ≡ option_map (λ entry. entry.cond) (find (λ entry. bytes_eq entry.text text.now) (cond_entries entries.now)) }
{
    for entry in entries {
        if entry.0 == text {
            return Some(entry.1);
        }
    }
    None
}
