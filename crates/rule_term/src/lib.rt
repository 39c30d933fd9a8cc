//! Rules on terms of opcodes, and tables of rules that hold.
#![tactic(auto)]

mod cond;
mod descending;
mod eight;
mod formed;
mod nodes;
mod replace;
mod rule;
mod search_sizes;
mod side;
mod table;
mod term;
mod typing;
mod value;
mod variant;
mod when;
mod width_set;

pub use cond::{Cond, cond_holds};
pub use formed::{formed_is_tested, may_stand};
pub use nodes::nodes_in;
pub use replace::replace_widths;
pub use rule::Rule;
pub use search_sizes::{has_size, note_term, same_width, size_at};
pub use side::{Side, eval_term};
pub use table::Table;
pub use term::{Term, Terms};
pub use typing::{Typing, Widths};
pub use value::reduced;
pub use variant::{RuleVariant, variants_keep_values};
pub use when::{Names, Options, When};
pub use width_set::{Known, WidthSet, demanded, sizes_of_term, unsized_for, usable};
