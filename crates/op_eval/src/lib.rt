//! What each opcode means, computed on native integers.
#![tactic(auto)]

mod apply;
mod arms;
mod compare;
mod component;
mod convert;
mod divide;
mod extract;
mod field;
mod find;
mod half;
mod product;
mod saturate;
mod shape;
mod shift;
mod size;
mod view;
mod whole;
mod whole_list;
mod word;

pub use component::eval;
pub use shape::{Shape, shape_on_lists};
pub use view::{Components, View};
pub use whole_list::eval_view;
pub use word::Word;
