//! What tests ask of a row: a key of at most four values, and two spans.
#![tactic(auto)]

mod asked;
mod asking;
mod grouping;
mod key;
mod key_form;
mod other;
mod reading;
mod span;
mod span_form;

pub use asked::{AskedBox, TestForms, asked_box, read_rights, rights_fault};
pub use asking::Asking;
pub use grouping::GroupingAttrs;
pub use key::asked_key;
pub use other::{other_asked, other_of};
pub use reading::{Reading, groups_by};
pub use span::Span;
