//! The words that every other crate speaks: texts, lists, values, rows, and how a value is printed.
//!
//! It stands on `vt_shared`, `vt_facts` and `vt_sorted`, keeps short tuples by `smallvec`, and prints by
//! `serde_json` and `itoa`. Read `vt_facts/specs/Room.antt`,
//! `vt_sorted/specs/Ascending.antt`, `specs/Order.antt`, `specs/Rows.antt`,
//! `specs/Aggregate.antt`, `specs/Base.antt`, `specs/Names.antt`, then `specs/Written.antt`: these
//! are trusted.
#![tactic(auto)]

// Memory: what wanting it answers, and what can be copied.
mod plain;
// Texts and lists.
mod list;
mod roomy;
mod text;
// Values, and the numbers of what a metamodel and a model name.
mod numbers;
mod value;
// Tuples of values, sets of them, and what a column of one comes to.
mod aggregate;
mod laws;
mod rows;
mod tuple;
// What queries ask a model for.
mod base;
// Activations of rules, and how an agenda picks one.
mod agenda;
// Printing.
mod names;
mod writing;
// Counted steps.
mod steps;

// Memory: what wanting it answers, and what can be copied.
pub use vt_facts::{NoMemory, Plain};
// Texts and lists.
pub use list::List;
pub use roomy::Roomy;
pub use text::Text;
// Values, and the numbers of what a metamodel and a model name.
pub use numbers::{AttrId, ClassId, ObjId, PatternId, RefId, RuleId};
pub use value::{Kind, Value};
// Tuples of values, sets of them, and what a column of one comes to.
pub use aggregate::AggKind;
pub use laws::{
    a_list_has_one_set, a_tuple_stands_where_it_is, tuples_are_ordered, values_are_ordered,
};
pub use rows::Rows;
pub use tuple::Tuple;
pub use vt_sorted::Walk;
// What queries ask a model for.
pub use base::Base;
// Activations of rules, and how an agenda picks one.
pub use agenda::{Policy, State};
// Printing.
pub use names::Names;
pub use writing::{write_tuple, write_value};
// Counted steps.
pub use steps::Steps;
