//! Metamodels, asked for classes and features. And what a model of one is, as plain lists, and what a
//! change does to it.
//!
//! It stands on `vt_base`. Read `specs/Metamodel.antt` and `specs/Sound.antt`; then
//! `specs/Model.antt`, `specs/Creating.antt`, `specs/Assigning.antt`, `specs/Linking.antt`,
//! `specs/Containing.antt`, `specs/Deleting.antt`, `specs/Effect.antt` and
//! `specs/Transaction.antt`; then `specs/Storable.antt`, `specs/Fits.antt`, `specs/Valid.antt`,
//! `specs/Kept.antt` and `specs/Base.antt`.
//! `specs/Places.antt` and `specs/Above.antt` are for the reader of documents, in `vt_meta`.
#![tactic(auto)]

// A metamodel, and what it answers.
mod features;
mod metamodel;
// Names by their places, and classes above classes.
mod above;
mod places;
// What a model holds, and the changes to one.
mod change;
mod model;
mod plain;
// What holds of every metamodel, and of every model that changes make.
mod laws;

// A metamodel, and what it answers.
pub use metamodel::{AttrInfo, ClassInfo, EnumInfo, Feature, Lists, Metamodel, RefInfo};
// Names by their places, and classes above classes.
pub use above::classes_above;
pub use places::{Places, places_of};
// What a model holds, and the changes to one.
pub use change::{Change, Given, Refusal};
pub use model::{AttributeValue, GoneObject, Link, Object};
// What holds of every metamodel, and of every model that changes make.
pub use laws::{
    base_ascends, base_has_columns, effect_keeps_names, effect_keeps_valid, empty_is_valid,
    inside_is_a_path, isa_is_a_path, transaction_keeps_names, transaction_keeps_valid,
};
