//! Resolvers: each holds the enabled activations of an agenda, and picks which of them fires next.
//!
//! It stands on `vt_sorted` and `vt_base`. Read `specs/Entries.antt`, then `specs/Choice.antt`:
//! these are trusted, and `vt_sorted/specs/Ascending.antt` and `vt_base/specs/Order.antt` below
//! them.
#![tactic(auto)]

// What is chosen among, and what a resolver owes.
mod entry;
mod resolver;
// What follows from the definitions.
mod laws;
// An entry in an order, and the resolvers that pick the least under theirs.
mod least;
mod ranking;
// The four resolvers.
mod fixed;
mod inverted;
mod oldest;
mod turns;

// What is chosen among, and what a resolver owes.
pub use entry::Entry;
pub use resolver::Resolver;
// What follows from the definitions.
pub use laws::{each_has_its_policy, one_of_some_is_chosen};
// The resolvers that pick the least under their order.
pub use least::LeastBy;
// The four resolvers.
pub use fixed::Fixed;
pub use inverted::Inverted;
pub use oldest::Oldest;
pub use turns::Turns;

#[cfg(test)]
mod tests;
