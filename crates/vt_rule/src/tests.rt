//! That rules can be copied, and which job is that of a state.
mod copies;
