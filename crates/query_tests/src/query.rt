//! That programs can be copied, and what the definitions say of small programs.
mod copies;
mod definitions;
