//! Documents with the answer that each must give, and what small metamodels answer.
mod answers;
mod documents;
