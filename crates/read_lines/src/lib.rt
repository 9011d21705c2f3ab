//! Reads event lines of the plain forms: a set of a value that is no list and no object, a get, a release, an emission without a detail,
//! and a turn.
//!
//! A plain line is read token by token, with a scratch buffer that is kept from line to line. It has the same meaning as the JSON value
//! that `serde_json` reads from it.
#![tactic(auto)]

mod lines;
mod numbers;
mod tokens;

pub use json::Scratch;
pub use lines::PlainLine;
