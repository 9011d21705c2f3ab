//! JSON values that take little room: a list and an object have room for just what is in them.
//!
//! A value stands for the same data as the `Value` that `serde_json` reads from the same text, and its readers have the same contracts.
#![tactic(auto)]

mod copies;
mod error;
mod numbers;
mod reading;
mod scalars;
mod value;

pub use error::ReadFault;
pub use scalars::from_json;
pub use value::Value;
