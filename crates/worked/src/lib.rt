//! Worked examples: what meets the premises of laws and of public functions.
#![tactic(auto)]

pub mod law_examples;
pub mod link_examples;
pub mod number_examples;
pub mod session_examples;
