//! Finds the first rule that a definition breaks, and writes the text of the refusal.
//!
//! Rules are tested in this order: those of instructions (`verify_instructions`), of handlers, which take what they are given, of bindings, which
//! fit the properties that they bind, of pairs, in which no property is twice, and of freezes and thaws, which match within a block. Nothing
//! runs. For each rule the first fault in document order is found, and the contract says that it is the first in the law's list. Cycles of
//! channels and bounds are not tested here.
#![tactic(auto)]

mod binding_rules;
mod brackets;
mod faults;
mod handlers;
mod open_brackets;
mod pairs;
mod paths;
mod texts;

pub use binding_rules::{BindingRule, BrokenBinding, binding_fault};
pub use brackets::{Unbalanced, bracket_fault, is_balanced};
pub use faults::{RuleFault, rule_fault};
pub use handlers::{Handling, handler_fault};
pub use pairs::{SecondPair, pair_fault};
pub use texts::fault_text;
