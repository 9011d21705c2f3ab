//! The methods of peers, and shapes, which are lists of methods with distinct names.
#![tactic(auto)]

mod methods;
mod shapes;

pub use methods::{Method, MethodRef};
pub use shapes::Shape;
