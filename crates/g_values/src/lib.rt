//! Kinds and values: what a property, an argument or a result may hold, and how values are transformed from one kind to another.
//!
//! A contract sees a kind and a value as the pure ones of the abstract machine.
#![tactic(auto)]

mod arithmetic;
mod error;
mod kind;
mod members;
mod naming;
mod reading;
mod sameness;
mod transforming;
mod value;
mod whole;
mod zero;

pub use arithmetic::{
    is_at_most, is_equal, is_less, wrapping_difference, wrapping_product, wrapping_sum,
};
pub use error::{JsonError, JsonFault, TransformError, TransformFault};
pub use kind::{Kind, is_known};
pub use reading::{MOST_TEXT_BYTES, from_json};
pub use sameness::is_same;
pub use transforming::{transform, transformable};
pub use value::{Value, kind_of};
pub use zero::zero_of;
