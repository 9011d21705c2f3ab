//! Whether a verified definition keeps within a number of steps that its host allows, before anything of it is built.
#![tactic(auto)]

mod laws;
mod limits;

pub use laws::within;
pub use limits::is_within;
