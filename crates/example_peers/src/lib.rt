//! Three peers as a host writes its own: the smallest that there can be, one that divides, and one that measures and reads texts.
//!
//! Each has a relation in `specs/`, which says what a call answers. What a peer promises is that it answers as its relation says, counts
//! its calls and faults, and closes.
#![tactic(auto)]

mod bells;
mod numbers;
mod texts;

pub use bells::Bell;
pub use numbers::Numbers;
pub use texts::Texts;
