//! Judges a definition: whether no run of it is ever stuck, and how many steps each dispatch takes at most.
//!
//! The bounds of dispatches and the frames that the definition needs come from the numbers of its channels.
#![tactic(auto)]

mod bounds;
mod builds;
mod by_channel;
mod cycles;
mod faults;
mod large_bounds;
mod sources;
mod texts;
mod verdicts;

pub use builds::{build_bound, makings_depth};
pub use by_channel::{capped_sum, greatest_of, total_of};
pub use faults::{CycleLink, Refusal, VerifyError, VerifyFault};
pub use sources::source_programs;
pub use verdicts::verify;
pub use verified::Verified;
