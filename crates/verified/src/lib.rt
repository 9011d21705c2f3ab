//! A verified definition with the numbers of its verification, and the report of them.
#![tactic(auto)]

mod faults;
mod numbers;
mod reports;
mod texts;
mod verified;
mod writing;

pub use faults::ReportFault;
pub use numbers::{Numbers, SourceBound};
pub use texts::{channel_text, program_name};
pub use verified::Verified;
