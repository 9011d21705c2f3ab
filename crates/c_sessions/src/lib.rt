//! Sessions for a host that is written in C: without peers, each held by a handle, with its events whole or in parts, and its lines as a stream
//! of bytes.
//!
//! A [`HostedSession`] is a session that knows how far its lines were taken, and how far its event has come. A [`SessionHandle`] is what C has
//! of one: it holds a session, or none. The crate `ui_c` exports what can be done with a handle.
#![tactic(auto)]

mod buffers;
mod dispatches;
mod faults;
mod hosted_session;
mod kept;
mod loose;
mod moments;
mod readings;
mod running;
mod session_handle;
mod starts;
mod status;
mod taken_lines;
mod verdicts;
mod versions;

pub use faults::HostedFault;
pub use hosted_session::HostedSession;
pub use kept::Kept;
pub use moments::tell_due;
pub use session_handle::SessionHandle;
pub use starts::{LimitedStart, Started, start, start_within};
pub use status::Status;
pub use verdicts::{tell_verdict, verify};
pub use versions::tell_version;
