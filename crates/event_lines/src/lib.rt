//! The program as a library: a run of a definition with a pool of peers over event lines, and a check of a definition before anything runs.
//!
//! [`run`] is a whole run, from the bytes of a reader to those of a writer, and [`check`] is a whole check. Their parts are the bytes of a
//! reader in chunks, the lines in them, the outcome of each line, and text that is gathered and written in large pieces. A program that
//! embeds the runtime without files uses `ui_engine` instead.
#![tactic(auto)]

mod chunk;
mod definition_checks;
mod definition_file;
mod devices;
mod event_file;
mod exit_status;
mod line_handler;
mod line_outcome;
mod line_reader;
mod output;
mod output_buffer;
mod refusal;
mod session_start;
mod slices;
mod whole_runs;
mod writing;

pub use definition_checks::{Judgement, check, judge};
pub use definition_file::{FileFault, definition_bytes};
pub use devices::{Counted, Reader, Writer};
pub use exit_status::Ending;
pub use line_handler::LineFault;
pub use refusal::LineRefusal;
pub use session_start::{Opening, open};
pub use whole_runs::{Over, run, run_judged, run_with};

/// The greatest number of bytes of an event line, without its LF.
pub const MAX_LINE_BYTES: usize = 65_536;

/// The greatest number of event lines.
pub const MAX_LINES: u64 = 65_536;
