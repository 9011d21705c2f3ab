//! The verdict on a definition, for a host in C.

ghost use Rattle.std.specs.Prelude.{◌≡◌};
ghost use Rattle.c_sessions.specs.Verdicts.{Reports, Verifies, status_of_check};

use crate::buffers::write_text;
use crate::status::Status;
use event_lines::{Counted, check};
use std::alloc::Global;
use ui_machine::Device;

/// Judges a definition, and writes its report or the one line of its refusal, as `write_text` does. That is what `ui verify` prints.
/// Nothing is run. If memory is refused, a front of the text is written.
pub fn verify(alloc: Global, definition: &[u8], report: &mut [u8]) -> Status
    ensures { Verifies definition.now report.old result report.new }
{
    let mut whole = 0;
    tell_verdict(alloc, definition, report, &mut whole)
}

/// Like `verify`, and tells how long the whole text is, of which there may have been room for a front alone.
pub fn tell_verdict(
    alloc: Global,
    definition: &[u8],
    report: &mut [u8],
    whole: &mut usize,
) -> Status
    ensures { Reports definition.now report.old result report.new whole.new }
{
    let mut writer = Counted::new(Device::new(Vec::new(alloc)));
    let code = check(alloc, definition, &mut writer);
    let text = writer.device.inner.as_slice();
    write_text(report, text);
    *whole = text.len();
    status_of(code)
}

// Returns the status of a check that ended with this number.
fn status_of(code: u8) -> Status
    ensures { result ≡ status_of_check code }
{
    match code {
        0 => Status::Done,
        1 => Status::DefinitionRefused,
        _ => Status::Stopped,
    }
}
