//! The runtime for programs in C: a session from the bytes of a definition, event lines in, and the bytes of lines out. `examples/host_c`
//! has the header, which says what a host has to keep to.
//!
//! Each function does what `verify` or the method of its name does with a [`SessionHandle`]. If that has a status, the function returns its
//! number.
#![tactic(auto)]

ghost use Rattle.std.specs.Prelude.{◌≡◌, None, Option, length};
ghost use Rattle.ui_engine.specs.declared.next_due.NextDue.{NextDue};
ghost use Rattle.c_sessions.specs.Buffers.{with_text};
ghost use Rattle.c_sessions.specs.Handles.{AdvancesAs, BeginsAs, Dispatches, Starts, Takes};
ghost use Rattle.c_sessions.specs.Keeping.{KeepsEnding};
ghost use Rattle.c_sessions.specs.Limited.{EndsWithin};
ghost use Rattle.c_sessions.specs.Moments.{TellsNext, code_of_due, moment_told};
ghost use Rattle.c_sessions.specs.Statuses.{code_of};
ghost use Rattle.c_sessions.specs.Told.{Finds, FindsNext, Tells, class_told, object_told, value_told};
ghost use Rattle.c_sessions.specs.Verdicts.{Reports, Verifies};
ghost use Rattle.c_sessions.specs.Versions.{version};
ghost use Rattle.c_sessions.specs.declared.status.Status.{Status};

use c_sessions::{SessionHandle, tell_due, tell_verdict, tell_version, verify};
use std::alloc::Global;

/// Writes the version of the library, as `c_sessions::tell_version` does.
#[unsafe(no_mangle)]
pub extern "C" fn gelvopaun_version(out: &mut [u8]) -> usize
    ensures told { out.new ≡ with_text out.old version }
    ensures length { result ≡ length version }
{
    tell_version(out)
}

/// Judges a definition and writes its report, as `c_sessions::verify` does.
#[unsafe(no_mangle)]
pub extern "C" fn gelvopaun_verify(alloc: Global, definition: &[u8], report: &mut [u8]) -> u8
    ensures { (status : Status) × (result ≡ code_of status) × Verifies definition.now report.old status report.new }
{
    verify(alloc, definition, report).code()
}

/// Judges a definition, writes its report, and tells how long that is, as `c_sessions::tell_verdict` does.
#[unsafe(no_mangle)]
pub extern "C" fn gelvopaun_report(
    alloc: Global,
    definition: &[u8],
    report: &mut [u8],
    whole: &mut usize,
) -> u8
    ensures { (status : Status) × (result ≡ code_of status) × Reports definition.now report.old status report.new whole.new }
{
    tell_verdict(alloc, definition, report, whole).code()
}

/// Starts a session from the bytes of a definition, as `SessionHandle::start` does.
#[unsafe(no_mangle)]
pub extern "C" fn gelvopaun_start(
    alloc: Global,
    definition: &[u8],
    ui: &mut SessionHandle,
    refusal: &mut [u8],
) -> u8
    ensures { (status : Status) × (result ≡ code_of status) × Starts definition.now refusal.old status ui.new.kept.session refusal.new }
{
    ui.start(alloc, definition, refusal).code()
}

/// Starts a session of which no dispatch may count more steps than `most`, as `SessionHandle::start_within` does.
#[unsafe(no_mangle)]
pub extern "C" fn gelvopaun_start_within(
    alloc: Global,
    definition: &[u8],
    ui: &mut SessionHandle,
    most: u64,
    refusal: &mut [u8],
) -> u8
    ensures { (status : Status) × (result ≡ code_of status) × EndsWithin definition.now most refusal.old status ui.new.kept.session refusal.new }
{
    ui.start_within(alloc, definition, most, refusal).code()
}

/// Makes the session carry out an event line, as `SessionHandle::dispatch` does.
#[unsafe(no_mangle)]
pub extern "C" fn gelvopaun_dispatch(
    alloc: Global,
    ui: &mut SessionHandle,
    line: &[u8],
    refusal: &mut [u8],
) -> u8
    ensures { (status : Status) × (result ≡ code_of status) × Dispatches line.now refusal.old ui.old.kept.session status ui.new.kept.session refusal.new × KeepsEnding line.now ui.old.kept.session status }
{
    ui.dispatch(alloc, line, refusal).code()
}

/// Makes the session begin the event of a line, as `SessionHandle::begin` does.
#[unsafe(no_mangle)]
pub extern "C" fn gelvopaun_begin(
    alloc: Global,
    ui: &mut SessionHandle,
    line: &[u8],
    refusal: &mut [u8],
) -> u8
    ensures { (status : Status) × (result ≡ code_of status) × BeginsAs line.now refusal.old ui.old.kept.session status ui.new.kept.session refusal.new × KeepsEnding line.now ui.old.kept.session status }
{
    ui.begin(alloc, line, refusal).code()
}

/// Goes on with the event that is under way, as `SessionHandle::advance` does.
#[unsafe(no_mangle)]
pub extern "C" fn gelvopaun_advance(alloc: Global, ui: &mut SessionHandle, most: u64) -> u8
    ensures { (status : Status) × (result ≡ code_of status) × AdvancesAs most ui.old.kept.session status ui.new.kept.session }
{
    ui.advance(alloc, most).code()
}

/// Tells when a turn has something to run next, as `SessionHandle::next_due` and `tell_due` do.
#[unsafe(no_mangle)]
pub extern "C" fn gelvopaun_next_due(alloc: Global, ui: &mut SessionHandle, moment: &mut u64) -> u8
    ensures { (due : Option NextDue) × TellsNext ui.old.kept.session due ui.new.kept.session × (result ≡ code_of_due due) × (moment.new ≡ moment_told due moment.old) }
{
    let due = ui.next_due(alloc);
    tell_due(due, moment)
}

/// Takes bytes of the session's lines, as `SessionHandle::take_lines` does, and returns how many.
#[unsafe(no_mangle)]
pub extern "C" fn gelvopaun_take_lines(
    alloc: Global,
    ui: &mut SessionHandle,
    out: &mut [u8],
) -> usize
    ensures { Takes out.old ui.old.kept.session result ui.new.kept.session out.new }
{
    ui.take_lines(alloc, out)
}

/// Returns the lowest identity of an object that lives, from this one on, as `SessionHandle::next_object` does.
#[unsafe(no_mangle)]
pub extern "C" fn gelvopaun_next_object(alloc: Global, ui: &mut SessionHandle, from: u64) -> u64
    ensures { FindsNext from ui.old.kept.session result ui.new.kept.session }
{
    ui.next_object(alloc, from)
}

/// Returns the identity of the document's object with this id, as `SessionHandle::identity` does.
#[unsafe(no_mangle)]
pub extern "C" fn gelvopaun_object(alloc: Global, ui: &mut SessionHandle, id: &[u8]) -> u64
    ensures { Finds id.now ui.old.kept.session result ui.new.kept.session }
{
    ui.identity(alloc, id)
}

/// Writes an object as JSON, as `SessionHandle::describe` does, and returns the whole length.
#[unsafe(no_mangle)]
pub extern "C" fn gelvopaun_describe(
    alloc: Global,
    ui: &mut SessionHandle,
    object: u64,
    out: &mut [u8],
) -> usize
    ensures { Tells (object_told object) ui.old.kept.session out.old result ui.new.kept.session out.new }
{
    ui.describe(alloc, object, out)
}

/// Writes the value of an object's property as JSON, as `SessionHandle::get` does, and returns the whole length.
#[unsafe(no_mangle)]
pub extern "C" fn gelvopaun_get(
    alloc: Global,
    ui: &mut SessionHandle,
    object: u64,
    property: &[u8],
    out: &mut [u8],
) -> usize
    ensures { Tells (value_told object property.now) ui.old.kept.session out.old result ui.new.kept.session out.new }
{
    ui.get(alloc, object, property, out)
}

/// Writes a class as JSON, as `SessionHandle::class` does, and returns the whole length.
#[unsafe(no_mangle)]
pub extern "C" fn gelvopaun_class(
    alloc: Global,
    ui: &mut SessionHandle,
    name: &[u8],
    out: &mut [u8],
) -> usize
    ensures { Tells (class_told name.now) ui.old.kept.session out.old result ui.new.kept.session out.new }
{
    ui.class(alloc, name, out)
}

/// Ends the session and frees it, if there is one.
#[unsafe(no_mangle)]
pub extern "C" fn gelvopaun_finish(alloc: Global, ui: &mut SessionHandle)
    ensures { ui.new.kept.session ≡ None }
{
    ui.finish(alloc);
}
