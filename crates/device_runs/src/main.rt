//! Runs over devices that fail, for tests: each read and each write of a run fails once, and a writer takes one byte at a time, or none.
//!
//! Each word of the command line names a definition and its events, the files `NAME.json` and `NAME.jsonl`. A line says with which status a
//! run of them ended, and whether what came to its writer is a front of what comes where nothing fails. That `run` keeps to this with every
//! device is proved. Here it is seen.
#![tactic(auto)]

mod attempts;
mod run_faults;
mod scripted_feed;
mod scripted_sink;

use attempts::{Attempt, Case, Script};
use event_lines::definition_bytes;
use run_faults::RunFault;
use std::env;
use std::fs::File;
use std::process::ExitCode;
use ui_machine::Device;

fn main(rt: HostRuntime) -> ExitCode {
    match run_cases(&rt) {
        Ok(()) => ExitCode::SUCCESS,
        Err(_) => ExitCode::FAILURE,
    }
}

// Runs the cases that the words name.
fn run_cases(rt: &HostRuntime) -> Result<(), RunFault> {
    let words = env::args(rt)?.collect::<Vec<String>>(rt.alloc())?;
    for name in words.iter().skip(1) {
        run_case(rt, name.as_str())?;
    }
    Ok(())
}

// Returns the bytes of a file.
fn bytes_of(rt: &HostRuntime, name: &str) -> Result<Vec<u8>, RunFault> {
    let file = File::open(rt, name)?;
    let bytes = definition_bytes(rt.alloc(), &mut Device::new(file))?;
    Ok(bytes)
}

// Runs a definition over its events: once where nothing fails, and then with each failure.
fn run_case(rt: &HostRuntime, name: &str) -> Result<(), RunFault> {
    let definition = bytes_of(rt, format!(in rt.alloc(); "{name}.json")?.as_str())?;
    let events = bytes_of(rt, format!(in rt.alloc(); "{name}.jsonl")?.as_str())?;
    let case = Case {
        definition: definition.as_slice(),
        events: events.as_slice(),
    };
    let whole = case.attempt(rt.alloc(), Script::whole());
    let (status, reads) = (whole.status, whole.reads);
    let (writes, bytes) = (whole.writes, whole.written.len());
    println!(rt; "{name}: status {status}, {reads} reads, {writes} writes, {bytes} bytes")?;
    fail_reads(rt, name, &case, &whole)?;
    fail_writes(rt, name, &case, &whole)?;
    take_few(rt, name, &case, &whole, 1)?;
    take_few(rt, name, &case, &whole, 0)
}

// Runs the case once for each of its reads, which fails.
fn fail_reads(
    rt: &HostRuntime,
    name: &str,
    case: &Case<'_>,
    whole: &Attempt,
) -> Result<(), RunFault> {
    for number in 0..whole.reads {
        let attempt = case.attempt(rt.alloc(), Script::failing_read(number));
        let (status, text) = (attempt.status, attempt.beside(rt.alloc(), whole)?);
        println!(rt; "{name}: status {status} where read {number} fails, {text}")?;
    }
    Ok(())
}

// Runs the case once for each of its writes, which fails.
fn fail_writes(
    rt: &HostRuntime,
    name: &str,
    case: &Case<'_>,
    whole: &Attempt,
) -> Result<(), RunFault> {
    for number in 0..whole.writes {
        let attempt = case.attempt(rt.alloc(), Script::failing_write(number));
        let (status, text) = (attempt.status, attempt.beside(rt.alloc(), whole)?);
        println!(rt; "{name}: status {status} where write {number} fails, {text}")?;
    }
    Ok(())
}

// Runs the case with writes that take no more than so many bytes.
fn take_few(
    rt: &HostRuntime,
    name: &str,
    case: &Case<'_>,
    whole: &Attempt,
    most: usize,
) -> Result<(), RunFault> {
    let attempt = case.attempt(rt.alloc(), Script::taking(most));
    let (status, text) = (attempt.status, attempt.beside(rt.alloc(), whole)?);
    println!(rt; "{name}: status {status} where writes take {most} at most, {text}")?;
    Ok(())
}
