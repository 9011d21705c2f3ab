//! The program: `ui verify DEF` and `ui run DEF EVENTS`.
#![tactic(auto)]

ghost use Rattle.std.specs.Prelude.{◌≡◌, ℕ, IfOk, List, false};
ghost use Rattle.event_lines.specs.CheckView.{IsJudged};
ghost use Rattle.host_peers.specs.Stock.{stocked_pool, stocked_relations};
ghost use Rattle.ui_runner.specs.StockedRuns.{RunsStocked, RunsWith};

mod command_line;

use command_line::{Request, RunFiles, WordsFault, read_words};
use definitions::Definition;
pub use event_lines::{check, run};
use event_lines::{Counted, Ending, FileFault, Judgement, definition_bytes, judge, run_judged};
pub use host_peers::{Screen, Tally};
use host_peers::{PoolProgram, run_with_stock};
use native_peers::{Peers, StandIn};
use std::alloc::AllocError;
use std::env;
use std::fs::File;
use std::process::ExitCode;
use ui_machine::Device;
use verified::Verified;

fn main(rt: HostRuntime) -> ExitCode {
    ExitCode::from(status(&rt))
}

// Wraps a reader or a writer of std that was not called yet.
fn device<T: Drop>(inner: T) -> Counted<Device<T>>
    ensures works { result.device.failed ≡ false }
    ensures uncalled { result.calls ≡ 0 }
{
    Counted::new(Device::new(inner))
}

// Returns the words that the program was started with. The contracts of std say nothing of them, so there is no clause.
fn given_words(rt: &HostRuntime) -> Result<Vec<String>, WordsFault> {
    let words = env::args(rt)?.collect::<Vec<String>>(rt.alloc())?;
    Ok(words)
}

// Reads the words, carries out their request, and returns the status.
fn status(rt: &HostRuntime) -> u8 {
    let words = match given_words(rt) {
        Ok(words) => words,
        Err(fault) => return refuse_words(rt, fault),
    };
    match read_words(rt.alloc(), words.as_slice()) {
        Ok(request) => perform(rt, request),
        Err(fault) => refuse_words(rt, fault),
    }
}

fn refuse_words(rt: &HostRuntime, fault: WordsFault) -> u8 {
    match fault {
        WordsFault::Usage => Ending::Usage.tell(&mut device(rt.stderr()), ""),
        WordsFault::OutOfMemory => out_of_memory(rt),
    }
}

fn perform(rt: &HostRuntime, request: Request<'_>) -> u8 {
    match request {
        Request::Verify(definition) => check_file(rt, definition),
        Request::Run(files) => run_files(rt, files),
    }
}

// Reads the definition, checks it, and returns the status.
fn check_file(rt: &HostRuntime, definition: &str) -> u8 {
    let bytes = match definition_at(rt, definition) {
        Ok(bytes) => bytes,
        Err(fault) => return refuse_file(rt, fault, definition),
    };
    let mut writer = device(rt.stdout());
    check(rt.alloc(), bytes.as_slice(), &mut writer)
}

// The run of an accepted definition over a file of events, with the peers that the host makes: its screens show, and its tallies add.
#[derive(Drop)]
struct EventsRun<'a> {
    rt: &'a HostRuntime,
    verified: Verified,
    events: File,
}

impl PoolProgram for EventsRun<'_> {
    ghost runs = { λ run. run.verified };

    ghost asks = { λ run pool. pool ≡ stocked_pool run.verified };

    ghost expects = { λ run. stocked_relations run.verified };

    ghost answers = { λ run status. RunsStocked run.verified status };

    fn definition(&self) -> &Definition {
        self.verified.definition()
    }

    fn run<P: Peers>(self, pool: P) -> u8 {
        let judgement = Judgement::Accepted(self.verified);
        run_over(self.rt, judgement, pool, self.events)
    }
}

// Runs a definition that was judged over a file of events, and returns the status.
fn run_over<P: Peers>(rt: &HostRuntime, judgement: Judgement, pool: P, events: File) -> u8
    ensures { (bytes : List ℕ) → IsJudged bytes judgement → RunsWith (P.relations pool) (P.seen pool) bytes result }
{
    let mut reader = device(events);
    let mut writer = device(rt.stdout());
    let over = run_judged(rt.alloc(), judgement, pool, &mut reader, &mut writer);
    over.status
}

// Reads the definition, opens the events, runs, and returns the status.
fn run_files(rt: &HostRuntime, files: RunFiles<'_>) -> u8 {
    let bytes = match definition_at(rt, files.definition) {
        Ok(bytes) => bytes,
        Err(fault) => return refuse_file(rt, fault, files.definition),
    };
    let Ok(events) = File::open(rt, files.events) else {
        return unreadable(rt, files.events);
    };
    match judge(rt.alloc(), bytes.as_slice()) {
        Judgement::Accepted(verified) => run_accepted(EventsRun {
            rt,
            verified,
            events,
        }),
        refused => run_refused(rt, refused, events),
    }
}

// Runs an accepted definition with the peers that the host makes for it.
fn run_accepted(program: EventsRun<'_>) -> u8 {
    let rt = program.rt;
    match run_with_stock(rt.alloc(), program) {
        Ok(status) => status,
        Err(AllocError) => out_of_memory(rt),
    }
}

// Writes why a definition is not run. It needs no peers.
fn run_refused(rt: &HostRuntime, judgement: Judgement, events: File) -> u8 {
    let nobody: Option<StandIn> = None;
    run_over(rt, judgement, nobody, events)
}

fn definition_at(rt: &HostRuntime, name: &str) -> Result<Vec<u8>, FileFault> {
    let Ok(file) = File::open(rt, name) else {
        return Err(FileFault::Unreadable);
    };
    let mut reader = Device::new(file);
    definition_bytes(rt.alloc(), &mut reader)
}

fn refuse_file(rt: &HostRuntime, fault: FileFault, name: &str) -> u8 {
    match fault {
        FileFault::OutOfMemory => out_of_memory(rt),
        FileFault::Unreadable => unreadable(rt, name),
    }
}

fn unreadable(rt: &HostRuntime, name: &str) -> u8 {
    Ending::Unreadable.tell(&mut device(rt.stderr()), name)
}

fn out_of_memory(rt: &HostRuntime) -> u8 {
    Ending::OutOfMemory.tell(&mut device(rt.stdout()), "")
}
