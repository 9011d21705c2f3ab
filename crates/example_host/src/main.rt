//! A whole host, as an example: it reads a definition and verifies it, runs it in a session with a peer of its own, and makes its events
//! itself, as a toolkit would.
#![tactic(auto)]

mod button;
mod host_faults;

use builder_defs::{ReadError, read_definition};
use button::{Button, DEFINITION};
use checked_events::is_event_of;
use definition_format::Event;
use definitions::Definition;
use g_values::Value;
use host_faults::HostFault;
use host_peers::Tally;
use native_peers::{Peer, PeerPool, Peers};
use std::alloc::Global;
use std::process::ExitCode;
use ui_engine::{Finished, Session, SessionFault, Started};
use ui_verifier::{Verified, VerifyError, verify};

fn main(rt: HostRuntime) -> ExitCode {
    match run(&rt) {
        Ok(()) => ExitCode::SUCCESS,
        Err(fault) => report(&rt, &fault),
    }
}

// Says why the host ends early. Where the line is not taken either, the status alone says so.
fn report(rt: &HostRuntime, fault: &HostFault) -> ExitCode {
    let _said = println!(rt; "the host ends: {fault:?}");
    ExitCode::FAILURE
}

// Runs the definition with a pool of one peer, and says what is left of that.
fn run(rt: &HostRuntime) -> Result<(), HostFault> {
    let alloc = rt.alloc();
    let verified = verified(alloc)?;
    let mut pool = PeerPool::new(alloc);
    let clicks = Box::new(alloc, Tally::new(alloc)?)?;
    pool.add("clicks", clicks)?;
    let Ended { played, peers } = run_with(rt, verified, pool)?;
    print_peer(rt, peers)?;
    played
}

// What the events came to, and the peers that are left.
#[derive(Drop)]
struct Ended<P> {
    played: Result<(), HostFault>,
    peers: P,
}

// Runs a definition with its peers over some events, and ends the session whatever came of them.
fn run_with<P: Peers>(
    rt: &HostRuntime,
    verified: Verified,
    peers: P,
) -> Result<Ended<P>, HostFault> {
    let Started { mut session, build } = Session::start(rt.alloc(), verified, peers)?;
    let played = match build {
        Ok(_) => play(rt, &mut session),
        Err(_) => Err(HostFault::Stopped),
    };
    let Finished { transcript, pool } = session.finish();
    print_lines(rt, transcript.as_slice())?;
    Ok(Ended {
        played,
        peers: pool,
    })
}

// Reads the definition and verifies it.
fn verified(alloc: Global) -> Result<Verified, HostFault> {
    let definition = match read_definition(alloc, DEFINITION.as_bytes()) {
        Ok(definition) => definition,
        Err(ReadError::OutOfMemory) => return Err(HostFault::OutOfMemory),
        Err(ReadError::Refused(fault)) => return Err(HostFault::Definition(fault.text(alloc)?)),
    };
    match verify(alloc, definition) {
        Ok(verified) => Ok(verified),
        Err(VerifyError::OutOfMemory) => Err(HostFault::OutOfMemory),
        Err(VerifyError::Refused(refusal)) => Err(HostFault::Definition(refusal.text)),
    }
}

// The lines of the build, and then events as they come.
fn play<P: Peers>(rt: &HostRuntime, session: &mut Session<P>) -> Result<(), HostFault> {
    let Some(button) = Button::find(session.definition()) else {
        return Err(HostFault::NoButton);
    };
    take_lines(rt, session)?;
    carry_out(rt, session, button.set_step(Value::Int64(5)))?;
    carry_out(rt, session, button.click(rt.alloc()))?;
    carry_out(rt, session, button.click(rt.alloc()))?;
    carry_out(rt, session, Event::Turn(40))?;
    carry_out(rt, session, button.get_total())?;
    carry_out(rt, session, button.get_panel())?;
    // A text is no step.
    carry_out(rt, session, button.set_step(Value::Text(None)))?;
    // The clock does not go back.
    carry_out(rt, session, Event::Turn(20))
}

// Carries out an event, if it is one of the definition, and prints the lines that it leads to and what it answers.
fn carry_out<P: Peers>(
    rt: &HostRuntime,
    session: &mut Session<P>,
    event: Event,
) -> Result<(), HostFault> {
    if !is_event_of(session.definition(), &event) {
        println!(rt; "that is no event of the definition")?;
        return Ok(());
    }
    let outcome = session.dispatch(event);
    take_lines(rt, session)?;
    match outcome {
        Ok(reply) => print_answer(rt, session.definition(), reply.result),
        Err(SessionFault::OutOfMemory | SessionFault::Stopped) => Err(HostFault::Stopped),
        Err(SessionFault::Released) => {
            println!(rt; "the object was released")?;
            Ok(())
        }
        Err(SessionFault::ClockBack) => {
            println!(rt; "the clock went back")?;
            Ok(())
        }
    }
}

// Prints the lines that were said, and has the session forget them.
fn take_lines<P: Peers>(rt: &HostRuntime, session: &mut Session<P>) -> Result<(), HostFault> {
    print_lines(rt, session.transcript())?;
    session.forget();
    Ok(())
}

fn print_lines(rt: &HostRuntime, lines: &[String]) -> Result<(), HostFault> {
    for line in lines {
        println!(rt; "{line}")?;
    }
    Ok(())
}

// Prints the value that an event answered, if it answered one: an object with the type that its property declares.
fn print_answer(
    rt: &HostRuntime,
    definition: &Definition,
    answer: Option<Value>,
) -> Result<(), HostFault> {
    match &answer {
        Some(Value::Object(declared, Some(object))) => {
            let class = definition.class_name(*declared);
            println!(rt; "the answer is #{}, a {class}", object.0)?;
        }
        Some(value) => println!(rt; "the answer is {value:?}")?,
        None => {}
    }
    Ok(())
}

// Prints how the peer was called, and whether it is open: a session that is finished has closed it.
fn print_peer(rt: &HostRuntime, mut pool: PeerPool) -> Result<(), HostFault> {
    if let Some(tally) = pool.take("clicks") {
        let (calls, faults) = tally.counts();
        let is_open = tally.is_open();
        println!(rt; "clicks: {calls} calls, {faults} faults, open {is_open}")?;
    }
    Ok(())
}
