//! Direct calls of the libraries, for tests: each line of standard input is a call, and a line says what it answered.
//!
//! A line has the name of a library, the name of a call and the words of the call, for example `types class Base GObject`. What a
//! definition with its events can show is a folder of `conformance/`. Here are calls that no event makes.
#![tactic(auto)]

mod call_faults;
mod handler_calls;
mod heap_calls;
mod heap_tables;
mod object_calls;
mod queue_calls;
mod tally_calls;
mod type_calls;
mod value_calls;
mod words;

use call_faults::CallFault;
use handler_calls::HandlerCalls;
use heap_calls::answer_of_heaps;
use object_calls::ObjectCalls;
use queue_calls::QueueCalls;
use std::alloc::Global;
use std::io::{BufRead, BufReader};
use std::process::ExitCode;
use type_calls::TypeCalls;
use value_calls::answer_of_values;
use words::parts;

// The objects of the libraries on which the calls are made.
#[derive(Drop)]
struct Libraries {
    types: TypeCalls,
    queue: QueueCalls,
    objects: ObjectCalls,
    handlers: HandlerCalls,
}

impl Libraries {
    fn new(alloc: Global) -> Result<Self, CallFault> {
        Ok(Libraries {
            types: TypeCalls::new(alloc)?,
            queue: QueueCalls::new(alloc),
            objects: ObjectCalls::new(alloc),
            handlers: HandlerCalls::new(alloc),
        })
    }

    // Returns the answer to the call of a line.
    fn answer(&mut self, alloc: Global, line: &str) -> Result<String, CallFault> {
        let (library, rest) = parts(line)?;
        let (call, words) = parts(rest)?;
        match library {
            "types" => self.types.answer(alloc, call, words),
            "values" => answer_of_values(alloc, self.types.tree(), call, words),
            "queue" => self.queue.answer(alloc, call, words),
            "objects" => self.objects.answer(alloc, call, words),
            "heaps" => answer_of_heaps(alloc, call, words),
            "handlers" => self.handlers.answer(alloc, call, words),
            _ => Err(CallFault::Line),
        }
    }
}

fn answer_lines(rt: &HostRuntime) -> Result<(), CallFault> {
    let alloc = rt.alloc();
    let mut libraries = Libraries::new(alloc)?;
    for line in BufReader::new(alloc, rt.stdin())?.lines(alloc) {
        let line = line?;
        let answer = libraries.answer(alloc, line.as_str())?;
        println!(rt; "{line} = {answer}")?;
    }
    Ok(())
}

fn main(rt: HostRuntime) -> ExitCode {
    match answer_lines(&rt) {
        Ok(()) => ExitCode::SUCCESS,
        Err(_) => ExitCode::FAILURE,
    }
}
