//! Calls of the crate `signal_core`.

use crate::call_faults::CallFault;
use crate::words::{parts, seen, small_number};
use signal_core::{Connection, Cursor, Emission, Handlers, SignalFlags};
use std::alloc::Global;
use ui_machine::{ObjectId, ProgramId, SignalId};

const CLICKED: SignalId = 1;

/// The handlers of one signal of an object, of which bytecode may connect one, and an emission of the signal. The class handler is program
/// 9.
#[derive(Drop)]
pub struct HandlerCalls {
    handlers: Handlers,
    cursor: Option<Cursor>,
}

const EMITTER: ObjectId = ObjectId(1);

fn connection(program: ProgramId, after: bool, by_code: bool) -> Connection {
    Connection {
        object: EMITTER,
        signal: CLICKED,
        detail: None,
        program,
        after,
        swapped: false,
        data: None,
        by_code,
    }
}

fn emission(flags: u32) -> Emission {
    Emission {
        object: EMITTER,
        signal: CLICKED,
        detail: None,
        flags: SignalFlags(flags),
        accumulator: None,
        class_program: Some(9),
    }
}

impl HandlerCalls {
    pub fn new(alloc: Global) -> Self {
        HandlerCalls {
            handlers: Handlers::new(alloc, 1, 16),
            cursor: None,
        }
    }

    /// Answers a call: `connect PROGRAM [builder|after|code]`, `block PROGRAM`, `unblock PROGRAM`, `disconnect PROGRAM`, `begin_emission
    /// FLAGS`, `next`, `stop`.
    ///
    /// # Errors
    ///
    /// Returns `Line` if the words are not a call, or if `next` or `stop` comes before an emission, and `OutOfMemory` if memory is refused.
    pub fn answer(&mut self, alloc: Global, call: &str, words: &str) -> Result<String, CallFault> {
        match call {
            "next" => self.next(alloc),
            "stop" => self.stop(alloc),
            _ => {
                let (number, way) = parts(words)?;
                self.answer_about(alloc, call, small_number(number)?, way)
            }
        }
    }

    // Answers the calls that name a program, or the flags of a signal.
    fn answer_about(
        &mut self,
        alloc: Global,
        call: &str,
        number: u16,
        way: &str,
    ) -> Result<String, CallFault> {
        match call {
            "connect" => {
                let to = connection(number, way == "after", way == "code");
                seen(alloc, &self.handlers.connect(to))
            }
            "block" => seen(alloc, &self.handlers.block_matched(EMITTER, number)),
            "unblock" => seen(alloc, &self.handlers.unblock_matched(EMITTER, number)),
            "disconnect" => seen(alloc, &self.handlers.disconnect_matched(EMITTER, number)),
            "begin_emission" => {
                let begun = self.handlers.begin_emission(emission(u32::from(number)));
                self.cursor = Some(begun);
                seen(alloc, &())
            }
            _ => Err(CallFault::Line),
        }
    }

    fn next(&mut self, alloc: Global) -> Result<String, CallFault> {
        match &mut self.cursor {
            Some(cursor) => seen(alloc, &self.handlers.next(cursor)),
            None => Err(CallFault::Line),
        }
    }

    fn stop(&mut self, alloc: Global) -> Result<String, CallFault> {
        match &mut self.cursor {
            Some(cursor) => {
                cursor.stop();
                seen(alloc, &())
            }
            None => Err(CallFault::Line),
        }
    }
}
