//! The main context.

ghost use Rattle.std.specs.Prelude.{◌≡◌, ◌<◌, ◌≤◌, length, ◌↔◌, ◌&&◌, ◌||◌, ◌^◌, ℕ, not, false, [], None, Some, map, option_map, OnOk, OnErr, IfOk};
ghost use Rattle.std.specs.List.{find, list_any};
ghost use Rattle.main_context.specs.Moments.{is_from};
ghost use Rattle.ui_machine.specs.Rules.MainLoop.{is_ready, ready, answered, rescheduled};
ghost use Rattle.ui_machine.specs.State.Sources.{has_room, source_of, runs_program, without_first, without_source};

use crate::batch::Batch;
use crate::fault::{AttachError, TurnError};
use crate::places::{self, Place};
use crate::source::{Due, Source};
use crate::sources;
use std::alloc::Global;
use std::marker::Model;
use ui_machine::{ObjectId, ProgramId};

/// The most sources that may be attached at a time. A source whose program runs is among them until it is removed.
pub const MAX_SOURCES: usize = 256;

/// Sources in order of attachment, at most 256, the places of all of them in order of their programs, of the idles in order of their
/// priorities and of the timeouts in order of the moments at which they are due, and the latest moment.
#[derive(Debug, Drop)]
pub struct Context {
    sources: Vec<Source>,
    programs: Vec<Place>,
    idles: Vec<Place>,
    timeouts: Vec<Place>,
    last: u64,
    moment: u64,
}

impl Model for Context {
    ghost use Rattle.main_context.specs.Attached.{Attached};
    ghost use Rattle.main_context.specs.Attached.{IsKept};

    ghost Value = { Attached };

    ghost view = { λ c. record { sources = c.sources.items; last = c.last; moment = c.moment } };

    ghost invariant = { λ c. IsKept c.sources.items c.programs.items c.idles.items c.timeouts.items c.last };
}

impl Context {
    ghost use Rattle.main_context.specs.Dues.{due_of, identity_of};
    ghost use Rattle.main_context.specs.Attached.{with_source, is_attached, next_source, numbers_after};

    /// Creates a context without sources, at the moment 0. Takes no memory.
    pub fn new(alloc: Global) -> Self
        ensures { result ≡ record { sources = []; last = 0; moment = 0 } }
    {
        Context {
            sources: Vec::new(alloc),
            programs: Vec::new(alloc),
            idles: Vec::new(alloc),
            timeouts: Vec::new(alloc),
            last: 0,
            moment: 0,
        }
    }

    /// Returns the number of attached sources, which is at most 256.
    pub fn len(&self) -> usize
        ensures count { result ≡ length self.now.sources }
        ensures few { length self.now.sources ≤ 256 }
    {
        self.sources.len()
    }

    /// Returns the latest moment, which is 0 before the first iteration.
    pub fn moment(&self) -> u64
        ensures { result ≡ self.now.moment }
    {
        self.moment
    }

    /// Attaches an idle, which is always ready.
    ///
    /// # Errors
    ///
    /// Returns `SourceLimit` if 256 sources are attached or the numbers are used up, of which 2^64 - 1 is the last. Otherwise returns
    /// `OutOfMemory` if memory is refused. The sources are unchanged then.
    pub fn idle(
        &mut self,
        program: ProgramId,
        priority: i32,
        arg: Option<ObjectId>,
    ) -> Result<(), AttachError>
        ensures ok { OnOk result (self.new ≡ with_source self.old program priority None (identity_of arg)) }
        ensures limit { (result ≡ Err AttachError.SourceLimit) ↔ (has_room self.old.sources self.old.last ≡ false) }
        ensures err { OnErr result (self.new ≡ self.old) }
    {
        self.attach(program, priority, None, arg)
    }

    /// Attaches a timeout, which is due one interval (in milliseconds) after the latest moment, or after the moment 0 if there was none
    /// yet.
    ///
    /// # Errors
    ///
    /// Returns `SourceLimit` if 256 sources are attached or the numbers are used up, of which 2^64 - 1 is the last. Otherwise returns
    /// `OutOfMemory` if memory is refused. The sources are unchanged then.
    pub fn timeout(
        &mut self,
        program: ProgramId,
        priority: i32,
        interval: u32,
        arg: Option<ObjectId>,
    ) -> Result<(), AttachError>
        ensures ok { OnOk result (self.new ≡ with_source self.old program priority (Some interval) (identity_of arg)) }
        ensures limit { (result ≡ Err AttachError.SourceLimit) ↔ (has_room self.old.sources self.old.last ≡ false) }
        ensures err { OnErr result (self.new ≡ self.old) }
    {
        self.attach(program, priority, Some(interval), arg)
    }

    fn attach(
        &mut self,
        program: ProgramId,
        priority: i32,
        interval: Option<u32>,
        arg: Option<ObjectId>,
    ) -> Result<(), AttachError>
        ensures ok { OnOk result (self.new ≡ with_source self.old program priority interval (identity_of arg)) }
        ensures limit { (result ≡ Err AttachError.SourceLimit) ↔ (has_room self.old.sources self.old.last ≡ false) }
        ensures err { OnErr result (self.new ≡ self.old) }
    {
        if self.sources.len() >= MAX_SOURCES {
            return Err(AttachError::SourceLimit);
        }
        let Some(number) = self.last.checked_add(1) else {
            return Err(AttachError::SourceLimit);
        };
        let source = Source::new(number, program, priority, interval, self.moment, arg);
        let program = source.program_place();
        let idle = source.idle_place();
        let timeout = source.timeout_place();
        self.programs.reserve(1)?;
        self.idles.reserve(1)?;
        self.timeouts.reserve(1)?;
        self.sources.push(source)?;
        places::add(&mut self.programs, program);
        places::add_any(&mut self.idles, idle);
        places::add_any(&mut self.timeouts, timeout);
        self.last = number;
        Ok(())
    }

    /// Removes the first source of a program and returns it, or returns `None` if there is none.
    pub fn remove(&mut self, program: ProgramId) -> Option<Due>
        ensures given { result ≡ option_map due_of (find (runs_program program) self.old.sources) }
        ensures left { self.new
            ≡ record self.old { sources = without_first (runs_program program) self.old.sources } }
    {
        let number = places::first_of(&self.programs, i128::from(program))?;
        let source = self.take(number)?;
        Some(source.due())
    }

    /// Begins an iteration at a moment, and returns the ready sources with the least priority number, in order of attachment. There are at
    /// most 256. Sources that become ready later are not part of the iteration.
    ///
    /// # Errors
    ///
    /// Returns `ClockBack` if the moment is before the latest one, otherwise `OutOfMemory` if memory is refused. The context is unchanged
    /// then.
    pub fn iteration(&mut self, moment: u64) -> Result<Batch, TurnError>
        ensures ready { IfOk result
            (λ batch. batch ≡ map (λ s. s.number) (ready moment self.old.sources)) }
        ensures few { IfOk result (λ batch. length batch ≤ 256) }
        ensures begun { OnOk result (self.new ≡ record self.old { moment = moment }) }
        ensures clock_back { (result ≡ Err TurnError.ClockBack) ↔ (moment < self.old.moment) }
        ensures err { OnErr result (self.new ≡ self.old) }
    {
        if moment < self.moment {
            return Err(TurnError::ClockBack);
        }
        let batch = Batch::ready(
            *self.sources.allocator(),
            &self.sources,
            &self.idles,
            &self.timeouts,
            moment,
        )?;
        self.moment = moment;
        Ok(batch)
    }

    /// Returns the first moment from which some source is ready, or `None` if there is none. A host calls the next turn at this moment, or at
    /// once if it has passed.
    pub fn next_ready(&self) -> Option<u64>
        ensures { (moment : ℕ) → moment < 2 ^ 64 → list_any (is_ready moment) self.now.sources ≡ is_from result moment }
    {
        let mut first = None;
        'sources: for source in &self.sources {
            first = sooner(first, source.first_ready());
        }
        first
    }

    /// Returns the next source of a batch, or `None` if none is left. Passes over sources that were removed since.
    pub fn next_of(&self, batch: &mut Batch) -> Option<Due>
        ensures given { result ≡ option_map due_of (next_source self.now.sources batch.old) }
        ensures left { batch.new ≡ numbers_after self.now.sources batch.old }
    {
        while let Some(number) = batch.pop() {
            if let Some(due) = sources::find_due(&self.sources, number) {
                return Some(due);
            }
        }
        None
    }

    /// Returns what is to run for a source, or `None` if it is not attached.
    pub fn find(&self, source: u64) -> Option<Due>
        ensures { result ≡ option_map due_of (source_of source self.now.sources) }
    {
        sources::find_due(&self.sources, source)
    }

    /// Handles the answer of a source's program. FALSE removes the source. After TRUE, a timeout is due one interval after the latest
    /// moment. Does nothing if the source was removed while it ran. Returns whether the source was removed.
    pub fn answered(&mut self, source: u64, keep: bool) -> bool
        ensures removed { result ≡ (not keep && is_attached self.old.sources source) }
        ensures left { self.new
            ≡ record self.old { sources = answered self.old.moment source keep self.old.sources } }
    {
        if keep {
            self.restart(source);
            return false;
        }
        self.take(source).is_some()
    }

    // Removes the source with this number and returns it.
    fn take(&mut self, number: u64) -> Option<Source>
        ensures given { result ≡ source_of number self.old.sources }
        ensures left { self.new ≡ record self.old { sources = without_source number self.old.sources } }
    {
        let source = sources::take(&mut self.sources, number)?;
        places::take(&mut self.programs, source.program_place());
        places::take_any(&mut self.idles, source.idle_place());
        places::take_any(&mut self.timeouts, source.timeout_place());
        Some(source)
    }

    // Restarts the interval of the source with this number at the latest moment.
    fn restart(&mut self, number: u64)
        ensures { self.new ≡ record self.old { sources = rescheduled self.old.moment number self.old.sources } }
    {
        let before = sources::timeout_place(&self.sources, number);
        sources::reschedule(&mut self.sources, number, self.moment);
        let Some(before) = before else {
            return;
        };
        let after = sources::timeout_place(&self.sources, number);
        places::take(&mut self.timeouts, before);
        places::add_any(&mut self.timeouts, after);
    }
}

// Returns the sooner of two moments, if there is one.
fn sooner(left: Option<u64>, right: Option<u64>) -> Option<u64>
    ensures { (moment : ℕ) → is_from result moment ≡ (is_from left moment || is_from right moment) }
{
    match left {
        None => right,
        Some(first) => match right {
            None => Some(first),
            Some(second) => Some(first.min(second)),
        },
    }
}
