//! A single source.

ghost use Rattle.std.specs.Prelude.{◌≡◌, ◌<◌, ◌^◌, ℕ};
ghost use Rattle.main_context.specs.Moments.{is_from};
ghost use Rattle.ui_machine.specs.Rules.MainLoop.{is_ready};
ghost use Rattle.ui_machine.specs.State.Sources.{due_after, new_source};
ghost use Rattle.main_context.specs.Places.{idle_rank, place_by, program_place, timeout_rank};

use crate::places::Place;
use std::marker::Model;
use ui_machine::{ObjectId, ProgramId};

/// A source that is to run: its number, its program and its data object.
#[derive(Clone, Copy, Debug, PartialEq, Eq)]
pub struct Due {
    pub source: u64,
    pub program: ProgramId,
    pub arg: Option<ObjectId>,
}

/// An attached source. It stores the moment at which its interval began, so that the sum of the two is never computed.
#[derive(Debug, Drop)]
pub(crate) struct Source {
    number: u64,
    program: ProgramId,
    priority: i32,
    interval: Option<u32>,
    since: u64,
    arg: Option<ObjectId>,
}

impl Model for Source {
    ghost use Rattle.std.specs.Prelude.{option_map};
    ghost use Rattle.ui_machine.specs.State.Sources.{due_after};
    ghost use Rattle.ui_machine.specs.State.Sources as config;

    ghost Value = { config.Source };

    ghost view = { λ s. record {
      number = s.number;
      program = s.program;
      priority = s.priority;
      interval = s.interval;
      due = due_after s.since s.interval;
      arg = option_map (λ id. id.0) s.arg;
    } };
}

impl Source {
    ghost use Rattle.main_context.specs.Dues.{due_of, identity_of};

    /// Creates a source with this number, attached at a moment. An idle has no interval.
    pub fn new(
        number: u64,
        program: ProgramId,
        priority: i32,
        interval: Option<u32>,
        moment: u64,
        arg: Option<ObjectId>,
    ) -> Self
        ensures { result ≡ new_source number moment program priority interval (identity_of arg) }
    {
        Source {
            number,
            program,
            priority,
            interval,
            since: moment,
            arg,
        }
    }

    pub fn number(&self) -> u64
        ensures { result ≡ self.now.number }
    {
        self.number
    }

    /// Returns the place among the sources that are ranked by their program.
    pub fn program_place(&self) -> Place
        ensures { result ≡ program_place self.now }
    {
        Place {
            rank: i128::from(self.program),
            number: self.number,
        }
    }

    /// Returns the place of an idle among the idles, which are ranked by their priority.
    pub fn idle_place(&self) -> Option<Place>
        ensures { result ≡ place_by idle_rank self.now }
    {
        match self.interval {
            None => Some(self.priority_place()),
            Some(_) => None,
        }
    }

    /// Returns the place of a timeout among the timeouts, which are ranked by the moment at which they are due.
    pub fn timeout_place(&self) -> Option<Place>
        ensures { result ≡ place_by timeout_rank self.now }
    {
        match self.interval {
            None => None,
            Some(interval) => Some(Place {
                rank: i128::from(self.since) + i128::from(interval),
                number: self.number,
            }),
        }
    }

    /// Returns the place in order of the priorities.
    pub fn priority_place(&self) -> Place
        ensures { result ≡ record { rank = self.now.priority; number = self.now.number } }
    {
        Place {
            rank: i128::from(self.priority),
            number: self.number,
        }
    }

    /// Returns the first moment from which the source is ready, or `None` if that is past all numbers of 64 bits.
    pub fn first_ready(&self) -> Option<u64>
        ensures { (moment : ℕ) → moment < 2 ^ 64 → is_ready moment self.now ≡ is_from result moment }
    {
        match self.interval {
            None => Some(0),
            Some(interval) => self.since.checked_add(u64::from(interval)),
        }
    }

    /// Restarts the interval at a moment.
    pub fn restart(&mut self, moment: u64)
        ensures { self.new ≡ record self.old { due = due_after moment self.old.interval } }
    {
        self.since = moment;
    }

    pub fn due(&self) -> Due
        ensures { result ≡ due_of self.now }
    {
        Due {
            source: self.number,
            program: self.program,
            arg: self.arg,
        }
    }
}
