//! The walk of an emission from turn to turn.

ghost use Rattle.std.specs.Prelude.{◌≡◌, option_map};

use crate::connected::Handler;
use crate::cursor::Cursor;
use crate::emission::Emission;
use crate::flags::SignalFlags;
use crate::handlers::Handlers;
use crate::stage::Stage;
use crate::step::Step;
use crate::turn::Turn;

impl Handlers {
    ghost use Rattle.std.specs.Prelude.{true, false};
    ghost use Rattle.signal_core.specs.Emission.{begun, first_step, next_step, stage_after, from_first, from_transfers, from_before, from_last, from_after, to_come};

    /// Begins an emission. Handlers connected later have no turn in it. Takes no memory.
    pub fn begin_emission(&self, emission: Emission) -> Cursor
        ensures { result ≡ begun emission self.now.last }
    {
        Cursor::new(emission, self.last())
    }

    /// Returns the next turn of an emission. Handlers that were disconnected have none, and those that are blocked at their turn are passed
    /// over. Returns `None` if the emission is over.
    pub fn next(&self, cursor: &mut Cursor) -> Option<Turn>
        ensures turn { result ≡ option_map (λ step. step.turn) (next_step cursor.old self.now.handlers) }
        ensures stage { cursor.new
            ≡ record cursor.old { stage = stage_after (next_step cursor.old self.now.handlers) } }
    {
        let step = self.next_step(cursor);
        cursor.go_on(step);
        Some(step?.turn)
    }

    fn next_step(&self, cursor: &Cursor) -> Option<Step>
        ensures { result ≡ next_step cursor.now self.now.handlers }
    {
        match cursor.stage() {
            Stage::First => self.from_first(cursor),
            Stage::Transfers => self.from_transfers(cursor),
            Stage::Before(given) => self.from_before(cursor, given),
            Stage::Last => self.from_last(cursor),
            Stage::After(given) => self.from_after(cursor, given),
            Stage::Cleanup => cursor.from_cleanup(),
            Stage::Over => None,
        }
    }

    fn from_first(&self, cursor: &Cursor) -> Option<Step>
        ensures { result ≡ first_step (from_first cursor.now self.now.handlers) }
    {
        match cursor.class_step(SignalFlags::RUN_FIRST, Stage::Transfers) {
            Some(step) => Some(step),
            None => self.from_transfers(cursor),
        }
    }

    fn from_transfers(&self, cursor: &Cursor) -> Option<Step>
        ensures { result ≡ first_step (from_transfers cursor.now self.now.handlers) }
    {
        match cursor.transfers_step() {
            Some(step) => Some(step),
            None => self.from_before(cursor, 0),
        }
    }

    fn from_before(&self, cursor: &Cursor, given: u64) -> Option<Step>
        ensures { result ≡ first_step (from_before given cursor.now self.now.handlers) }
    {
        match self.next_handler(cursor, given, false) {
            Some(handler) => Some(handler.step(Stage::Before(handler.number()))),
            None => self.from_last(cursor),
        }
    }

    fn from_last(&self, cursor: &Cursor) -> Option<Step>
        ensures { result ≡ first_step (from_last cursor.now self.now.handlers) }
    {
        match cursor.class_step(SignalFlags::RUN_LAST, Stage::After(0)) {
            Some(step) => Some(step),
            None => self.from_after(cursor, 0),
        }
    }

    fn from_after(&self, cursor: &Cursor, given: u64) -> Option<Step>
        ensures { result ≡ first_step (from_after given cursor.now self.now.handlers) }
    {
        match self.next_handler(cursor, given, true) {
            Some(handler) => Some(handler.step(Stage::After(handler.number()))),
            None => cursor.from_cleanup(),
        }
    }
}
