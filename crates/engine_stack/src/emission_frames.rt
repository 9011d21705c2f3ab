//! The frame of an emission: how far it has come, and what it was given.

ghost use Rattle.std.specs.Prelude.{◌≡◌, [], ◌∷◌, cond, option_map, MatchOption};
ghost use Rattle.bindings.specs.Due.{from_ready};
ghost use Rattle.signal_core.specs.Emission.{collected, next_step, stage_after, stopped};
ghost use Rattle.g_values.specs.View.{value_view};
ghost use Rattle.engine_stack.specs.TransferView.{due_later, due_now};
ghost use Rattle.engine_stack.specs.declared.task.Transfers.TheVariants as at;

use crate::task::Transfers;
use bindings::{Bindings, DueTransfer};
use g_values::Value;
use signal_core::{Cursor, Handlers, Turn};
use std::alloc::Global;
use std::mem;

/// The rest of an emission (GObject manual, Signals: `g_signal_emit`).
#[derive(Drop)]
pub struct EmissionFrame {
    pub cursor: Cursor,
    pub args: Vec<Value>,
    /// Whether an event emits the signal and reports the result.
    pub by_event: bool,
    pub transfers: Transfers,
}

impl EmissionFrame {
    /// Takes the next transfer that comes before all turns that are left. If it returns `None`, none is left that comes before them.
    pub(crate) fn next_transfer(&mut self, bindings: &Bindings) -> Option<DueTransfer>
        ensures next { MatchOption result
            ((from_ready bindings.now.bindings (due_now self.old.transfers) ≡ []) × (due_now self.new.transfers ≡ []))
            (λ due. from_ready bindings.now.bindings (due_now self.old.transfers) ≡ due ∷ due_now self.new.transfers) }
        ensures later { due_later self.new.transfers ≡ due_later self.old.transfers }
        ensures beside { self.new ≡ record self.old { transfers = self.new.transfers } }
    {
        match &mut self.transfers {
            Transfers::Ahead(_) => None,
            Transfers::Due(due) => due.take_next(bindings),
        }
    }

    /// Takes the next turn, and returns `None` if none is left.
    pub(crate) fn next_turn(&mut self, handlers: &Handlers) -> Option<Turn>
        ensures turn { result ≡ option_map (λ step. step.turn) (next_step self.old.cursor handlers.now.handlers) }
        ensures stage { self.new ≡ record self.old { cursor = record self.old.cursor { stage = stage_after (next_step self.old.cursor handlers.now.handlers) } } }
    {
        handlers.next(&mut self.cursor)
    }

    /// Gives the bindings their turn: their transfers come before all other turns. None is due before.
    pub(crate) fn begin_transfers(&mut self, alloc: Global)
        requires { due_now self.now.transfers ≡ [] }
        ensures { self.new ≡ record self.old { transfers = at.Due (due_later self.old.transfers) } }
    {
        let ahead = mem::replace(&mut self.transfers, Transfers::new(alloc));
        self.transfers = ahead.begun();
    }

    /// Stops the emission, of which only the cleanup stage is left then. That makes no transfers.
    pub(crate) fn stop(&mut self, alloc: Global)
        ensures { self.new ≡ record self.old { cursor = stopped self.old.cursor; transfers = at.Due [] } }
    {
        self.cursor.stop();
        let transfers = mem::replace(&mut self.transfers, Transfers::new(alloc));
        self.transfers = transfers.emptied();
    }

    /// Collects a program's value. If it is the last one, the emission is stopped, and makes no transfers.
    pub(crate) fn collect(&mut self, alloc: Global, value: Value, is_last: bool)
        ensures cursor { self.new.cursor ≡ collected (value_view value) is_last self.old.cursor }
        ensures transfers { self.new.transfers ≡ cond is_last (at.Due []) self.old.transfers }
        ensures beside { self.new ≡ record self.old { cursor = self.new.cursor; transfers = self.new.transfers } }
    {
        self.cursor.collect(value, is_last);
        if is_last {
            let transfers = mem::replace(&mut self.transfers, Transfers::new(alloc));
            self.transfers = transfers.emptied();
        }
    }
}
