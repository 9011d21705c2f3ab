//! A connected handler.

ghost use Rattle.std.specs.Prelude.{◌≡◌, nat_lt, option_map, string_bytes};
ghost use Rattle.ui_machine.specs.declared.ids.ObjectId.{ObjectId};
ghost use Rattle.ui_machine.specs.Rules.Connections.{blocked, is_on, unblocked};
ghost use Rattle.ui_machine.specs.Rules.Disposal.{is_identity, is_of_object};

use crate::connection::Connection;
use crate::cursor::Cursor;
use crate::stage::Stage;
use crate::step::Step;
use crate::turn::Turn;
use std::marker::Model;
use ui_machine::{ObjectId, ProgramId, SignalId};

/// A connection with its number and its block count.
#[derive(Debug, Drop)]
pub(crate) struct Handler {
    number: u64,
    connection: Connection,
    blocks: u64,
}

impl Model for Handler {
    ghost use Rattle.ui_machine.specs.State.Handlers as machine;

    ghost Value = { machine.Handler };

    ghost use Rattle.signal_core.specs.Connected.{handler_of};

    ghost view = { λ h. handler_of h.number h.blocks h.connection };
}

impl Handler {
    ghost use Rattle.signal_core.specs.Connected.{connection_of};
    ghost use Rattle.signal_core.specs.Emission.{has_next_turn, is_ahead, of_handler};
    ghost use Rattle.ui_machine.specs.Rules.Connections.{new_handler};

    /// Creates a handler that is not blocked.
    pub(crate) fn new(number: u64, connection: Connection) -> Self
        ensures { result ≡ new_handler number (connection_of connection) }
    {
        Handler {
            number,
            connection,
            blocks: 0,
        }
    }

    /// Returns whether bytecode connected the handler.
    pub(crate) fn is_by_code(&self) -> bool
        ensures { result ≡ self.now.by_code }
    {
        self.connection.by_code
    }

    /// Returns the object whose signal the handler is connected to.
    pub(crate) fn object(&self) -> ObjectId
        ensures { result.0 ≡ self.now.object }
    {
        self.connection.object
    }

    /// Returns the number of the signal.
    pub(crate) fn signal(&self) -> SignalId
        ensures { result ≡ self.now.signal }
    {
        self.connection.signal
    }

    /// Returns whether the handler runs after the class handler.
    pub(crate) fn is_after(&self) -> bool
        ensures { result ≡ self.now.after }
    {
        self.connection.after
    }

    /// Returns the detail for which the handler is connected, if there is one.
    pub(crate) fn detail(&self) -> &Option<String>
        ensures { option_map (λ d. string_bytes d) result.now ≡ self.now.detail }
    {
        &self.connection.detail
    }

    /// Returns the program that the handler runs.
    pub(crate) fn program(&self) -> ProgramId
        ensures { result ≡ self.now.program }
    {
        self.connection.program
    }

    /// Returns the data object, if there is one.
    pub(crate) fn data(&self) -> Option<ObjectId>
        ensures { option_map (λ (id : ObjectId). id.0) result ≡ self.now.arg }
    {
        self.connection.data
    }

    /// Returns whether the handler is on the object and runs the program.
    pub(crate) fn is_on(&self, object: ObjectId, program: ProgramId) -> bool
        ensures { result ≡ is_on object.0 program self.now }
    {
        self.connection.object == object && self.connection.program == program
    }

    /// Returns whether the handler is on the object or has it as data.
    pub(crate) fn is_of_object(&self, object: ObjectId) -> bool
        ensures { result ≡ is_of_object object.0 self.now }
    {
        self.connection.object == object || self.has_data(object)
    }

    fn has_data(&self, object: ObjectId) -> bool
        ensures { result ≡ is_identity object.0 self.now.arg }
    {
        match self.connection.data {
            Some(data) => data == object,
            None => false,
        }
    }

    pub(crate) fn number(&self) -> u64
        ensures { result ≡ self.now.number }
    {
        self.number
    }

    // Returns whether the handler has a turn in an emission after the number `given`, and runs after the class handler or before it, as
    // `after` says. It does not matter here whether the handler is blocked.
    fn is_ahead(&self, cursor: &Cursor, given: u64, after: bool) -> bool
        ensures { result ≡ is_ahead cursor.now given after self.now }
    {
        let to = &self.connection;
        cursor.is_ahead(self.number, given)
            && (cursor.is_of(to.object, to.signal)
                && cursor.has_detail_for(&to.detail)
                && to.after == after)
    }

    /// Returns whether the handler may have the next turn after the number `given` in an emission: it is still to come and not blocked.
    pub(crate) fn has_next_turn(&self, cursor: &Cursor, given: u64, after: bool) -> bool
        ensures { result ≡ has_next_turn cursor.now given after self.now }
    {
        self.is_ahead(cursor, given, after) && self.blocks == 0
    }

    /// Returns the handler's step in an emission, which is at `then_at` once the step is taken.
    pub(crate) fn step(&self, then_at: Stage) -> Step
        ensures { result ≡ (of_handler (λ number. then_at) self.now).step }
    {
        Step {
            turn: Turn::Handler {
                program: self.connection.program,
                swapped: self.connection.swapped,
                arg: self.connection.data,
            },
            then_at,
        }
    }

    /// Returns whether the handler is blocked.
    pub(crate) fn is_blocked(&self) -> bool
        ensures { result ≡ nat_lt 0 self.now.blocks }
    {
        self.blocks > 0
    }

    /// Raises the block count by one, unless it is at its maximum.
    pub(crate) fn block(&mut self)
        ensures { self.new ≡ blocked self.old }
    {
        self.blocks = self.blocks.saturating_add(1);
    }

    /// Lowers the block count by one, unless it is 0.
    pub(crate) fn unblock(&mut self)
        ensures { self.new ≡ unblocked self.old }
    {
        self.blocks = self.blocks.saturating_sub(1);
    }
}
