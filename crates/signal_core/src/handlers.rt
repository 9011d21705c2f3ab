//! The connected handlers.

ghost use Rattle.std.specs.Prelude.{◌≡◌, ◌↔◌, ◌+◌, ◌&&◌, OnOk, OnErr, IfOk, cond, count_by, false, map, nat_eq, not, option_map};
ghost use Rattle.std.specs.List.{filter, find};
ghost use Rattle.ui_machine.specs.Rules.Connections.{blocked, by_code_to, is_on, unblocked};
ghost use Rattle.ui_machine.specs.Rules.Disposal.{is_of_object};
ghost use Rattle.signal_core.specs.Kept.{IsNextOf, is_numbered, may_run};

use crate::connected::Handler;
use crate::connection::Connection;
use crate::cursor::Cursor;
use crate::fault::ConnectError;
use crate::listings::Listings;
use std::alloc::Global;
use std::collections::BTreeMap;
use std::marker::Model;
use ui_machine::{ObjectId, ProgramId, SignalId};

/// Handlers in order of connection, with numbers from 1 that are never reused.
///
/// Numbers are reserved for the handlers that the builder is still to connect. Changing a handler, and finding the next one of an emission,
/// takes time logarithmic in the number of connected handlers.
#[derive(Debug, Drop)]
pub struct Handlers {
    connected: BTreeMap<u64, Handler>,
    listings: Listings,
    last: u64,
    to_come: u64,
    most: u32,
}

impl Model for Handlers {
    ghost use Rattle.std.specs.Map.{values_of};
    ghost use Rattle.signal_core.specs.Connected.{Connected};

    ghost Value = { Connected };

    ghost use Rattle.signal_core.specs.Kept.{IsKept};

    ghost view = { λ h. record { handlers = values_of h.connected.entries; last = h.last; to_come = h.to_come; most = h.most } };

    ghost invariant = { λ h. IsKept h.connected.entries h.listings h.last h.to_come };
}

impl Handlers {
    ghost use Rattle.signal_core.specs.Connected.{Numbered, none_connected, connection_of, has_room, has_room_for_code, with_connection};
    ghost use Rattle.signal_core.specs.Connected.{without_matched, with_blocked, with_unblocked, without_object};
    ghost use Rattle.signal_core.specs.Emission.{has_next_turn};

    /// Creates a collection without handlers. Bytecode may connect at most `most` handlers to one signal of an object, and the builder is
    /// to connect `to_come`. Takes no memory.
    pub fn new(alloc: Global, most: u32, to_come: u64) -> Self
        ensures { result ≡ none_connected most to_come }
    {
        Handlers {
            connected: BTreeMap::new(alloc),
            listings: Listings::new(alloc),
            last: 0,
            to_come,
            most,
        }
    }

    /// Connects a handler, and returns its number.
    ///
    /// # Errors
    ///
    /// Returns `HandlerLimit` if bytecode connects the handler and has connected as many as it may to the signal of the object, or no
    /// number is left for it beside those reserved for the builder. For a handler of the builder, returns it only if 2^64 - 1 numbers are
    /// used up, and so never while some of its handlers are to come. Otherwise returns `OutOfMemory` if memory is refused. The handlers are
    /// unchanged then.
    pub fn connect(&mut self, connection: Connection) -> Result<u64, ConnectError>
        ensures ok { OnOk result (self.new ≡ with_connection self.old (connection_of connection)) }
        ensures number { IfOk result (λ number. number ≡ self.old.last + 1) }
        ensures limit { (result ≡ Err ConnectError.HandlerLimit) ↔ (has_room self.old (connection_of connection) ≡ false) }
        ensures err { OnErr result (self.new ≡ self.old) }
    {
        let Some(number) = self.number_for(&connection) else {
            return Err(ConnectError::HandlerLimit);
        };
        let handler = Handler::new(number, connection);
        self.listings.add(&handler)?;
        let by_code = handler.is_by_code();
        if let Err(refused) = self.connected.insert(number, handler) {
            let (_, handler) = refused.value;
            self.listings.remove(&handler);
            return Err(ConnectError::OutOfMemory);
        }
        self.last = number;
        if !by_code {
            self.to_come = self.to_come.saturating_sub(1);
        }
        Ok(number)
    }

    /// Returns the number of the handler that was connected last. The numbers of connected handlers rise up to it.
    pub fn last(&self) -> u64
        ensures number { result ≡ self.now.last }
        ensures rises { Numbered 0 self.now.handlers self.now.last }
    {
        self.last
    }

    /// Returns the next handler of an emission after the number `given` that is not blocked, and that runs after the class handler or
    /// before it, as `after` says.
    pub(crate) fn next_handler(&self, cursor: &Cursor, given: u64, after: bool) -> Option<&Handler>
        ensures { option_map (λ h. h.now) result
            ≡ find (has_next_turn cursor.now given after) self.now.handlers }
    {
        // For the proof: the numbers rise.
        let _ = self.last();
        let mut at = given;
        'handlers: while let Some(number) = self.next_to(cursor, after, at) {
            if let Some(handler) = self.with_next_turn(number, cursor, given, after) {
                return Some(handler);
            }
            at = number;
        }
        None
    }

    // Returns the handler with this number, if it may have the next turn.
    fn with_next_turn(
        &self,
        number: u64,
        cursor: &Cursor,
        given: u64,
        after: bool,
    ) -> Option<&Handler>
        ensures { option_map (λ h. h.now) result
            ≡ find (is_numbered (has_next_turn cursor.now given after) number) self.now.handlers }
    {
        let handler = self.handler(number)?;
        if handler.has_next_turn(cursor, given, after) {
            Some(handler)
        } else {
            None
        }
    }

    // Returns the number that a handler would get, or `None` if it may not be connected.
    fn number_for(&self, connection: &Connection) -> Option<u64>
        ensures { result ≡ cond (has_room self.now (connection_of connection.now)) (Some (self.now.last + 1)) None }
    {
        if connection.by_code && !self.has_room_for_code(connection.object, connection.signal) {
            return None;
        }
        self.last.checked_add(1)
    }

    // Returns whether bytecode may connect one more handler to a signal of an object.
    fn has_room_for_code(&self, object: ObjectId, signal: SignalId) -> bool
        ensures { result ≡ has_room_for_code self.now object.0 signal }
    {
        self.count_by_code(object, signal) < self.most as usize
            && self.last < u64::MAX - self.to_come
    }

    // Returns how many handlers bytecode has connected to a signal of an object.
    fn count_by_code(&self, object: ObjectId, signal: SignalId) -> usize
        ensures { result ≡ count_by (by_code_to object.0 signal) self.now.handlers }
    {
        self.listings.by_code.count(object.0, u64::from(signal))
    }

    /// Disconnects all handlers that run the program on the object, and returns their number (GObject manual, Signals:
    /// `g_signal_handlers_disconnect_matched`).
    pub fn disconnect_matched(&mut self, object: ObjectId, program: ProgramId) -> usize
        ensures count { result ≡ count_by (is_on object.0 program) self.old.handlers }
        ensures left { self.new
            ≡ record self.old { handlers = without_matched object.0 program self.old.handlers } }
    {
        // For the proof: the numbers rise.
        let _ = self.last();
        let mut count = 0;
        let mut at = 0;
        'handlers: while let Some(number) = self.next_on(object, program, at) {
            count += self.disconnect_on(number, object, program);
            at = number;
        }
        count
    }

    /// Blocks all handlers that run the program on the object once more, and returns their number (`g_signal_handlers_block_matched`).
    pub fn block_matched(&mut self, object: ObjectId, program: ProgramId) -> usize
        ensures count { result ≡ count_by (is_on object.0 program) self.old.handlers }
        ensures blocked { self.new
            ≡ record self.old { handlers = with_blocked object.0 program self.old.handlers } }
    {
        // For the proof: the numbers rise.
        let _ = self.last();
        let mut count = 0;
        let mut at = 0;
        'handlers: while let Some(number) = self.next_on(object, program, at) {
            count += self.block_on(number, object, program);
            at = number;
        }
        count
    }

    /// Unblocks all handlers that run the program on the object once, and returns their number (`g_signal_handlers_unblock_matched`).
    /// Handlers that are not blocked are not changed.
    pub fn unblock_matched(&mut self, object: ObjectId, program: ProgramId) -> usize
        ensures count { result ≡ count_by (is_on object.0 program) self.old.handlers }
        ensures unblocked { self.new
            ≡ record self.old { handlers = with_unblocked object.0 program self.old.handlers } }
    {
        // For the proof: the numbers rise.
        let _ = self.last();
        let mut count = 0;
        let mut at = 0;
        'handlers: while let Some(number) = self.next_on(object, program, at) {
            count += self.unblock_on(number, object, program);
            at = number;
        }
        count
    }

    /// Disconnects all handlers that are on the object or have it as data, and returns their number.
    pub fn disconnect_object(&mut self, object: ObjectId) -> usize
        ensures count { result ≡ count_by (is_of_object object.0) self.old.handlers }
        ensures left { self.new
            ≡ record self.old { handlers = without_object object.0 self.old.handlers } }
    {
        // For the proof: the numbers rise.
        let _ = self.last();
        let mut count = 0;
        let mut at = 0;
        'handlers: while let Some(number) = self.next_of(object, at) {
            count += self.disconnect_of(number, object);
            at = number;
        }
        count
    }

    // Returns a number after `given` below which no unblocked handler after `given` runs in the emission, after the class handler or before
    // it, as `after` says. It is the number of the next such handler, unless the index by signal is incomplete.
    fn next_to(&self, cursor: &Cursor, after: bool, given: u64) -> Option<u64>
        ensures { IsNextOf (may_run cursor.now after) given self.now.handlers result }
    {
        if self.listings.is_whole {
            return self.listings.next_to(cursor, after, given);
        }
        if given < self.last {
            Some(given + 1)
        } else {
            None
        }
    }

    // Returns the next number after `given` of a handler that runs the program on the object.
    fn next_on(&self, object: ObjectId, program: ProgramId, given: u64) -> Option<u64>
        ensures { IsNextOf (is_on object.0 program) given self.now.handlers result }
    {
        self.listings
            .by_program
            .next(object.0, u64::from(program), 0, given)
    }

    // Returns the next number after `given` of a handler that is on the object or has it as data.
    fn next_of(&self, object: ObjectId, given: u64) -> Option<u64>
        ensures { IsNextOf (is_of_object object.0) given self.now.handlers result }
    {
        self.listings.by_object.next(object.0, 0, 0, given)
    }

    // Returns the handler with this number.
    fn handler(&self, number: u64) -> Option<&Handler>
        ensures found { option_map (λ h. h.now) result ≡ find (λ h. nat_eq h.number number) self.now.handlers }
        ensures rises { Numbered 0 self.now.handlers self.now.last }
    {
        self.connected.get(&number)
    }

    // Disconnects the handler with this number if it runs the program on the object. Returns how many were disconnected, 0 or 1.
    fn disconnect_on(&mut self, number: u64, object: ObjectId, program: ProgramId) -> usize
        ensures count { result ≡ count_by (is_numbered (is_on object.0 program) number) self.old.handlers }
        ensures left { self.new
            ≡ record self.old { handlers = filter (λ h. not (is_numbered (is_on object.0 program) number h)) self.old.handlers } }
    {
        let Some(handler) = self.handler(number) else {
            return 0;
        };
        if !handler.is_on(object, program) {
            return 0;
        }
        self.disconnect(number);
        1
    }

    // Disconnects the handler with this number if it is on the object or has it as data. Returns how many were disconnected, 0 or 1.
    fn disconnect_of(&mut self, number: u64, object: ObjectId) -> usize
        ensures count { result ≡ count_by (is_numbered (is_of_object object.0) number) self.old.handlers }
        ensures left { self.new
            ≡ record self.old { handlers = filter (λ h. not (is_numbered (is_of_object object.0) number h)) self.old.handlers } }
    {
        let Some(handler) = self.handler(number) else {
            return 0;
        };
        if !handler.is_of_object(object) {
            return 0;
        }
        self.disconnect(number);
        1
    }

    // Disconnects the handler with this number.
    fn disconnect(&mut self, number: u64)
        ensures { self.new
            ≡ record self.old { handlers = filter (λ h. not (nat_eq h.number number)) self.old.handlers } }
    {
        let Some(handler) = self.connected.remove(&number) else {
            return;
        };
        self.listings.remove(&handler);
    }

    // Blocks the handler with this number once more if it runs the program on the object. Returns how many matched, 0 or 1.
    fn block_on(&mut self, number: u64, object: ObjectId, program: ProgramId) -> usize
        ensures count { result ≡ count_by (is_numbered (is_on object.0 program) number) self.old.handlers }
        ensures blocked { self.new
            ≡ record self.old { handlers = map (λ h. cond (is_numbered (is_on object.0 program) number h) (blocked h) h) self.old.handlers } }
    {
        let Some(handler) = self.handler(number) else {
            return 0;
        };
        if !handler.is_on(object, program) {
            return 0;
        }
        self.block(number);
        1
    }

    // Blocks the handler with this number once more.
    fn block(&mut self, number: u64)
        ensures { self.new
            ≡ record self.old { handlers = map (λ h. cond (nat_eq h.number number) (blocked h) h) self.old.handlers } }
    {
        let Some(handler) = self.connected.get_mut(&number) else {
            return;
        };
        handler.block();
        self.listings.leave(handler);
    }

    // Unblocks the handler with this number once if it runs the program on the object. Returns how many matched, 0 or 1.
    fn unblock_on(&mut self, number: u64, object: ObjectId, program: ProgramId) -> usize
        ensures count { result ≡ count_by (is_numbered (is_on object.0 program) number) self.old.handlers }
        ensures unblocked { self.new
            ≡ record self.old { handlers = map (λ h. cond (is_numbered (is_on object.0 program) number h) (unblocked h) h) self.old.handlers } }
    {
        let Some(handler) = self.handler(number) else {
            return 0;
        };
        if !handler.is_on(object, program) {
            return 0;
        }
        self.unblock(number);
        1
    }

    // Unblocks the handler with this number once.
    fn unblock(&mut self, number: u64)
        ensures { self.new
            ≡ record self.old { handlers = map (λ h. cond (nat_eq h.number number) (unblocked h) h) self.old.handlers } }
    {
        let Some(handler) = self.connected.get_mut(&number) else {
            return;
        };
        handler.unblock();
        if !handler.is_blocked() {
            self.listings.enter(handler);
        }
    }
}
