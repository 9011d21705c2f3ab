//! Indexes by which handlers are looked up.

ghost use Rattle.std.specs.Prelude.{◌≡◌, ◌+◌, ◌-◌, ◌<◌, ◌^◌, OnErr, OnOk, cond, true, ℕ};
ghost use Rattle.ui_machine.specs.Rules.Connections.{by_code_to};
ghost use Rattle.ui_machine.specs.State.Handlers as machine;
ghost use Rattle.signal_core.specs.Kept.{IsAbove, IsBeside, IsListed, NotBefore, channel, count_at, may_run};

use crate::code_counts::CodeCounts;
use crate::connected::Handler;
use crate::cursor::Cursor;
use crate::details::{Details, as_text};
use crate::listing::{Listing, least};
use std::alloc::{AllocError, Global};
use ui_machine::SignalId;

/// The numbers of handlers, listed by signal, program and object, and how many of them bytecode connected.
#[derive(Debug, Drop)]
pub(crate) struct Listings {
    pub(crate) details: Details,
    /// Lists the handlers that are not blocked, by object, by channel (the signal and whether they run after the class handler), and by the
    /// number of their detail.
    pub(crate) by_signal: Listing,
    /// Lists handlers by object and program. The third key is 0.
    pub(crate) by_program: Listing,
    /// Lists handlers by each object that they are on or have as data. The second and third keys are 0.
    pub(crate) by_object: Listing,
    pub(crate) by_code: CodeCounts,
    /// Whether each handler that is not blocked is listed by its signal. This is no longer so once memory was refused for one that was
    /// unblocked.
    pub(crate) is_whole: bool,
}

impl Listings {
    /// Creates empty indexes. Takes no memory.
    pub(crate) fn new(alloc: Global) -> Self
        ensures { (o s : ℕ) → count_at result.by_code o s ≡ 0 }
    {
        Listings {
            details: Details::new(alloc),
            by_signal: Listing::new(alloc),
            by_program: Listing::new(alloc),
            by_object: Listing::new(alloc),
            by_code: CodeCounts::new(alloc),
            is_whole: true,
        }
    }

    /// Returns the number of the next handler of an emission after the number `given` that is not blocked, and that runs after the class
    /// handler or before it, as `after` says.
    pub(crate) fn next_to(&self, cursor: &Cursor, after: bool, given: u64) -> Option<u64>
        requires { self.now.is_whole ≡ true }
        ensures above { IsAbove given result }
        ensures next { (h : machine.Handler) → IsListed self.now h → may_run cursor.now after h ≡ true → NotBefore given result h.number }
    {
        let object = cursor.object().0;
        let channel = channel(cursor.signal(), after);
        let plain = self.by_signal.next(object, channel, 0, given);
        let Some(detail) = self.details.number(cursor.detail()) else {
            return plain;
        };
        if detail == 0 {
            return plain;
        }
        least(plain, self.by_signal.next(object, channel, detail, given))
    }

    /// Lists a handler in all indexes and counts it. Lists and counts nothing on an error.
    pub(crate) fn add(&mut self, handler: &Handler) -> Result<(), AllocError>
        requires { count_at self.old.by_code handler.now.object handler.now.signal < 2 ^ 64 - 1 }
        ensures listed { OnOk result (IsListed self.new handler.now) }
        ensures stays { (h : machine.Handler) → (h.number ≡ handler.now.number → ⊥) → IsListed self.old h → IsListed self.new h }
        ensures ok { OnOk result ((o s : ℕ) → count_at self.new.by_code o s ≡ count_at self.old.by_code o s + cond (by_code_to o s handler.now) 1 0) }
        ensures err { OnErr result ((o s : ℕ) → count_at self.new.by_code o s ≡ count_at self.old.by_code o s) }
    {
        let added = self.add_all(handler);
        if added.is_err() {
            self.unlist(handler);
        }
        added
    }

    // Lists a handler in all indexes, and counts it last. If memory is refused, it remains listed in some of them.
    fn add_all(&mut self, handler: &Handler) -> Result<(), AllocError>
        requires { count_at self.old.by_code handler.now.object handler.now.signal < 2 ^ 64 - 1 }
        ensures listed { OnOk result (IsListed self.new handler.now) }
        ensures stays { (h : machine.Handler) → IsListed self.old h → IsListed self.new h }
        ensures ok { OnOk result ((o s : ℕ) → count_at self.new.by_code o s ≡ count_at self.old.by_code o s + cond (by_code_to o s handler.now) 1 0) }
        ensures err { OnErr result ((o s : ℕ) → count_at self.new.by_code o s ≡ count_at self.old.by_code o s) }
    {
        let object = handler.object().0;
        let number = handler.number();
        let channel = channel(handler.signal(), handler.is_after());
        let detail = self.details.add(handler.detail())?;
        self.by_signal.add(object, channel, detail, number)?;
        self.by_program
            .add(object, u64::from(handler.program()), 0, number)?;
        self.by_object.add(object, 0, 0, number)?;
        if let Some(data) = handler.data() {
            self.by_object.add(data.0, 0, 0, number)?;
        }
        if handler.is_by_code() {
            self.by_code.add(object, u64::from(handler.signal()))?;
        }
        Ok(())
    }

    /// Removes a handler from all indexes and from the count.
    pub(crate) fn remove(&mut self, handler: &Handler)
        ensures stays { (h : machine.Handler) → (h.number ≡ handler.now.number → ⊥) → IsListed self.old h → IsListed self.new h }
        ensures counts { (o s : ℕ) → count_at self.new.by_code o s ≡ count_at self.old.by_code o s - cond (by_code_to o s handler.now) 1 0 }
    {
        self.unlist(handler);
        if handler.is_by_code() {
            self.by_code
                .remove(handler.object().0, u64::from(handler.signal()));
        }
    }

    /// Removes a handler that was blocked from the index by signal.
    pub(crate) fn leave(&mut self, handler: &Handler)
        requires { 0 < handler.now.blocks }
        ensures stays { (h : machine.Handler) → (h.number ≡ handler.now.number → ⊥) → IsListed self.old h → IsListed self.new h }
        ensures listed { (h : machine.Handler) → IsListed self.old h → IsBeside handler.now h → IsListed self.new handler.now }
        ensures counts { self.new.by_code ≡ self.old.by_code }
    {
        let channel = channel(handler.signal(), handler.is_after());
        if let Some(detail) = self.details.number(as_text(handler.detail())) {
            self.by_signal
                .remove(handler.object().0, channel, detail, handler.number());
        }
    }

    /// Adds a handler that was unblocked to the index by signal. The index is no longer whole if memory is refused.
    pub(crate) fn enter(&mut self, handler: &Handler)
        ensures stays { (h : machine.Handler) → IsListed self.old h → IsListed self.new h }
        ensures listed { (h : machine.Handler) → IsListed self.old h → IsBeside handler.now h → IsListed self.new handler.now }
        ensures counts { self.new.by_code ≡ self.old.by_code }
    {
        let channel = channel(handler.signal(), handler.is_after());
        let Ok(detail) = self.details.add(handler.detail()) else {
            self.is_whole = false;
            return;
        };
        let number = handler.number();
        let Ok(()) = self
            .by_signal
            .add(handler.object().0, channel, detail, number)
        else {
            self.is_whole = false;
            return;
        };
    }

    // Removes a handler from all indexes.
    fn unlist(&mut self, handler: &Handler)
        ensures stays { (h : machine.Handler) → (h.number ≡ handler.now.number → ⊥) → IsListed self.old h → IsListed self.new h }
        ensures counts { self.new.by_code ≡ self.old.by_code }
    {
        let object = handler.object().0;
        let number = handler.number();
        let channel = channel(handler.signal(), handler.is_after());
        if let Some(detail) = self.details.number(as_text(handler.detail())) {
            self.by_signal.remove(object, channel, detail, number);
        }
        self.by_program
            .remove(object, u64::from(handler.program()), 0, number);
        self.by_object.remove(object, 0, 0, number);
        if let Some(data) = handler.data() {
            self.by_object.remove(data.0, 0, 0, number);
        }
    }
}

// Combines a signal and whether a handler runs after the class handler into one number.
fn channel(signal: SignalId, after: bool) -> u64
    ensures { result ≡ channel signal after }
{
    let place = if after { 1 } else { 0 };
    2 * u64::from(signal) + place
}
