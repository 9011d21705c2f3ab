//! The world of a run, which is all of its state but the tasks.

ghost use Rattle.std.specs.Prelude.{◌≡◌, ◌∷◌, [], ◌++◌, OnOk, OnErr, map, slice_get, string_bytes};
ghost use Rattle.ui_machine.specs.State.Config.{builder_entry};
ghost use Rattle.ui_machine.specs.Rules.Build.{identity_held};
ghost use Rattle.instance_tables.specs.Store.{id_of};
ghost use Rattle.engine_world.specs.View.{held_of, with_lines, world_of};

use crate::builder::BuilderEntry;
use crate::seats::Seats;
use bindings::Bindings;
use g_values::Value;
use instance_tables::{Table, WeakSlots};
use main_context::Context;
use signal_core::Handlers;
use std::alloc::AllocError;
use ui_machine::{ObjectId, Place};

/// All of a run's state but the tasks: the objects, which of their properties are weak, the handlers, the bindings, the sources, what the
/// builder holds of the objects, the peers, the transcript, and what the event answered.
#[derive(Drop)]
pub struct World {
    pub table: Table,
    pub weak: WeakSlots,
    /// The handlers that are connected to the objects' signals.
    pub handlers: Handlers,
    /// The bindings that were made.
    pub bindings: Bindings,
    /// The sources of the main context.
    pub context: Context,
    /// The builder's entry for each place, as far as it has built.
    pub builder: Vec<BuilderEntry>,
    /// The peers of the pool.
    pub seats: Seats,
    /// For each place, how many of its peers from the first one on are known not to be left.
    pub got_peers: Vec<usize>,
    /// For each place, the numbers of the peers that it names.
    pub peer_numbers: Vec<Vec<Option<usize>>>,
    pub transcript: Vec<String>,
    pub result: Option<Value>,
}

impl World {
    /// Appends a line to the transcript. The world is unchanged after an error.
    ///
    /// # Errors
    ///
    /// `AllocError` if memory is refused.
    pub fn say(&mut self, line: String) -> Result<(), AllocError>
        ensures ok { OnOk result (world_of self.new ≡ record (world_of self.old) { transcript = (world_of self.old).transcript ++ string_bytes line ∷ [] }) }
        ensures err { OnErr result (world_of self.new ≡ world_of self.old) }
        ensures beside { self.new ≡ record self.old { transcript = self.new.transcript } }
        ensures handlers { self.new.handlers ≡ self.old.handlers }
    {
        self.transcript.push(line)?;
        Ok(())
    }

    /// Appends these lines to the transcript, or none of them if memory is refused.
    ///
    /// # Errors
    ///
    /// `AllocError` if memory is refused.
    pub fn say_all(&mut self, mut lines: Vec<String>) -> Result<(), AllocError>
        ensures ok { OnOk result (world_of self.new ≡ with_lines (map string_bytes lines.items) (world_of self.old)) }
        ensures err { OnErr result (world_of self.new ≡ world_of self.old) }
        ensures beside { self.new ≡ record self.old { transcript = self.new.transcript } }
        ensures handlers { self.new.handlers ≡ self.old.handlers }
    {
        self.transcript.append(&mut lines)
    }

    // Returns the entry that is kept for a place, if there is one.
    fn entry(&self, place: Place) -> Option<BuilderEntry>
        ensures { result ≡ slice_get self.now.builder.items place.0 }
    {
        self.builder.get(usize::from(place.0)).copied()
    }

    /// Returns the builder's entry for a place, which is unbuilt if none is kept.
    pub fn held(&self, place: Place) -> BuilderEntry
        ensures { held_of result ≡ builder_entry (world_of self.now) place.0 }
    {
        match self.entry(place) {
            Some(held) => held,
            None => BuilderEntry::Unbuilt,
        }
    }

    /// Returns the identity of the object that the builder holds at a place, if it holds one.
    pub fn built(&self, place: Place) -> Option<ObjectId>
        ensures { id_of result ≡ identity_held (builder_entry (world_of self.now) place.0) }
    {
        self.held(place).object()
    }
}
