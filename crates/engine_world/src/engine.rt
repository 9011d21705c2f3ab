//! The engine of a run: its world and the tasks that are left.

ghost use Rattle.std.specs.Prelude.{◌≡◌, ◌+◌, ◌*◌, None, [], vec_capacity, IfOk};
ghost use Rattle.ui_machine.specs.Definition as machine;
ghost use Rattle.ui_machine.specs.Runs.{first_world};
ghost use Rattle.engine_stack.specs.KnownHandlers.{AllTakeKnownHandlers};
ghost use Rattle.signal_core.specs.Connected.{none_connected};
ghost use Rattle.engine_world.specs.View.{world_of};
ghost use Rattle.engine_world.specs.TaskView.{agenda_of};

use crate::reserves::{Room, Spare};
use crate::seats::Seats;
use crate::world::World;
use bindings::Bindings;
use engine_links::Links;
use engine_stack::{ConstructStep, Frames};
use g_values::Value;
use instance_tables::{Table, WeakSlots};
use main_context::Context;
use signal_core::Handlers;
use std::alloc::{AllocError, Global};
use ui_machine::Limits;

/// The state that a run changes.
#[derive(Drop)]
pub struct Engine {
    pub world: World,
    pub stack: Frames,
    /// The meanings of the names in programs.
    pub links: Links,
    /// The list in which the first registers of a program are gathered.
    pub spare_registers: Spare<Option<Value>>,
    /// The lists in which the arguments of an emission are gathered.
    pub spare_args: Spare<Value>,
    /// Lists for the steps of constructions that begin later.
    pub spare_steps: Spare<ConstructStep>,
    /// How many counted steps the dispatch has had.
    pub counted: u64,
    /// The number of the peer that a step closed, for whoever has the peers to take.
    pub closing: Option<usize>,
    pub alloc: Global,
}

/// The sort of a step.
#[derive(Clone, Copy, Debug, PartialEq, Eq)]
pub enum StepKind {
    /// No step was left to take.
    Nothing,
    Uncounted,
    Counted,
}

impl Engine {
    /// Creates an engine with nothing built and nothing to do. The names in programs mean what `links` says, `seats` are the peers, and
    /// `peer_numbers` has the numbers of the peers of each place. For each place, `got_peers` says how many of these are known not to
    /// be left. Reserves `room` for what comes.
    ///
    /// # Errors
    ///
    /// `AllocError` if memory for that room is refused.
    pub fn new(
        alloc: Global,
        weak: WeakSlots,
        links: Links,
        limits: Limits,
        seats: Seats,
        got_peers: Vec<usize>,
        peer_numbers: Vec<Vec<Option<usize>>>,
        room: Room,
    ) -> Result<Self, AllocError>
        ensures world { IfOk result (λ e. (d : machine.Definition) → world_of e.world ≡ first_world d seats) }
        ensures counts { IfOk result (λ e. e.world.table.counts ≡ []) }
        ensures marks { IfOk result (λ e. e.world.weak ≡ weak) }
        ensures links { IfOk result (λ e. e.links ≡ links) }
        ensures got { IfOk result (λ e. e.world.got_peers ≡ got_peers) }
        ensures numbers { IfOk result (λ e. e.world.peer_numbers ≡ peer_numbers) }
        ensures handlers { IfOk result (λ e. e.world.handlers ≡ none_connected limits.handlers 0) }
        ensures begun { IfOk result (λ e. AllTakeKnownHandlers 0 e.stack) }
        ensures closing { IfOk result (λ e. e.closing ≡ None) }
        ensures idle { IfOk result (λ e. (d : machine.Definition) → agenda_of d e ≡ []) }
        ensures room { IfOk result (λ e. vec_capacity e.stack.tasks ≡ 2 * room.depth + 4) }
    {
        let stack = Frames::new(alloc, room.depth, room.registers)?;
        let spare_registers = Spare::new(alloc, 1, room.registers)?;
        let mut spare_args = Spare::new(alloc, 1, room.registers)?;
        spare_args.add_wide(alloc, room.args)?;
        let spare_steps = Spare::new(alloc, room.constructions, room.steps)?;
        Ok(Engine {
            world: World {
                table: Table::new(alloc, limits.objects),
                weak,
                handlers: Handlers::new(alloc, limits.handlers, 0),
                bindings: Bindings::new(alloc),
                context: Context::new(alloc),
                builder: Vec::new(alloc),
                seats,
                got_peers,
                peer_numbers,
                transcript: Vec::new(alloc),
                result: None,
            },
            stack,
            links,
            spare_registers,
            spare_args,
            spare_steps,
            counted: 0,
            closing: None,
            alloc,
        })
    }
}
