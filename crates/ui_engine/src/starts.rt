//! The beginning of a session: its pool is matched, and an engine is made that knows the pool.

ghost use Rattle.std.specs.Prelude.{◌≡◌, ◌+◌, ◌*◌, [], ◌∷◌, ◌++◌, codes, map, vec_capacity, Some, IfErr, IfOk, OnOk};
ghost use Rattle.ui_machine.specs.Output.Lines as lines;
ghost use Rattle.ui_machine.specs.Runs.{first_world};
ghost use Rattle.ui_machine.specs.State.Config.{said};
ghost use Rattle.law_peers.specs.Needs.{mismatch};
ghost use Rattle.native_peers.specs.Matching.{as_peers, mismatch_view};
ghost use Rattle.ui_machine.specs.Rules.Build.{forward_items};
ghost use Rattle.engine_stack.specs.TaskView.{item_of};
ghost use Rattle.engine_world.specs.View.{world_of};
ghost use Rattle.engine_dispatches.specs.Dispatched.{IsAtRest};
ghost use Rattle.ui_engine.specs.BuildBegins.{IsBegun};
ghost use Rattle.ui_engine.specs.SessionView.{IsWhy};
ghost use Rattle.verified.specs.Told.{IsDepth};

use crate::faults::StartFault;
use crate::rooms::room_for;
use definitions::Definition;
use engine_links::Links;
use engine_stack::ForwardReferences;
use engine_tasks::forward_references::forward_references;
use engine_world::engine::Engine;
use engine_world::object_peers::peer_numbers;
use engine_world::reserves::Room;
use engine_world::seats::Seats;
use engine_world::weak_slots::weak_slots;
use native_peers::{MatchFault, Peers};
use needed_peers::needs::needs;
use needed_peers::seats::seats;
use std::alloc::{AllocError, Global};

/// The state with which a build begins.
#[derive(Drop)]
pub(crate) struct Beginning {
    pub(crate) engine: Engine,
    pub(crate) forwards: ForwardReferences,
}

// Says the line with which the build begins.
fn announce(engine: &mut Engine) -> Result<(), AllocError>
    ensures line { OnOk result (world_of engine.new.world ≡ record (world_of engine.old.world) { transcript = (world_of engine.old.world).transcript ++ codes "build" ∷ [] }) }
    ensures beside { engine.new ≡ record engine.old { world = record engine.old.world { transcript = engine.new.world.transcript } } }
{
    let line = String::from_str(engine.alloc, "build")?;
    engine.world.say(line)
}

// Creates an engine that has built nothing, knows these peers, has this room, and has said the line with which the build begins.
fn first_engine(
    alloc: Global,
    definition: &Definition,
    seats: Seats,
    room: Room,
) -> Result<Engine, AllocError>
    ensures rests { IfOk result (IsAtRest definition.now) }
    ensures world { IfOk result (λ engine. world_of engine.world ≡ said definition.now (first_world definition.now seats) lines.build) }
    ensures room { IfOk result (λ engine. vec_capacity engine.stack.tasks ≡ 2 * room.depth + 4) }
{
    let weak = weak_slots(alloc, definition)?;
    let links = Links::new(alloc, definition)?;
    let got_peers = vec![in alloc; 0; definition.place_count()]?;
    let numbers = peer_numbers(alloc, definition, &seats)?;
    let limits = definition.limits();
    let mut engine = Engine::new(alloc, weak, links, limits, seats, got_peers, numbers, room)?;
    announce(&mut engine)?;
    Ok(engine)
}

// Creates the state with which a build begins, with an engine that knows these peers and has this room.
fn first_beginning(
    alloc: Global,
    definition: &Definition,
    seats: Seats,
    room: Room,
) -> Result<Beginning, AllocError>
    ensures rests { IfOk result (λ b. IsAtRest definition.now b.engine) }
    ensures world { IfOk result (λ b. world_of b.engine.world ≡ said definition.now (first_world definition.now seats) lines.build) }
    ensures forwards { IfOk result (λ b. map item_of b.forwards ≡ forward_items 0 definition.now.places) }
    ensures room { IfOk result (λ b. vec_capacity b.engine.stack.tasks ≡ 2 * room.depth + 4) }
{
    let engine = first_engine(alloc, definition, seats, room)?;
    let forwards = forward_references(alloc, definition)?;
    Ok(Beginning { engine, forwards })
}

// Returns the mismatch of a pool as the fault for which no session begins.
fn fault_of(alloc: Global, fault: MatchFault<'_>) -> Result<StartFault, AllocError>
    ensures { IfOk result (λ why. IsWhy why (Some (mismatch_view fault.entry))) }
{
    match fault {
        MatchFault::PeerMissing(name) => {
            let name = String::from_str(alloc, name)?;
            return Ok(StartFault::PeerMissing(name));
        }
        MatchFault::PeerClosed(name) => {
            let name = String::from_str(alloc, name)?;
            return Ok(StartFault::PeerClosed(name));
        }
        MatchFault::PeerShape(name) => {
            let name = String::from_str(alloc, name)?;
            return Ok(StartFault::PeerShape(name));
        }
        MatchFault::PeerUnused(name) => {
            let name = String::from_str(alloc, name)?;
            return Ok(StartFault::PeerUnused(name));
        }
    }
}

/// Matches the pool with a definition, and creates the state with which its build begins. Runs of the definition have at most `depth`
/// frames at a time.
///
/// # Errors
///
/// Returns the mismatch if the pool does not match, and `OutOfMemory` if memory is refused.
pub(crate) fn begin<P: Peers>(
    alloc: Global,
    definition: &Definition,
    depth: u32,
    pool: &P,
) -> Result<Beginning, StartFault>
    requires depth { IsDepth definition.now depth }
    ensures begun { IfOk result (IsBegun definition.now (P.seen pool.now)) }
    ensures why { IfErr result (λ fault. IsWhy fault (mismatch definition.now (as_peers (P.seen pool.now)))) }
{
    let needs = needs(alloc, definition)?;
    if let Err(fault) = pool.matches(needs.as_slice()) {
        return Err(fault_of(alloc, fault)?);
    }
    let seats = seats(alloc, pool, needs.as_slice())?;
    let room = room_for(definition, depth);
    let beginning = first_beginning(alloc, definition, seats, room)?;
    Ok(beginning)
}
