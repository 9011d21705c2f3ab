//! Peers that are closed as the objects that have them are disposed.

ghost use Rattle.std.specs.Prelude.{◌≡◌, ◌∷◌, ◌++◌, [], ◌<◌, ℕ, IfOk, IfSome, IsSome, List, Ok, OnErr, OnOk, length, map, option_map, string_bytes};
ghost use Rattle.std.specs.Option.{option_map_or};
ghost use Rattle.engine_world.specs.Able.{Able};
ghost use Rattle.ui_machine.specs.Output.Lines as lines;
ghost use Rattle.ui_machine.specs.Prefix.{IsPrefix};
ghost use Rattle.ui_machine.specs.Rules.Disposal.{closing, is_first, peer_of, said_if};
ghost use Rattle.ui_machine.specs.State.Config.{World};
ghost use Rattle.ui_machine.specs.State.Objects.{living};
ghost use Rattle.engine_world.specs.PeerPlaces.{AreAlike};
ghost use Rattle.engine_world.specs.ClosingView.{IsThere, closed_with, or_number, with_closed};
ghost use Rattle.engine_world.specs.SeatView.{closed_at};
ghost use Rattle.engine_world.specs.View.{line_if, with_line_if, world_of};
ghost use Rattle.engine_world.specs.declared.closings.Closing.{Closing};

use crate::engine::Engine;
use crate::lines::Line;
use definitions::Definition;
use std::alloc::{AllocError, Global};
use ui_machine::ObjectId;

/// An open peer that is to be closed, by its number, and the line that reports it.
#[derive(Drop)]
pub struct Closing {
    pub peer: usize,
    pub line: String,
}

/// Returns the peer that the dispose of an object closes, with its line: the object's own peer, or None if it has none or the peer is
/// closed.
///
/// # Errors
///
/// `AllocError` if memory is refused.
pub fn closing_with(
    engine: &Engine,
    definition: &Definition,
    object: ObjectId,
) -> Result<Option<Closing>, AllocError>
    requires able { Able (closing definition.now (peer_of (living engine.now.world.table.objects object.0)) (world_of engine.now.world)) }
    ensures closes { IfOk result (λ closed. (w : World) → w.peers ≡ engine.now.world.seats
        → closing definition.now (peer_of (living engine.now.world.table.objects object.0)) w ≡ Ok (with_closed closed w)) }
    ensures number { IfOk result (λ closed. option_map (λ (c : Closing). c.peer) closed ≡ closed_with (world_of engine.now.world) object.0) }
    ensures there { IfOk result (IsThere engine.now.world.seats) }
{
    let Some(peer) = engine.world.table.peer_of(object) else {
        return Ok(None);
    };
    let Some(seat) = engine.world.seats.seat(peer) else {
        unreachable!()
    };
    if !seat.is_open {
        return Ok(None);
    }
    let told = Line::Close { peer: seat.name };
    let line = told.text(engine.alloc, definition.types())?;
    Ok(Some(Closing { peer, line }))
}

/// Returns the line that reports the dispose of an object, or None if the object was disposed before.
///
/// # Errors
///
/// `AllocError` if memory is refused.
pub fn dispose_line(
    engine: &Engine,
    definition: &Definition,
    object: ObjectId,
) -> Result<Option<String>, AllocError>
    requires live { IsSome (living engine.now.world.table.objects object.0) }
    ensures { IfOk result (λ line. (w : World) → with_line_if line w
        ≡ said_if definition.now (is_first (living engine.now.world.table.objects object.0)) w (lines.dispose object.0)) }
{
    if engine.world.table.is_disposed(object) {
        return Ok(None);
    }
    let line = Line::Dispose { object }.text(engine.alloc, definition.types())?;
    Ok(Some(line))
}

// Appends a line, if there is one.
fn push_if(lines: &mut Vec<String>, line: Option<String>) -> Result<(), AllocError>
    ensures { OnOk result (map string_bytes lines.new.items ≡ map string_bytes lines.old.items ++ line_if line) }
{
    if let Some(line) = line {
        lines.push(line)?;
    }
    Ok(())
}

// Returns the lines of a dispose in their order, as far as there are any.
fn lines_of(
    alloc: Global,
    first: Option<String>,
    second: Option<String>,
    last: Option<String>,
) -> Result<Vec<String>, AllocError>
    ensures { IfOk result (λ lines. map string_bytes lines.items ≡ line_if first ++ (line_if second ++ line_if last)) }
{
    let mut lines = Vec::new(alloc);
    push_if(&mut lines, first)?;
    push_if(&mut lines, second)?;
    push_if(&mut lines, last)?;
    Ok(lines)
}

// Marks a peer as closed, if there is one to close, so that it is not called from then on. Leaves its number in `engine.closing` for
// whoever has the peers.
fn close(engine: &mut Engine, peer: Option<usize>)
    requires { IfSome peer (λ number. number < length engine.now.world.seats) }
    ensures closed { engine.new ≡ record engine.old {
      world = record engine.old.world { seats = option_map_or (λ number. closed_at engine.old.world.seats number) peer engine.old.world.seats };
      closing = or_number peer engine.old.closing;
    } }
    ensures left { AreAlike engine.old.world.seats engine.new.world.seats }
{
    let Some(number) = peer else {
        return;
    };
    engine.world.seats.close(number);
    engine.closing = Some(number);
}

/// Says the lines of a dispose, if it has them, and closes a peer, if there is one to close, whose line comes between them. Nothing has
/// changed if memory is refused.
///
/// # Errors
///
/// `AllocError` if memory is refused.
pub fn say_and_close(
    engine: &mut Engine,
    first: Option<String>,
    closed: Option<Closing>,
    last: Option<String>,
) -> Result<(), AllocError>
    requires there { IsThere engine.now.world.seats closed }
    ensures ok { OnOk result (world_of engine.new.world
        ≡ with_line_if last (with_closed closed (with_line_if first (world_of engine.old.world)))) }
    ensures err { OnErr result (world_of engine.new.world ≡ world_of engine.old.world) }
    ensures grows { OnOk result (IsPrefix (world_of engine.old.world).transcript (world_of engine.new.world).transcript) }
    ensures closing { OnOk result (engine.new.closing ≡ or_number (option_map (λ (c : Closing). c.peer) closed) engine.old.closing) }
    ensures left { AreAlike engine.old.world.seats engine.new.world.seats }
    ensures beside { engine.new ≡ record engine.old { world = record engine.old.world { seats = engine.new.world.seats; transcript = engine.new.world.transcript }; closing = engine.new.closing } }
{
    let (peer, line) = match closed {
        Some(closed) => (Some(closed.peer), Some(closed.line)),
        None => (None, None),
    };
    let lines = lines_of(engine.alloc, first, line, last)?;
    engine.world.say_all(lines)?;
    close(engine, peer);
    Ok(())
}
