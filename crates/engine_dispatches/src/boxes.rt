//! The boxes of a pool, which are asked for due calls, and closed.

ghost use Rattle.std.specs.Prelude.{◌≡◌, None, map, option_map};
ghost use Rattle.ui_machine.specs.State.Config.{is_asked};
ghost use Rattle.g_values.specs.View.{value_view};
ghost use Rattle.native_peers.specs.Seen.{Asks, SameRelations};
ghost use Rattle.engine_world.specs.View.{world_of};
ghost use Rattle.engine_dispatches.specs.PoolView.{IsAskable, closed_in, due, is_due};

use engine_stack::DueCall;
use engine_world::engine::Engine;
use g_values::Value;
use native_peers::Peers;

/// Asks the open peer of a due call, and returns its answer. A fault gives None.
pub(crate) fn ask<P: Peers>(pool: &mut P, call: &DueCall) -> Option<Value>
    requires asked { IsAskable (P.seen pool.now) call.now.peer call.now.method (map value_view call.now.args.items) }
    ensures asks { Asks call.now.peer
        (P.seen pool.old) (P.seen pool.new)
        (P.relations pool.old) call.now.method (map value_view call.now.args.items) (option_map value_view result) }
    ensures same { SameRelations (P.relations pool.old) (P.relations pool.new) }
{
    // For the proof: the kinds of the peer's methods are plain.
    let _shape = pool.shape(call.peer);
    match pool.invoke(call.peer, call.method, call.args.as_slice()) {
        Ok(value) => Some(value),
        Err(_fault) => None,
    }
}

// Returns whether the engine knows the peer with this number to be open.
fn is_open(engine: &Engine, number: usize) -> bool
    ensures { result ≡ is_asked (world_of engine.now.world) number }
{
    match engine.world.seats.seat(number) {
        Some(seat) => seat.is_open,
        None => false,
    }
}

// Returns whether the box with this number is open while the engine knows its peer to be closed.
fn is_due<P: Peers>(engine: &Engine, pool: &P, number: usize) -> bool
    ensures { result ≡ is_due (world_of engine.now.world) (P.seen pool.now) number }
{
    if number >= pool.left() {
        return false;
    }
    pool.is_open(number) && !is_open(engine, number)
}

/// Closes the box of the peer that a step has closed, if it has closed one. The engine has left the peer's number, and knows the peer to be
/// closed.
pub(crate) fn close_due<P: Peers>(engine: &mut Engine, pool: &mut P)
    ensures closed { P.seen pool.new
        ≡ closed_in (due (world_of engine.old.world) (P.seen pool.old) engine.old.closing)
        (P.seen pool.old) }
    ensures same { SameRelations (P.relations pool.old) (P.relations pool.new) }
    ensures taken { engine.new ≡ record engine.old { closing = None } }
{
    let Some(number) = engine.closing.take() else {
        return;
    };
    if is_due(engine, pool, number) {
        pool.close(number);
    }
}
