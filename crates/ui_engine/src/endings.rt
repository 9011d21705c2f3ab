//! The end of a session, at which the boxes that objects have got are closed.

ghost use Rattle.std.specs.Prelude.{◌≡◌, ◌<◌, ◌+◌, MatchOption, length};
ghost use Rattle.ui_machine.specs.Rules.Disposal.{peer_of};
ghost use Rattle.ui_machine.specs.State.Objects.{living, most_identities};
ghost use Rattle.native_peers.specs.Seen.{SameRelations};
ghost use Rattle.ui_engine.specs.Endings.{closed_at, closed_at_if, closed_in_order, identified, is_taken, taken_closed};

use engine_world::seats::Seats;
use instance_tables::Table;
use native_peers::Peers;
use ui_machine::ObjectId;

// Returns whether an object has got the peer with this number.
fn is_taken(seats: &Seats, number: usize) -> bool
    ensures { result ≡ is_taken seats.now number }
{
    match seats.seat(number) {
        Some(seat) => seat.holder.is_some(),
        None => false,
    }
}

// Closes the box with this number, if it is open and an object has got its peer.
fn close_if_taken<P: Peers>(seats: &Seats, pool: &mut P, number: usize)
    requires inside { number < length (P.seen pool.now) }
    ensures closed { (P.seen pool.new) ≡ closed_at_if (is_taken seats.now number) number (P.seen pool.old) }
    ensures same { SameRelations (P.relations pool.old) (P.relations pool.new) }
{
    if is_taken(seats, number) && pool.is_open(number) {
        pool.close(number);
    }
}

// Closes the box of an object's peer, if the object has one and its box is open.
fn close_of<P: Peers>(table: &Table, seats: &Seats, pool: &mut P, id: ObjectId)
    ensures closed { (P.seen pool.new) ≡ closed_at seats.now (peer_of (living table.now.objects id.0)) (P.seen pool.old) }
    ensures same { SameRelations (P.relations pool.old) (P.relations pool.new) }
{
    if let Some(number) = table.peer_of(id) {
        if number < pool.left() {
            close_if_taken(seats, pool, number);
        }
    }
}

// Returns the identity after another, or `None` after the last that there can be.
fn identity_after(id: u64) -> Option<u64>
    ensures { MatchOption result (id ≡ most_identities) (λ next. (id < most_identities) × (next ≡ id + 1)) }
{
    id.checked_add(1)
}

/// Closes the open boxes of the peers of all objects that live, the object of the lowest identity first.
pub(crate) fn close_in_order<P: Peers>(table: &Table, seats: &Seats, pool: &mut P)
    ensures closed { (P.seen pool.new) ≡ closed_in_order seats.now (identified table.now.objects) (P.seen pool.old) }
    ensures same { SameRelations (P.relations pool.old) (P.relations pool.new) }
{
    let mut from = ObjectId(0);
    'objects: while let Some(id) = table.next_live(from) {
        close_of(table, seats, pool, id);
        let Some(next) = identity_after(id.0) else {
            return;
        };
        from = ObjectId(next);
    }
}

/// Closes each open box whose peer an object has got. The others stay as they are.
pub(crate) fn close_taken<P: Peers>(seats: &Seats, pool: &mut P)
    ensures closed { (P.seen pool.new) ≡ taken_closed seats.now (P.seen pool.old) }
    ensures same { SameRelations (P.relations pool.old) (P.relations pool.new) }
{
    'peers: for number in 0..pool.left() {
        close_if_taken(seats, pool, number);
    }
}
