//! The peers of a pool, as far as the engine knows them: their names and shapes, whether they are open, and which objects have them.

ghost use Rattle.std.specs.Prelude.{◌≡◌, ◌<◌, ◌∷◌, ◌++◌, [], List, None, Some, IfSome, IsTrue, OnErr, OnOk, length, option_and_then, option_map, slice_get, string_bytes, take};
ghost use Rattle.ui_machine.specs.Definition.Types.{GType};
ghost use Rattle.ui_machine.specs.Rules.Construction.{lent};
ghost use Rattle.ui_machine.specs.State.Peers.{Peer, if_left, is_left, method_of, peer_number};
ghost use Rattle.peer_shapes.specs.MethodViews.{is_plain_shape};
ghost use Rattle.peer_shapes.specs.MethodViews.{lent_view as lent_method};
ghost use Rattle.engine_world.specs.GotNames.{AreAllGot};
ghost use Rattle.engine_world.specs.PeerPlaces.{first_of};
ghost use Rattle.engine_world.specs.SeatView.{HasKnownKinds, closed_at, lent_view, new_peer};

use peer_shapes::{MethodRef, Shape};
use std::alloc::{AllocError, Global};
use std::collections::BTreeMap;
use std::marker::Model;
use std::rc::Rc;
use ui_machine::ObjectId;

// A peer of the pool, as far as the engine knows it.
#[derive(Drop)]
pub(crate) struct Seat {
    pub(crate) name: String,
    // The peers of one shape share it.
    pub(crate) shape: Rc<Shape>,
    // Whether the peer may be called.
    pub(crate) is_open: bool,
    // The object that has got the peer.
    pub(crate) holder: Option<ObjectId>,
}

/// A borrowed view of a peer, as far as the engine knows it.
#[derive(Clone, Copy)]
pub struct SeatRef<'a> {
    pub name: &'a str,
    pub shape: &'a Shape,
    pub is_open: bool,
    pub holder: Option<ObjectId>,
}

/// The peers of a pool, numbered in their order and found by their names. The kinds of their methods are plain ones. Contracts see the
/// machine's peers, of which no calls and no faults are known.
#[derive(Drop)]
pub struct Seats {
    seats: Vec<Seat>,
    // The number of the peer of each name.
    numbers: BTreeMap<String, usize>,
}

impl Model for Seats {
    ghost use Rattle.std.specs.Prelude.{List, map};
    ghost use Rattle.std.specs.List.{AllByRecursion};
    ghost use Rattle.ui_machine.specs.State.Peers.{Peer};
    ghost use Rattle.engine_world.specs.SeatView.{AreNumbers, HasPlainShape, seated};

    ghost Value = { List Peer };

    ghost view = { λ s. map seated s.seats.items };

    ghost invariant = { λ s. AllByRecursion HasPlainShape (map seated s.seats.items) × AreNumbers s.numbers (map seated s.seats.items) };
}

impl Seats {
    /// Creates seats without any peer. It takes no memory.
    pub fn new(alloc: Global) -> Self
        ensures { result ≡ [] }
    {
        Seats {
            seats: Vec::new(alloc),
            numbers: BTreeMap::new(alloc),
        }
    }

    /// Returns how many peers there are.
    pub fn len(&self) -> usize
        ensures { result ≡ length self.now }
    {
        self.seats.len()
    }

    /// Adds a peer that no object has got, under a name that no other peer has.
    ///
    /// # Errors
    ///
    /// `AllocError` if memory is refused. The peers are unchanged then.
    pub fn add(&mut self, name: String, shape: Rc<Shape>, is_open: bool) -> Result<(), AllocError>
        requires fresh { peer_number self.old (string_bytes name) ≡ None }
        requires plain { IsTrue (is_plain_shape shape.value) }
        ensures ok { OnOk result (self.new ≡ self.old ++ new_peer (string_bytes name) shape.value is_open ∷ []) }
        ensures err { OnErr result (self.new ≡ self.old) }
    {
        let alloc = *self.seats.allocator();
        let key = String::from_str(alloc, name.as_str())?;
        self.seats.reserve(1)?;
        self.numbers.insert(key, self.seats.len())?;
        // The room was reserved above.
        let Ok(()) = self.seats.push(Seat {
            name,
            shape,
            is_open,
            holder: None,
        })
        else {
            unreachable!()
        };
        Ok(())
    }

    /// Returns the number of the peer with this name, if there is one.
    pub fn find(&self, name: &str) -> Option<usize>
        ensures found { result ≡ peer_number self.now name.now }
        ensures within { IfSome result (λ number. number < length self.now) }
    {
        self.numbers.get(name).copied()
    }

    /// Returns the peer with this number, if there is one.
    pub fn seat(&self, number: usize) -> Option<SeatRef<'_>>
        ensures found { option_map lent_view result ≡ slice_get self.now number }
        ensures plain { IfSome result (λ seat. IsTrue (is_plain_shape seat.shape.now)) }
    {
        let seat = self.seats.get(number)?;
        Some(SeatRef {
            name: seat.name.as_str(),
            shape: seat.shape.as_ref(),
            is_open: seat.is_open,
            holder: seat.holder,
        })
    }

    /// Returns a method of the peer with this number, if there are both. Its kinds are known whatever the types are.
    pub fn method(&self, number: usize, method: usize) -> Option<MethodRef<'_>>
        ensures found { option_map lent_method result ≡ option_and_then (λ (p : Peer). method_of p method) (slice_get self.now number) }
        ensures known { (types : List GType) → IfSome result (HasKnownKinds types) }
    {
        let seat = self.seat(number)?;
        seat.shape.method(method)
    }

    // Returns whether there is a peer with this number and no object has got it.
    fn is_left(&self, number: usize) -> bool
        ensures { result ≡ is_left (slice_get self.now number) }
    {
        match self.seat(number) {
            Some(seat) => seat.holder.is_none(),
            None => false,
        }
    }

    // Returns this number if there is a peer with it and no object has got the peer.
    fn left(&self, number: Option<usize>) -> Option<usize>
        ensures found { result ≡ if_left self.now number None }
        ensures within { IfSome result (λ number. number < length self.now) }
    {
        let number = number?;
        if self.is_left(number) {
            Some(number)
        } else {
            None
        }
    }

    /// Returns the first of these numbers whose peer no object has got, if there is one.
    pub(crate) fn first_left(&self, numbers: &[Option<usize>]) -> Option<usize>
        ensures first { result ≡ first_of self.now numbers.now }
        ensures within { IfSome result (λ number. number < length self.now) }
    {
        'numbers: for number in numbers {
            if let Some(left) = self.left(*number) {
                return Some(left);
            }
        }
        None
    }

    /// Returns how many of these numbers, from the first one on, are not of peers that are left. The first `known` of them are known to be
    /// so, and are not looked at.
    pub(crate) fn got(&self, numbers: &[Option<usize>], known: usize) -> usize
        ensures got { first_of self.now (take known numbers.now) ≡ None → first_of self.now (take result numbers.now) ≡ None }
        ensures all { AreAllGot self.now numbers.now result }
    {
        'numbers: for place in known..numbers.len() {
            if self.left(numbers[place]).is_some() {
                return place;
            }
        }
        numbers.len()
    }

    /// Gives the peer with this number to an object.
    pub(crate) fn lend(&mut self, number: usize, object: ObjectId)
        requires { number < length self.now }
        ensures { self.new ≡ lent (Some number) object.0 self.old }
    {
        self.seats[number].holder = Some(object);
    }

    /// Marks the peer with this number as closed, so that it is not called from then on.
    pub(crate) fn close(&mut self, number: usize)
        requires { number < length self.now }
        ensures { self.new ≡ closed_at self.old number }
    {
        self.seats[number].is_open = false;
    }
}
