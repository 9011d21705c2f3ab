//! A tally, which adds up whole numbers.

ghost use Rattle.std.specs.Prelude.{◌≡◌, ◌∷◌, [], IfOk, map};
ghost use Rattle.ui_machine.specs.State.Peers.{PeerState};
ghost use Rattle.g_values.specs.View.{value_view};
ghost use Rattle.peer_shapes.specs.MethodViews.{method_view};
ghost use Rattle.host_peers.specs.Tallies.{Tallies, first_number, new_tally, number, number_in, sum_after, tally_shape};

use g_values::{Kind, Value};
use native_peers::{Method, Peer, PeerFault};
use std::alloc::{AllocError, Global};
use std::rc::Rc;

/// A sum of signed numbers of 64 bits, to which `add` adds a number, wrapping around on overflow. `read` does not change it. Both return
/// the sum.
#[derive(Drop)]
pub struct Tally {
    methods: Rc<Vec<Method>>,
    sum: i64,
    is_callable: bool,
    calls: u64,
    faults: u64,
    ghost shaped: { map method_view methods.value.items ≡ tally_shape },
}

impl Tally {
    /// Creates an open tally at 0.
    ///
    /// # Errors
    ///
    /// `AllocError` if memory is refused.
    pub fn new(alloc: Global) -> Result<Self, AllocError>
        ensures { IfOk result (λ t. ⟦<Tally as Peer>⟧.state t ≡ new_tally) }
    {
        let add = Method {
            name: String::from_str(alloc, "add")?,
            params: vec![in alloc; Kind::Int64]?,
            result: Kind::Int64,
        };
        let read = Method {
            name: String::from_str(alloc, "read")?,
            params: Vec::new(alloc),
            result: Kind::Int64,
        };
        let methods = Rc::new(alloc, vec![in alloc; add, read]?)?;
        Ok(Tally::of(methods))
    }

    /// Creates an open tally at 0, which shares its list of methods with this one.
    ///
    /// # Errors
    ///
    /// `AllocError` if memory is refused.
    pub fn another(&self) -> Result<Self, AllocError>
        ensures { IfOk result (λ t. ⟦<Tally as Peer>⟧.state t ≡ new_tally) }
    {
        Ok(Tally::of(self.methods.clone()?))
    }

    // Creates an open tally at 0, of these methods.
    fn of(methods: Rc<Vec<Method>>) -> Self
        requires { map method_view methods.value.items ≡ tally_shape }
        ensures { ⟦<Tally as Peer>⟧.state result ≡ new_tally }
    {
        Tally {
            methods,
            sum: 0,
            is_callable: true,
            calls: 0,
            faults: 0,
        }
    }
}

// Returns the number in an `Int64` value, and 0 for other values.
fn number_in(value: &Value) -> i64
    ensures { result ≡ number_in (value_view value.now) }
{
    match value {
        Value::Int64(n) => *n,
        _ => 0,
    }
}

// Returns the number in the first argument, and 0 without arguments.
fn first_number(args: &[Value]) -> i64
    ensures { result ≡ first_number (map value_view args.now) }
{
    match args {
        [] => 0,
        [value, ..] => number_in(value),
    }
}

// Returns the sum after a method.
fn sum_after(sum: i64, method: usize, args: &[Value]) -> i64
    ensures { result ≡ sum_after sum method (map value_view args.now) }
{
    match method {
        0 => sum.wrapping_add(first_number(args)),
        _ => sum,
    }
}

impl Peer for Tally {
    ghost state = { λ t. record { shape = tally_shape; is_open = t.is_callable; calls = t.calls; faults = t.faults; values = number t.sum ∷ [] } };

    ghost moves = { λ t. Tallies };

    fn shape(&self) -> &[Method] {
        self.methods.as_slice()
    }

    fn is_open(&self) -> bool {
        self.is_callable
    }

    fn invoke(&mut self, method: usize, args: &[Value]) -> Result<Value, PeerFault> {
        self.calls = self.calls.wrapping_add(1);
        self.sum = sum_after(self.sum, method, args);
        Ok(Value::Int64(self.sum))
    }

    fn close(&mut self) {
        self.is_callable = false;
    }

    fn counts(&self) -> (u64, u64) {
        (self.calls, self.faults)
    }
}
