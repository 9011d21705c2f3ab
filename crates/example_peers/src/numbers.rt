//! Numbers: what the format's own instructions can't do with whole numbers.

ghost use Rattle.std.specs.Prelude.{◌≡◌, [], IfOk, SomeIff, map};
ghost use Rattle.std.specs.Int.{CanDivide, w64};
ghost use Rattle.ui_machine.specs.State.Peers.{PeerState};
ghost use Rattle.g_values.specs.View.{value_view};
ghost use Rattle.peer_shapes.specs.MethodViews.{method_view};
ghost use Rattle.example_peers.specs.Numbers.{Divides, divided, new_numbers, number_in, numbers_of, numbers_shape};

use g_values::{Kind, Value};
use native_peers::{Method, Peer, PeerFault};
use std::alloc::{AllocError, Global};

/// Divides signed numbers of 64 bits. `quotient` is rounded towards zero, and `remainder` has the sign of the first number. Both fault if
/// the second number is 0, or if the quotient is no number of 64 bits.
#[derive(Drop)]
pub struct Numbers {
    methods: Vec<Method>,
    is_callable: bool,
    calls: u64,
    faults: u64,
    ghost shaped: { map method_view methods.items ≡ numbers_shape },
}

impl Numbers {
    /// Creates the peer, which may be called.
    ///
    /// # Errors
    ///
    /// `AllocError` if memory is refused.
    pub fn new(alloc: Global) -> Result<Self, AllocError>
        ensures { IfOk result (λ n. ⟦<Numbers as Peer>⟧.state n ≡ new_numbers) }
    {
        let quotient = Method {
            name: String::from_str(alloc, "quotient")?,
            params: vec![in alloc; Kind::Int64, Kind::Int64]?,
            result: Kind::Int64,
        };
        let remainder = Method {
            name: String::from_str(alloc, "remainder")?,
            params: vec![in alloc; Kind::Int64, Kind::Int64]?,
            result: Kind::Int64,
        };
        Ok(Numbers {
            methods: vec![in alloc; quotient, remainder]?,
            is_callable: true,
            calls: 0,
            faults: 0,
        })
    }
}

// Returns the number in an `Int64` value, and 0 for other values.
fn number_in(value: &Value) -> i64
    ensures { result ≡ number_in (value_view value.now) }
{
    match value {
        Value::Int64(n) => *n,
        _ => 0,
    }
}

// Returns the numbers in the first two arguments, and 0 for each that is not there.
fn numbers_of(args: &[Value]) -> (i64, i64)
    ensures { result ≡ numbers_of (map value_view args.now) }
{
    match args {
        [a, b, ..] => (number_in(a), number_in(b)),
        _ => (0, 0),
    }
}

// Returns what a method answers, if it can divide.
fn divide(method: usize, a: i64, b: i64) -> Option<i64>
    ensures { SomeIff result (CanDivide w64 a b) (divided method a b) }
{
    match method {
        0 => a.checked_div(b),
        _ => a.checked_rem(b),
    }
}

impl Peer for Numbers {
    ghost state = { λ n. record { shape = numbers_shape; is_open = n.is_callable; calls = n.calls; faults = n.faults; values = [] } };

    ghost moves = { λ n. Divides };

    fn shape(&self) -> &[Method] {
        &self.methods
    }

    fn is_open(&self) -> bool {
        self.is_callable
    }

    fn invoke(&mut self, method: usize, args: &[Value]) -> Result<Value, PeerFault> {
        self.calls = self.calls.wrapping_add(1);
        let (a, b) = numbers_of(args);
        match divide(method, a, b) {
            Some(number) => Ok(Value::Int64(number)),
            None => {
                self.faults = self.faults.wrapping_add(1);
                Err(PeerFault)
            }
        }
    }

    fn close(&mut self) {
        self.is_callable = false;
    }

    fn counts(&self) -> (u64, u64) {
        (self.calls, self.faults)
    }
}
