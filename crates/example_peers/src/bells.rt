//! The smallest peer: a bell.

ghost use Rattle.std.specs.Prelude.{◌≡◌, [], IfOk, map};
ghost use Rattle.ui_machine.specs.State.Peers.{PeerState};
ghost use Rattle.peer_shapes.specs.MethodViews.{method_view};
ghost use Rattle.example_peers.specs.Bells.{Rings, bell_shape, new_bell};

use g_values::{Kind, Value};
use native_peers::{Method, Peer, PeerFault};
use std::alloc::{AllocError, Global};

/// A bell, which answers `true` whenever it is rung.
#[derive(Drop)]
pub struct Bell {
    methods: Vec<Method>,
    is_callable: bool,
    calls: u64,
    ghost shaped: { map method_view methods.items ≡ bell_shape },
}

impl Bell {
    /// Creates a bell that may be rung.
    ///
    /// # Errors
    ///
    /// `AllocError` if memory is refused.
    pub fn new(alloc: Global) -> Result<Self, AllocError>
        ensures { IfOk result (λ b. ⟦<Bell as Peer>⟧.state b ≡ new_bell) }
    {
        let ring = Method {
            name: String::from_str(alloc, "ring")?,
            params: Vec::new(alloc),
            result: Kind::Bool,
        };
        Ok(Bell {
            methods: vec![in alloc; ring]?,
            is_callable: true,
            calls: 0,
        })
    }
}

impl Peer for Bell {
    ghost state = { λ b. record { shape = bell_shape; is_open = b.is_callable; calls = b.calls; faults = 0; values = [] } };

    ghost moves = { λ b. Rings };

    fn shape(&self) -> &[Method] {
        &self.methods
    }

    fn is_open(&self) -> bool {
        self.is_callable
    }

    fn invoke(&mut self, method: usize, args: &[Value]) -> Result<Value, PeerFault> {
        self.calls = self.calls.wrapping_add(1);
        Ok(Value::Bool(true))
    }

    fn close(&mut self) {
        self.is_callable = false;
    }

    fn counts(&self) -> (u64, u64) {
        (self.calls, 0)
    }
}
