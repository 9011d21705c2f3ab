//! Texts: what the format's own instructions can't do with texts.

ghost use Rattle.std.specs.Prelude.{◌≡◌, [], IfOk, SomeIff, map};
ghost use Rattle.std.specs.Int.{w64};
ghost use Rattle.ui_machine.specs.State.Peers.{PeerState};
ghost use Rattle.g_values.specs.View.{value_view};
ghost use Rattle.peer_shapes.specs.MethodViews.{method_view};
ghost use Rattle.native_peers.specs.Moves.{answer_of};
ghost use Rattle.example_peers.specs.Texts.{Answers, IsNumber, Measures, bytes_in, first_bytes, new_texts, texts_shape, value_of};

use g_values::{Kind, Value};
use native_peers::{Method, Peer, PeerFault};
use std::alloc::{AllocError, Global};

/// Measures and reads texts. `length` is the number of bytes, and 0 for null. `number` is the signed number of 64 bits that the text writes
/// in decimal digits, after a sign or none, and faults if there is none.
#[derive(Drop)]
pub struct Texts {
    methods: Vec<Method>,
    is_callable: bool,
    calls: u64,
    faults: u64,
    ghost shaped: { map method_view methods.items ≡ texts_shape },
}

impl Texts {
    /// Creates the peer, which may be called.
    ///
    /// # Errors
    ///
    /// `AllocError` if memory is refused.
    pub fn new(alloc: Global) -> Result<Self, AllocError>
        ensures { IfOk result (λ t. ⟦<Texts as Peer>⟧.state t ≡ new_texts) }
    {
        let length = Method {
            name: String::from_str(alloc, "length")?,
            params: vec![in alloc; Kind::Text]?,
            result: Kind::UInt64,
        };
        let number = Method {
            name: String::from_str(alloc, "number")?,
            params: vec![in alloc; Kind::Text]?,
            result: Kind::Int64,
        };
        Ok(Texts {
            methods: vec![in alloc; length, number]?,
            is_callable: true,
            calls: 0,
            faults: 0,
        })
    }
}

// Returns the text in a value, and an empty one for null and for other values.
fn text_in(value: &Value) -> &str
    ensures { result.now ≡ bytes_in (value_view value.now) }
{
    match value {
        Value::Text(Some(text)) => text,
        _ => "",
    }
}

// Returns the text in the first argument, and an empty one without arguments.
fn first_text(args: &[Value]) -> &str
    ensures { result.now ≡ first_bytes (map value_view args.now) }
{
    match args {
        [] => "",
        [value, ..] => text_in(value),
    }
}

// Returns the number that a text writes.
fn number_of(text: &str) -> Option<i64>
    ensures { SomeIff result (IsNumber text.now) (value_of text.now) }
{
    text.parse::<i64>().ok()
}

// Returns what a method answers.
fn answer(method: usize, text: &str) -> Result<Value, PeerFault>
    ensures { Answers method text.now (answer_of result) }
{
    match method {
        0 => Ok(Value::UInt64(text.len() as u64)),
        _ => match number_of(text) {
            Some(number) => Ok(Value::Int64(number)),
            None => Err(PeerFault),
        },
    }
}

impl Peer for Texts {
    ghost state = { λ t. record { shape = texts_shape; is_open = t.is_callable; calls = t.calls; faults = t.faults; values = [] } };

    ghost moves = { λ t. Measures };

    fn shape(&self) -> &[Method] {
        &self.methods
    }

    fn is_open(&self) -> bool {
        self.is_callable
    }

    fn invoke(&mut self, method: usize, args: &[Value]) -> Result<Value, PeerFault> {
        self.calls = self.calls.wrapping_add(1);
        let answer = answer(method, first_text(args));
        if answer.is_err() {
            self.faults = self.faults.wrapping_add(1);
        }
        answer
    }

    fn close(&mut self) {
        self.is_callable = false;
    }

    fn counts(&self) -> (u64, u64) {
        (self.calls, self.faults)
    }
}
