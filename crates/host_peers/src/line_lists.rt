//! The lines of a screen.

ghost use Rattle.std.specs.Prelude.{◌≡◌, ◌≤◌, [], IfOk, OnErr, length, map, slice_get, vec_capacity, vec_len};
ghost use Rattle.std.specs.List.{All};
ghost use Rattle.std.specs.Rc.{rc_str_bytes};
ghost use Rattle.ui_machine.specs.Instructions.Arithmetic.{most_bytes};
ghost use Rattle.g_values.specs.View.{value_view};
ghost use Rattle.native_peers.specs.Moves.{Answers, MethodTakes, answer_of};
ghost use Rattle.host_peers.specs.Screens.{Answered, Reads, Shows, first_place, first_text, most_lines, place_in, screen_shape, text_in};

use g_values::Value;
use native_peers::PeerFault;
use std::alloc::{AllocError, Global};
use std::rc::RcStr;

/// The most lines of a screen.
pub const MOST_LINES: usize = 1000;

/// The most bytes of a line.
pub const MOST_LINE_BYTES: usize = 4096;

// A list of lines of text, to which the methods of a screen add, and which they read.
#[derive(Drop)]
pub(crate) struct LineList {
    pub(crate) items: Vec<RcStr>,
    ghost few: { vec_len items ≤ most_lines },
    ghost short: { All (λ line. length (rc_str_bytes line) ≤ most_bytes) items.items },
}

// Returns the text in a value, and an empty one for null.
fn text_in(alloc: Global, value: &Value) -> Result<RcStr, AllocError>
    ensures { IfOk result (λ text. rc_str_bytes text ≡ text_in (value_view value.now)) }
{
    match value {
        Value::Text(Some(text)) => text.clone(),
        _ => RcStr::from_str(alloc, ""),
    }
}

// Returns the text in the first argument, and an empty one without arguments.
fn first_text(alloc: Global, args: &[Value]) -> Result<RcStr, AllocError>
    ensures { IfOk result (λ text. rc_str_bytes text ≡ first_text (map value_view args.now)) }
{
    match args {
        [] => RcStr::from_str(alloc, ""),
        [value, ..] => text_in(alloc, value),
    }
}

// Returns the number in a `UInt` value, and 0 for other values.
fn place_in(value: &Value) -> u32
    ensures { result ≡ place_in (value_view value.now) }
{
    match value {
        Value::UInt(n) => *n,
        _ => 0,
    }
}

// Returns the number in the first argument, and 0 without arguments.
fn first_place(args: &[Value]) -> u32
    ensures { result ≡ first_place (map value_view args.now) }
{
    match args {
        [] => 0,
        [value, ..] => place_in(value),
    }
}

impl LineList {
    // Creates a list without lines. Takes no memory.
    pub(crate) fn new(alloc: Global) -> Self
        ensures none { result.items.items ≡ [] }
        ensures small { vec_capacity result.items ≡ 0 }
    {
        LineList {
            items: Vec::new(alloc),
        }
    }

    // Adds a line and returns the number of lines. Faults if there is no room, the text is too long or memory is refused.
    fn show(&mut self, args: &[Value]) -> Result<Value, PeerFault>
        ensures shows { IfOk result (λ v. Shows (map rc_str_bytes self.old.items.items) (first_text (map value_view args.now)) (value_view v) (map rc_str_bytes self.new.items.items)) }
        ensures kept { OnErr result (self.new.items.items ≡ self.old.items.items) }
    {
        if self.items.len() >= MOST_LINES {
            return Err(PeerFault);
        }
        let Ok(text) = first_text(*self.items.allocator(), args) else {
            return Err(PeerFault);
        };
        if text.len() > MOST_LINE_BYTES {
            return Err(PeerFault);
        }
        if self.items.push(text).is_err() {
            return Err(PeerFault);
        }
        Ok(Value::UInt(self.items.len() as u32))
    }

    // Returns the line with the given number, and null past the end.
    fn line(&self, args: &[Value]) -> Result<Value, PeerFault>
        ensures { IfOk result (λ v. Reads (map rc_str_bytes self.now.items.items) (first_place (map value_view args.now)) (value_view v) (map rc_str_bytes self.now.items.items)) }
    {
        let Some(line) = self.items.get(first_place(args) as usize) else {
            return Ok(Value::Text(None));
        };
        let Ok(text) = line.clone() else {
            return Err(PeerFault);
        };
        Ok(Value::Text(Some(text)))
    }

    // Carries out a method and returns its result.
    pub(crate) fn answer(&mut self, method: usize, args: &[Value]) -> Result<Value, PeerFault>
        requires { MethodTakes (slice_get screen_shape method) (map value_view args.now) }
        ensures answered { IfOk result (λ v. Answered (map rc_str_bytes self.old.items.items) method (map value_view args.now) (value_view v) (map rc_str_bytes self.new.items.items)) }
        ensures fits { Answers (slice_get screen_shape method) (answer_of result) }
        ensures kept { OnErr result (self.new.items.items ≡ self.old.items.items) }
    {
        if method == 0 {
            self.show(args)
        } else {
            self.line(args)
        }
    }
}
