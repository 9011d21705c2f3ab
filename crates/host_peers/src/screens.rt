//! A screen, which keeps lines of text.

ghost use Rattle.std.specs.Prelude.{◌≡◌, IfOk, IsTrue, false, map, vec_capacity};
ghost use Rattle.std.specs.Rc.{rc_str_bytes};
ghost use Rattle.ui_machine.specs.State.Peers.{PeerState};
ghost use Rattle.peer_shapes.specs.MethodViews.{method_view};
ghost use Rattle.host_peers.specs.Screens.{Screens, new_screen, screen_shape, texts};

use crate::line_lists::LineList;
use g_values::{Kind, Value};
use native_peers::{Method, Peer, PeerFault};
use std::alloc::{AllocError, Global};
use std::rc::Rc;
use std::snapshot::Snapshot;

/// A list of lines of text. `show` adds a line and returns how many there are then. It faults if there is no room for another line or the
/// text is too long. `line` returns a line by its number, counted from 0, and null past the end. Both fault if memory is refused. A fault
/// leaves the lines unchanged. Once a screen is closed, its lines take no memory.
#[derive(Drop)]
pub struct Screen {
    methods: Rc<Vec<Method>>,
    pub(crate) lines: LineList,
    // The lines as the state has them: those of an open screen, and those that a closed one had. Takes no memory.
    shown: Snapshot<LineList>,
    is_callable: bool,
    calls: u64,
    faults: u64,
    ghost shaped: { map method_view methods.value.items ≡ screen_shape },
    ghost as_shown: { IsTrue is_callable → map rc_str_bytes shown.value.items.items ≡ map rc_str_bytes lines.items.items },
    ghost given_back: { is_callable ≡ false → vec_capacity lines.items ≡ 0 },
}

impl Screen {
    /// Creates an open screen without lines.
    ///
    /// # Errors
    ///
    /// `AllocError` if memory is refused.
    pub fn new(alloc: Global) -> Result<Self, AllocError>
        ensures { IfOk result (λ s. ⟦<Screen as Peer>⟧.state s ≡ new_screen) }
    {
        let show = Method {
            name: String::from_str(alloc, "show")?,
            params: vec![in alloc; Kind::Text]?,
            result: Kind::UInt,
        };
        let line = Method {
            name: String::from_str(alloc, "line")?,
            params: vec![in alloc; Kind::UInt]?,
            result: Kind::Text,
        };
        let methods = Rc::new(alloc, vec![in alloc; show, line]?)?;
        Ok(Screen::of(alloc, methods))
    }

    /// Creates an open screen without lines, which shares its list of methods with this one.
    ///
    /// # Errors
    ///
    /// `AllocError` if memory is refused.
    pub fn another(&self) -> Result<Self, AllocError>
        ensures { IfOk result (λ s. ⟦<Screen as Peer>⟧.state s ≡ new_screen) }
    {
        let methods = self.methods.clone()?;
        Ok(Screen::of(*methods.allocator(), methods))
    }

    // Creates an open screen without lines, of these methods.
    fn of(alloc: Global, methods: Rc<Vec<Method>>) -> Self
        requires { map method_view methods.value.items ≡ screen_shape }
        ensures { ⟦<Screen as Peer>⟧.state result ≡ new_screen }
    {
        let lines = LineList::new(alloc);
        Screen {
            methods,
            shown: Snapshot::of(&lines),
            lines,
            is_callable: true,
            calls: 0,
            faults: 0,
        }
    }
}

impl Peer for Screen {
    ghost state = { λ s. record { shape = screen_shape; is_open = s.is_callable; calls = s.calls; faults = s.faults; values = texts (map rc_str_bytes s.shown.value.items.items) } };

    ghost moves = { λ s. Screens };

    fn shape(&self) -> &[Method] {
        self.methods.as_slice()
    }

    fn is_open(&self) -> bool {
        self.is_callable
    }

    fn invoke(&mut self, method: usize, args: &[Value]) -> Result<Value, PeerFault> {
        self.calls = self.calls.wrapping_add(1);
        let answer = self.lines.answer(method, args);
        self.shown = Snapshot::of(&self.lines);
        if answer.is_err() {
            self.faults = self.faults.wrapping_add(1);
        }
        answer
    }

    fn close(&mut self) {
        self.lines = LineList::new(*self.lines.items.allocator());
        self.is_callable = false;
    }

    fn counts(&self) -> (u64, u64) {
        (self.calls, self.faults)
    }
}
