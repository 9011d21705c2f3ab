//! Signals: the signals of types, the handlers that are connected to them, and the emissions that run these.
//!
//! A [`SignalTable`] holds the signals that were declared for types, and the programs that classes name for them (GObject manual, Signals:
//! `g_signal_newv`, `g_signal_override_class_handler`). A contract sees the lists of the types' own signals and class handlers.
//!
//! A handler runs a program for the emissions of one signal of one object (`g_signal_connect_data`). While it is blocked it is passed over.
//! [`Handlers`] holds the handlers in order of connection, and finds those of an emission, of a program or of an object without looking at
//! the others. Objects are given by identity, signals by their number in the list of the object's class, where 0 is `notify`, and programs
//! by number. A contract sees the machine's list of handlers, with the number of the last one connected.
//!
//! An emission is a [`Cursor`], which goes from turn to turn by the numbers of the handlers, without a list of them. A contract sees it as
//! a walk, whose turns still to come are taken from the handlers as they are.
#![tactic(auto)]

mod beginning;
mod class_handler;
mod class_handlers;
mod code_counts;
mod connected;
mod connection;
mod cursor;
mod declaring;
mod details;
mod emission;
mod fault;
mod flags;
mod growing;
mod handlers;
mod laws;
mod listing;
mod listings;
mod owners;
mod signal;
mod signal_rows;
mod sources;
mod spelling;
mod stage;
mod step;
mod table;
mod turn;
mod walking;

pub use class_handler::ClassHandler;
pub use connection::Connection;
pub use cursor::Cursor;
pub use emission::{Accumulator, Emission, is_last};
pub use fault::{ConnectError, SignalError, SignalFault};
pub use flags::SignalFlags;
pub use handlers::Handlers;
pub use laws::{inheritance, turns};
pub use signal::{DeclaredSignal, Signal};
pub use signal_rows::{SignalPlace, SignalRows};
pub use spelling::canonical_text;
pub use table::{MOST_SIGNALS, SignalTable};
pub use turn::Turn;
