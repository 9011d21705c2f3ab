//! The instructions of programs, in groups: those that touch registers alone, those that say where a program goes on, and those that act on
//! properties, on objects, on signals, on bindings and sources, and on peers.
//!
//! Registers and blocks are given by their numbers. Properties, signals, methods, programs, bindings and objects are given by name, as in
//! the machine. Names are resolved where the instruction is carried out.

use crate::computations::{Computation, Register};
use std::rc::RcStr;

/// The number of a block of a program.
#[derive(Clone, Copy, Debug, PartialEq, Eq)]
pub struct BlockNumber(pub usize);

/// A connection of a program to a signal.
#[derive(Debug, Drop)]
pub struct Connection {
    pub signal: String,
    pub detail: Option<String>,
    pub program: String,
    /// Whether the program runs after the class handler that is run last.
    pub after: bool,
    /// Whether the program is given the data first and the instance last.
    pub swapped: bool,
    /// The register with the data object.
    pub with: Option<Register>,
}

/// An instruction. The register that it writes is called `to`.
#[derive(Debug, Drop)]
pub enum Instruction {
    /// An instruction that touches registers alone.
    Compute {
        to: Register,
        computation: Computation,
    },
    /// An instruction that ends a block.
    Control(ControlInstruction),
    /// An instruction on the properties of an object.
    Property(PropertyInstruction),
    /// An instruction on objects themselves.
    Object(ObjectInstruction),
    /// An instruction on signals and handlers.
    Signal(SignalInstruction),
    /// An instruction on bindings and sources.
    Source(SourceInstruction),
    /// `call d o m [a..]`: calls a method of the object's peer.
    Peer(Call),
}

/// An instruction that says where a program goes on, or that it ends.
#[derive(Debug, Drop)]
pub enum ControlInstruction {
    /// `jump b`: goes on with a block.
    Jump(BlockNumber),
    /// `if a b b`: goes on with the first block if the boolean is true, otherwise with the second.
    Branch {
        on: Register,
        then_to: BlockNumber,
        else_to: BlockNumber,
    },
    /// `ifnull a b b`: goes on with the first block if the text or object is null, otherwise with the second.
    BranchNull {
        on: Register,
        then_to: BlockNumber,
        else_to: BlockNumber,
    },
    /// `return z`: ends the program, with a value if its result has a kind.
    Return(Option<Register>),
}

/// An instruction on the properties of an object.
#[derive(Debug, Drop)]
pub enum PropertyInstruction {
    /// `get d o p`: reads a property.
    Get {
        to: Register,
        object: Register,
        property: String,
    },
    /// `set o p s`: sets a property.
    Set {
        object: Register,
        property: String,
        from: Register,
    },
    /// `notify o p`: notifies of a property.
    Notify {
        object: Register,
        property: String,
    },
    /// `freeze o`: freezes the notifications of the object.
    Freeze(Register),
    /// `thaw o`: thaws the notifications of the object.
    Thaw(Register),
}

/// An instruction on objects themselves.
#[derive(Debug, Drop)]
pub enum ObjectInstruction {
    /// `object d id`: looks up an object of the builder by its id.
    LookUp {
        to: Register,
        id: String,
    },
    /// `new d c`: makes an object from the prototype with this id.
    New {
        to: Register,
        id: String,
    },
    /// `sink o`: sinks the object, which no longer floats then.
    Sink(Register),
    /// `orphan o`: removes the object from its parent.
    Orphan(Register),
    /// `dispose o`: disposes the object, which releases what it holds.
    Dispose(Register),
    /// `adopt d o o`: makes one object the parent of another.
    Adopt {
        to: Register,
        parent: Register,
        child: Register,
    },
}

/// An instruction on signals and handlers.
#[derive(Debug, Drop)]
pub enum SignalInstruction {
    /// `emit z o s D [a..]`: emits a signal. The result goes into `into`.
    Emit {
        into: Option<Register>,
        object: Register,
        signal: String,
        /// The detail, which is shared by the emissions that the instruction makes.
        detail: Option<RcStr>,
        args: Vec<Register>,
    },
    /// `connect d o s D p [options] z`: connects a program to a signal.
    Connect {
        to: Register,
        object: Register,
        connection: Connection,
    },
    /// `disconnect o p`: disconnects each handler of the program on the object.
    Disconnect {
        object: Register,
        program: String,
    },
    /// `block o p`: blocks each handler of the program on the object.
    Block {
        object: Register,
        program: String,
    },
    /// `unblock o p`: unblocks each handler of the program on the object.
    Unblock {
        object: Register,
        program: String,
    },
    /// `stop`: stops the emission, which goes on with its cleanup stage.
    Stop,
}

/// An instruction on bindings and sources.
#[derive(Debug, Drop)]
pub enum SourceInstruction {
    /// `unbind name`: ends the bindings with this name.
    Unbind(String),
    /// `idle d p n z`: attaches an idle with a program, a priority and data.
    Idle {
        to: Register,
        program: String,
        priority: i32,
        with: Option<Register>,
    },
    /// `timeout d p n i z`: attaches a timeout with a program, a priority, an interval in milliseconds, and data.
    Timeout {
        to: Register,
        program: String,
        priority: i32,
        interval: u32,
        with: Option<Register>,
    },
    /// `remove p`: removes each source of the program.
    Remove(String),
}

/// A call of a method of an object's peer.
#[derive(Debug, Drop)]
pub struct Call {
    pub to: Register,
    pub object: Register,
    pub method: String,
    pub args: Vec<Register>,
}
