//! Calls of the crate `type_tree`.

use crate::call_faults::CallFault;
use crate::words::{parts, seen};
use std::alloc::Global;
use type_tree::{EnumMember, FlagsMember, TypeError, TypeFault, TypeFlags, TypeId, TypeTree};

const FINAL: TypeFlags = TypeFlags {
    is_abstract: false,
    is_final: true,
};

/// A tree of types with the enum `Mode`, which is type 2, and the flags type `Marks`, which is type 3.
#[derive(Drop)]
pub struct TypeCalls {
    tree: TypeTree,
}

fn mode(alloc: Global, name: &str, nick: &str, number: i32) -> Result<EnumMember, CallFault> {
    Ok(EnumMember {
        name: String::from_str(alloc, name)?,
        nick: String::from_str(alloc, nick)?,
        number,
    })
}

fn mark(alloc: Global, name: &str, nick: &str, bits: u32) -> Result<FlagsMember, CallFault> {
    Ok(FlagsMember {
        name: String::from_str(alloc, name)?,
        nick: String::from_str(alloc, nick)?,
        bits,
    })
}

// Answers with the reason why a type was refused.
fn refusal(alloc: Global, fault: TypeFault) -> Result<String, CallFault> {
    seen(alloc, &fault)
}

// Answers with the type that was added, or with the reason why none was.
fn outcome(alloc: Global, added: Result<TypeId, TypeError>) -> Result<String, CallFault> {
    match added {
        Ok(added) => seen(alloc, &added),
        Err(TypeError::Refused(fault)) => refusal(alloc, fault),
        Err(TypeError::OutOfMemory) => Err(CallFault::OutOfMemory),
    }
}

impl TypeCalls {
    /// Creates the tree with its two types.
    ///
    /// # Errors
    ///
    /// `OutOfMemory` if memory is refused or one of the types is not added.
    pub fn new(alloc: Global) -> Result<Self, CallFault> {
        let mut tree = TypeTree::new(alloc)?;
        let mut modes = Vec::new(alloc);
        modes.push(mode(alloc, "OFF", "off", 0)?)?;
        modes.push(mode(alloc, "ON", "on", 1)?)?;
        let mut marks = Vec::new(alloc);
        marks.push(mark(alloc, "A", "a", 1)?)?;
        marks.push(mark(alloc, "B", "b", 2)?)?;
        let (Ok(_), Ok(_)) = (tree.add_enum("Mode", modes), tree.add_flags("Marks", marks)) else {
            return Err(CallFault::OutOfMemory);
        };
        Ok(TypeCalls { tree })
    }

    /// Returns the tree.
    pub fn tree(&self) -> &TypeTree {
        &self.tree
    }

    /// Answers a call: `class NAME PARENT [INTERFACE]`, `final` with the same words, `interface NAME [REQUIRED]`, `is_a NAME NAME`, `find
    /// NAME`.
    ///
    /// # Errors
    ///
    /// Returns `Line` if the words are not a call.
    pub fn answer(&mut self, alloc: Global, call: &str, words: &str) -> Result<String, CallFault> {
        let (name, rest) = parts(words)?;
        match call {
            "class" => self.add_class(alloc, name, rest, TypeFlags::NONE),
            "final" => self.add_class(alloc, name, rest, FINAL),
            "interface" => self.add_interface(alloc, name, rest),
            "is_a" => seen(alloc, &self.is_a(name, rest)?),
            "find" => seen(alloc, &self.tree.find(name)),
            _ => Err(CallFault::Line),
        }
    }

    fn add_class(
        &mut self,
        alloc: Global,
        name: &str,
        rest: &str,
        flags: TypeFlags,
    ) -> Result<String, CallFault> {
        let (parent, interface) = parts(rest)?;
        if interface.is_empty() {
            return outcome(alloc, self.tree.add_class(name, parent, flags, &[]));
        }
        outcome(
            alloc,
            self.tree.add_class(name, parent, flags, &[interface]),
        )
    }

    fn add_interface(
        &mut self,
        alloc: Global,
        name: &str,
        required: &str,
    ) -> Result<String, CallFault> {
        if required.is_empty() {
            return outcome(alloc, self.tree.add_interface(name, &[]));
        }
        outcome(alloc, self.tree.add_interface(name, &[required]))
    }

    fn is_a(&self, name: &str, other: &str) -> Result<bool, CallFault> {
        match (self.tree.find(name), self.tree.find(other)) {
            (Some(a), Some(b)) => Ok(self.tree.is_a(a, b)),
            _ => Err(CallFault::Line),
        }
    }
}
