//! Calls of the crate `instance_tables`.

ghost use Rattle.std.specs.Prelude.{◌≡◌, [], None};

use crate::call_faults::CallFault;
use crate::words::{parts, seen, small_number};
use instance_tables::{AdoptError, Object, Table};
use std::alloc::Global;
use type_tree::TypeId;
use ui_machine::{ObjectId, Place};

/// A table of objects, of which four may live.
#[derive(Drop)]
pub struct ObjectCalls {
    table: Table,
}

// Creates an object without properties.
fn bare_object(alloc: Global) -> Object
    ensures childless { result.children ≡ [] }
    ensures parentless { result.parent ≡ None }
{
    Object::new(alloc, TypeId::new(0), Place(0), Vec::new(alloc), None)
}

// Makes an object the child of another one, if it lives and may be held once more.
fn adopt_in(table: &mut Table, parent: ObjectId, child: ObjectId) -> Result<(), AdoptError> {
    if !table.can_hold(child) {
        return Err(AdoptError::NotLiving);
    }
    table.adopt(parent, child)
}

// Makes so many new objects the children of one object, and answers with the outcome for the last of them.
fn adopt_many(alloc: Global, count: u16) -> Result<String, CallFault> {
    let mut table = Table::new(alloc, u32::MAX);
    let Ok(parent) = table.create(bare_object(alloc)) else {
        return Err(CallFault::OutOfMemory);
    };
    let mut last = Ok(());
    'children: for _ in 0..count {
        let Ok(child) = table.create(bare_object(alloc)) else {
            return Err(CallFault::OutOfMemory);
        };
        last = adopt_in(&mut table, parent, child);
    }
    seen(alloc, &last)
}

// Reads a word as an identity.
fn identity(word: &str) -> Result<ObjectId, CallFault> {
    Ok(ObjectId(u64::from(small_number(word)?)))
}

impl ObjectCalls {
    pub fn new(alloc: Global) -> Self {
        ObjectCalls {
            table: Table::new(alloc, 4),
        }
    }

    /// Answers a call: `create`, `adopt PARENT CHILD`, `is_live OBJECT`, `next_unheld`, and `adopt_many COUNT` on objects of its own.
    ///
    /// # Errors
    ///
    /// Returns `Line` if the words are not a call.
    pub fn answer(&mut self, alloc: Global, call: &str, words: &str) -> Result<String, CallFault> {
        match call {
            "create" => seen(alloc, &self.table.create(bare_object(alloc))),
            "adopt" => {
                let (parent, child) = parts(words)?;
                let adopted = adopt_in(&mut self.table, identity(parent)?, identity(child)?);
                seen(alloc, &adopted)
            }
            "is_live" => seen(alloc, &self.table.is_live(identity(words)?)),
            "next_unheld" => seen(alloc, &self.table.next_unheld()),
            "adopt_many" => adopt_many(alloc, small_number(words)?),
            _ => Err(CallFault::Line),
        }
    }
}
