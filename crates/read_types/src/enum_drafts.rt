//! The members of an enum while they are read. Their names and numbers are also kept in sets, so that a further one is found without a
//! search of the members.

ghost use Rattle.std.specs.Prelude.{◌≡◌, [], map, string_bytes, OnOk};
ghost use Rattle.type_tree.specs.Entry.{enum_member};
ghost use Rattle.read_types.specs.EnumDrafts.{parts_of, parts_seen, with_member};

use std::alloc::{AllocError, Global};
use std::collections::BTreeSet;
use type_tree::EnumMember;

/// The members of an enum while they are read.
#[derive(Drop)]
pub(crate) struct EnumDraft {
    members: Vec<EnumMember>,
    names: BTreeSet<String>,
    numbers: BTreeSet<i32>,
}

impl EnumDraft {
    /// Creates a draft without members.
    pub(crate) fn new(alloc: Global) -> Self
        ensures { parts_seen result ≡ parts_of [] }
    {
        EnumDraft {
            members: Vec::new(alloc),
            names: BTreeSet::new(alloc),
            numbers: BTreeSet::new(alloc),
        }
    }

    /// Returns whether a member has this name.
    pub(crate) fn has_name(&self, name: &str) -> bool
        ensures { result ≡ (parts_seen self.now).has_name name.now }
    {
        self.names.contains(name)
    }

    /// Returns whether a member has this number.
    pub(crate) fn has_number(&self, number: i32) -> bool
        ensures { result ≡ (parts_seen self.now).has_number number }
    {
        self.numbers.contains(&number)
    }

    /// Adds a member. `key` must be its name and `number` its number.
    ///
    /// # Errors
    ///
    /// `AllocError` if memory is refused. The draft may then have more names than members, and is of no further use.
    pub(crate) fn add(
        &mut self,
        key: String,
        number: i32,
        member: EnumMember,
    ) -> Result<(), AllocError>
        requires key { string_bytes key ≡ string_bytes member.name }
        requires same { number ≡ member.number }
        ensures { OnOk result (parts_seen self.new ≡ with_member (parts_seen self.old) (enum_member member)) }
    {
        self.names.insert(key)?;
        self.numbers.insert(number)?;
        self.members.push(member)?;
        Ok(())
    }

    /// Returns the members.
    pub(crate) fn into_members(self) -> Vec<EnumMember>
        ensures { map enum_member result.items ≡ (parts_seen self).members }
    {
        self.members
    }
}
