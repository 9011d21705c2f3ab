//! Nicks of members by their numbers.

ghost use Rattle.std.specs.Prelude.{◌≡◌, ℕ, List, map, pos};
ghost use Rattle.ui_machine.specs.Output.Text.{members_of, nick_of};
ghost use Rattle.type_tree.specs.Entry.{type_of, flags_member};

use crate::entry::TypeEntry;
use crate::member::FlagsMember;
use crate::tree::TypeTree;
use crate::type_id::TypeId;

impl TypeTree {
    /// Returns the nick of the first member of an enum or flags type with this number, or an empty text if no member has it.
    pub fn nick(&self, t: TypeId, number: i32) -> &str
        ensures { result.now ≡ nick_of (members_of self.now t) number }
    {
        match self.entry(t) {
            Some(TypeEntry::Enum(members)) => members.nick(number),
            Some(TypeEntry::Flags(members)) => flags_nick(members.as_slice(), number),
            Some(TypeEntry::Class(_)) => "",
            Some(TypeEntry::Interface(_)) => "",
            None => "",
        }
    }
}

fn flags_nick(members: &[FlagsMember], number: i32) -> &str
    ensures { result.now ≡ nick_of (map flags_member members.now) number }
{
    let Ok(bits) = u32::try_from(number) else {
        return "";
    };
    for member in members {
        if member.bits == bits {
            return member.nick.as_str();
        }
    }
    ""
}
