//! The first number of an enum, and the known bits of a flags type.

ghost use Rattle.std.specs.Prelude.{◌≡◌, map, Some, None, if◌then◌else◌, unsigned_abs};
ghost use Rattle.ui_machine.specs.Definition.Types.{flags};
ghost use Rattle.ui_machine.specs.Output.Text.{members_of};
ghost use Rattle.ui_machine.specs.Rules.Transform.{first_number, is_known};
ghost use Rattle.type_tree.specs.Adding.{sort_of};
ghost use Rattle.type_tree.specs.Entry.{enum_member};

use type_tree::{EnumMember, TypeId, TypeTree};

/// Returns the number of the first member, or 0 if there are no members.
pub fn first_number(members: &[EnumMember]) -> i32
    ensures { result ≡ first_number (map enum_member members.now) }
{
    match members {
        [first, ..] => first.number,
        [] => 0,
    }
}

/// Returns the number as bits of a flags type, or `None` if it is negative or has a bit that no member has.
pub fn known_flags(tree: &TypeTree, t: TypeId, number: i128) -> Option<u32>
    requires { sort_of tree.now t ≡ flags }
    ensures { result ≡ (if is_known (members_of tree.now t) number then Some (unsigned_abs number) else None) }
{
    if number < 0 || number > i128::from(u32::MAX) {
        return None;
    }
    let bits = number as u32;
    if bits & tree.known_bits(t) == bits {
        Some(bits)
    } else {
        None
    }
}
