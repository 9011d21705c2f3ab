//! Tables of what types name, indexed by type.

ghost use Rattle.std.specs.Prelude.{◌≡◌, ◌≤◌, ℕ, None, Some, OnOk, if◌then◌else◌, nat_eq, vec_len};
ghost use Rattle.ui_machine.specs.Seq.{read};

use std::alloc::AllocError;
use type_tree::TypeId;

// Extends a table with empty entries until it has `len` of them.
fn grow<T: Copy>(named: &mut Vec<Option<T>>, len: usize) -> Result<(), AllocError>
    requires { len ≤ 65536 }
    ensures same { (u : ℕ) → read None named.new.items u ≡ read None named.old.items u }
    ensures ok { OnOk result (len ≤ vec_len named.new) }
{
    'growing: while named.len() < len {
        named.push(None)?;
    }
    Ok(())
}

/// Notes what a type names.
pub(crate) fn set_named<T: Copy>(
    named: &mut Vec<Option<T>>,
    t: TypeId,
    value: T,
) -> Result<(), AllocError>
    ensures { (u : ℕ) → OnOk result (read None named.new.items u ≡ (if nat_eq u t then Some value else read None named.old.items u)) }
{
    let at = t.index();
    grow(named, at + 1)?;
    named[at] = Some(value);
    Ok(())
}
