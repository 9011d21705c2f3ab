//! Rows with a name each.

ghost use Rattle.std.specs.Prelude.{◌≡◌, IfOk, OnOk, Some};
ghost use Rattle.name_tables.specs.Names.{place_of};
ghost use Rattle.name_tables.specs.Steps.{with_name};
ghost use Rattle.engine_links.specs.Rows.{AreLevel, with_row};

use name_tables::{NameId, NameTable};
use std::alloc::AllocError;

/// Returns the index of a name's row. A new name is added, with an empty row.
///
/// # Errors
///
/// `AllocError` if memory is refused. Each name has a row then too.
pub(crate) fn intern_row<R: Drop>(
    names: &mut NameTable,
    rows: &mut Vec<R>,
    name: &str,
    empty: R,
) -> Result<NameId, AllocError>
    requires { AreLevel names.old rows.old.items }
    ensures names { OnOk result (names.new ≡ with_name names.old name.now) }
    ensures rows { OnOk result (rows.new.items ≡ with_row names.old name.now rows.old.items empty) }
    ensures found { IfOk result (λ at. place_of names.new name.now ≡ Some at) }
    ensures level { AreLevel names.new rows.new.items }
{
    rows.reserve(1)?;
    let at = names.intern(name)?;
    if at == rows.len() {
        rows.push(empty)?;
    }
    Ok(at)
}
