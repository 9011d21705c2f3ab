//! The canonical spelling of any text.

ghost use Rattle.std.specs.Prelude.{◌≡◌, ◌==◌, IfOk, if◌then◌else◌, string_bytes};
ghost use Rattle.ui_machine.specs.Definition.Names.{canonical};

use std::alloc::{AllocError, Global};

/// Returns a text with `-` in place of each `_`, which is the canonical spelling of a name.
///
/// # Errors
///
/// `AllocError` if memory is refused.
pub fn canonical_text(alloc: Global, text: &str) -> Result<String, AllocError>
    ensures { IfOk result (λ s. string_bytes s ≡ canonical text.now) }
{
    let mut out = String::new(alloc);
    for c in text.chars() {
        out.push(dashed(c))?;
    }
    Ok(out)
}

// Returns `-` for `_`, and any other character unchanged.
fn dashed(c: char) -> char
    ensures { result ≡ (if c == 95 then 45 else c) }
{
    if c == '_' { '-' } else { c }
}
