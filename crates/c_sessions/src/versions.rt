//! The version of the library, for a host that was built with the header of another one.

ghost use Rattle.std.specs.Prelude.{◌≡◌, length};
ghost use Rattle.c_sessions.specs.Buffers.{with_text};
ghost use Rattle.c_sessions.specs.Versions.{version};

use crate::buffers::write_text;

// The version, as the repository's file VERSION has it.
const VERSION: &str = "0.39.0";

/// Writes the version of the library as `write_text` does, and returns how long it is.
pub fn tell_version(out: &mut [u8]) -> usize
    ensures told { out.new ≡ with_text out.old version }
    ensures length { result ≡ length version }
{
    let text = VERSION.as_bytes();
    write_text(out, text);
    text.len()
}
