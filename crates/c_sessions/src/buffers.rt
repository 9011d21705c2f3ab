//! Text that is written to a buffer of the caller.

ghost use Rattle.std.specs.Prelude.{◌≡◌};
ghost use Rattle.c_sessions.specs.Buffers.{with_text};

/// Writes as much of a text as there is room for to the front of a buffer, and a zero byte behind it if there is room. What comes after stays
/// as it was.
pub(crate) fn write_text(buffer: &mut [u8], text: &[u8])
    ensures { buffer.new ≡ with_text buffer.old text.now }
{
    let end = text.len().min(buffer.len());
    buffer[..end].copy_from_slice(&text[..end]);
    if end < buffer.len() {
        buffer[end] = 0;
    }
}
