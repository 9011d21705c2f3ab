//! Names of types.

ghost use Rattle.std.specs.Prelude.{◌≡◌};
ghost use Rattle.std.specs.List.{list_all};
ghost use Rattle.type_tree.specs.TypeName.{is_type_name, is_first, is_further};

/// Returns whether a text is a type name: an ASCII letter or `_`, then at least two letters, digits, `-`, `_` or `+`.
pub fn is_type_name(name: &str) -> bool
    ensures { result ≡ is_type_name name.now }
{
    match name.as_bytes() {
        [first, rest @ ..] => rest.len() >= 2 && is_first(*first) && are_further(rest),
        [] => false,
    }
}

// Returns whether each byte may follow the first one in a type name.
fn are_further(bytes: &[u8]) -> bool
    ensures { result ≡ list_all is_further bytes.now }
{
    bytes.iter().all(|byte| is_further(*byte))
}

// Returns whether a type name may begin with this byte.
fn is_first(byte: u8) -> bool
    ensures { result ≡ is_first byte }
{
    matches!(byte, b'a'..=b'z' | b'A'..=b'Z' | b'_')
}

// Returns whether a byte may follow the first one in a type name.
fn is_further(byte: u8) -> bool
    ensures { result ≡ is_further byte }
{
    matches!(byte, b'0'..=b'9' | b'-' | b'+') || is_first(byte)
}
