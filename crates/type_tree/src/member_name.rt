//! Names of properties and signals, in either spelling.
//!
//! Names that differ only in `-` and `_` are the same name (GObject manual, GParamSpec: canonical parameter names). The canonical spelling
//! has `-`.

ghost use Rattle.std.specs.Prelude.{◌≡◌, cond, nat_eq, not, map, true, IfOk, string_bytes};
ghost use Rattle.std.specs.List.{list_all};
ghost use Rattle.ui_machine.specs.Definition.Names.{same_name, canonical};
ghost use Rattle.type_tree.specs.PropertyName.{is_property_name, segments_follow, is_letter, is_letter_or_digit, is_separator};

use std::alloc::{AllocError, Global};

/// Returns whether a text is a name of a property or signal: non-empty segments of ASCII letters and digits, separated by `-` or `_`,
/// beginning with a letter.
pub fn is_property_name(name: &str) -> bool
    ensures { result ≡ is_property_name name.now }
{
    match name.as_bytes() {
        [first, rest @ ..] => is_letter(*first) && segments_follow(rest),
        [] => false,
    }
}

// Returns whether these bytes may follow a letter or digit in a name, up to its end.
fn segments_follow(bytes: &[u8]) -> bool
    ensures { result ≡ segments_follow bytes.now }
{
    let mut left = bytes;
    'bytes: while let [first, behind @ ..] = left {
        let [second, rest @ ..] = behind else {
            return is_letter_or_digit(*first);
        };
        let is_between = is_separator(*first);
        if !is_letter_or_digit(if is_between { *second } else { *first }) {
            return false;
        }
        left = if is_between { rest } else { behind };
    }
    true
}

// Returns whether a byte is `-` or `_`.
fn is_separator(byte: u8) -> bool
    ensures { result ≡ is_separator byte }
{
    byte == b'-' || byte == b'_'
}

fn is_letter(byte: u8) -> bool
    ensures { result ≡ is_letter byte }
{
    matches!(byte, b'a'..=b'z' | b'A'..=b'Z')
}

fn is_letter_or_digit(byte: u8) -> bool
    ensures { result ≡ is_letter_or_digit byte }
{
    matches!(byte, b'0'..=b'9') || is_letter(byte)
}

/// Returns whether a name is in the canonical spelling, which has no `_`.
pub fn has_canonical_bytes(name: &str) -> bool
    ensures { result ≡ list_all (λ b. not (nat_eq b 95)) name.now }
{
    name.as_bytes().iter().all(|byte| *byte != b'_')
}

/// Returns whether `stored`, a canonical name, is the canonical spelling of `name`.
pub fn is_spelling(stored: &str, name: &str) -> bool
    ensures { result ≡ same_name stored.now (canonical name.now) }
{
    spells(stored.as_bytes(), name.as_bytes())
}

fn spells(stored: &[u8], name: &[u8]) -> bool
    ensures { result ≡ same_name stored.now (canonical name.now) }
{
    if stored.len() != name.len() {
        return false;
    }
    'bytes: for place in 0..name.len() {
        if stored[place] != dashed(name[place]) {
            return false;
        }
    }
    true
}

/// Returns the canonical spelling of a name, with `-` in place of each `_`.
///
/// # Errors
///
/// `AllocError` if memory is refused.
pub fn canonical_name(alloc: Global, name: &str) -> Result<String, AllocError>
    requires { is_property_name name.now ≡ true }
    ensures { IfOk result (λ s. string_bytes s ≡ canonical name.now) }
{
    let bytes = dashed_bytes(alloc, name.as_bytes())?;
    match String::from_utf8(bytes) {
        Ok(text) => Ok(text),
        Err(_) => unreachable!(),
    }
}

#[tactic(auto, using(crate::proofs::Dashes::canonical_is_map))]
fn dashed_bytes(alloc: Global, bytes: &[u8]) -> Result<Vec<u8>, AllocError>
    ensures { IfOk result (λ v. v.items ≡ canonical bytes.now) }
{
    let dashed = each_dashed(alloc, bytes)?;
    Ok(dashed)
}

fn each_dashed(alloc: Global, bytes: &[u8]) -> Result<Vec<u8>, AllocError>
    ensures { IfOk result (λ v. v.items ≡ map (λ b. cond (nat_eq b 95) 45 b) bytes.now) }
{
    bytes.iter().map(|byte| dashed(*byte)).collect(alloc)
}

// Returns `-` for `_`, and any other byte unchanged.
fn dashed(byte: u8) -> u8
    ensures { result ≡ cond (nat_eq byte 95) 45 byte }
{
    if byte == b'_' { b'-' } else { byte }
}
