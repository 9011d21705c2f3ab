//! Bits of a flags type from a text that names its members.

ghost use Rattle.std.specs.Prelude.{◌≡◌, ◌<◌, ◌≤◌, length, position, reverse, List, [], ◌∷◌, IfSome, MatchOption};
ghost use Rattle.std.specs.List.{slice_split};
ghost use Rattle.ui_machine.specs.Definition.Types.{flags};
ghost use Rattle.ui_machine.specs.Output.Text.{members_of};
ghost use Rattle.type_tree.specs.Adding.{sort_of};
ghost use Rattle.g_values.specs.Naming.{is_no_blank, front_trimmed, back_trimmed, trimmed, is_bar, bits_called, bits_named};

use type_tree::{TypeId, TypeTree};

// Returns whether a byte is none of space, tab and carriage return.
fn is_no_blank(byte: u8) -> bool
    ensures { result ≡ is_no_blank byte }
{
    !(byte == b' ' || byte == b'\t' || byte == b'\r')
}

// Returns the index of the first byte that is not blank.
fn first_of_word(text: &[u8]) -> Option<usize>
    ensures place { result ≡ position is_no_blank text.now }
    ensures within { IfSome result (λ i. i < length text.now) }
{
    text.iter().position(|byte| is_no_blank(*byte))
}

// Returns the index of the last byte that is not blank, counted from the end.
fn last_of_word(text: &[u8]) -> Option<usize>
    ensures place { result ≡ position is_no_blank (reverse text.now) }
    ensures within { IfSome result (λ i. i < length text.now) }
{
    text.iter().rev().position(|byte| is_no_blank(*byte))
}

// Returns the index of the first bar.
fn first_bar(text: &[u8]) -> Option<usize>
    ensures place { result ≡ position is_bar text.now }
    ensures within { IfSome result (λ i. i < length text.now) }
{
    text.iter().position(|byte| *byte == b'|')
}

// Splits a text at its first bar. Returns `None` if it has no bar.
#[tactic(auto, using(crate::proofs::Bars::split_at_bar, crate::proofs::Bars::split_nowhere))]
fn split_at_bar(text: &[u8]) -> Option<(&[u8], &[u8])>
    ensures parts { MatchOption result (slice_split is_bar text.now ≡ text.now ∷ []) (λ r. slice_split is_bar text.now ≡ r.0.now ∷ slice_split is_bar r.1.now) }
    ensures shorter { IfSome result (λ r. length r.1.now < length text.now) }
{
    let bar = first_bar(text)?;
    Some((&text[..bar], &text[bar + 1..]))
}

// Removes the blanks at the front of a text.
fn front_trimmed(text: &[u8]) -> &[u8]
    ensures { result.now ≡ front_trimmed text.now }
{
    match first_of_word(text) {
        Some(start) => &text[start..],
        None => &[],
    }
}

// Removes the blanks at the back of a text.
fn back_trimmed(text: &[u8]) -> &[u8]
    ensures { result.now ≡ back_trimmed text.now }
{
    match last_of_word(text) {
        Some(blanks) => &text[..text.len() - blanks],
        None => &[],
    }
}

// Returns the bits that a word names, with blanks around it. Blanks alone name no bits, and a word that names no member gives `None`.
fn part_bits(tree: &TypeTree, t: TypeId, part: &[u8]) -> Option<u32>
    requires { sort_of tree.now t ≡ flags }
    ensures { result ≡ bits_called (members_of tree.now t) (trimmed part.now) }
{
    let word = back_trimmed(front_trimmed(part));
    if word.is_empty() {
        return Some(0);
    }
    tree.bits_called(t, word)
}

// Returns the union of the bits that the words between bars name, or `None` if one of them names no member.
fn bits_of_words(tree: &TypeTree, t: TypeId, text: &[u8]) -> Option<u32>
    requires { sort_of tree.now t ≡ flags }
    ensures { result ≡ bits_named (members_of tree.now t) text.now }
{
    let mut bits = 0;
    let mut rest = text;
    'parts: while let Some((part, others)) = split_at_bar(rest) {
        bits |= part_bits(tree, t, part)?;
        rest = others;
    }
    Some(bits | part_bits(tree, t, rest)?)
}

/// Returns the union of the bits that a text names by names or nicks between bars, with blanks around them. Returns `None` if one of them
/// names no member.
pub fn bits_named(tree: &TypeTree, t: TypeId, text: &str) -> Option<u32>
    requires { sort_of tree.now t ≡ flags }
    ensures { result ≡ bits_named (members_of tree.now t) text.now }
{
    bits_of_words(tree, t, text.as_bytes())
}
