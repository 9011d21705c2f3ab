//! A map from words to their indexes in a list.

ghost use Rattle.std.specs.Prelude.{◌≡◌, ℕ, List, Some, OnOk, bytes_eq, if◌then◌else◌, map};
ghost use Rattle.std.specs.Option.{option_or};
ghost use Rattle.type_tree.specs.Words.{place_at, place_from};

use std::alloc::{AllocError, Global};
use std::collections::BTreeMap;

// Maps a word to an index, and replaces an index that it had before.
fn add_word(
    places: &mut BTreeMap<Vec<u8>, usize>,
    alloc: Global,
    word: &str,
    place: usize,
) -> Result<(), AllocError>
    ensures { (other : List ℕ) → OnOk result (place_at places.new other ≡ (if bytes_eq word.now other then Some place else place_at places.old other)) }
{
    let word = word.as_bytes().to_vec(alloc)?;
    places.insert(word, place)?;
    Ok(())
}

/// Maps each of these words to the index of its first occurrence, and replaces an index that it had before. Other words keep theirs.
///
/// # Errors
///
/// `AllocError` if memory is refused.
pub(crate) fn add_words(
    places: &mut BTreeMap<Vec<u8>, usize>,
    alloc: Global,
    words: &[&str],
) -> Result<(), AllocError>
    ensures { (word : List ℕ) → OnOk result (place_at places.new word ≡ option_or (place_from 0 (map (λ w. w.now) words.now) word) (place_at places.old word)) }
{
    let mut left = words.len();
    'words: while left > 0 {
        left -= 1;
        add_word(places, alloc, words[left], left)?;
    }
    Ok(())
}

/// Returns the index stored for a word.
pub(crate) fn place_of(places: &BTreeMap<Vec<u8>, usize>, word: &[u8]) -> Option<usize>
    ensures { result ≡ place_at places.now word.now }
{
    places.get(word).copied()
}
