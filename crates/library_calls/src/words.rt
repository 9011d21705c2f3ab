//! The words of a line.

use crate::call_faults::CallFault;
use std::alloc::Global;
use std::fmt::Debug;

/// Returns the first word of a line and what follows it, which is empty if the word is the last.
///
/// # Errors
///
/// Returns `Line` if there is no word.
pub fn parts(line: &str) -> Result<(&str, &str), CallFault> {
    if line.is_empty() {
        return Err(CallFault::Line);
    }
    Ok(line.split_once(" ").unwrap_or((line, "")))
}

/// Reads a word as a number.
///
/// # Errors
///
/// Returns `Line` if the word is not a number.
pub fn number(word: &str) -> Result<i128, CallFault> {
    match i128::from_str_radix(word, 10) {
        Ok(number) => Ok(number),
        Err(_) => Err(CallFault::Line),
    }
}

/// Reads a word as a number from 0 to 2^16 - 1.
///
/// # Errors
///
/// Returns `Line` if the word is not such a number.
pub fn small_number(word: &str) -> Result<u16, CallFault> {
    match u16::from_str_radix(word, 10) {
        Ok(number) => Ok(number),
        Err(_) => Err(CallFault::Line),
    }
}

/// Returns the text of a value as it is shown for debugging.
///
/// # Errors
///
/// `OutOfMemory` if memory for the text is refused.
pub fn seen<T: Debug>(alloc: Global, value: &T) -> Result<String, CallFault> {
    Ok(format!(in alloc; "{value:?}")?)
}
