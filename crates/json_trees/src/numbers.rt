//! Reads numbers as `serde_json` does.

ghost use Rattle.std.specs.Prelude.{◌≡◌, true, false, option_map, length, ◌<◌, IsTrue, slice_index, ◌==◌};
ghost use Rattle.serde_json.specs.Read.{number_of, number_from, float_of};
ghost use Rattle.serde_json.specs.View.{number_view};

use fast_float::Numeral;
use serde_json::Number;

// Returns whether the text of a number begins with a minus.
fn begins_with_minus(bytes: &[u8]) -> bool
    ensures first { result ≡ (slice_index bytes.now 0 == 45) }
    ensures length { IsTrue result → 0 < length bytes.now }
{
    !bytes.is_empty() && bytes[0] == b'-'
}

// Returns the float nearest to a numeral, or `None` if the numeral is too large for one.
fn nearest_float(is_negative: bool, numeral: &Numeral<'_>) -> Option<Number>
    ensures { option_map number_view result ≡ float_of is_negative numeral.now }
{
    Number::from_f64(numeral.to_float::<f64>(is_negative))
}

// Returns the number of a numeral without a minus before it.
fn without_minus(numeral: &Numeral<'_>) -> Option<Number>
    ensures { option_map number_view result ≡ number_from false numeral.now }
{
    match numeral.to_u64() {
        Some(whole) => Number::from_u128(u128::from(whole)),
        None => nearest_float(false, numeral),
    }
}

// Returns the number of a numeral with a minus before it. A negative zero is a float.
fn with_minus(numeral: &Numeral<'_>) -> Option<Number>
    ensures { option_map number_view result ≡ number_from true numeral.now }
{
    if let Some(whole) = numeral.to_i64(true) {
        if whole < 0 {
            return Number::from_i128(i128::from(whole));
        }
    }
    nearest_float(true, numeral)
}

// Returns the number that a text denotes, or `None` if it is too large for a float.
pub(crate) fn number_in(text: &str) -> Option<Number>
    ensures { option_map number_view result ≡ number_of text.now }
{
    let bytes = text.as_bytes();
    if begins_with_minus(bytes) {
        with_minus(&Numeral::scan(&bytes[1..]))
    } else {
        without_minus(&Numeral::scan(bytes))
    }
}
