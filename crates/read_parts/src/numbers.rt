//! Whole numbers of a document.

ghost use Rattle.std.specs.Prelude.{◌≡◌};
ghost use Rattle.json_trees.specs.View.{view};
ghost use Rattle.g_values.specs.Reading.{whole_number};

use json_trees::Value;

/// Returns the whole number of 64 bits in a value, with or without a sign, or `None` if it is none.
pub fn whole_number(value: &Value) -> Option<i128>
    ensures { result ≡ whole_number (view value.now) }
{
    value.as_number()?.as_i128()
}
