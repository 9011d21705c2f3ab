//! Sums, differences, products and comparisons of two numbers of one kind.

ghost use Rattle.std.specs.Prelude.{◌≡◌, option_map};
ghost use Rattle.ui_machine.specs.Definition.Programs.{add, sub, mul, eq, lt, le};
ghost use Rattle.g_values.specs.View.{value_view};
ghost use Rattle.g_values.specs.Arithmetic.{pair_view, pair_of, calculated, compared};

use crate::value::Value;

// Two numbers of one kind.
#[derive(Clone, Copy)]
enum Numbers {
    Int(i32, i32),
    UInt(u32, u32),
    Int64(i64, i64),
    UInt64(u64, u64),
}

// Returns the two numbers if both values are of the same integer kind.
fn numbers_of(left: &Value, right: &Value) -> Option<Numbers>
    ensures { option_map pair_view result ≡ pair_of (value_view left.now) (value_view right.now) }
{
    match (left, right) {
        (Value::Int(m), Value::Int(n)) => Some(Numbers::Int(*m, *n)),
        (Value::UInt(m), Value::UInt(n)) => Some(Numbers::UInt(*m, *n)),
        (Value::Int64(m), Value::Int64(n)) => Some(Numbers::Int64(*m, *n)),
        (Value::UInt64(m), Value::UInt64(n)) => Some(Numbers::UInt64(*m, *n)),
        _ => None,
    }
}

/// Returns the sum of two numbers of one integer kind, wrapped around on overflow. Returns `None` for other values.
pub fn wrapping_sum(left: &Value, right: &Value) -> Option<Value>
    ensures { option_map value_view result ≡ calculated add (value_view left.now) (value_view right.now) }
{
    match numbers_of(left, right)? {
        Numbers::Int(m, n) => Some(Value::Int(m.wrapping_add(n))),
        Numbers::UInt(m, n) => Some(Value::UInt(m.wrapping_add(n))),
        Numbers::Int64(m, n) => Some(Value::Int64(m.wrapping_add(n))),
        Numbers::UInt64(m, n) => Some(Value::UInt64(m.wrapping_add(n))),
    }
}

/// Returns the difference of two numbers of one integer kind, wrapped around on overflow. Returns `None` for other values.
pub fn wrapping_difference(left: &Value, right: &Value) -> Option<Value>
    ensures { option_map value_view result ≡ calculated sub (value_view left.now) (value_view right.now) }
{
    match numbers_of(left, right)? {
        Numbers::Int(m, n) => Some(Value::Int(m.wrapping_sub(n))),
        Numbers::UInt(m, n) => Some(Value::UInt(m.wrapping_sub(n))),
        Numbers::Int64(m, n) => Some(Value::Int64(m.wrapping_sub(n))),
        Numbers::UInt64(m, n) => Some(Value::UInt64(m.wrapping_sub(n))),
    }
}

/// Returns the product of two numbers of one integer kind, wrapped around on overflow. Returns `None` for other values.
#[tactic(auto, using(crate::proofs::Products::product_of_32_bits, crate::proofs::Products::product_of_64_bits))]
pub fn wrapping_product(left: &Value, right: &Value) -> Option<Value>
    ensures { option_map value_view result ≡ calculated mul (value_view left.now) (value_view right.now) }
{
    match numbers_of(left, right)? {
        Numbers::Int(m, n) => Some(Value::Int(m.wrapping_mul(n))),
        Numbers::UInt(m, n) => Some(Value::UInt(m.wrapping_mul(n))),
        Numbers::Int64(m, n) => Some(Value::Int64(m.wrapping_mul(n))),
        Numbers::UInt64(m, n) => Some(Value::UInt64(m.wrapping_mul(n))),
    }
}

/// Returns whether two numbers of one integer kind are equal. Returns `None` for other values.
pub fn is_equal(left: &Value, right: &Value) -> Option<bool>
    ensures { result ≡ compared eq (value_view left.now) (value_view right.now) }
{
    match numbers_of(left, right)? {
        Numbers::Int(m, n) => Some(m == n),
        Numbers::UInt(m, n) => Some(m == n),
        Numbers::Int64(m, n) => Some(m == n),
        Numbers::UInt64(m, n) => Some(m == n),
    }
}

/// Returns whether the first of two numbers of one integer kind is below the second. Returns `None` for other values.
pub fn is_less(left: &Value, right: &Value) -> Option<bool>
    ensures { result ≡ compared lt (value_view left.now) (value_view right.now) }
{
    match numbers_of(left, right)? {
        Numbers::Int(m, n) => Some(m < n),
        Numbers::UInt(m, n) => Some(m < n),
        Numbers::Int64(m, n) => Some(m < n),
        Numbers::UInt64(m, n) => Some(m < n),
    }
}

/// Returns whether the first of two numbers of one integer kind is at most the second. Returns `None` for other values.
pub fn is_at_most(left: &Value, right: &Value) -> Option<bool>
    ensures { result ≡ compared le (value_view left.now) (value_view right.now) }
{
    match numbers_of(left, right)? {
        Numbers::Int(m, n) => Some(m <= n),
        Numbers::UInt(m, n) => Some(m <= n),
        Numbers::Int64(m, n) => Some(m <= n),
        Numbers::UInt64(m, n) => Some(m <= n),
    }
}
