//! Wrapping to the four integer kinds, and decimal texts of integers.

ghost use Rattle.std.specs.Prelude.{◌≡◌, pos, ◌^◌, ◌<ℤ◌, ◌≤ℤ◌, neg_ℤ, decimal, IfOk};
ghost use Rattle.std.specs.Fmt.{signed_decimal};
ghost use Rattle.std.specs.Rc.{rc_str_bytes};
ghost use Rattle.ui_machine.specs.Definition.Kinds.{int, uint, int64, uint64};
ghost use Rattle.ui_machine.specs.Rules.Transform.{wrapped};

use std::alloc::{AllocError, Global};
use std::rc::RcStr;

/// Returns the low 32 bits of a number as an unsigned number.
pub fn wrapped_uint(number: i128) -> u32
    ensures { pos result ≡ wrapped uint number }
{
    number.rem_euclid(4294967296) as u32
}

/// Returns the low 32 bits of a number as a signed number.
pub fn wrapped_int(number: i128) -> i32
    ensures { result ≡ wrapped int number }
{
    (number.rem_euclid(4294967296) as u32).cast_signed()
}

/// Returns the low 64 bits of a number as an unsigned number.
pub fn wrapped_uint64(number: i128) -> u64
    ensures { pos result ≡ wrapped uint64 number }
{
    number.rem_euclid(18446744073709551616) as u64
}

/// Returns the low 64 bits of a number as a signed number.
pub fn wrapped_int64(number: i128) -> i64
    ensures { result ≡ wrapped int64 number }
{
    (number.rem_euclid(18446744073709551616) as u64).cast_signed()
}

/// Writes an unsigned number of 64 bits in decimal.
///
/// # Errors
///
/// `AllocError` if memory is refused.
fn unsigned_text(alloc: Global, number: u64) -> Result<RcStr, AllocError>
    ensures { IfOk result (λ s. rc_str_bytes s ≡ decimal number) }
{
    let text = format!(in alloc; "{number}")?;
    RcStr::from_str(alloc, text.as_str())
}

/// Writes a signed number of 64 bits in decimal.
///
/// # Errors
///
/// `AllocError` if memory is refused.
fn signed_text(alloc: Global, number: i64) -> Result<RcStr, AllocError>
    ensures { IfOk result (λ s. rc_str_bytes s ≡ signed_decimal number) }
{
    let text = format!(in alloc; "{number}")?;
    RcStr::from_str(alloc, text.as_str())
}

/// Writes a number of 64 bits, signed or unsigned, in decimal.
///
/// # Errors
///
/// `AllocError` if memory is refused.
pub fn number_text(alloc: Global, number: i128) -> Result<RcStr, AllocError>
    requires low { neg_ℤ (pos 9223372036854775808) ≤ℤ number }
    requires high { number <ℤ pos 18446744073709551616 }
    ensures { IfOk result (λ s. rc_str_bytes s ≡ signed_decimal number) }
{
    if number < 0 {
        signed_text(alloc, number as i64)
    } else {
        unsigned_text(alloc, number as u64)
    }
}
