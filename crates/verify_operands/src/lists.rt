//! Copies and extends lists.

ghost use Rattle.std.specs.Prelude.{◌≡◌, ◌++◌, ◌-◌, length, replicate, IfOk, OnOk};
ghost use Rattle.ui_machine.specs.Seq.{write};

use std::alloc::{AllocError, Global};

/// Copies a slice to a new vector.
///
/// # Errors
///
/// `AllocError` if memory is refused.
pub fn copy<T: Copy + Drop>(alloc: Global, items: &[T]) -> Result<Vec<T>, AllocError>
    ensures { IfOk result (λ copied. copied.items ≡ items.now) }
{
    let mut copied = Vec::new(alloc);
    for item in items {
        copied.push(*item)?;
    }
    Ok(copied)
}

// Appends copies of an item until the list has `count` items.
fn fill<T: Copy + Drop>(items: &mut Vec<T>, count: usize, item: T) -> Result<(), AllocError>
    ensures { OnOk result (items.new.items ≡ items.old.items ++ replicate (count - length items.old.items) item) }
{
    'items: while items.len() < count {
        items.push(item)?;
    }
    Ok(())
}

/// Writes an item at index `at`. If the list is too short, copies of `missing` fill the gap before it.
///
/// # Errors
///
/// `AllocError` if memory is refused.
pub fn write<T: Copy + Drop>(
    items: &mut Vec<T>,
    at: usize,
    item: T,
    missing: T,
) -> Result<(), AllocError>
    ensures { OnOk result (items.new.items ≡ write missing items.old.items at item) }
{
    if at < items.len() {
        items[at] = item;
        return Ok(());
    }
    fill(items, at, missing)?;
    items.push(item)?;
    Ok(())
}
