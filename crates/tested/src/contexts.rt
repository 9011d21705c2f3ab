//! Tests of the main context: removals, turns and restarts.

use main_context::{Batch, Context, Due};
use std::test::Fail;

#[test]
fn the_first_source_of_a_program_is_removed(rt: HostRuntime) -> Result<(), Fail> {
    let mut context = Context::new(rt.alloc());
    context.idle(7, 0, None)?;
    context.timeout(5, 0, 100, None)?;
    context.timeout(7, -3, 50, None)?;
    let first = Some(Due {
        source: 1,
        program: 7,
        arg: None,
    });
    assert_eq!(rt; context.remove(7), first);
    assert_eq!(rt; context.len(), 2);
    assert_eq!(rt; context.remove(6), None);
    let second = Some(Due {
        source: 3,
        program: 7,
        arg: None,
    });
    assert_eq!(rt; context.remove(7), second);
    assert_eq!(rt; context.remove(7), None);
    assert_eq!(rt; context.len(), 1);
    Ok(())
}

// The number of the next source of a batch.
fn next(context: &Context, batch: &mut Batch) -> Option<u64> {
    let due = context.next_of(batch)?;
    Some(due.source)
}

#[test]
fn a_turn_takes_the_least_priority_in_order_of_attachment(rt: HostRuntime) -> Result<(), Fail> {
    let mut context = Context::new(rt.alloc());
    context.idle(1, 0, None)?;
    context.timeout(2, -3, 50, None)?;
    context.idle(3, 200, None)?;
    context.idle(4, -3, None)?;
    let mut early = context.iteration(49)?;
    assert_eq!(rt; next(&context, &mut early), Some(4));
    assert_eq!(rt; next(&context, &mut early), None);
    let mut late = context.iteration(50)?;
    assert_eq!(rt; next(&context, &mut late), Some(2));
    assert_eq!(rt; next(&context, &mut late), Some(4));
    assert_eq!(rt; next(&context, &mut late), None);
    Ok(())
}

#[test]
fn timeouts_due_at_the_same_moment_run_in_order_of_attachment(rt: HostRuntime) -> Result<(), Fail> {
    let mut context = Context::new(rt.alloc());
    context.timeout(1, 0, 100, None)?;
    context.timeout(2, 0, 50, None)?;
    context.iteration(50)?;
    context.timeout(3, 0, 50, None)?;
    let mut batch = context.iteration(100)?;
    assert_eq!(rt; next(&context, &mut batch), Some(1));
    assert_eq!(rt; next(&context, &mut batch), Some(2));
    assert_eq!(rt; next(&context, &mut batch), Some(3));
    assert_eq!(rt; next(&context, &mut batch), None);
    Ok(())
}

#[test]
fn a_restarted_timeout_is_due_one_interval_later(rt: HostRuntime) -> Result<(), Fail> {
    let mut context = Context::new(rt.alloc());
    context.timeout(1, 0, 100, None)?;
    context.timeout(2, 0, 150, None)?;
    context.iteration(120)?;
    assert!(rt; !context.answered(1, true));
    assert_eq!(rt; context.next_ready(), Some(150));
    let mut batch = context.iteration(219)?;
    assert_eq!(rt; next(&context, &mut batch), Some(2));
    assert_eq!(rt; next(&context, &mut batch), None);
    assert!(rt; context.answered(2, false));
    assert_eq!(rt; context.next_ready(), Some(220));
    Ok(())
}
