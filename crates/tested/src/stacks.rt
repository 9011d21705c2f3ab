//! Frames of each kind, pushed out of vectors of any capacity, and popped; and vectors that a stock keeps.

use engine_stack::{Frame, Frames, Stock, Task};
use g_values::Value;
use signal_core::{Emission, Handlers, SignalFlags};
use std::test::Fail;
use ui_machine::ObjectId;

#[test]
fn the_last_pushed_is_the_first_popped(rt: HostRuntime) -> Result<(), Fail> {
    let mut frames = Frames::new(rt.alloc(), 3, 2)?;
    let mut values = Vec::with_capacity(rt.alloc(), 5)?;
    values.push_reserved(Value::Int(1));
    values.push_reserved(Value::Bool(true));
    frames.push(Frame::Program(7), &mut values);
    assert_eq!(rt; (values.len(), values.capacity()), (0, 5));
    let emission = Emission {
        object: ObjectId(4),
        signal: 2,
        detail: None,
        flags: SignalFlags(0),
        accumulator: None,
        class_program: None,
    };
    let cursor = Handlers::new(rt.alloc(), 0, 0).begin_emission(emission);
    let mut one = Vec::with_capacity(rt.alloc(), 1)?;
    one.push_reserved(Value::UInt(5));
    frames.push(Frame::Emission(cursor), &mut one);
    frames.push(Frame::Construction(ObjectId(9)), &mut Vec::new(rt.alloc()));
    assert_eq!(rt; frames.tasks.len(), 3);
    assert!(rt; matches!(frames.pop(), Some(Frame::Construction(ObjectId(9)))));
    assert!(rt; matches!(frames.pop(), Some(Frame::Emission(_))));
    assert!(rt; matches!(frames.pop(), Some(Frame::Program(7))));
    assert!(rt; matches!(frames.pop(), None));
    assert!(rt; frames.tasks.is_empty());
    Ok(())
}

#[test]
fn the_values_of_a_program_are_in_its_first_registers(rt: HostRuntime) -> Result<(), Fail> {
    let mut frames = Frames::new(rt.alloc(), 1, 2)?;
    let mut values = Vec::with_capacity(rt.alloc(), 2)?;
    values.push_reserved(Value::Int(1));
    values.push_reserved(Value::Bool(true));
    frames.push(Frame::Program(7), &mut values);
    match frames.first_program() {
        Some(frame) => {
            let registers = frame.registers.as_slice();
            assert!(rt; matches!(registers, [Some(Value::Int(1)), Some(Value::Bool(true))]));
        }
        None => assert!(rt; false),
    }
    Ok(())
}

#[test]
fn a_frame_is_popped_with_the_tasks_before_it(rt: HostRuntime) -> Result<(), Fail> {
    let mut frames = Frames::new(rt.alloc(), 2, 2)?;
    frames.push(Frame::Program(7), &mut Vec::new(rt.alloc()));
    frames.push_task(Task::Unsetting { number: 3 });
    frames.push_task(Task::Due { source: 1 });
    assert!(rt; matches!(frames.pop(), Some(Frame::Program(7))));
    assert!(rt; frames.tasks.is_empty());
    Ok(())
}

#[test]
fn a_vector_of_the_usual_room_is_given_for_one_of_the_stock(rt: HostRuntime) -> Result<(), Fail> {
    let mut stock = Stock::new(rt.alloc(), 2, 3)?;
    let mut values = Vec::with_capacity(rt.alloc(), 3)?;
    values.push_reserved(7u64);
    let kept = stock.keep(rt.alloc(), &mut values);
    assert_eq!(rt; kept.as_slice(), [7u64].as_slice());
    assert_eq!(rt; (values.len(), values.capacity()), (0, 3));
    let mut wide = Vec::with_capacity(rt.alloc(), 4)?;
    wide.push_reserved(8u64);
    let kept_wide = stock.keep(rt.alloc(), &mut wide);
    assert_eq!(rt; (wide.len(), wide.capacity()), (0, 0));
    assert_eq!(rt; stock.give_back(rt.alloc(), kept).capacity(), 0);
    let wide = stock.give_back(rt.alloc(), kept_wide);
    assert_eq!(rt; (wide.len(), wide.capacity()), (0, 4));
    Ok(())
}
