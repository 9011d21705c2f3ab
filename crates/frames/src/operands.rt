//! The operands of instructions, which are registers that are set to values of the kinds that the instruction asks for.

ghost use Rattle.std.specs.Prelude.{◌≡◌, All, [], IsOk, IsSome, None, Ok, OnOk, map, option_map};
ghost use Rattle.ui_machine.specs.Instructions.Registers.{values_in};
ghost use Rattle.ui_machine.specs.Seq.{read};
ghost use Rattle.ui_machine.specs.State.Tasks.{Frame};
ghost use Rattle.g_values.specs.View.{value_view};
ghost use Rattle.bytecode.specs.Computing.{registers_of};
ghost use Rattle.bytecode.specs.View.{number_of};
ghost use Rattle.frames.specs.Computing.{text_in, truth_in};
ghost use Rattle.frames.specs.Operand.{identity_in};

use bytecode::Register;
use g_values::Value;
use std::alloc::AllocError;
use ui_machine::ObjectId;

/// Returns the value of a register, if it is set.
pub fn value_at(registers: &[Option<Value>], at: Register) -> Option<&Value>
    ensures { option_map (λ v. value_view v.now) result ≡ read None (registers_of registers.now) at.0 }
{
    if at.0 < registers.len() {
        registers[at.0].as_ref()
    } else {
        None
    }
}

/// Copies the values of some registers, which are all set, into an empty list.
///
/// # Errors
///
/// `AllocError` if the list has no room and memory is refused, or a text can't be shared.
pub fn copy_values(
    registers: &[Option<Value>],
    from: &[Register],
    values: &mut Vec<Value>,
) -> Result<(), AllocError>
    requires set { All (λ r. IsSome (read None (registers_of registers.now) (number_of r))) from.now }
    requires none { values.now.items ≡ [] }
    ensures { OnOk result ((f : Frame) → f.registers ≡ registers_of registers.now → values_in f (map number_of from.now) ≡ Ok (map value_view values.new.items)) }
{
    for register in from {
        let Some(value) = value_at(registers, *register) else {
            unreachable!()
        };
        values.push(value.copied()?)?;
    }
    Ok(())
}

/// Returns the boolean in a register, if it holds one.
pub fn truth_at(registers: &[Option<Value>], at: Register) -> Option<bool>
    ensures { result ≡ truth_in (registers_of registers.now) at.0 }
{
    match value_at(registers, at)? {
        Value::Bool(truth) => Some(*truth),
        _ => None,
    }
}

/// Returns the text in a register, if it holds one. A null text is returned as an empty one.
pub fn text_at(registers: &[Option<Value>], at: Register) -> Option<&str>
    ensures { option_map (λ s. s.now) result ≡ text_in (registers_of registers.now) at.0 }
{
    match value_at(registers, at)? {
        Value::Text(Some(text)) => Some(text.as_str()),
        Value::Text(None) => Some(""),
        _ => None,
    }
}

/// Returns the object that a register names. Does not say whether the object lives.
pub fn identity_at(registers: &[Option<Value>], at: Register) -> ObjectId
    requires { IsOk (identity_in (registers_of registers.now) at.0) }
    ensures { identity_in (registers_of registers.now) at.0 ≡ Ok result.0 }
{
    let Some(Value::Object(_, Some(id))) = value_at(registers, at) else {
        unreachable!()
    };
    *id
}
