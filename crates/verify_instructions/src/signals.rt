//! Types instructions on signals and handlers.

ghost use Rattle.std.specs.Prelude.{map, option_map};
ghost use Rattle.g_values.specs.View.{kind_view};
ghost use Rattle.bytecode.specs.View.{connect_view, number_of, signal_instruction_view};
ghost use Rattle.ui_machine.specs.Definition.Programs as words;
ghost use Rattle.law_typing.specs.Rules.Typing.{connecting, emitting, on_handlers, signal_named, takes_result, typed};
ghost use Rattle.verify_operands.specs.Views.{Leaves, Tests, kinds_of};

use crate::arguments::check_arguments;
use crate::signatures::{given_kinds, program_named, takes, takes_detail, text_of};
use bytecode::{Connection, Register, RegisterKind, SignalInstruction};
use g_values::Kind;
use std::alloc::Global;
use type_tree::TypeId;
use ui_machine::SignalId;
use verify_operands::operands::{data_in, kind_in, operand};
use verify_operands::{Lookups, Rule, TypingError, Written};

// Returns the number of the signal with this name in a class.
fn signal_named(lookups: &Lookups<'_>, class: TypeId, name: &str) -> Result<SignalId, Rule>
    ensures { Tests (λ n. n) result (signal_named lookups.now class name.now) }
{
    match lookups.signal_number(class, name) {
        Some(number) => Ok(number),
        None => Err(Rule::Unknown),
    }
}

// Returns the write of an emission's result to a register, if there is one. A signal without a result breaks `Result` then.
fn result_taken(
    kinds: &[RegisterKind],
    into: Option<Register>,
    kind: Option<Kind>,
) -> Result<Option<Written>, TypingError>
    ensures { Leaves (kinds_of kinds.now) result (takes_result (option_map number_of into) (option_map kind_view kind) (kinds_of kinds.now)) }
{
    let Some(to) = into else {
        return Ok(None);
    };
    let Some(kind) = kind else {
        return Err(TypingError::Broken(Rule::Result));
    };
    Ok(Some(Written {
        to,
        kind: RegisterKind::Plain(kind),
    }))
}

// Types `emit z o s D [a..]`. `notify` can't be emitted by name.
#[tactic(auto, unfolding(law_typing::specs::Rules::Typing::emitting))]
fn emitted(
    lookups: &Lookups<'_>,
    kinds: &[RegisterKind],
    into: Option<Register>,
    object: Register,
    name: &str,
    detail: Option<&str>,
    args: &[Register],
) -> Result<Option<Written>, TypingError>
    ensures { Leaves (kinds_of kinds.now) result (emitting lookups.now (kinds_of kinds.now) (option_map number_of into) object.0 name.now (option_map (λ s. s.now) detail.entry) (map number_of args.now)) }
{
    let class = operand(lookups, kinds, object)?;
    let number = signal_named(lookups, class, name)?;
    if number == 0 {
        return Err(TypingError::Broken(Rule::Unknown));
    }
    let Some(signal) = lookups.signal(class, number) else {
        return Err(TypingError::Broken(Rule::Unknown));
    };
    if !takes_detail(lookups, class, number, &signal, detail) {
        return Err(TypingError::Broken(Rule::Detail));
    }
    check_arguments(lookups, kinds, args, signal.params)?;
    result_taken(kinds, into, signal.result)
}

// Types `connect d o s D p [options] z`.
#[tactic(auto, unfolding(law_typing::specs::Rules::Typing::connecting))]
fn connected(
    alloc: Global,
    lookups: &Lookups<'_>,
    kinds: &[RegisterKind],
    to: Register,
    object: Register,
    connection: &Connection,
) -> Result<Option<Written>, TypingError>
    ensures { Leaves (kinds_of kinds.now) result (connecting lookups.now (kinds_of kinds.now) to.0 object.0 (connect_view connection.now)) }
{
    let class = operand(lookups, kinds, object)?;
    let number = signal_named(lookups, class, connection.signal.as_str())?;
    let Some(signal) = lookups.signal(class, number) else {
        return Err(TypingError::Broken(Rule::Unknown));
    };
    let program = program_named(lookups, connection.program.as_str())?;
    if !takes_detail(lookups, class, number, &signal, text_of(&connection.detail)) {
        return Err(TypingError::Broken(Rule::Detail));
    }
    let with = data_in(lookups, kinds, connection.with)?;
    let instance = kind_in(kinds, object);
    let given = given_kinds(
        alloc,
        connection.swapped,
        instance,
        signal.params,
        with.as_ref(),
    )?;
    if !takes(lookups, program, given.as_slice(), signal.result) {
        return Err(TypingError::Broken(Rule::Signature));
    }
    Ok(Some(Written::truth(to)))
}

// Types `disconnect o p`, and the same with `block` and `unblock`.
#[tactic(auto, unfolding(law_typing::specs::Rules::Typing::on_handlers, law_typing::specs::Rules::Typing::changing_none))]
fn on_handlers(
    lookups: &Lookups<'_>,
    kinds: &[RegisterKind],
    object: Register,
    program: &str,
) -> Result<Option<Written>, TypingError>
    ensures { Leaves (kinds_of kinds.now) result (on_handlers lookups.now (kinds_of kinds.now) object.0 program.now) }
{
    operand(lookups, kinds, object)?;
    program_named(lookups, program)?;
    Ok(None)
}

/// Types an instruction on signals. Returns the register that it writes, or the first rule that it breaks.
pub(crate) fn typed(
    alloc: Global,
    lookups: &Lookups<'_>,
    kinds: &[RegisterKind],
    instruction: &SignalInstruction,
) -> Result<Option<Written>, TypingError>
    ensures { (p : words.Program) → Leaves (kinds_of kinds.now) result (typed lookups.now p (kinds_of kinds.now) (signal_instruction_view instruction.now)) }
{
    match instruction {
        SignalInstruction::Emit {
            into,
            object,
            signal,
            detail,
            args,
        } => emitted(
            lookups,
            kinds,
            *into,
            *object,
            signal.as_str(),
            detail.as_deref(),
            args.as_slice(),
        ),
        SignalInstruction::Connect {
            to,
            object,
            connection,
        } => connected(alloc, lookups, kinds, *to, *object, connection),
        SignalInstruction::Disconnect { object, program } => on_handlers(
            lookups,
            kinds,
            *object,
            program.as_str(),
        ),
        SignalInstruction::Block { object, program } => on_handlers(
            lookups,
            kinds,
            *object,
            program.as_str(),
        ),
        SignalInstruction::Unblock { object, program } => on_handlers(
            lookups,
            kinds,
            *object,
            program.as_str(),
        ),
        SignalInstruction::Stop => Ok(None),
    }
}
