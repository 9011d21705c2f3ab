//! The texts of refusals of definitions.

ghost use Rattle.std.specs.Prelude.{◌≡◌, ◌<◌, ◌++◌, IfOk, OnOk, string_bytes};
ghost use Rattle.definition_format.specs.Causes.{cause_view, property_cause};
ghost use Rattle.definition_format.specs.Refusals.{refusal};
ghost use Rattle.definition_format.specs.FaultText.{hex_digit, printed_byte, printed, type_limit_name, type_cause_text, spec_fault_text, signal_fault_text, spec_cause_text, program_limit_name, program_cause_text, value_cause_text, limit_name, refusal_text};

use crate::faults::{DefinitionFault, DefinitionLimit, SpecCause, TypeCause};
use bytecode::{ProgramFault, ProgramLimit};
use g_values::JsonFault;
use param_specs::SpecFault;
use signal_core::SignalFault;
use std::alloc::{AllocError, Global};
use type_tree::TypeLimit;

impl DefinitionFault {
    /// Returns the fault's name and fields, separated by single blanks, as the program prints them after `refused: `. In paths and names
    /// each byte outside of 33 to 126 is written as `%` and two upper case hexadecimal digits.
    ///
    /// # Errors
    ///
    /// `AllocError` if memory is refused.
    pub fn text(&self, alloc: Global) -> Result<String, AllocError>
        ensures exact { IfOk result (λ text. string_bytes text ≡ refusal_text (refusal self.now)) }
    {
        match self {
            DefinitionFault::TooLong => String::from_str(alloc, "TooLong"),
            DefinitionFault::NotUtf8 => String::from_str(alloc, "NotUtf8"),
            DefinitionFault::NotJson => String::from_str(alloc, "NotJson"),
            DefinitionFault::Shape(path) => {
                let path = printed(alloc, path.as_str())?;
                format!(in alloc; "Shape {path}")
            }
            DefinitionFault::Unknown(path, name) => {
                let path = printed(alloc, path.as_str())?;
                let name = printed(alloc, name.as_str())?;
                format!(in alloc; "Unknown {path} {name}")
            }
            DefinitionFault::Duplicate(path) => {
                let path = printed(alloc, path.as_str())?;
                format!(in alloc; "Duplicate {path}")
            }
            DefinitionFault::BadType(path, cause) => {
                let path = printed(alloc, path.as_str())?;
                let cause = type_cause_text(alloc, cause)?;
                format!(in alloc; "BadType {path} {cause}")
            }
            DefinitionFault::BadSpec(path, cause) => {
                let path = printed(alloc, path.as_str())?;
                let cause = spec_cause_text(alloc, cause)?;
                format!(in alloc; "BadSpec {path} {cause}")
            }
            DefinitionFault::BadProgram(path, cause) => {
                let path = printed(alloc, path.as_str())?;
                let cause = program_cause_text(alloc, *cause)?;
                format!(in alloc; "BadProgram {path} {cause}")
            }
            DefinitionFault::ValueFault(path, cause) => {
                let path = printed(alloc, path.as_str())?;
                let cause = value_cause_text(*cause);
                format!(in alloc; "ValueFault {path} {cause}")
            }
            DefinitionFault::ForwardConstructOnly(path) => {
                let path = printed(alloc, path.as_str())?;
                format!(in alloc; "ForwardConstructOnly {path}")
            }
            DefinitionFault::Limit(limit) => {
                let name = limit_name(*limit);
                format!(in alloc; "Limit {name}")
            }
        }
    }
}

// Returns the name of a limit of definitions.
fn limit_name(limit: DefinitionLimit) -> &'static str
    ensures { result.now ≡ limit_name limit }
{
    match limit {
        DefinitionLimit::Types => "types",
        DefinitionLimit::Depth => "depth",
        DefinitionLimit::Properties => "properties",
        DefinitionLimit::Signals => "signals",
        DefinitionLimit::Programs => "programs",
        DefinitionLimit::Places => "places",
        DefinitionLimit::Objects => "objects",
        DefinitionLimit::Handlers => "handlers",
    }
}

// Returns the name of a limit of the type tree.
fn type_limit_name(limit: TypeLimit) -> &'static str
    ensures { result.now ≡ type_limit_name limit }
{
    match limit {
        TypeLimit::Types => "types",
        TypeLimit::Depth => "depth",
    }
}

// Returns the text of the cause for which a type is not added or has no objects: its name and its own fields.
fn type_cause_text(alloc: Global, cause: &TypeCause) -> Result<String, AllocError>
    ensures { IfOk result (λ text. string_bytes text ≡ type_cause_text (cause_view cause.now)) }
{
    match cause {
        TypeCause::BadName => String::from_str(alloc, "BadName"),
        TypeCause::Duplicate => String::from_str(alloc, "Duplicate"),
        TypeCause::UnknownParent => String::from_str(alloc, "UnknownParent"),
        TypeCause::FinalParent => String::from_str(alloc, "FinalParent"),
        TypeCause::Prerequisite(required) => {
            let name = printed(alloc, required.as_str())?;
            format!(in alloc; "Prerequisite {name}")
        }
        TypeCause::Limit(limit) => {
            let name = type_limit_name(*limit);
            format!(in alloc; "Limit {name}")
        }
        TypeCause::Abstract => String::from_str(alloc, "Abstract"),
    }
}

// Returns the name of the fault for which a property is not installed.
fn spec_fault_text(fault: SpecFault) -> &'static str
    ensures { result.now ≡ spec_fault_text fault }
{
    match fault {
        SpecFault::BadName => "BadName",
        SpecFault::Duplicate => "Duplicate",
        SpecFault::FlagsClash => "FlagsClash",
        SpecFault::RangeEmpty => "RangeEmpty",
        SpecFault::DefaultInvalid => "DefaultInvalid",
        SpecFault::Limit => "Limit",
    }
}

// Returns the name of the fault for which a signal is not declared.
fn signal_fault_text(fault: SignalFault) -> &'static str
    ensures { result.now ≡ signal_fault_text fault }
{
    match fault {
        SignalFault::BadName => "BadName",
        SignalFault::Duplicate => "Duplicate",
        SignalFault::AccumulatorKind => "AccumulatorKind",
        SignalFault::Limit => "Limit",
    }
}

// Returns the text of a `SpecCause`: its name and its own fields.
fn spec_cause_text(alloc: Global, cause: &SpecCause) -> Result<String, AllocError>
    ensures { IfOk result (λ text. string_bytes text ≡ spec_cause_text (property_cause cause.now)) }
{
    match cause {
        SpecCause::Install(fault) => String::from_str(alloc, spec_fault_text(*fault)),
        SpecCause::Declare(fault) => String::from_str(alloc, signal_fault_text(*fault)),
        SpecCause::NotWritable => String::from_str(alloc, "NotWritable"),
        SpecCause::OverrideMissing(property) => {
            let name = printed(alloc, property.as_str())?;
            format!(in alloc; "OverrideMissing {name}")
        }
        SpecCause::OverrideDiffers(property) => {
            let name = printed(alloc, property.as_str())?;
            format!(in alloc; "OverrideDiffers {name}")
        }
    }
}

// Returns the name of a limit of programs.
fn program_limit_name(limit: ProgramLimit) -> &'static str
    ensures { result.now ≡ program_limit_name limit }
{
    match limit {
        ProgramLimit::Registers => "registers",
        ProgramLimit::Blocks => "blocks",
        ProgramLimit::Instructions => "instructions",
    }
}

// Returns the text of the cause for which JSON denotes no program: its name and the numbers of the block and of the instruction.
fn program_cause_text(alloc: Global, cause: ProgramFault) -> Result<String, AllocError>
    ensures { IfOk result (λ text. string_bytes text ≡ program_cause_text cause) }
{
    match cause {
        ProgramFault::BadInstruction(block, at) => {
            let block = block.0;
            format!(in alloc; "BadInstruction {block} {at}")
        }
        ProgramFault::BackwardJump(block) => {
            let block = block.0;
            format!(in alloc; "BackwardJump {block}")
        }
        ProgramFault::NoReturn(block) => {
            let block = block.0;
            format!(in alloc; "NoReturn {block}")
        }
        ProgramFault::Limit(limit) => {
            let name = program_limit_name(limit);
            format!(in alloc; "Limit {name}")
        }
        ProgramFault::BadRepeat(block) => {
            let block = block.0;
            format!(in alloc; "BadRepeat {block}")
        }
    }
}

// Returns the name of the fault for which JSON denotes no value.
fn value_cause_text(cause: JsonFault) -> &'static str
    ensures { result.now ≡ value_cause_text cause }
{
    match cause {
        JsonFault::WrongJson => "WrongJson",
        JsonFault::OutOfRange => "OutOfRange",
        JsonFault::UnknownMember => "UnknownMember",
        JsonFault::TextTooLong => "TextTooLong",
    }
}

/// Returns a path or a name in its printed form: each byte outside 33 to 126 as `%` and two hexadecimal digits.
///
/// # Errors
///
/// `AllocError` if memory is refused.
pub fn printed(alloc: Global, text: &str) -> Result<String, AllocError>
    ensures { IfOk result (λ out. string_bytes out ≡ printed text.now) }
{
    let mut out = String::new(alloc);
    for byte in text.as_bytes() {
        push_printed(&mut out, *byte)?;
    }
    Ok(out)
}

// Appends the printed form of a byte.
fn push_printed(out: &mut String, byte: u8) -> Result<(), AllocError>
    ensures { OnOk result (string_bytes out.new ≡ string_bytes out.old ++ printed_byte byte) }
{
    if (33..=126).contains(&byte) {
        out.push(char::from(byte))?;
        return Ok(());
    }
    out.push('%')?;
    out.push(hex_digit(byte / 16))?;
    out.push(hex_digit(byte % 16))?;
    Ok(())
}

// Returns the upper case hexadecimal digit for a number below 16.
fn hex_digit(digit: u8) -> char
    requires { digit < 16 }
    ensures { result ≡ hex_digit digit }
{
    if digit < 10 {
        char::from(b'0' + digit)
    } else {
        char::from(b'A' + (digit - 10))
    }
}
