//! The lines of a transcript, and the text of each.

ghost use Rattle.std.specs.Prelude.{◌≡◌, ◌++◌, codes, decimal, map, option_map, OnOk, IfOk, string_bytes};
ghost use Rattle.std.specs.Fmt.{signed_decimal};
ghost use Rattle.ui_machine.specs.Output.Text.{call_text, detail_text, json_string, text_of_value, text_of_values, text_of_identity, text_of_line};
ghost use Rattle.serde_json.specs.Data.{string};
ghost use Rattle.serde_json.specs.Written.{compact_text};
ghost use Rattle.g_values.specs.View.{value_view};
ghost use Rattle.engine_world.specs.LineView.{line_view};

use g_values::Value;
use itoa::Buffer;
use std::alloc::{AllocError, Global};
use type_tree::TypeTree;
use ui_machine::ObjectId;

/// A line of the transcript.
#[derive(Clone, Copy, Debug)]
pub enum Line<'a> {
    /// The build begins.
    Build,
    /// An object is made.
    Construct {
        object: ObjectId,
        class: &'a str,
    },
    /// A property is written.
    Set {
        object: ObjectId,
        property: &'a str,
        value: &'a Value,
    },
    /// A property refuses a value.
    Refused {
        object: ObjectId,
        property: &'a str,
        value: &'a Value,
    },
    /// A notification begins.
    Notify {
        object: ObjectId,
        property: &'a str,
    },
    /// An emission of another signal begins.
    Emit {
        object: ObjectId,
        signal: &'a str,
        detail: Option<&'a str>,
        args: &'a [Value],
    },
    /// A program begins.
    Run {
        program: &'a str,
    },
    /// A property is read.
    Get {
        object: ObjectId,
        property: &'a str,
        value: &'a Value,
    },
    /// A peer answers a call.
    Call {
        peer: &'a str,
        method: &'a str,
        args: &'a [Value],
        answer: &'a Value,
    },
    /// A peer answers a call with a fault.
    Fault {
        peer: &'a str,
        method: &'a str,
        args: &'a [Value],
    },
    /// A peer is not called, since it is closed.
    Closed {
        peer: &'a str,
        method: &'a str,
        args: &'a [Value],
    },
    /// A limit was reached. The word names what is limited.
    Limit {
        word: &'a str,
    },
    /// An object becomes another's child.
    Adopt {
        parent: ObjectId,
        child: ObjectId,
    },
    /// A child leaves its parent.
    Orphan {
        child: ObjectId,
    },
    /// The builder lets go of the object that has this id.
    Release {
        id: &'a str,
    },
    /// A turn of the main loop begins.
    Turn {
        moment: u64,
    },
    /// An object is disposed, for the first time.
    Dispose {
        object: ObjectId,
    },
    /// A peer is closed.
    Close {
        peer: &'a str,
    },
    /// An object is finalised.
    Final {
        object: ObjectId,
    },
    /// An event's emission ends, with a result.
    Result {
        value: &'a Value,
    },
    /// A dispatch ends, after so many counted steps.
    End {
        steps: u64,
    },
}

// Returns how many bytes to reserve for a line with a number and a name of this length. A text in it may take more.
fn room(name: &str) -> usize {
    name.len().saturating_add(64)
}

impl Line<'_> {
    /// Returns the text of the line, without the LF.
    ///
    /// # Errors
    ///
    /// `AllocError` if memory is refused.
    pub fn text(self, alloc: Global, types: &TypeTree) -> Result<String, AllocError>
        ensures { IfOk result (λ text. string_bytes text ≡ text_of_line types.now (line_view self.entry)) }
    {
        match self {
            Line::Build => String::from_str(alloc, "build"),
            Line::Construct { object, class } => construct_line(alloc, object.0, class),
            Line::Set {
                object,
                property,
                value,
            } => value_line(alloc, types, "set #", object.0, property, value),
            Line::Refused {
                object,
                property,
                value,
            } => value_line(alloc, types, "refused #", object.0, property, value),
            Line::Notify { object, property } => notify_line(alloc, object.0, property),
            Line::Emit {
                object,
                signal,
                detail,
                args,
            } => emit_line(alloc, types, object.0, signal, detail, args),
            Line::Run { program } => named_line(alloc, "run ", program),
            Line::Get {
                object,
                property,
                value,
            } => value_line(alloc, types, "get #", object.0, property, value),
            Line::Call {
                peer,
                method,
                args,
                answer,
            } => answered_line(alloc, types, peer, method, args, answer),
            Line::Fault { peer, method, args } => {
                call_line(alloc, types, "fault ", peer, method, args)
            }
            Line::Closed { peer, method, args } => {
                call_line(alloc, types, "closed ", peer, method, args)
            }
            Line::Limit { word } => named_line(alloc, "limit ", word),
            Line::Adopt { parent, child } => adopt_line(alloc, parent.0, child.0),
            Line::Orphan { child } => object_line(alloc, "orphan #", child.0),
            Line::Release { id } => named_line(alloc, "release ", id),
            Line::Turn { moment } => object_line(alloc, "turn ", moment),
            Line::Dispose { object } => object_line(alloc, "dispose #", object.0),
            Line::Close { peer } => named_line(alloc, "close ", peer),
            Line::Final { object } => object_line(alloc, "final #", object.0),
            Line::Result { value } => result_line(alloc, types, value),
            Line::End { steps } => end_line(alloc, steps),
        }
    }
}

// Returns `construct #1 CLASS`.
fn construct_line(alloc: Global, object: u64, class: &str) -> Result<String, AllocError>
    ensures { IfOk result (λ line. string_bytes line ≡ codes "construct #" ++ (decimal object ++ (codes " " ++ class.now))) }
{
    let mut line = String::with_capacity(alloc, room(class))?;
    line.push_str("construct #")?;
    push_unsigned(&mut line, object)?;
    line.push_str(" ")?;
    line.push_str(class)?;
    Ok(line)
}

// Returns `notify #1.p`.
fn notify_line(alloc: Global, object: u64, property: &str) -> Result<String, AllocError>
    ensures { IfOk result (λ line. string_bytes line ≡ codes "notify #" ++ (decimal object ++ (codes "." ++ property.now))) }
{
    let mut line = String::with_capacity(alloc, room(property))?;
    line.push_str("notify #")?;
    push_unsigned(&mut line, object)?;
    line.push_str(".")?;
    line.push_str(property)?;
    Ok(line)
}

// Returns `release a`, or the same with another word in front.
fn named_line(alloc: Global, word: &str, name: &str) -> Result<String, AllocError>
    ensures { IfOk result (λ line. string_bytes line ≡ word.now ++ name.now) }
{
    let mut line = String::with_capacity(alloc, room(name))?;
    line.push_str(word)?;
    line.push_str(name)?;
    Ok(line)
}

// Returns `adopt #1 #2`.
fn adopt_line(alloc: Global, parent: u64, child: u64) -> Result<String, AllocError>
    ensures { IfOk result (λ line. string_bytes line ≡ codes "adopt #" ++ (decimal parent ++ (codes " #" ++ decimal child))) }
{
    let mut line = String::with_capacity(alloc, room(""))?;
    line.push_str("adopt #")?;
    push_unsigned(&mut line, parent)?;
    line.push_str(" #")?;
    push_unsigned(&mut line, child)?;
    Ok(line)
}

// Returns `dispose #1`, or the same with another word in front.
fn object_line(alloc: Global, word: &str, object: u64) -> Result<String, AllocError>
    ensures { IfOk result (λ line. string_bytes line ≡ word.now ++ decimal object) }
{
    let mut line = String::with_capacity(alloc, room(word))?;
    line.push_str(word)?;
    push_unsigned(&mut line, object)?;
    Ok(line)
}

// Returns `emit #1.s::d(V,V)`.
fn emit_line(
    alloc: Global,
    types: &TypeTree,
    object: u64,
    signal: &str,
    detail: Option<&str>,
    args: &[Value],
) -> Result<String, AllocError>
    ensures { IfOk result (λ line. string_bytes line
        ≡ codes "emit #" ++ (decimal object ++ (codes "." ++ (signal.now
        ++ (detail_text (option_map (λ d. d.now) detail.entry) ++ (codes "(" ++ (text_of_values types.now (map value_view args.now) ++ codes ")"))))))) }
{
    let mut line = String::with_capacity(alloc, room(signal))?;
    line.push_str("emit #")?;
    push_unsigned(&mut line, object)?;
    line.push_str(".")?;
    line.push_str(signal)?;
    push_detail(&mut line, detail)?;
    line.push_str("(")?;
    push_values(alloc, &mut line, types, args)?;
    line.push_str(")")?;
    Ok(line)
}

// Returns `fault p.m(V,V)`, or the same with another word in front.
fn call_line(
    alloc: Global,
    types: &TypeTree,
    word: &str,
    peer: &str,
    method: &str,
    args: &[Value],
) -> Result<String, AllocError>
    ensures { IfOk result (λ line. string_bytes line ≡ word.now ++ call_text types.now peer.now method.now (map value_view args.now)) }
{
    let mut line = String::with_capacity(alloc, room(peer))?;
    line.push_str(word)?;
    line.push_str(peer)?;
    line.push_str(".")?;
    line.push_str(method)?;
    line.push_str("(")?;
    push_values(alloc, &mut line, types, args)?;
    line.push_str(")")?;
    Ok(line)
}

// Returns `call p.m(V,V) = V`.
fn answered_line(
    alloc: Global,
    types: &TypeTree,
    peer: &str,
    method: &str,
    args: &[Value],
    answer: &Value,
) -> Result<String, AllocError>
    ensures { IfOk result (λ line. string_bytes line
        ≡ codes "call " ++ (call_text types.now peer.now method.now (map value_view args.now) ++ (codes " = " ++ text_of_value types.now (value_view answer.now)))) }
{
    let mut line = call_line(alloc, types, "call ", peer, method, args)?;
    line.push_str(" = ")?;
    push_value(alloc, &mut line, types, answer)?;
    Ok(line)
}

// Appends `::d` if there is a detail.
fn push_detail(line: &mut String, detail: Option<&str>) -> Result<(), AllocError>
    ensures { OnOk result (string_bytes line.new ≡ string_bytes line.old ++ detail_text (option_map (λ d. d.now) detail.entry)) }
{
    let Some(detail) = detail else {
        return Ok(());
    };
    line.push_str("::")?;
    line.push_str(detail)
}

// Appends values, joined by commas.
fn push_values(
    alloc: Global,
    line: &mut String,
    types: &TypeTree,
    values: &[Value],
) -> Result<(), AllocError>
    ensures { OnOk result (string_bytes line.new ≡ string_bytes line.old ++ text_of_values types.now (map value_view values.now)) }
{
    let mut left = values;
    'values: while let [first, others @ ..] = left {
        push_value(alloc, line, types, first)?;
        if !others.is_empty() {
            line.push_str(",")?;
        }
        left = others;
    }
    Ok(())
}

// Returns `result V`.
fn result_line(alloc: Global, types: &TypeTree, value: &Value) -> Result<String, AllocError>
    ensures { IfOk result (λ line. string_bytes line ≡ codes "result " ++ text_of_value types.now (value_view value.now)) }
{
    let mut line = String::with_capacity(alloc, room(""))?;
    line.push_str("result ")?;
    push_value(alloc, &mut line, types, value)?;
    Ok(line)
}

// Returns `end N`.
fn end_line(alloc: Global, steps: u64) -> Result<String, AllocError>
    ensures { IfOk result (λ line. string_bytes line ≡ codes "end " ++ decimal steps) }
{
    let mut line = String::with_capacity(alloc, room(""))?;
    line.push_str("end ")?;
    push_unsigned(&mut line, steps)?;
    Ok(line)
}

// Returns `set #1.p V`, or the same with another word in front.
fn value_line(
    alloc: Global,
    types: &TypeTree,
    word: &str,
    object: u64,
    property: &str,
    value: &Value,
) -> Result<String, AllocError>
    ensures { IfOk result (λ line. string_bytes line
        ≡ word.now ++ (decimal object ++ (codes "." ++ (property.now ++ (codes " " ++ text_of_value types.now (value_view value.now)))))) }
{
    let mut line = String::with_capacity(alloc, room(property))?;
    line.push_str(word)?;
    push_unsigned(&mut line, object)?;
    line.push_str(".")?;
    line.push_str(property)?;
    line.push_str(" ")?;
    push_value(alloc, &mut line, types, value)?;
    Ok(line)
}

// Appends a value as it is printed: `TRUE` or `FALSE`, a number in decimal, a text as a compact JSON string, an enum as its nick, flags as
// a number, an object as `#` and its identity, and a null text or object as `null`.
fn push_value(
    alloc: Global,
    line: &mut String,
    types: &TypeTree,
    value: &Value,
) -> Result<(), AllocError>
    ensures { OnOk result (string_bytes line.new ≡ string_bytes line.old ++ text_of_value types.now (value_view value.now)) }
{
    match value {
        Value::Bool(true) => line.push_str("TRUE"),
        Value::Bool(false) => line.push_str("FALSE"),
        Value::Int(number) => push_signed(line, i64::from(*number)),
        Value::UInt(number) => push_unsigned(line, u64::from(*number)),
        Value::Int64(number) => push_signed(line, *number),
        Value::UInt64(number) => push_unsigned(line, *number),
        Value::Text(None) => line.push_str("null"),
        Value::Text(Some(text)) => push_quoted(alloc, line, text.as_str()),
        Value::Enum(class, number) => line.push_str(types.nick(*class, *number)),
        Value::Flags(_, bits) => push_unsigned(line, u64::from(*bits)),
        Value::Object(_, None) => line.push_str("null"),
        Value::Object(_, Some(object)) => push_identity(line, *object),
    }
}

fn push_unsigned(line: &mut String, number: u64) -> Result<(), AllocError>
    ensures { OnOk result (string_bytes line.new ≡ string_bytes line.old ++ decimal number) }
{
    let mut digits = Buffer::new();
    line.push_str(digits.format(number))
}

fn push_signed(line: &mut String, number: i64) -> Result<(), AllocError>
    ensures { OnOk result (string_bytes line.new ≡ string_bytes line.old ++ signed_decimal number) }
{
    let mut digits = Buffer::new();
    line.push_str(digits.format(number))
}

fn push_identity(line: &mut String, object: ObjectId) -> Result<(), AllocError>
    ensures { OnOk result (string_bytes line.new ≡ string_bytes line.old ++ text_of_identity object.0) }
{
    line.push_str("#")?;
    push_unsigned(line, object.0)
}

// Appends a text as a compact JSON string.
#[tactic(auto, using(crate::proofs::Strings::quoted_json))]
fn push_quoted(alloc: Global, line: &mut String, text: &str) -> Result<(), AllocError>
    ensures { OnOk result (string_bytes line.new ≡ string_bytes line.old ++ json_string text.now) }
{
    let written = compact(alloc, text)?;
    line.push_str(written.as_str())
}

fn compact(alloc: Global, text: &str) -> Result<String, AllocError>
    ensures { IfOk result (λ written. string_bytes written ≡ compact_text (string text.now)) }
{
    serde_json::Value::String(String::from_str(alloc, text)?).to_string(alloc)
}
