//! Reads single tokens of a line, with one function for each sort that a caller may expect.

ghost use Rattle.std.specs.Prelude.{◌≡◌, [], ◌∷◌, IfSome, IfOk, option_map};
ghost use Rattle.json.specs.Reads.{token_of};
ghost use Rattle.json.specs.Token.{begin_object, end_object, begin_array, end_array, string, key};
ghost use Rattle.serde_json.specs.View.{view};
ghost use Rattle.read_lines.specs.Tokens.{scalar_data, IsNext};

use crate::numbers::number_in;
use json::{Reader, Token};
use serde_json::Value;
use std::alloc::{AllocError, Global};

// Reads the brace that opens an object.
pub(crate) fn open_object(reader: &mut Reader<'_>) -> Option<()>
    ensures { IfSome result (λ _. reader.old ≡ begin_object ∷ reader.new) }
{
    match reader.next()? {
        Token::BeginObject => Some(()),
        _ => None,
    }
}

// Reads the brace that closes an object.
pub(crate) fn close_object(reader: &mut Reader<'_>) -> Option<()>
    ensures { IfSome result (λ _. reader.old ≡ end_object ∷ reader.new) }
{
    match reader.next()? {
        Token::EndObject => Some(()),
        _ => None,
    }
}

// Reads the bracket that opens an array.
pub(crate) fn open_array(reader: &mut Reader<'_>) -> Option<()>
    ensures { IfSome result (λ _. reader.old ≡ begin_array ∷ reader.new) }
{
    match reader.next()? {
        Token::BeginArray => Some(()),
        _ => None,
    }
}

// Reads the bracket that closes an array.
pub(crate) fn close_array(reader: &mut Reader<'_>) -> Option<()>
    ensures { IfSome result (λ _. reader.old ≡ end_array ∷ reader.new) }
{
    match reader.next()? {
        Token::EndArray => Some(()),
        _ => None,
    }
}

// Reads the key of a member.
pub(crate) fn next_key<'a>(reader: &mut Reader<'a>) -> Option<&'a str>
    ensures { IfSome result (λ s. reader.old ≡ key s.now ∷ reader.new) }
{
    match reader.next()? {
        Token::Key(text) => Some(text),
        _ => None,
    }
}

// Reads a string.
pub(crate) fn next_string<'a>(reader: &mut Reader<'a>) -> Option<&'a str>
    ensures { IfSome result (λ s. reader.old ≡ string s.now ∷ reader.new) }
{
    match reader.next()? {
        Token::String(text) => Some(text),
        _ => None,
    }
}

// Checks that the line has ended.
pub(crate) fn end_line(reader: &mut Reader<'_>) -> Option<()>
    ensures { IfSome result (λ _. reader.old ≡ []) }
{
    match reader.next() {
        None => Some(()),
        Some(_) => None,
    }
}

// Returns the value that a token is by itself, or `None` if it is none or a number that is too large.
pub(crate) fn value_of(alloc: Global, token: Token<'_>) -> Result<Option<Value>, AllocError>
    ensures { IfOk result (λ value. option_map view value ≡ scalar_data (token_of token.entry)) }
{
    match token {
        Token::Null => Ok(Some(Value::Null)),
        Token::Bool(truth) => Ok(Some(Value::Bool(truth))),
        Token::Number(text) => match number_in(text) {
            Some(number) => Ok(Some(Value::Number(number))),
            None => Ok(None),
        },
        Token::String(text) => Ok(Some(Value::String(String::from_str(alloc, text)?))),
        _ => Ok(None),
    }
}

// Reads a value that is no list and no object.
pub(crate) fn next_scalar(
    alloc: Global,
    reader: &mut Reader<'_>,
) -> Result<Option<Value>, AllocError>
    ensures { IfOk result (λ value. IfSome value (λ v. IsNext reader.old (view v) reader.new)) }
{
    match reader.next() {
        Some(token) => value_of(alloc, token),
        None => Ok(None),
    }
}
