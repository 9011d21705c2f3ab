//! Reads lines of the plain forms token by token.

ghost use Rattle.std.specs.Prelude.{◌≡◌, [], ◌∷◌, Some, IfSome, IfOk, codes};
ghost use Rattle.json.specs.Token.{begin_object, end_object, begin_array, end_array, string, key};
ghost use Rattle.serde_json.specs.Read.{read};
ghost use Rattle.serde_json.specs.View.{items_view};
ghost use Rattle.read_lines.specs.LineData.{line_data, Says};
ghost use Rattle.read_lines.specs.Tokens.{AreNext};

use crate::tokens::{
    close_array, close_object, end_line, next_key, next_scalar, next_string, open_array,
    open_object, value_of,
};
use json::{Reader, Scratch, Token};
use serde_json::Value;
use std::alloc::{AllocError, Global};

/// A plain line. Its texts are slices of the line or, if they have escapes, of the scratch buffer.
#[derive(Drop)]
pub enum PlainLine<'a> {
    /// `{"set":[id,name,value]}`
    Set {
        id: &'a str,
        name: &'a str,
        value: Value,
    },
    /// `{"get":[id,name]}`
    Get {
        id: &'a str,
        name: &'a str,
    },
    /// `{"release":id}`
    Release {
        id: &'a str,
    },
    /// `{"emit":[id,name,args]}`
    Emit {
        id: &'a str,
        name: &'a str,
        args: Vec<Value>,
    },
    /// `{"turn":moment}`
    Turn {
        moment: Value,
    },
}

// Reads the opening bracket of a list of words, and the id and the name that follow it.
fn open_words<'a>(reader: &mut Reader<'a>) -> Option<(&'a str, &'a str)>
    ensures { IfSome result (λ w. reader.old ≡ begin_array ∷ string w.0.now ∷ string w.1.now ∷ reader.new) }
{
    open_array(reader)?;
    let id = next_string(reader)?;
    let name = next_string(reader)?;
    Some((id, name))
}

// Reads the brackets after the words, which end the line.
fn close_words(reader: &mut Reader<'_>) -> Option<()>
    ensures { IfSome result (λ _. reader.old ≡ end_array ∷ end_object ∷ []) }
{
    close_array(reader)?;
    close_object(reader)?;
    end_line(reader)
}

// Reads the values of a list after its opening bracket. Returns `None` if one of them is a list or an object.
fn next_scalars(alloc: Global, reader: &mut Reader<'_>) -> Result<Option<Vec<Value>>, AllocError>
    ensures { IfOk result (λ values. IfSome values (λ vs. AreNext reader.old (items_view vs.items) reader.new)) }
{
    let mut values = Vec::new(alloc);
    'values: while let Some(token) = reader.next() {
        if matches!(token, Token::EndArray) {
            return Ok(Some(values));
        }
        let Some(value) = value_of(alloc, token)? else {
            return Ok(None);
        };
        values.push(value)?;
    }
    Ok(None)
}

// Reads a set after its key.
fn read_set<'a>(alloc: Global, reader: &mut Reader<'a>) -> Result<Option<PlainLine<'a>>, AllocError>
    ensures { IfOk result (λ line. IfSome line (λ p. Says (begin_object ∷ key (codes "set") ∷ reader.old) p)) }
{
    let Some((id, name)) = open_words(reader) else {
        return Ok(None);
    };
    let Some(value) = next_scalar(alloc, reader)? else {
        return Ok(None);
    };
    let Some(()) = close_words(reader) else {
        return Ok(None);
    };
    Ok(Some(PlainLine::Set { id, name, value }))
}

// Reads a get after its key.
fn read_get<'a>(reader: &mut Reader<'a>) -> Option<PlainLine<'a>>
    ensures { IfSome result (λ p. Says (begin_object ∷ key (codes "get") ∷ reader.old) p) }
{
    let (id, name) = open_words(reader)?;
    close_words(reader)?;
    Some(PlainLine::Get { id, name })
}

// Reads a release after its key.
fn read_release<'a>(reader: &mut Reader<'a>) -> Option<PlainLine<'a>>
    ensures { IfSome result (λ p. Says (begin_object ∷ key (codes "release") ∷ reader.old) p) }
{
    let id = next_string(reader)?;
    close_object(reader)?;
    end_line(reader)?;
    Some(PlainLine::Release { id })
}

// Reads an emission without a detail after its key.
fn read_emit<'a>(
    alloc: Global,
    reader: &mut Reader<'a>,
) -> Result<Option<PlainLine<'a>>, AllocError>
    ensures { IfOk result (λ line. IfSome line (λ p. Says (begin_object ∷ key (codes "emit") ∷ reader.old) p)) }
{
    let Some((id, name)) = open_words(reader) else {
        return Ok(None);
    };
    let Some(()) = open_array(reader) else {
        return Ok(None);
    };
    let Some(args) = next_scalars(alloc, reader)? else {
        return Ok(None);
    };
    let Some(()) = close_words(reader) else {
        return Ok(None);
    };
    Ok(Some(PlainLine::Emit { id, name, args }))
}

// Reads a turn after its key.
fn read_turn<'a>(
    alloc: Global,
    reader: &mut Reader<'a>,
) -> Result<Option<PlainLine<'a>>, AllocError>
    ensures { IfOk result (λ line. IfSome line (λ p. Says (begin_object ∷ key (codes "turn") ∷ reader.old) p)) }
{
    let Some(moment) = next_scalar(alloc, reader)? else {
        return Ok(None);
    };
    let Some(()) = close_object(reader) else {
        return Ok(None);
    };
    let Some(()) = end_line(reader) else {
        return Ok(None);
    };
    Ok(Some(PlainLine::Turn { moment }))
}

// Reads the brace that opens a line, and its first key.
fn open_line<'a>(reader: &mut Reader<'a>) -> Option<&'a str>
    ensures { IfSome result (λ k. reader.old ≡ begin_object ∷ key k.now ∷ reader.new) }
{
    open_object(reader)?;
    next_key(reader)
}

// Reads a plain line from its tokens, or returns `None` if they are not those of one.
fn read_line<'a>(
    alloc: Global,
    reader: &mut Reader<'a>,
) -> Result<Option<PlainLine<'a>>, AllocError>
    ensures { IfOk result (λ line. IfSome line (λ p. Says reader.old p)) }
{
    let Some(key) = open_line(reader) else {
        return Ok(None);
    };
    match key {
        "set" => read_set(alloc, reader),
        "get" => Ok(read_get(reader)),
        "release" => Ok(read_release(reader)),
        "emit" => read_emit(alloc, reader),
        "turn" => read_turn(alloc, reader),
        _ => Ok(None),
    }
}

impl<'a> PlainLine<'a> {
    /// Reads a text that is a plain line. `None` does not mean that the text is at fault: it may still be JSON.
    ///
    /// # Errors
    ///
    /// `AllocError` if the scratch buffer can't grow to the length of the text, or memory for a value is refused.
    #[tactic(auto, using(crate::proofs::PlainRead::read_plain))]
    pub fn read(
        alloc: Global,
        text: &'a str,
        scratch: &'a mut Scratch,
    ) -> Result<Option<PlainLine<'a>>, AllocError>
        ensures { IfOk result (λ line. IfSome line (λ p. read text.now ≡ Some (line_data p))) }
    {
        let mut reader = Reader::new(text, scratch)?;
        let line = read_line(alloc, &mut reader)?;
        Ok(line)
    }
}
