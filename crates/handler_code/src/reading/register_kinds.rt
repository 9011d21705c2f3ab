//! Reads kinds of registers from their words.

ghost use Rattle.std.specs.Prelude.{◌≡◌, IfOk};
ghost use Rattle.json_trees.specs.View.{view};
ghost use Rattle.serde_json.specs.Find.{as_str};
ghost use Rattle.bytecode.specs.Known.{IsKnownRegister};
ghost use Rattle.bytecode.specs.Reading.KindWords.{parted};
ghost use Rattle.bytecode.specs.Reading.RegisterKinds.{place_in, register_kind_of, register_kind_by, register_kind, register_kind_in};
ghost use Rattle.bytecode.specs.View.{register_kind_view};
ghost use Rattle.bytecode.specs.Reading.Views.{seen};
ghost use Rattle.handler_code.specs.Reading.ReaderViews.{names_view, kind_fault};

use crate::reading::kind_words::{KindFault, kind_of_type, parted, plain_kind};
use crate::reading::names::Names;
use crate::reading::operand_words::is_name;
use bytecode::RegisterKind;
use json_trees::Value;
use ui_machine::Place;

// Returns the place of the object or prototype with this id.
fn place_in<'a>(names: &Names<'_>, id: &'a str) -> Result<Place, KindFault<'a>>
    ensures { seen (λ p. p.0) kind_fault result ≡ place_in (names_view names.now) id.now }
{
    if !is_name(id) {
        return Err(KindFault::NoKind);
    }
    match names.places.get(id) {
        Some(place) => Ok(*place),
        None => Err(KindFault::Unknown(id)),
    }
}

// Returns the kind with this sort, which is what comes before the colon, and this name, which comes after it.
fn kind_of_parts<'a>(
    names: &Names<'_>,
    sort: &str,
    name: &'a str,
) -> Result<RegisterKind, KindFault<'a>>
    ensures kind { seen register_kind_view kind_fault result ≡ register_kind_of (names_view names.now) sort.now name.now }
    ensures known { IfOk result (λ k. IsKnownRegister names.now.types.now k) }
{
    if sort == "some" {
        return match names.types.find_required(name) {
            Some(found) => Ok(RegisterKind::NotNull(found)),
            None => Err(KindFault::Unknown(name)),
        };
    }
    if sort == "at" {
        return match place_in(names, name) {
            Ok(place) => Ok(RegisterKind::At(place)),
            Err(fault) => Err(fault),
        };
    }
    if sort == "at?" {
        return match place_in(names, name) {
            Ok(place) => Ok(RegisterKind::AtOrNull(place)),
            Err(fault) => Err(fault),
        };
    }
    match kind_of_type(names.types, sort, name) {
        Ok(kind) => Ok(RegisterKind::Plain(kind)),
        Err(fault) => Err(fault),
    }
}

// Returns the kind of a register for a word other than `unset`.
fn kind_of_word<'a>(names: &Names<'_>, word: &'a str) -> Result<RegisterKind, KindFault<'a>>
    ensures kind { seen register_kind_view kind_fault result ≡ register_kind_by (names_view names.now) word.now (parted word.now) }
    ensures known { IfOk result (λ k. IsKnownRegister names.now.types.now k) }
{
    if let Some((sort, name)) = parted(word) {
        return kind_of_parts(names, sort, name);
    }
    match plain_kind(word) {
        Ok(kind) => Ok(RegisterKind::Plain(kind)),
        Err(fault) => Err(fault),
    }
}

// Returns the kind of a register for a word, which may be `unset` only if `may_be_unset`.
fn kind_or_unset<'a>(
    names: &Names<'_>,
    may_be_unset: bool,
    word: &'a str,
) -> Result<RegisterKind, KindFault<'a>>
    ensures kind { seen register_kind_view kind_fault result ≡ register_kind (names_view names.now) may_be_unset word.now }
    ensures known { IfOk result (λ k. IsKnownRegister names.now.types.now k) }
{
    if may_be_unset && word == "unset" {
        return Ok(RegisterKind::Unset);
    }
    kind_of_word(names, word)
}

// Returns the kind of a register for the word in a JSON value. Anything but a string is no kind.
pub(crate) fn register_kind_in<'a>(
    names: &Names<'_>,
    may_be_unset: bool,
    json: &'a Value,
) -> Result<RegisterKind, KindFault<'a>>
    ensures kind { seen register_kind_view kind_fault result ≡ register_kind_in (names_view names.now) may_be_unset (as_str (view json.now)) }
    ensures known { IfOk result (λ k. IsKnownRegister names.now.types.now k) }
{
    match json.as_str() {
        Some(word) => kind_or_unset(names, may_be_unset, word),
        None => Err(KindFault::NoKind),
    }
}
