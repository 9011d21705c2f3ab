//! What a host in C reads of a session at any time.

ghost use Rattle.std.specs.Prelude.{◌≡◌, ℕ, IfOk, List, None, Ok, Option, option_map, string_bytes};
ghost use Rattle.std.specs.Str.{IsUtf8};
ghost use Rattle.instance_tables.specs.Store.{IsNextLiving, id_of};
ghost use Rattle.c_sessions.specs.Told.{TellsText, class_told, identity_told, object_told, value_told};

use crate::buffers::write_text;
use crate::hosted_session::HostedSession;
use class_texts::class_text;
use object_texts::{object_text, value_text};
use std::alloc::{AllocError, Global};
use ui_machine::ObjectId;

impl HostedSession {
    /// Returns the identity of the document's object with this id. There is none if the builder does not hold it, or if the document has no
    /// such object.
    pub fn identity(&self, id: &[u8]) -> Option<ObjectId>
        ensures utf8 { IsUtf8 id.now → id_of result ≡ identity_told id.now self.now }
        ensures other { (IsUtf8 id.now → ⊥) → result ≡ None }
    {
        let Ok(id) = str::from_utf8(id) else {
            return None;
        };
        match self.running.definition().object_place(id) {
            Some(place) => self.running.session().identity(place),
            None => None,
        }
    }

    /// Returns the lowest identity of an object that lives, from this one on.
    pub fn next_object(&self, from: ObjectId) -> Option<ObjectId>
        ensures { IsNextLiving self.now.running.core.world.objects from.0 (id_of result) }
    {
        self.running.session().next_object(from)
    }

    /// Returns an object as JSON, as `object_texts::object_text` does, or `None` if it does not live.
    ///
    /// # Errors
    ///
    /// `AllocError` if memory is refused.
    pub fn object_text(&self, alloc: Global, id: ObjectId) -> Result<Option<String>, AllocError>
        ensures { IfOk result (λ text. option_map string_bytes text ≡ object_told id.0 self.now) }
    {
        let definition = self.running.definition();
        let Some(object) = self.running.session().object(id) else {
            return Ok(None);
        };
        let Some(place) = definition.object(usize::from(object.place().0)) else {
            return Ok(None);
        };
        let text = object_text(alloc, definition, &place, object)?;
        Ok(Some(text))
    }

    /// Returns the value of a property as JSON, as `object_texts::value_text` does. There is none if the object does not live or has no such
    /// property.
    ///
    /// # Errors
    ///
    /// `AllocError` if memory is refused.
    pub fn value_text(
        &self,
        alloc: Global,
        id: ObjectId,
        property: &[u8],
    ) -> Result<Option<String>, AllocError>
        ensures utf8 { IsUtf8 property.now → IfOk result (λ text. option_map string_bytes text ≡ value_told id.0 property.now self.now) }
        ensures other { (IsUtf8 property.now → ⊥) → result ≡ Ok None }
    {
        let Ok(name) = str::from_utf8(property) else {
            return Ok(None);
        };
        let definition = self.running.definition();
        let Some(object) = self.running.session().object(id) else {
            return Ok(None);
        };
        let Some(slot) = definition.slot(object.class(), name) else {
            return Ok(None);
        };
        let Some(value) = object.value(slot) else {
            return Ok(None);
        };
        let text = value_text(alloc, definition.types(), value)?;
        Ok(Some(text))
    }

    /// Returns a class of the definition as JSON, as `class_texts::class_text` does, or `None` if no class has this name.
    ///
    /// # Errors
    ///
    /// `AllocError` if memory is refused.
    pub fn class_text(&self, alloc: Global, name: &[u8]) -> Result<Option<String>, AllocError>
        ensures utf8 { IsUtf8 name.now → IfOk result (λ text. option_map string_bytes text ≡ class_told name.now self.now) }
        ensures other { (IsUtf8 name.now → ⊥) → result ≡ Ok None }
    {
        let Ok(name) = str::from_utf8(name) else {
            return Ok(None);
        };
        class_text(alloc, self.running.definition(), name)
    }
}

/// Writes as much of a text as there is room for, as `write_text` does, and returns its whole length. Nothing is written for a text that is not
/// there or that found no memory.
pub(crate) fn tell_text(text: Result<Option<String>, AllocError>, out: &mut [u8]) -> usize
    ensures { (told : Option (List ℕ)) → IfOk text (λ t. option_map string_bytes t ≡ told) → TellsText told out.old result out.new }
{
    match text {
        Ok(Some(text)) => {
            write_text(out, text.as_bytes());
            text.len()
        }
        Ok(None) | Err(_) => {
            write_text(out, b"");
            0
        }
    }
}
