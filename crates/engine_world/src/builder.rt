//! The builder's entries for the objects of a definition, by place.

ghost use Rattle.std.specs.Prelude.{◌≡◌, OnOk, map};
ghost use Rattle.ui_machine.specs.Seq.{write};
ghost use Rattle.ui_machine.specs.State.Config.{unbuilt, is_unbuilt};
ghost use Rattle.ui_machine.specs.Rules.Build.{identity_held};
ghost use Rattle.ui_machine.specs.Rules.Events.{is_released};
ghost use Rattle.instance_tables.specs.Store.{id_of};
ghost use Rattle.engine_world.specs.View.{held_of};

use std::alloc::AllocError;
use ui_machine::{ObjectId, Place};

/// The builder's entry for one place.
#[derive(Clone, Copy, Debug, PartialEq, Eq)]
pub enum BuilderEntry {
    /// The builder has not come to the place yet.
    Unbuilt,
    /// The builder holds the object that it built.
    Built(ObjectId),
    /// The builder has let the object go.
    Released,
}

impl BuilderEntry {
    /// Returns the object that the builder holds, if it holds one.
    pub fn object(self) -> Option<ObjectId>
        ensures { id_of result ≡ identity_held (held_of self) }
    {
        match self {
            BuilderEntry::Built(object) => Some(object),
            BuilderEntry::Unbuilt | BuilderEntry::Released => None,
        }
    }

    /// Returns whether the builder has not come to the place yet.
    pub fn is_unbuilt(self) -> bool
        ensures { result ≡ is_unbuilt (held_of self) }
    {
        match self {
            BuilderEntry::Unbuilt => true,
            BuilderEntry::Built(_) | BuilderEntry::Released => false,
        }
    }

    /// Returns whether the builder has let the object go.
    pub fn is_released(self) -> bool
        ensures { result ≡ is_released (held_of self) }
    {
        match self {
            BuilderEntry::Released => true,
            BuilderEntry::Unbuilt | BuilderEntry::Built(_) => false,
        }
    }
}

/// Sets the builder's entry for a place. Places before it that have no entry yet become unbuilt.
///
/// # Errors
///
/// `AllocError` if memory is refused.
pub fn set_builder_entry(
    builder: &mut Vec<BuilderEntry>,
    place: Place,
    held: BuilderEntry,
) -> Result<(), AllocError>
    ensures { OnOk result (map held_of builder.new.items ≡ write unbuilt (map held_of builder.old.items) place.0 (held_of held)) }
{
    put_at(builder, usize::from(place.0), held)
}

// Sets the entry like `set_builder_entry`, for the number of a place.
fn put_at(
    builder: &mut Vec<BuilderEntry>,
    place: usize,
    held: BuilderEntry,
) -> Result<(), AllocError>
    ensures { OnOk result (map held_of builder.new.items ≡ write unbuilt (map held_of builder.old.items) place (held_of held)) }
{
    'growing: while builder.len() <= place {
        builder.push(BuilderEntry::Unbuilt)?;
    }
    builder[place] = held;
    Ok(())
}
