//! The faults for which the format refuses a program's value.

ghost use Rattle.std.specs.Prelude.{◌≡◌};
ghost use Rattle.bytecode.specs.declared.outline_faults.OutlineError.TheVariants as errors;
ghost use Rattle.bytecode.specs.Reading.OutlineFaults.{part_view, all_of, member_of, entry_of};

use std::alloc::{AllocError, AllocFailed};

/// A part of a program's value: the whole, a block, a member of one of them, or an entry of a member's list.
///
/// Its path is the path of the program, followed by `/blocks/` and the block, if there is one, by `/` and the member, and by `/` and the
/// entry.
#[derive(Clone, Copy, Debug)]
pub struct ProgramPart<'a> {
    /// The number of the block that the part belongs to. `None` if it belongs to the program as a whole.
    pub block: Option<usize>,
    /// The unescaped key of the member. A path escapes it.
    pub member: Option<&'a str>,
    /// The number of the entry in the member's list.
    pub index: Option<usize>,
}

impl<'a> ProgramPart<'a> {
    /// Makes the part that is a whole block, or the whole program.
    pub fn all_of(block: Option<usize>) -> ProgramPart<'a>
        ensures { part_view result ≡ all_of block }
    {
        ProgramPart {
            block,
            member: None,
            index: None,
        }
    }

    /// Makes the part that is a member of a block or of the program.
    pub fn member_of(block: Option<usize>, key: &'a str) -> ProgramPart<'a>
        ensures { part_view result ≡ member_of block key.now }
    {
        ProgramPart {
            block,
            member: Some(key),
            index: None,
        }
    }

    /// Makes the part that is an entry of this part's list.
    pub fn entry_of(self, index: usize) -> ProgramPart<'a>
        ensures { part_view result ≡ entry_of (part_view self.entry) index }
    {
        ProgramPart {
            block: self.block,
            member: self.member,
            index: Some(index),
        }
    }
}

/// The fault of a part.
#[derive(Clone, Copy, Debug)]
pub enum OutlineFault<'a> {
    /// The part is missing, is of another sort, has no meaning there, or does not belong to the format.
    Shape(ProgramPart<'a>),
    /// The part is a kind with a type name that no type has.
    Unknown(ProgramPart<'a>, &'a str),
}

/// The reason for which a program has no outline.
#[derive(Clone, Copy, Debug)]
pub enum OutlineError<'a> {
    /// Memory was refused.
    OutOfMemory,
    /// The format refuses the value.
    Refused(OutlineFault<'a>),
}

impl<'a> From<AllocError> for OutlineError<'a> {
    ghost from_gives = { λ _ error. error ≡ errors.OutOfMemory };

    fn from(_error: AllocError) -> OutlineError<'a> {
        OutlineError::OutOfMemory
    }
}

impl<'a, T: Drop> From<AllocFailed<T>> for OutlineError<'a> {
    ghost from_gives = { λ _ error. error ≡ errors.OutOfMemory };

    fn from(_error: AllocFailed<T>) -> OutlineError<'a> {
        OutlineError::OutOfMemory
    }
}
