//! The bytes of a definition, read from a feed.

ghost use Rattle.std.specs.Prelude.{◌≡◌, ◌≤◌, ◌+◌, take, length, IfOk, IfSome, MatchResult, false};
ghost use Rattle.ui_machine.specs.Limits.{most_definition_bytes};
ghost use Rattle.event_lines.specs.Files.{Marks};
ghost use Rattle.event_lines.specs.Reading.{WhereKnown};

use builder_defs::MAX_BYTES;
use std::alloc::{AllocError, AllocFailed, Global};
use ui_machine::{DeviceFault, Feed};

/// The greatest number of bytes that one read asks for.
const PIECE_SIZE: usize = 4096;

/// The reason why the bytes of a definition were not read.
#[derive(Clone, Copy, Debug, PartialEq, Eq)]
pub enum FileFault {
    /// Memory was refused.
    OutOfMemory,
    /// A read failed, or there is no such file.
    Unreadable,
}

impl From<DeviceFault> for FileFault {
    ghost use Rattle.std.specs.Prelude.{◌≡◌};
    ghost use Rattle.event_lines.specs.declared.definition_file.FileFault.TheVariants as faults;

    ghost from_gives = { λ fault file_fault. file_fault ≡ faults.Unreadable };

    fn from(_fault: DeviceFault) -> FileFault {
        FileFault::Unreadable
    }
}

impl From<AllocError> for FileFault {
    ghost use Rattle.std.specs.Prelude.{◌≡◌};
    ghost use Rattle.event_lines.specs.declared.definition_file.FileFault.TheVariants as faults;

    ghost from_gives = { λ error file_fault. file_fault ≡ faults.OutOfMemory };

    fn from(_error: AllocError) -> FileFault {
        FileFault::OutOfMemory
    }
}

impl<T: Drop> From<AllocFailed<T>> for FileFault {
    ghost use Rattle.std.specs.Prelude.{◌≡◌};
    ghost use Rattle.event_lines.specs.declared.definition_file.FileFault.TheVariants as faults;

    ghost from_gives = { λ error file_fault. file_fault ≡ faults.OutOfMemory };

    fn from(_error: AllocFailed<T>) -> FileFault {
        FileFault::OutOfMemory
    }
}

/// Returns all bytes of a feed, but at most one more than the limit of a definition, by which the definition is refused. No byte past that
/// one is asked for.
///
/// # Errors
///
/// Returns `Unreadable` if the device fails, and `OutOfMemory` if memory is refused.
pub fn definition_bytes<R: Feed>(alloc: Global, reader: &mut R) -> Result<Vec<u8>, FileFault>
    requires works { R.failed reader.old ≡ false }
    ensures bytes { IfOk result (λ bytes. IfSome (R.left reader.old) (λ input. bytes.items ≡ take (most_definition_bytes + 1) input)) }
    ensures near { WhereKnown (R.left reader.old) (R.left reader.new) (λ input rest. length input ≤ length rest + (most_definition_bytes + 1)) }
    ensures marks { MatchResult result (λ _. R.failed reader.new ≡ false) (Marks (R.failed reader.new)) }
{
    let mut piece = [0; PIECE_SIZE];
    let mut bytes = Vec::new(alloc);
    while bytes.len() <= MAX_BYTES {
        let most = (MAX_BYTES + 1 - bytes.len()).min(PIECE_SIZE);
        let count = reader.read(&mut piece[..most])?;
        if count == 0 {
            return Ok(bytes);
        }
        bytes.extend_from_slice(&piece[..count])?;
    }
    Ok(bytes)
}
