//! Operations on a list of sources in order of attachment.

ghost use Rattle.std.specs.Prelude.{◌≡◌, option_and_then, option_map};
ghost use Rattle.std.specs.List.{position};
ghost use Rattle.ui_machine.specs.State.Sources.{is_numbered, source_of, without_source};
ghost use Rattle.ui_machine.specs.Rules.MainLoop.{rescheduled};
ghost use Rattle.main_context.specs.Dues.{due_of};
ghost use Rattle.main_context.specs.Places.{place_by, priority_place, timeout_rank};
ghost use Rattle.main_context.specs.Order.{RisesFrom};

use crate::places::Place;
use crate::source::{Due, Source};

/// Returns what is to run for the source with this number.
pub(crate) fn find_due(sources: &[Source], number: u64) -> Option<Due>
    requires { RisesFrom 0 sources.now }
    ensures { result ≡ option_map due_of (source_of number sources.now) }
{
    let index = index_of(sources, number)?;
    Some(sources[index].due())
}

/// Returns the place by priority of the source with this number.
pub(crate) fn priority_place(sources: &[Source], number: u64) -> Option<Place>
    requires { RisesFrom 0 sources.now }
    ensures { result ≡ priority_place sources.now number }
{
    let index = index_of(sources, number)?;
    Some(sources[index].priority_place())
}

/// Returns the place among the timeouts of the source with this number, if it is a timeout.
pub(crate) fn timeout_place(sources: &[Source], number: u64) -> Option<Place>
    requires { RisesFrom 0 sources.now }
    ensures { result ≡ option_and_then (place_by timeout_rank) (source_of number sources.now) }
{
    let index = index_of(sources, number)?;
    sources[index].timeout_place()
}

/// Removes the source with this number and returns it.
pub(crate) fn take(sources: &mut Vec<Source>, number: u64) -> Option<Source>
    requires { RisesFrom 0 sources.old.items }
    ensures given { result ≡ source_of number sources.old.items }
    ensures left { sources.new.items ≡ without_source number sources.old.items }
{
    let index = index_of(sources, number)?;
    Some(sources.remove(index))
}

/// Restarts the interval of the source with this number.
pub(crate) fn reschedule(sources: &mut Vec<Source>, number: u64, moment: u64)
    requires { RisesFrom 0 sources.old.items }
    ensures { sources.new.items ≡ rescheduled moment number sources.old.items }
{
    if let Some(index) = index_of(sources, number) {
        sources[index].restart(moment);
    }
}

// Returns the index of the source with this number, which is searched by halves.
fn index_of(sources: &[Source], number: u64) -> Option<usize>
    requires { RisesFrom 0 sources.now }
    ensures { result ≡ position (is_numbered number) sources.now }
{
    match sources.binary_search_by_key(&number, |source| source.number()) {
        Ok(index) => Some(index),
        Err(_) => None,
    }
}
