//! The busy channels of a definition, in the order of the report: all but the signals at which nothing runs, and which no program names.

ghost use Rattle.std.specs.Prelude.{◌≡◌, ◌||◌, ◌++◌, ◌+◌, ◌≤◌, ◌∷◌, [], ℕ, Some, cond, false, length, map, IfOk, OnOk};
ghost use Rattle.std.specs.List.{filter};
ghost use Rattle.ui_machine.specs.Seq.{read};
ghost use Rattle.ui_machine.specs.Definition.Lookups.{class_of};
ghost use Rattle.law_typing.specs.Graph.{attached_to};
ghost use Rattle.law_typing.specs.Graph.Channels.{channels_at, emitted_at, signal};
ghost use Rattle.law_typing.specs.Rules.RegisterKinds.{class_at};
ghost use Rattle.law_idle.specs.Idle.{busy_channels, is_busy, is_busy_at, is_named, is_used, signals_attached};
ghost use Rattle.verify_graph.specs.Busy.{AreUsedOfTypes};
ghost use Rattle.verify_graph.specs.ChannelView.{channels_of};

use crate::busy_signals::{mark_attached, used_in, used_signals};
use crate::report_channels::{add_constructed, add_properties};
use std::alloc::{AllocError, Global};
use type_tree::TypeId;
use ui_machine::{Channel, Member, Place, SignalId};
use verify_operands::Lookups;

// Returns whether the signal with this number is marked.
fn is_marked(marks: &[bool], number: usize) -> bool
    ensures { result ≡ read false marks.now number }
{
    if number >= marks.len() {
        return false;
    }
    marks[number]
}

// Adds a signal of a place if it is marked.
fn add_signal(
    channels: &mut Vec<Channel>,
    marks: &[bool],
    place: Place,
    number: SignalId,
) -> Result<(), AllocError>
    ensures added { OnOk result (channels_of channels.new.items ≡ channels_of channels.old.items ++ cond (read false marks.now number) (signal place.0 number ∷ []) []) }
    ensures few { OnOk result (length channels.new.items ≤ length channels.old.items + 1) }
{
    if !is_marked(marks, usize::from(number)) {
        return Ok(());
    }
    let member = Member::Signal(number);
    channels.push(Channel { place, member })?;
    Ok(())
}

// Adds the marked signals of a place with this class, all but `notify`.
fn add_signals(
    channels: &mut Vec<Channel>,
    lookups: &Lookups<'_>,
    marks: &[bool],
    place: Place,
    class: TypeId,
) -> Result<(), AllocError>
    requires { (n : ℕ) → read false marks.now n ≡ is_busy lookups.now (signal place.0 n) }
    ensures added { OnOk result (channels_of channels.new.items ≡ channels_of channels.old.items ++ filter (is_busy lookups.now) (emitted_at place.0 (class_of lookups.now class).signals)) }
    ensures few { OnOk result (length channels.new.items ≤ length channels.old.items + 16384) }
{
    for number in 1..lookups.definition().signal_count(class) {
        add_signal(channels, marks, place, number as SignalId)?;
    }
    Ok(())
}

// Returns which signals of a place are busy.
fn busy_at(
    alloc: Global,
    lookups: &Lookups<'_>,
    used: &[Vec<bool>],
    place: Place,
) -> Result<Vec<bool>, AllocError>
    requires { AreUsedOfTypes lookups.now used.now }
    ensures { IfOk result (λ marks. (class : ℕ) → class_at lookups.now place.0 ≡ Some class → (n : ℕ) → read false marks.items n ≡ is_busy lookups.now (signal place.0 n)) }
{
    let Some(entry) = lookups.definition().object(usize::from(place.0)) else {
        return Ok(Vec::new(alloc));
    };
    let mut marks = used_in(alloc, lookups, used, entry.class)?;
    mark_attached(&mut marks, lookups, entry.class, entry.signals)?;
    Ok(marks)
}

// Adds the busy channels of a place.
fn add_busy_at(
    alloc: Global,
    channels: &mut Vec<Channel>,
    lookups: &Lookups<'_>,
    used: &[Vec<bool>],
    place: Place,
) -> Result<(), AllocError>
    requires { AreUsedOfTypes lookups.now used.now }
    ensures added { OnOk result (channels_of channels.new.items ≡ channels_of channels.old.items ++ filter (is_busy lookups.now) (channels_at lookups.now place.0)) }
    ensures few { OnOk result (length channels.new.items ≤ length channels.old.items + 32833) }
{
    let Some(class) = lookups.class_at(place) else {
        return Ok(());
    };
    let marks = busy_at(alloc, lookups, used, place)?;
    add_constructed(channels, lookups, place, class)?;
    add_properties(channels, lookups, place, class)?;
    add_signals(channels, lookups, marks.as_slice(), place, class)?;
    Ok(())
}

/// Returns the busy channels of a definition in the order of the report.
///
/// # Errors
///
/// `AllocError` if memory is refused.
pub(crate) fn busy_channels(
    alloc: Global,
    lookups: &Lookups<'_>,
) -> Result<Vec<Channel>, AllocError>
    ensures channels { IfOk result (λ found. channels_of found.items ≡ busy_channels lookups.now) }
    ensures few { IfOk result (λ found. length found.items ≤ 33554432) }
{
    let used = used_signals(alloc, lookups)?;
    let mut found = Vec::new(alloc);
    for place in 0..lookups.definition().place_count() {
        add_busy_at(
            alloc,
            &mut found,
            lookups,
            used.as_slice(),
            Place(place as u16),
        )?;
    }
    Ok(found)
}
