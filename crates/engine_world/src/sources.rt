//! Sources that programs attach and remove. A source holds its data (GLib manual, The Main Event Loop: `g_source_set_callback`).

ghost use Rattle.std.specs.Prelude.{◌≡◌, ℕ, ◌+◌, ◌≤◌, cond, option_and_then, IfOk, OnOk, OnErr};
ghost use Rattle.ui_machine.specs.Definition as machine;
ghost use Rattle.ui_machine.specs.Seq.{total};
ghost use Rattle.ui_machine.specs.Rules.MainLoop.{answered};
ghost use Rattle.ui_machine.specs.State.References.{in_option, in_source};
ghost use Rattle.ui_machine.specs.State.Sources.{has_room, without_program};
ghost use Rattle.instance_tables.specs.Store.{count_of, id_of};
ghost use Rattle.main_context.specs.Dues.{identity_of};
ghost use Rattle.engine_world.specs.Counting.{KeepsCounts, MayHold, OnlyCounts};
ghost use Rattle.engine_world.specs.Quiet.{IsQuiet};
ghost use Rattle.engine_world.specs.SourceView.{HoldsSources, with_new_source};
ghost use Rattle.engine_world.specs.View.{world_of};

use crate::engine::Engine;
use crate::references::{hold_any, let_go_any};
use instance_tables::Table;
use main_context::{AttachError, Context, Due};
use std::alloc::AllocError;
use ui_machine::{ObjectId, ProgramId};

/// A source that is to be attached. Without an interval it is an idle. The interval of a timeout is in milliseconds.
#[derive(Clone, Copy, Debug)]
pub struct NewSource {
    pub program: ProgramId,
    pub priority: i32,
    pub interval: Option<u32>,
    /// The object that is given to its program.
    pub arg: Option<ObjectId>,
}

impl NewSource {
    ghost use Rattle.std.specs.Prelude.{◌↔◌, false};
    ghost use Rattle.main_context.specs.Attached.{with_source};
    ghost use Rattle.main_context.specs.Dues.{identity_of};

    // Attaches the source to a context. The context is unchanged after an error.
    fn attach_to(self, context: &mut Context) -> Result<(), AttachError>
        ensures ok { OnOk result (context.new ≡ with_source context.old self.program self.priority self.interval (identity_of self.arg)) }
        ensures limit { (result ≡ Err AttachError.SourceLimit) ↔ (has_room context.old.sources context.old.last ≡ false) }
        ensures err { OnErr result (context.new ≡ context.old) }
    {
        match self.interval {
            None => context.idle(self.program, self.priority, self.arg),
            Some(interval) => context.timeout(self.program, self.priority, interval, self.arg),
        }
    }
}

/// Attaches a source, which holds its data from then on. Returns whether there was room for one more source.
///
/// # Errors
///
/// `AllocError` if memory is refused.
pub fn attach_source(engine: &mut Engine, source: NewSource) -> Result<bool, AllocError>
    requires may { MayHold engine.now.world.table (λ o. in_option o (id_of source.arg)) }
    ensures room { IfOk result (λ b. b ≡ has_room (world_of engine.old.world).sources (world_of engine.old.world).last_source) }
    ensures world { IfOk result (λ b. world_of engine.new.world ≡ cond b (with_new_source (world_of engine.old.world) source) (world_of engine.old.world)) }
    ensures quiet { IsQuiet (world_of engine.old.world) (world_of engine.new.world) }
    ensures same { (engine.new.stack ≡ engine.old.stack) × (engine.new.counted ≡ engine.old.counted) }
    ensures handlers { engine.new.world.handlers ≡ engine.old.world.handlers }
    ensures counted { OnOk result ((d : machine.Definition) → KeepsCounts d engine.old engine.new) }
{
    match source.attach_to(&mut engine.world.context) {
        Ok(()) => {}
        Err(AttachError::SourceLimit) => return Ok(false),
        Err(AttachError::OutOfMemory) => return Err(AllocError),
    }
    hold_any(&mut engine.world.table, source.arg);
    Ok(true)
}

// Removes each source of a program from a context, and lets its data go.
fn remove_each(context: &mut Context, table: &mut Table, program: ProgramId)
    requires held { (o : ℕ) → total (in_source o) context.now.sources ≤ count_of table.now.counts o }
    ensures context { context.new ≡ record context.old { sources = without_program program context.old.sources } }
    ensures only { OnlyCounts table.old table.new }
    ensures counts { (o : ℕ) → count_of table.new.counts o + total (in_source o) context.old.sources ≡ count_of table.old.counts o + total (in_source o) context.new.sources }
{
    while let Some(due) = context.remove(program) {
        let_go_any(table, due.arg);
    }
}

/// Removes each source of a program, which lets its data go.
pub fn remove_sources(engine: &mut Engine, program: ProgramId)
    requires held { HoldsSources engine.now }
    ensures world { world_of engine.new.world ≡ record (world_of engine.old.world) { sources = without_program program (world_of engine.old.world).sources } }
    ensures same { (engine.new.stack ≡ engine.old.stack) × (engine.new.counted ≡ engine.old.counted) }
    ensures handlers { engine.new.world.handlers ≡ engine.old.world.handlers }
    ensures counted { (d : machine.Definition) → KeepsCounts d engine.old engine.new }
{
    remove_each(&mut engine.world.context, &mut engine.world.table, program);
}

// Returns the data of a source, if the source is there and has data.
fn data_of(due: Option<Due>) -> Option<ObjectId>
    ensures { id_of result ≡ option_and_then (λ d. identity_of d.arg) due }
{
    match due {
        Some(due) => due.arg,
        None => None,
    }
}

/// Carries out what a source's program answered. A source that does not stay lets its data go. A timeout that stays is due one interval
/// after the latest moment. A source that was removed while its program ran stays removed.
pub fn answer_source(engine: &mut Engine, source: u64, keep: bool)
    requires held { HoldsSources engine.now }
    ensures world { world_of engine.new.world
        ≡ record (world_of engine.old.world) { sources = answered (world_of engine.old.world).moment source keep (world_of engine.old.world).sources } }
    ensures same { (engine.new.stack ≡ engine.old.stack) × (engine.new.counted ≡ engine.old.counted) }
    ensures handlers { engine.new.world.handlers ≡ engine.old.world.handlers }
    ensures counted { (d : machine.Definition) → KeepsCounts d engine.old engine.new }
{
    let data = data_of(engine.world.context.find(source));
    if engine.world.context.answered(source, keep) {
        let_go_any(&mut engine.world.table, data);
    }
}
