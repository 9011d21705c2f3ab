//! `unbind`: a program ends a binding of the definition (GObject manual, GBinding: `g_binding_unbind`).

ghost use Rattle.std.specs.Prelude.{◌≡◌, Ok};
ghost use Rattle.ui_machine.specs.Definition as machine;
ghost use Rattle.ui_machine.specs.Instructions.Signals.{unbinding};
ghost use Rattle.ui_machine.specs.State.Bindings.{bindings_without};
ghost use Rattle.engine_world.specs.FirstPrograms.{IsProgram};
ghost use Rattle.engine_world.specs.Counting.{Counts, KeepsCounts, nothing};
ghost use Rattle.engine_world.specs.Able.{Able};
ghost use Rattle.engine_world.specs.View.{world_of};
ghost use Rattle.engine_instructions.specs.UnbindView.{without_numbers};
ghost use Rattle.law_typing.specs.Good.Meanings.{KeepsMeanings};
ghost use Rattle.engine_links.specs.Linked.{LinksBindings};
ghost use Rattle.engine_world.specs.Executions.{Executes};
ghost use Rattle.engine_instructions.specs.InProgram.{in_program};

use bindings::Bindings;
use definitions::Definition;
use engine_links::Link;
use engine_world::engine::Engine;

// Ends the bindings with these numbers.
fn unbind_numbered(bindings: &mut Bindings, numbers: &[u64])
    ensures { bindings.new ≡ record bindings.old { bindings = without_numbers numbers.now bindings.old.bindings } }
{
    for number in numbers {
        bindings.unbind_numbered(*number);
    }
}

// Ends the bindings of a name. The instruction's link says which these are.
fn unbind(engine: &mut Engine, definition: &Definition, name: &str, link: Link)
    requires link { LinksBindings definition.now engine.now.links name.now link }
    requires meanings { KeepsMeanings definition.now (world_of engine.now.world) }
    ensures world { world_of engine.new.world ≡ record (world_of engine.old.world) { bindings = bindings_without name.now (world_of engine.old.world).bindings } }
    ensures same { (engine.new.stack ≡ engine.old.stack) × (engine.new.counted ≡ engine.old.counted) }
    ensures handlers { engine.new.world.handlers ≡ engine.old.world.handlers }
    ensures counted { (d : machine.Definition) → KeepsCounts d engine.old engine.new }
{
    let numbers = engine.links.bindings(link.bindings());
    unbind_numbered(&mut engine.world.bindings, numbers);
}

/// Ends the binding of a name, if it has not ended before.
pub(crate) fn unbind_from_program(
    engine: &mut Engine,
    definition: &Definition,
    name: &str,
    link: Link,
)
    requires first { IsProgram engine.now }
    requires link { LinksBindings definition.now engine.now.links name.now link }
    requires meanings { KeepsMeanings definition.now (world_of engine.now.world) }
    requires able { Able (in_program definition.now engine.now (λ w f. unbinding definition.now w f name.now)) }
    requires counted { Counts definition.now nothing engine.now }
    ensures { Executes (Ok result) definition.now engine.old engine.new
        (in_program definition.now engine.old (λ w f. unbinding definition.now w f name.now)) }
{
    unbind(engine, definition, name, link);
}
