//! Linking of programs.

ghost use Rattle.std.specs.Prelude.{◌≡◌, IfOk, IfSome, Some, map, option_map, slice_get};
ghost use Rattle.ui_machine.specs.Definition.Names.{canonical};
ghost use Rattle.bytecode.specs.View.{block_view, connect_view, instruction_view, object_instruction_view, program_view, property_instruction_view, signal_instruction_view, source_instruction_view};
ghost use Rattle.name_tables.specs.Names.{place_of};
ghost use Rattle.engine_links.specs.Linked.{IsDetail, IsLink, IsSignal, LinksConnection};
ghost use Rattle.engine_links.specs.Steps.{AreTables, LinksBlock, LinksBlocks, LinksPrograms, tables_alone};

use crate::link::Link;
use crate::tables::Tables;
use bytecode::{
    Block, Connection, Instruction, ObjectInstruction, Program, PropertyInstruction,
    SignalInstruction, SourceInstruction,
};
use definitions::Definition;
use name_tables::{NameId, NameTable};
use signal_core::canonical_text;
use std::alloc::{AllocError, Global};

/// The definition and the tables in which the names of its programs are looked up.
#[derive(Clone, Copy)]
struct Names<'a> {
    definition: &'a Definition,
    tables: &'a Tables,
    alloc: Global,
    ghost all: { AreTables definition.now tables.now },
}

// Returns the index of a name in a table, in any spelling.
fn find(alloc: Global, names: &NameTable, name: &str) -> Result<Option<NameId>, AllocError>
    ensures place { IfOk result (λ at. at ≡ place_of names.now (canonical name.now)) }
    ensures called { IfOk result (λ at. IfSome at (λ n. option_map (λ named. named.name) (slice_get names.now n) ≡ Some (canonical name.now))) }
{
    let canonical = canonical_text(alloc, name)?;
    Ok(names.find(canonical.as_str()))
}

impl Names<'_> {
    // Returns the index of a property's name.
    fn property(&self, name: &str) -> Result<Option<NameId>, AllocError>
        ensures { IfOk result (IsDetail self.now.definition.now (tables_alone self.now.tables.now) (Some name.now)) }
    {
        find(self.alloc, &self.tables.slots, name)
    }

    // Returns the index of a signal's name.
    fn signal(&self, name: &str) -> Result<Option<NameId>, AllocError>
        ensures { IfOk result (IsSignal self.now.definition.now (tables_alone self.now.tables.now) name.now) }
    {
        find(self.alloc, &self.tables.signals, name)
    }

    // Returns the index of the property name that a detail would be.
    fn detail(&self, detail: Option<&str>) -> Result<Option<NameId>, AllocError>
        ensures { IfOk result (IsDetail self.now.definition.now (tables_alone self.now.tables.now) (option_map (λ text. text.now) detail.entry)) }
    {
        match detail {
            Some(detail) => self.property(detail),
            None => Ok(None),
        }
    }

    // Links an instruction on properties.
    fn on_properties(&self, instruction: &PropertyInstruction) -> Result<Link, AllocError>
        ensures { IfOk result (IsLink self.now.definition.now (tables_alone self.now.tables.now) (property_instruction_view instruction.now)) }
    {
        match instruction {
            PropertyInstruction::Get { property, .. }
            | PropertyInstruction::Set { property, .. }
            | PropertyInstruction::Notify { property, .. } => {
                Ok(Link::Property(self.property(property.as_str())?))
            }
            PropertyInstruction::Freeze(_) | PropertyInstruction::Thaw(_) => Ok(Link::Nothing),
        }
    }

    // Links an instruction on objects.
    fn on_objects(&self, instruction: &ObjectInstruction) -> Link
        ensures { IsLink self.now.definition.now (tables_alone self.now.tables.now) (object_instruction_view instruction.now) result }
    {
        match instruction {
            ObjectInstruction::LookUp { id, .. } | ObjectInstruction::New { id, .. } => {
                Link::Place(self.definition.place(id.as_str()))
            }
            ObjectInstruction::Sink(_)
            | ObjectInstruction::Orphan(_)
            | ObjectInstruction::Dispose(_)
            | ObjectInstruction::Adopt { .. } => Link::Nothing,
        }
    }

    // Links a connection.
    fn connection(&self, connection: &Connection) -> Result<Link, AllocError>
        ensures { IfOk result (LinksConnection self.now.definition.now (tables_alone self.now.tables.now) (connect_view connection.now)) }
    {
        let signal = self.signal(connection.signal.as_str())?;
        let detail = self.detail(connection.detail.as_deref())?;
        Ok(Link::Connection {
            signal,
            detail,
            program: self.definition.program_number(connection.program.as_str()),
        })
    }

    // Links an instruction on signals.
    fn on_signals(&self, instruction: &SignalInstruction) -> Result<Link, AllocError>
        ensures { IfOk result (IsLink self.now.definition.now (tables_alone self.now.tables.now) (signal_instruction_view instruction.now)) }
    {
        match instruction {
            SignalInstruction::Emit { signal, detail, .. } => {
                let signal = self.signal(signal.as_str())?;
                let detail = self.detail(detail.as_deref())?;
                Ok(Link::Emission { signal, detail })
            }
            SignalInstruction::Connect { connection, .. } => self.connection(connection),
            SignalInstruction::Disconnect { program, .. }
            | SignalInstruction::Block { program, .. }
            | SignalInstruction::Unblock { program, .. } => Ok(Link::Program(
                self.definition.program_number(program.as_str()),
            )),
            SignalInstruction::Stop => Ok(Link::Nothing),
        }
    }

    // Links an instruction on sources.
    fn on_sources(&self, instruction: &SourceInstruction) -> Link
        ensures { IsLink self.now.definition.now (tables_alone self.now.tables.now) (source_instruction_view instruction.now) result }
    {
        match instruction {
            SourceInstruction::Idle { program, .. }
            | SourceInstruction::Timeout { program, .. }
            | SourceInstruction::Remove(program) => {
                Link::Program(self.definition.program_number(program.as_str()))
            }
            SourceInstruction::Unbind(name) => {
                Link::Bindings(self.tables.bindings.find(name.as_str()))
            }
        }
    }

    // Links an instruction.
    fn link(&self, instruction: &Instruction) -> Result<Link, AllocError>
        ensures { IfOk result (IsLink self.now.definition.now (tables_alone self.now.tables.now) (instruction_view instruction.now)) }
    {
        match instruction {
            Instruction::Property(instruction) => self.on_properties(instruction),
            Instruction::Object(instruction) => Ok(self.on_objects(instruction)),
            Instruction::Signal(instruction) => self.on_signals(instruction),
            Instruction::Source(instruction) => Ok(self.on_sources(instruction)),
            Instruction::Peer(call) => {
                Ok(Link::Method(self.tables.methods.find(call.method.as_str())))
            }
            Instruction::Compute { .. } | Instruction::Control(_) => Ok(Link::Nothing),
        }
    }

    // Links the instructions of a block.
    fn block(&self, block: &Block) -> Result<Vec<Link>, AllocError>
        ensures { IfOk result (λ links. LinksBlock self.now.definition.now (tables_alone self.now.tables.now) (block_view block.now) links.items) }
    {
        let mut links = Vec::with_capacity(self.alloc, block.code.len())?;
        for instruction in &block.code {
            links.push(self.link(instruction)?)?;
        }
        Ok(links)
    }

    // Links the blocks of a program.
    fn program(&self, program: &Program) -> Result<Vec<Vec<Link>>, AllocError>
        ensures { IfOk result (λ blocks. LinksBlocks self.now.definition.now (tables_alone self.now.tables.now) (program_view program.now) (map (λ b. b.items) blocks.items)) }
    {
        let mut blocks = Vec::with_capacity(self.alloc, program.blocks.len())?;
        for block in &program.blocks {
            blocks.push(self.block(block)?)?;
        }
        Ok(blocks)
    }
}

/// Links all programs of a definition, by program, block and instruction. The tables have all its names.
///
/// # Errors
///
/// `AllocError` if memory is refused.
pub(crate) fn link_programs(
    alloc: Global,
    definition: &Definition,
    tables: &Tables,
) -> Result<Vec<Vec<Vec<Link>>>, AllocError>
    requires { AreTables definition.now tables.now }
    ensures { IfOk result (λ programs. LinksPrograms definition.now (tables_alone tables.now) (map (λ p. map (λ b. b.items) p.items) programs.items)) }
{
    let names = Names {
        definition,
        tables,
        alloc,
    };
    // For the proof: the number of programs is limited.
    let _types = definition.types();
    let mut programs = Vec::new(alloc);
    let mut number = 0;
    loop {
        let Some(program) = definition.program(number) else {
            return Ok(programs);
        };
        programs.push(names.program(program)?)?;
        number += 1;
    }
}
