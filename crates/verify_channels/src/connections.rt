//! Groups the programs that bytecode may connect. Those that may be connected alike are in one group.

ghost use Rattle.std.specs.Prelude.{◌≡◌, ◌++◌, ◌∷◌, ◌+◌, ◌<◌, ◌≤◌, [], Some, ℕ, cond, length, map, nat_eq, option_map, slice_get, string_bytes, IfOk, OnOk};
ghost use Rattle.bytecode.specs.Shape.{instructions_in};
ghost use Rattle.bytecode.specs.View.{block_view, instruction_view, program_view, register_kind_view, signal_instruction_view};
ghost use Rattle.law_typing.specs.Graph.{connection_of, connections, listed_if};
ghost use Rattle.law_typing.specs.Rules.Sites.{sites};
ghost use Rattle.verify_operands.specs.Views.{kinds_of};
ghost use Rattle.verify_graph.specs.ChannelView.{channel_of};
ghost use Rattle.verify_channels.specs.Connected.{AddsGroup, AreConnected, ConnectsMore, connection_key, connection_over, group_view, meant_at, placed, programs_of};
ghost use Rattle.verify_channels.specs.ConnectedCode.{blocks_connections, code_connections};
ghost use Rattle.verify_channels.specs.Meanings.{meant, of_signal};
ghost use Rattle.ui_machine.specs.Definition.Lookups.{program_of};
ghost use Rattle.ui_machine.specs.Seq.{read};

use crate::connection_keys::{Key, connection_key};
use crate::meanings::{Meaning, is_meant, meaning_of};
use crate::signal_lists::SignalLists;
use bytecode::{Block, Connection, Instruction, Program, RegisterKind, SignalInstruction};
use std::alloc::{AllocError, Global};
use std::collections::BTreeMap;
use ui_machine::{Channel, Place, ProgramId};
use verify_operands::Lookups;
use verify_operands::lists::copy;
use verify_operands::operands::kind_in;
use verify_starts::{covering, go_after, is_covered};

/// A group at a place, with the meaning of its signal and detail there.
#[derive(Clone, Copy, Debug, Drop)]
pub struct PlacedGroup {
    pub group: u32,
    pub meaning: Meaning,
}

/// The groups of programs that bytecode may connect alike, the groups at each place, and the number of the group for each key so far.
#[derive(Drop)]
pub struct Connects {
    pub groups: Vec<Vec<ProgramId>>,
    pub at: Vec<SignalLists<PlacedGroup>>,
    pub numbers: BTreeMap<(u16, u16, u16), u32>,
}

impl Connects {
    /// Creates an empty set of groups.
    ///
    /// # Errors
    ///
    /// `AllocError` if memory is refused.
    pub fn new(alloc: Global, lookups: &Lookups<'_>) -> Result<Connects, AllocError>
        ensures connected { IfOk result (λ x. AreConnected lookups.now x []) }
        ensures none { IfOk result (λ x. length x.groups.items ≡ 0) }
    {
        let mut at = Vec::new(alloc);
        for _place in 0..lookups.definition().place_count() {
            at.push(SignalLists::new(alloc))?;
        }
        Ok(Connects {
            groups: Vec::new(alloc),
            at,
            numbers: BTreeMap::new(alloc),
        })
    }

    // Adds a group to a place, if the kind covers the place.
    fn place_at(
        &mut self,
        lookups: &Lookups<'_>,
        kind: &RegisterKind,
        connection: &Connection,
        group: u32,
        place: usize,
    ) -> Result<(), AllocError>
        requires within { place < length lookups.now.places }
        requires places { length self.old.at.items ≡ length lookups.now.places }
        requires few { length lookups.now.places ≤ 512 }
        ensures groups { OnOk result (self.new.groups ≡ self.old.groups) }
        ensures numbers { OnOk result (self.new.numbers ≡ self.old.numbers) }
        ensures places { OnOk result (length self.new.at.items ≡ length self.old.at.items) }
        ensures placed { OnOk result ((n number : ℕ) → placed self.new.at.items n number ≡ cond (nat_eq place n)
            (placed self.old.at.items n number
            ++ of_signal number (meant_at lookups.now (register_kind_view kind.now) (string_bytes connection.now.signal) (option_map string_bytes connection.now.detail) group n))
            (placed self.old.at.items n number)) }
    {
        let place_id = Place(place as u16);
        if !is_covered(lookups, kind, place_id) {
            return Ok(());
        }
        let Some(class) = lookups.class_at(place_id) else {
            return Ok(());
        };
        let meaning = meaning_of(
            lookups,
            class,
            connection.signal.as_str(),
            &connection.detail,
        );
        let Some(signal) = meaning.signal else {
            return Ok(());
        };
        let groups = &mut self.at[place];
        groups.push(signal, PlacedGroup { group, meaning })?;
        Ok(())
    }

    // Adds a group with one program at the places that a kind covers, and returns its number.
    fn add(
        &mut self,
        alloc: Global,
        lookups: &Lookups<'_>,
        kind: &RegisterKind,
        connection: &Connection,
        program: ProgramId,
    ) -> Result<u32, AllocError>
        requires places { length self.old.at.items ≡ length lookups.now.places }
        requires few { length self.old.groups.items < 131072 }
        ensures adds { IfOk result (λ g. AddsGroup lookups.now self.old self.new (register_kind_view kind.now)
            (string_bytes connection.now.signal) (option_map string_bytes connection.now.detail) program g) }
        ensures few { IfOk result (λ g. length self.new.groups.items ≤ length self.old.groups.items + 1) }
    {
        let group = self.groups.len() as u32;
        let mut programs = Vec::new(alloc);
        programs.push(program)?;
        self.groups.push(programs)?;
        for place in 0..lookups.definition().place_count() {
            self.place_at(lookups, kind, connection, group, place)?;
        }
        Ok(group)
    }

    // Adds a program to a group. Does nothing if there is no such group.
    fn put(&mut self, group: usize, program: ProgramId) -> Result<(), AllocError>
        ensures at { OnOk result (self.new.at ≡ self.old.at) }
        ensures numbers { OnOk result (self.new.numbers ≡ self.old.numbers) }
        ensures count { OnOk result (length self.new.groups.items ≡ length self.old.groups.items) }
        ensures put { OnOk result (group < length self.old.groups.items → (n : ℕ) → read [] (programs_of self.new.groups.items) n
            ≡ cond (nat_eq group n) (read [] (programs_of self.old.groups.items) n ++ program ∷ []) (read [] (programs_of self.old.groups.items) n)) }
    {
        if group >= self.groups.len() {
            return Ok(());
        }
        let programs = &mut self.groups[group];
        programs.push(program)?;
        Ok(())
    }

    // Adds a program to the group with this key, or to a new group if there is none.
    fn add_keyed(
        &mut self,
        alloc: Global,
        lookups: &Lookups<'_>,
        kind: &RegisterKind,
        connection: &Connection,
        program: ProgramId,
        key: Key,
    ) -> Result<(), AllocError>
        requires places { length self.old.at.items ≡ length lookups.now.places }
        requires few { length self.old.groups.items < 131072 }
        requires key { connection_key lookups.now (register_kind_view kind.now) (string_bytes connection.now.signal) (option_map string_bytes connection.now.detail) ≡ Some key }
        ensures places { OnOk result (length self.new.at.items ≡ length lookups.now.places) }
        ensures few { OnOk result (length self.new.groups.items ≤ length self.old.groups.items + 1) }
        ensures more { OnOk result (ConnectsMore lookups.now self.old self.new
            (connection_over lookups.now (register_kind_view kind.now) (string_bytes connection.now.signal) (option_map string_bytes connection.now.detail) (Some program) ∷ [])) }
    {
        // For the proof: the first signal of each class is `notify`.
        let _types = lookups.definition().types();
        if let Some(number) = self.numbers.get(&key) {
            let number = *number as usize;
            self.put(number, program)?;
            return Ok(());
        }
        let group = self.add(alloc, lookups, kind, connection, program)?;
        self.numbers.insert(key, group)?;
        Ok(())
    }

    // Adds a connection that a program may make. One without a key gets a group of its own.
    fn connect(
        &mut self,
        alloc: Global,
        lookups: &Lookups<'_>,
        kind: &RegisterKind,
        connection: &Connection,
    ) -> Result<(), AllocError>
        requires places { length self.old.at.items ≡ length lookups.now.places }
        requires few { length self.old.groups.items < 131072 }
        ensures places { OnOk result (length self.new.at.items ≡ length lookups.now.places) }
        ensures few { OnOk result (length self.new.groups.items ≤ length self.old.groups.items + 1) }
        ensures more { OnOk result (ConnectsMore lookups.now self.old self.new
            (connection_over lookups.now (register_kind_view kind.now) (string_bytes connection.now.signal) (option_map string_bytes connection.now.detail)
            (program_of lookups.now (string_bytes connection.now.program)) ∷ [])) }
    {
        let Some(program) = lookups.program_number(connection.program.as_str()) else {
            return Ok(());
        };
        match connection_key(
            lookups,
            kind,
            connection.signal.as_str(),
            &connection.detail,
        ) {
            Some(key) => {
                self.add_keyed(alloc, lookups, kind, connection, program, key)?;
                Ok(())
            }
            None => {
                self.add(alloc, lookups, kind, connection, program)?;
                Ok(())
            }
        }
    }

    // Adds the connection that an instruction may make, if it makes one.
    fn add_signal(
        &mut self,
        alloc: Global,
        lookups: &Lookups<'_>,
        kinds: &[RegisterKind],
        instruction: &SignalInstruction,
    ) -> Result<(), AllocError>
        requires places { length self.old.at.items ≡ length lookups.now.places }
        requires few { length self.old.groups.items < 131072 }
        ensures places { OnOk result (length self.new.at.items ≡ length lookups.now.places) }
        ensures few { OnOk result (length self.new.groups.items ≤ length self.old.groups.items + 1) }
        ensures more { OnOk result (ConnectsMore lookups.now self.old self.new (listed_if (connection_of lookups.now (kinds_of kinds.now) (signal_instruction_view instruction.now)))) }
    {
        match instruction {
            SignalInstruction::Connect {
                object,
                connection,
                ..
            } => {
                let kind = covering(&kind_in(kinds, *object));
                self.connect(alloc, lookups, &kind, connection)?;
                Ok(())
            }
            SignalInstruction::Emit { .. }
            | SignalInstruction::Disconnect { .. }
            | SignalInstruction::Block { .. }
            | SignalInstruction::Unblock { .. }
            | SignalInstruction::Stop => Ok(()),
        }
    }

    fn add_instruction(
        &mut self,
        alloc: Global,
        lookups: &Lookups<'_>,
        kinds: &[RegisterKind],
        instruction: &Instruction,
    ) -> Result<(), AllocError>
        requires places { length self.old.at.items ≡ length lookups.now.places }
        requires few { length self.old.groups.items < 131072 }
        ensures places { OnOk result (length self.new.at.items ≡ length lookups.now.places) }
        ensures few { OnOk result (length self.new.groups.items ≤ length self.old.groups.items + 1) }
        ensures more { OnOk result (ConnectsMore lookups.now self.old self.new (listed_if (connection_of lookups.now (kinds_of kinds.now) (instruction_view instruction.now)))) }
    {
        match instruction {
            Instruction::Signal(instruction) => {
                self.add_signal(alloc, lookups, kinds, instruction)?;
                Ok(())
            }
            Instruction::Compute { .. }
            | Instruction::Control(_)
            | Instruction::Property(_)
            | Instruction::Object(_)
            | Instruction::Source(_)
            | Instruction::Peer(_) => Ok(()),
        }
    }

    // Adds the connections of a block.
    fn add_block(
        &mut self,
        alloc: Global,
        lookups: &Lookups<'_>,
        program: &Program,
        block: &Block,
    ) -> Result<(), AllocError>
        requires places { length self.old.at.items ≡ length lookups.now.places }
        requires few { length self.old.groups.items + length block.now.code.items ≤ 131072 }
        ensures places { OnOk result (length self.new.at.items ≡ length lookups.now.places) }
        ensures few { OnOk result (length self.new.groups.items ≤ length self.old.groups.items + length block.now.code.items) }
        ensures more { OnOk result (ConnectsMore lookups.now self.old self.new
            (code_connections lookups.now (program_view program.now) (block_view block.now).entry (block_view block.now).code)) }
    {
        let mut kinds = copy(alloc, block.entry.as_slice())?;
        for at in 0..block.code.len() {
            let instruction = &block.code[at];
            self.add_instruction(alloc, lookups, kinds.as_slice(), instruction)?;
            go_after(alloc, lookups, program, &mut kinds, instruction)?;
        }
        Ok(())
    }

    // Adds the connections of a program.
    fn add_program(
        &mut self,
        alloc: Global,
        lookups: &Lookups<'_>,
        program: &Program,
    ) -> Result<(), AllocError>
        requires places { length self.old.at.items ≡ length lookups.now.places }
        requires few { length self.old.groups.items + instructions_in (program_view program.now).blocks ≤ 131072 }
        ensures places { OnOk result (length self.new.at.items ≡ length lookups.now.places) }
        ensures few { OnOk result (length self.new.groups.items ≤ length self.old.groups.items + instructions_in (program_view program.now).blocks) }
        ensures more { OnOk result (ConnectsMore lookups.now self.old self.new (blocks_connections lookups.now (program_view program.now) (program_view program.now).blocks)) }
    {
        for number in 0..program.blocks.len() {
            self.add_block(alloc, lookups, program, &program.blocks[number])?;
        }
        Ok(())
    }
}

/// Returns the connections of all programs.
///
/// # Errors
///
/// `AllocError` if memory is refused.
pub fn connections(alloc: Global, lookups: &Lookups<'_>) -> Result<Connects, AllocError>
    ensures connected { IfOk result (λ x. AreConnected lookups.now x (connections lookups.now (sites lookups.now))) }
    ensures few { IfOk result (λ x. length x.groups.items ≤ 131072) }
{
    // For the proof: there are few programs, and each of them is short.
    let _types = lookups.definition().types();
    let mut connects = Connects::new(alloc, lookups)?;
    for number in 0..lookups.most_programs() {
        let Some(program) = lookups.program(number) else {
            return Ok(connects);
        };
        connects.add_program(alloc, lookups, program)?;
    }
    Ok(connects)
}

// Returns the group at an index of a slice.
fn group_at(groups: &[PlacedGroup], number: usize) -> PlacedGroup
    requires { number < length groups.now }
    ensures { Some (group_view result) ≡ slice_get (map group_view groups.now) number }
{
    groups[number]
}

// Adds the number of a group if it is for the channel.
fn add_group(found: &mut Vec<u32>, group: &PlacedGroup, channel: &Channel) -> Result<(), AllocError>
    ensures { OnOk result (found.new.items ≡ found.old.items ++ meant (channel_of channel.now) (group_view group.now ∷ [])) }
{
    if !is_meant(channel, &group.meaning) {
        return Ok(());
    }
    found.push(group.group)?;
    Ok(())
}

/// Returns the numbers of the groups at a place that are for a channel.
///
/// # Errors
///
/// `AllocError` if memory is refused.
pub fn groups_for(
    alloc: Global,
    groups: &[PlacedGroup],
    channel: &Channel,
) -> Result<Vec<u32>, AllocError>
    ensures { IfOk result (λ found. found.items ≡ meant (channel_of channel.now) (map group_view groups.now)) }
{
    let mut found = Vec::new(alloc);
    for number in 0..groups.len() {
        add_group(&mut found, &group_at(groups, number), channel)?;
    }
    Ok(found)
}
