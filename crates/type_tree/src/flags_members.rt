//! The members of a flags type, with look-ups by name and nick.

ghost use Rattle.std.specs.Prelude.{◌≡◌, IfOk, map, option_and_then, option_map, pos, slice_get, string_bytes};
ghost use Rattle.std.specs.Option.{option_copied};
ghost use Rattle.ui_machine.specs.Rules.Transform.{known_bits};
ghost use Rattle.type_tree.specs.Members.{flags_member};
ghost use Rattle.type_tree.specs.Naming.{number_called};
ghost use Rattle.type_tree.specs.Words.{FindCalled};

use crate::member::FlagsMember;
use crate::words::{add_words, place_of};
use std::alloc::{AllocError, Global};
use std::collections::BTreeMap;
use std::marker::Model;

/// The members of a flags type in their order, with a map to look them up by name and by nick, and the union of their bits.
#[derive(Drop)]
pub struct FlagsMembers {
    members: Vec<FlagsMember>,
    known: u32,
    // The index of the member for each name and nick.
    words: BTreeMap<Vec<u8>, usize>,
}

impl Model for FlagsMembers {
    ghost use Rattle.std.specs.Prelude.{◌≡◌, List, map};
    ghost use Rattle.ui_machine.specs.Rules.Transform.{known_bits};
    ghost use Rattle.type_tree.specs.Members.{flags_member};
    ghost use Rattle.type_tree.specs.Words.{FindCalled};
    ghost use Rattle.type_tree.specs.declared.member.FlagsMember.{FlagsMember};

    ghost Value = { List FlagsMember };

    ghost view = { λ f. f.members.items };

    ghost invariant = { λ f. (f.known ≡ known_bits (map flags_member f.members.items)) × FindCalled flags_member f.words f.members.items };
}

// Returns the union of the members' bits.
fn known_bits(members: &[FlagsMember]) -> u32
    ensures { result ≡ known_bits (map flags_member members.now) }
{
    let mut bits = 0;
    for member in members {
        bits |= member.bits;
    }
    bits
}

// Collects the names of the members.
fn names_of<'a>(alloc: Global, members: &'a [FlagsMember]) -> Result<Vec<&'a str>, AllocError>
    ensures { IfOk result (λ names. map (λ w. w.now) names.items ≡ map (λ m. string_bytes m.name) members.now) }
{
    let mut names = Vec::new(alloc);
    for member in members {
        names.push(member.name.as_str())?;
    }
    Ok(names)
}

// Collects the nicks of the members.
fn nicks_of<'a>(alloc: Global, members: &'a [FlagsMember]) -> Result<Vec<&'a str>, AllocError>
    ensures { IfOk result (λ nicks. map (λ w. w.now) nicks.items ≡ map (λ m. string_bytes m.nick) members.now) }
{
    let mut nicks = Vec::new(alloc);
    for member in members {
        nicks.push(member.nick.as_str())?;
    }
    Ok(nicks)
}

// Maps each name and nick to the index of its member. Names take precedence over nicks.
fn words_of(alloc: Global, members: &[FlagsMember]) -> Result<BTreeMap<Vec<u8>, usize>, AllocError>
    ensures { IfOk result (λ words. FindCalled flags_member words members.now) }
{
    let mut words = BTreeMap::new(alloc);
    add_words(&mut words, alloc, nicks_of(alloc, members)?.as_slice())?;
    add_words(&mut words, alloc, names_of(alloc, members)?.as_slice())?;
    Ok(words)
}

impl FlagsMembers {
    /// Takes over these members, builds the map and joins their bits.
    ///
    /// # Errors
    ///
    /// `AllocError` if memory is refused.
    pub fn new(alloc: Global, members: Vec<FlagsMember>) -> Result<Self, AllocError>
        ensures { IfOk result (λ made. made ≡ members.items) }
    {
        let known = known_bits(&members);
        let words = words_of(alloc, &members)?;
        Ok(FlagsMembers {
            members,
            known,
            words,
        })
    }

    /// Returns the members in their order.
    pub fn as_slice(&self) -> &[FlagsMember]
        ensures { result.now ≡ self.now }
    {
        self.members.as_slice()
    }

    /// Returns the union of the bits of all members.
    pub fn known_bits(&self) -> u32
        ensures { result ≡ known_bits (map flags_member self.now) }
    {
        self.known
    }

    // Returns the member with this name, or else with this nick.
    fn called(&self, word: &[u8]) -> Option<&FlagsMember>
        ensures { option_map (λ m. pos m.bits) (option_copied result) ≡ number_called (map flags_member self.now) word.now }
    {
        self.members.get(place_of(&self.words, word)?)
    }

    /// Returns the bits of the member with this name, or else with this nick.
    pub fn bits_called(&self, word: &[u8]) -> Option<u32>
        ensures { option_map pos result ≡ number_called (map flags_member self.now) word.now }
    {
        Some(self.called(word)?.bits)
    }
}
