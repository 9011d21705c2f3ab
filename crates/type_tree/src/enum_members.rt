//! The members of an enum, with look-ups by number, name and nick.

ghost use Rattle.std.specs.Prelude.{◌≡◌, IfOk, MatchOption, false, map, option_and_then, option_map, slice_get, string_bytes, true};
ghost use Rattle.std.specs.List.{find};
ghost use Rattle.std.specs.Option.{option_copied};
ghost use Rattle.std.specs.BTreeMap.{get};
ghost use Rattle.std.specs.Ordering.{int_cmp, int_eq};
ghost use Rattle.ui_machine.specs.Output.Text.{nick_of};
ghost use Rattle.ui_machine.specs.Rules.Transform.{has_number};
ghost use Rattle.type_tree.specs.Members.{enum_member};
ghost use Rattle.type_tree.specs.Naming.{number_called};
ghost use Rattle.type_tree.specs.Numbered.{ArePlaces};
ghost use Rattle.type_tree.specs.Words.{FindCalled};

use crate::member::EnumMember;
use crate::words::{add_words, place_of};
use std::alloc::{AllocError, Global};
use std::collections::BTreeMap;
use std::marker::Model;

/// The members of an enum in their order, with maps to look them up by number, by name and by nick.
#[derive(Drop)]
pub struct EnumMembers {
    members: Vec<EnumMember>,
    // The index of the first member with each number.
    places: BTreeMap<i128, usize>,
    // The index of the member for each name and nick.
    words: BTreeMap<Vec<u8>, usize>,
}

impl Model for EnumMembers {
    ghost use Rattle.std.specs.Prelude.{List};
    ghost use Rattle.type_tree.specs.declared.member.EnumMember.{EnumMember};
    ghost use Rattle.type_tree.specs.Members.{enum_member};
    ghost use Rattle.type_tree.specs.Numbered.{ArePlaces};
    ghost use Rattle.type_tree.specs.Words.{FindCalled};

    ghost Value = { List EnumMember };

    ghost view = { λ e. e.members.items };

    ghost invariant = { λ e. ArePlaces e.places e.members.items × FindCalled enum_member e.words e.members.items };
}

// Maps each number to the index of the first member that has it.
fn places_of(alloc: Global, members: &[EnumMember]) -> Result<BTreeMap<i128, usize>, AllocError>
    ensures { IfOk result (λ places. ArePlaces places members.now) }
{
    let mut places = BTreeMap::new(alloc);
    let mut left = members.len();
    'members: while left > 0 {
        left -= 1;
        places.insert(i128::from(members[left].number), left)?;
    }
    Ok(places)
}

// Collects the names of the members.
fn names_of<'a>(alloc: Global, members: &'a [EnumMember]) -> Result<Vec<&'a str>, AllocError>
    ensures { IfOk result (λ names. map (λ w. w.now) names.items ≡ map (λ m. string_bytes m.name) members.now) }
{
    let mut names = Vec::new(alloc);
    for member in members {
        names.push(member.name.as_str())?;
    }
    Ok(names)
}

// Collects the nicks of the members.
fn nicks_of<'a>(alloc: Global, members: &'a [EnumMember]) -> Result<Vec<&'a str>, AllocError>
    ensures { IfOk result (λ nicks. map (λ w. w.now) nicks.items ≡ map (λ m. string_bytes m.nick) members.now) }
{
    let mut nicks = Vec::new(alloc);
    for member in members {
        nicks.push(member.nick.as_str())?;
    }
    Ok(nicks)
}

// Maps each name and nick to the index of its member. Names take precedence over nicks.
fn words_of(alloc: Global, members: &[EnumMember]) -> Result<BTreeMap<Vec<u8>, usize>, AllocError>
    ensures { IfOk result (λ words. FindCalled enum_member words members.now) }
{
    let mut words = BTreeMap::new(alloc);
    add_words(&mut words, alloc, nicks_of(alloc, members)?.as_slice())?;
    add_words(&mut words, alloc, names_of(alloc, members)?.as_slice())?;
    Ok(words)
}

// Returns the index stored for a number.
fn place_at(places: &BTreeMap<i128, usize>, number: i128) -> Option<usize>
    ensures { result ≡ get int_cmp places.now number }
{
    places.get(&number).copied()
}

// Returns the member at an index, or `None` if there are not so many.
fn member_at(members: &[EnumMember], place: usize) -> Option<&EnumMember>
    ensures { option_copied result ≡ slice_get members.now place }
{
    members.get(place)
}

impl EnumMembers {
    /// Takes over these members and builds the maps.
    ///
    /// # Errors
    ///
    /// `AllocError` if memory is refused.
    pub fn new(alloc: Global, members: Vec<EnumMember>) -> Result<Self, AllocError>
        ensures { IfOk result (λ made. made ≡ members.items) }
    {
        let places = places_of(alloc, &members)?;
        let words = words_of(alloc, &members)?;
        Ok(EnumMembers {
            members,
            places,
            words,
        })
    }

    /// Returns the members in their order.
    pub fn as_slice(&self) -> &[EnumMember]
        ensures { result.now ≡ self.now }
    {
        self.members.as_slice()
    }

    // Returns the first member with this number.
    fn numbered(&self, number: i128) -> Option<&EnumMember>
        ensures { option_copied result ≡ find (λ m. int_eq m.number number) self.now }
    {
        match place_at(&self.places, number) {
            Some(place) => member_at(&self.members, place),
            None => None,
        }
    }

    /// Returns whether a member has this number.
    pub fn has_number(&self, number: i128) -> bool
        ensures { result ≡ has_number (map enum_member self.now) number }
    {
        self.numbered(number).is_some()
    }

    /// Returns the number as an `i32` if a member has it.
    pub fn member_number(&self, number: i128) -> Option<i32>
        ensures { MatchOption result (has_number (map enum_member self.now) number ≡ false)
            (λ n. (n ≡ number) × (has_number (map enum_member self.now) number ≡ true)) }
    {
        match self.numbered(number) {
            Some(member) => Some(member.number),
            None => None,
        }
    }

    /// Returns the nick of the first member with this number, or an empty text if no member has it.
    pub fn nick(&self, number: i32) -> &str
        ensures { result.now ≡ nick_of (map enum_member self.now) number }
    {
        match self.numbered(i128::from(number)) {
            Some(member) => member.nick.as_str(),
            None => "",
        }
    }

    // Returns the member with this name, or else with this nick.
    fn called(&self, word: &[u8]) -> Option<&EnumMember>
        ensures { option_map (λ m. m.number) (option_copied result) ≡ number_called (map enum_member self.now) word.now }
    {
        self.members.get(place_of(&self.words, word)?)
    }

    /// Returns the number of the member with this name, or else with this nick.
    pub fn number_called(&self, word: &str) -> Option<i32>
        ensures { result ≡ number_called (map enum_member self.now) word.now }
    {
        Some(self.called(word.as_bytes())?.number)
    }
}
