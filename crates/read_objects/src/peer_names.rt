//! Reads the names of peers. Each peer is named once in a definition.

ghost use Rattle.std.specs.Prelude.{◌≡◌, ℕ, List, codes, false, string_bytes, OnOk};
ghost use Rattle.serde_json.specs.Find.{get, as_array};
ghost use Rattle.json_trees.specs.View.{view, items_view};
ghost use Rattle.definition_format.specs.Refusals.{Gives, Leads, or_refused, shape};
ghost use Rattle.definition_format.specs.Document.{path_of, under, each, at_entry};
ghost use Rattle.definition_format.specs.Denoted.Enums.{unless_there};
ghost use Rattle.read_objects.specs.PeerDrafts.{no_peers, own_peer_at, own_peers_at, own_peers_or, with_name};
ghost use Rattle.read_objects.specs.PeerViews.{is_named_in, own_seen};

use definition_format::{DefinitionFault, ReadError};
use json_trees::Value;
use read_parts::document::{Entries, Part, bad_shape, path_text, path_under};
use read_parts::names::name_of_entry;
use read_parts::reads::{Reads, read_each};
use std::alloc::{AllocError, Global};
use std::collections::BTreeSet;

const MEMBER: &str = "peers";

/// The names of the peers of some objects and prototypes.
#[derive(Drop)]
pub struct PeerNames {
    pub(crate) names: BTreeSet<String>,
}

impl PeerNames {
    /// Creates an empty set of names. It takes no memory.
    pub fn new(alloc: Global) -> Self
        ensures { (name : List ℕ) → is_named_in result name ≡ false }
    {
        PeerNames {
            names: BTreeSet::new(alloc),
        }
    }

    /// Returns whether a peer has this name.
    pub fn has(&self, name: &str) -> bool
        ensures { result ≡ is_named_in self.now name.now }
    {
        self.names.contains(name)
    }

    // Adds a name.
    fn add(&mut self, name: String) -> Result<(), AllocError>
        ensures { OnOk result (is_named_in self.new ≡ with_name (is_named_in self.old) (string_bytes name)) }
    {
        self.names.insert(name)?;
        Ok(())
    }
}

/// The peers of a prototype that are read so far, and the names of all peers so far.
#[derive(Drop)]
pub(crate) struct OwnPeers {
    pub(crate) peers: Vec<String>,
    pub(crate) named: PeerNames,
}

// Refuses an entry as `Duplicate` if its name is taken.
fn check_untaken(part: Part<'_>, is_taken: bool) -> Result<(), ReadError>
    ensures { Gives (λ _. tt) result (unless_there (path_of part.entry.path) is_taken) }
{
    if is_taken {
        let path = path_text(part.alloc, part.path)?;
        return Err(ReadError::Refused(DefinitionFault::Duplicate(path)));
    }
    Ok(())
}

// Reads the peer of an entry and adds it.
#[tactic(auto, unfolding(crate::specs::PeerDrafts::own_peer_at))]
fn read_own_peer(part: Part<'_>, own: &mut OwnPeers) -> Result<(), ReadError>
    ensures { Leads result (own_peer_at (path_of part.entry.path) (own_seen own.old) (view part.entry.value.now)) (own_seen own.new) }
{
    let name = name_of_entry(part)?;
    check_untaken(part, own.named.has(name))?;
    let key = String::from_str(part.alloc, name)?;
    let name = String::from_str(part.alloc, name)?;
    own.named.add(key)?;
    own.peers.push(name)?;
    Ok(())
}

// The reader for the peers of a prototype.
#[derive(Clone, Copy)]
struct PeerEntries;

impl Reads<OwnPeers> for PeerEntries {
    ghost use Rattle.read_objects.specs.PeerDrafts as drafts;
    ghost use Rattle.read_objects.specs.PeerViews.{own_seen};

    ghost State = { drafts.OwnPeers };

    ghost seen = { λ own. own_seen own };

    ghost Unchanged = { Unit {0} };

    ghost kept = { λ own. tt };

    ghost known = { λ r. Unit {0} };

    ghost step = { λ r path own d. drafts.own_peer_at path own d };

    fn read(&self, part: Part<'_>, own: &mut OwnPeers) -> Result<(), ReadError> {
        read_own_peer(part, own)
    }
}

// Reads the peers of a list. None may have a name in `named`.
fn read_list(list: Entries<'_>, named: PeerNames) -> Result<OwnPeers, ReadError>
    ensures { Gives own_seen result (each (at_entry own_peer_at list.entry.path.now) 0 (no_peers (is_named_in named)) (items_view list.entry.items.now)) }
{
    let mut own = OwnPeers {
        peers: Vec::new(list.alloc),
        named,
    };
    read_each(&PeerEntries, list, &mut own)?;
    Ok(own)
}

// Returns the entries of the list `peers`.
fn entries_of<'a>(part: Part<'_>, value: &'a Value) -> Result<&'a [Value], ReadError>
    ensures { Gives (λ s. items_view s.now) result (or_refused (shape (under (path_of part.entry.path) (codes "peers"))) (as_array (view value.now))) }
{
    match value.as_array() {
        Some(items) => Ok(items.as_slice()),
        None => Err(bad_shape(part.alloc, part.path, MEMBER)?),
    }
}

// Reads the peers that a value lists. None may have a name in `named`.
#[tactic(auto, unfolding(crate::specs::PeerDrafts::own_peers_at))]
fn listed_peers(part: Part<'_>, value: &Value, named: PeerNames) -> Result<OwnPeers, ReadError>
    ensures { Gives own_seen result (own_peers_at (under (path_of part.entry.path) (codes "peers")) (is_named_in named) (view value.now)) }
{
    let items = entries_of(part, value)?;
    let path = path_under(part.alloc, part.path, MEMBER)?;
    let list = Entries {
        alloc: part.alloc,
        path: path.as_str(),
        items,
    };
    let own = read_list(list, named)?;
    Ok(own)
}

/// Reads the peers of a prototype from its entry. Only a prototype whose class has a shape may have some, and none with a name in `named`.
pub(crate) fn read_own_peers(
    part: Part<'_>,
    has_shape: bool,
    named: PeerNames,
) -> Result<OwnPeers, ReadError>
    ensures { Gives own_seen result (own_peers_or (under (path_of part.entry.path) (codes "peers")) has_shape (is_named_in named) (get (codes "peers") (view part.entry.value.now))) }
{
    let Some(value) = part.value.get(MEMBER) else {
        return Ok(OwnPeers {
            peers: Vec::new(part.alloc),
            named,
        });
    };
    if !has_shape {
        return Err(bad_shape(part.alloc, part.path, MEMBER)?);
    }
    listed_peers(part, value, named)
}
