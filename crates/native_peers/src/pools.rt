//! Pools of peers.

ghost use Rattle.std.specs.Prelude.{◌≡◌, map, string_bytes, true};
ghost use Rattle.law_typing.specs.Laws.WellRead.{no_two};
ghost use Rattle.ui_machine.specs.Definition.Names.{same_name};
ghost use Rattle.native_peers.specs.Serials.{AreSerials, rises_from, serial_named};

use crate::entries::NamedPeer;
use std::collections::BTreeMap;

/// Peers under distinct names, in the order in which they were added. A peer's number is its index in that order.
#[derive(Drop)]
pub struct PeerPool {
    pub(crate) peers: Vec<NamedPeer>,
    // The serial number of each name, by which its peer is searched for in `peers`. It stays when a peer before it is taken out.
    pub(crate) serials: BTreeMap<String, u64>,
    ghost apart: { no_two same_name (map (λ p. string_bytes p.name) peers.items) ≡ true },
    ghost rising: { rises_from 0 (map (λ p. p.serial) peers.items) ≡ true },
    ghost numbered: { AreSerials serials (serial_named (λ p. string_bytes p.name) (λ p. p.serial) peers.items) },
}
