//! The serial numbers of the peers of a pool, which rise in the order of the peers.

ghost use Rattle.std.specs.Prelude.{◌≡◌, ◌∷◌, ◌++◌, ◌<◌, [], List, Option, Some, IfOk, IfSome, OnErr, OnOk, bytes_eq, if◌then◌else◌, map, string_bytes, true, vec_capacity, vec_len, ℕ};
ghost use Rattle.native_peers.specs.Serials.{AreSerials, rises_from};

use crate::entries::NamedPeer;
use std::alloc::{AllocError, Global};
use std::collections::BTreeMap;

// Returns a serial number for a peer behind these. Returns `None` if there is no higher number.
fn next_serial(peers: &[NamedPeer]) -> Option<u64>
    ensures { rises_from 0 (map (λ p. p.serial) peers.now) ≡ true → IfSome result (λ serial. rises_from 0 (map (λ p. p.serial) peers.now ++ serial ∷ []) ≡ true) }
{
    match peers.last() {
        Some(peer) => peer.serial.checked_add(1),
        None => Some(1),
    }
}

// Stores the serial number of a name.
fn note(
    serials: &mut BTreeMap<String, u64>,
    alloc: Global,
    name: &str,
    serial: u64,
) -> Result<(), AllocError>
    ensures noted { (serial_of : List ℕ → Option ℕ) → AreSerials serials.old serial_of
        → OnOk result (AreSerials serials.new (λ n. if bytes_eq name.now n then Some serial else serial_of n)) }
    ensures err { (serial_of : List ℕ → Option ℕ) → AreSerials serials.old serial_of → OnErr result (AreSerials serials.new serial_of) }
{
    let name = String::from_str(alloc, name)?;
    serials.insert(name, serial)?;
    Ok(())
}

// Reserves room for one more peer and stores its serial number under its name. Returns an owned copy of the name and the number. Fails if
// memory is refused, or if the last peer has the highest number.
pub(crate) fn make_room(
    peers: &mut Vec<NamedPeer>,
    serials: &mut BTreeMap<String, u64>,
    name: &str,
) -> Result<(String, u64), AllocError>
    ensures items { peers.new.items ≡ peers.old.items }
    ensures name { IfOk result (λ own. string_bytes own.0 ≡ name.now) }
    ensures rises { rises_from 0 (map (λ p. p.serial) peers.old.items) ≡ true → IfOk result (λ own. rises_from 0 (map (λ p. p.serial) peers.old.items ++ own.1 ∷ []) ≡ true) }
    ensures room { OnOk result (vec_len peers.new < vec_capacity peers.new) }
    ensures noted { (serial_of : List ℕ → Option ℕ) → AreSerials serials.old serial_of
        → IfOk result (λ own. AreSerials serials.new (λ n. if bytes_eq name.now n then Some own.1 else serial_of n)) }
    ensures err { (serial_of : List ℕ → Option ℕ) → AreSerials serials.old serial_of → OnErr result (AreSerials serials.new serial_of) }
{
    let Some(serial) = next_serial(peers) else {
        return Err(AllocError);
    };
    let alloc = *peers.allocator();
    let own = String::from_str(alloc, name)?;
    peers.reserve(1)?;
    note(serials, alloc, name, serial)?;
    Ok((own, serial))
}
