//! The law on the peers of a definition: bytes name each plainly.

ghost use Rattle.law_left_peers.specs.Names.PeerNames.{NamesPeersPlainly};

/// Each definition that bytes denote names its peers plainly: each name has a byte, and no point.
pub fn peer_names()
    ensures { NamesPeersPlainly }
{}
