//! Worked examples: what the laws ask is met, and what is good holds in the middle of runs.

ghost use Rattle.worked.specs.Laws.Middles.{Middles};
ghost use Rattle.worked.specs.Laws.WorkedFormats.{FormatsMet};
ghost use Rattle.worked.specs.Laws.WorkedPair.{PairMet};
ghost use Rattle.worked.specs.Laws.WorkedPeers.{PeersMet};
ghost use Rattle.worked.specs.Laws.WorkedSources.{PremisesMet};
ghost use Rattle.worked.specs.Laws.WorkedTurn.{TurnKeeps};

/// In the middle of worked runs what each step is to keep holds.
pub fn middles()
    ensures { Middles }
{}

/// The bytes of a definition with programs, a connected signal, a prototype that a program makes and sources, and lines with turns, meet what the
/// promise of bytes asks.
pub fn premises()
    ensures { PremisesMet }
{}

/// The bytes of a definition with a pair, two properties that are bound both ways, and lines that set each of them, meet it as well.
pub fn pair()
    ensures { PairMet }
{}

/// The bytes of a definition with a shape, a prototype with a peer and a program that calls it meet it as well. Bytes that name a peer
/// twice, no peer for an object whose class has a shape, or a shape for a class below one that has one, denote nothing.
pub fn peers()
    ensures { PeersMet }
{}

/// A text of the first format, and the same text in the second, are as the law over formats asks, and denote one definition. With a block that is
/// passed three times the text denotes another one in the second format, and none in the first.
pub fn formats()
    ensures { FormatsMet }
{}

/// The dispatch of a source in a turn, after another one of the same turn, meets what the laws on dispatches ask, so that it keeps what is promised.
pub fn turn()
    ensures { TurnKeeps }
{}
