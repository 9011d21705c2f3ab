//! Flags of a signal (GObject manual, GSignalFlags).

ghost use Rattle.std.specs.Prelude.{⊤, [], ◌∷◌, codes};

use bitflags::{Flag, Flags, bitflag_items};

/// The stages in which the class handler of a signal runs, and whether the signal takes details.
#[derive(Clone, Copy, Debug, PartialEq, Eq)]
pub struct SignalFlags(pub u32);

bitflag_items! {
    impl SignalFlags: u32 {
        const RUN_FIRST = 1;
        const RUN_LAST = 2;
        const RUN_CLEANUP = 4;
        const DETAILED = 16;
    }
}

impl Flags for SignalFlags {
    type Bits = u32;

    ghost exact = { ⊤ };

    ghost table = { (codes "RUN_FIRST", 1) ∷ (codes "RUN_LAST", 2) ∷ (codes "RUN_CLEANUP", 4) ∷ (codes "DETAILED", 16) ∷ [] };

    ghost set_of = { λ p. p.0 };

    fn flags<'a>() -> &'a [Flag<SignalFlags>] {
        SignalFlags::FLAGS
    }

    fn bits(&self) -> u32 {
        self.0
    }

    fn from_bits_retain(bits: u32) -> SignalFlags {
        SignalFlags(bits)
    }
}
