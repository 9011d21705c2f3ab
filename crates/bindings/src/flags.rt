//! Flags of a binding (GObject manual, GBindingFlags).

ghost use Rattle.std.specs.Prelude.{⊤, [], ◌∷◌, codes};

use bitflags::{Flag, Flags, bitflag_items};

/// The flags that say how a binding transfers values.
#[derive(Clone, Copy, Debug, PartialEq, Eq)]
pub struct BindingFlags(pub u32);

bitflag_items! {
    impl BindingFlags: u32 {
        const BIDIRECTIONAL = 1;
        const SYNC_CREATE = 2;
        const INVERT_BOOLEAN = 4;
    }
}

impl Flags for BindingFlags {
    type Bits = u32;

    ghost exact = { ⊤ };

    ghost table = { (codes "BIDIRECTIONAL", 1) ∷ (codes "SYNC_CREATE", 2) ∷ (codes "INVERT_BOOLEAN", 4) ∷ [] };

    ghost set_of = { λ p. p.0 };

    fn flags<'a>() -> &'a [Flag<BindingFlags>] {
        BindingFlags::FLAGS
    }

    fn bits(&self) -> u32 {
        self.0
    }

    fn from_bits_retain(bits: u32) -> BindingFlags {
        BindingFlags(bits)
    }
}
