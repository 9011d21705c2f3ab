//! Flags of properties (GObject manual, GParamFlags).

ghost use Rattle.std.specs.Prelude.{⊤, ◌≡◌, [], ◌∷◌, codes};
ghost use Rattle.param_specs.specs.Flags.{is_clash};

use bitflags::{Flag, Flags, bitflag_items};

/// The flags that say how a property may be used.
#[derive(Clone, Copy, PartialEq, Eq, Debug)]
pub struct PropertyFlags(pub u32);

bitflag_items! {
    impl PropertyFlags: u32 {
        const READABLE = 1;
        const WRITABLE = 2;
        const CONSTRUCT = 4;
        const CONSTRUCT_ONLY = 8;
        const LAX_VALIDATION = 16;
        const EXPLICIT_NOTIFY = 1 << 30;
    }
}

impl Flags for PropertyFlags {
    type Bits = u32;

    ghost exact = { ⊤ };

    ghost table = { (codes "READABLE", 1) ∷ (codes "WRITABLE", 2) ∷ (codes "CONSTRUCT", 4) ∷ (codes "CONSTRUCT_ONLY", 8) ∷ (codes "LAX_VALIDATION", 16) ∷ (codes "EXPLICIT_NOTIFY", 1073741824) ∷ [] };

    ghost set_of = { λ p. p.0 };

    fn flags<'a>() -> &'a [Flag<PropertyFlags>] {
        PropertyFlags::FLAGS
    }

    fn bits(&self) -> u32 {
        self.0
    }

    fn from_bits_retain(bits: u32) -> PropertyFlags {
        PropertyFlags(bits)
    }
}

impl PropertyFlags {
    /// Returns whether the flags contradict each other: construct with construct-only, either of these without writable, or neither
    /// readable nor writable.
    pub fn is_clash(self) -> bool
        ensures { result ≡ is_clash self.0 }
    {
        let construct = self.contains(PropertyFlags::CONSTRUCT);
        let construct_only = self.contains(PropertyFlags::CONSTRUCT_ONLY);
        let writable = self.contains(PropertyFlags::WRITABLE);
        let readable = self.contains(PropertyFlags::READABLE);
        construct && construct_only
            || construct && !writable
            || construct_only && !writable
            || !readable && !writable
    }
}
