//! The needs that a pool of peers has to meet.

ghost use Rattle.std.specs.Prelude.{◌≡◌};
ghost use Rattle.ui_machine.specs.Definition.Names.{same_name};

use peer_shapes::Shape;

/// A peer that a definition needs: its name, and the shape of its object's class, if the class has one.
#[derive(Clone, Copy)]
pub struct Need<'a> {
    pub name: &'a str,
    pub shape: Option<&'a Shape>,
}

impl Need<'_> {
    // Returns whether the peer that is needed has this name.
    #[tactic(auto, using(g_values::proofs::Texts::same_bytes))]
    pub(crate) fn has_name(&self, name: &str) -> bool
        ensures { result ≡ same_name self.now.name.now name.now }
    {
        self.name == name
    }
}
