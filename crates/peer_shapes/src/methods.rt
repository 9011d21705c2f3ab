//! Methods of peers.

use g_values::Kind;
use std::alloc::AllocError;

/// A method of a shape. Its kinds are plain ones: booleans, integers and texts.
#[derive(Debug, Drop)]
pub struct Method {
    pub name: String,
    pub params: Vec<Kind>,
    pub result: Kind,
}

/// The parameter kinds and the result kind of a method, without its name.
#[derive(Drop)]
pub(crate) struct Signature {
    pub(crate) params: Vec<Kind>,
    pub(crate) result: Kind,
}

impl Clone for Signature {
    ghost use Rattle.std.specs.Prelude.{◌≡◌};

    ghost is_clone = { λ s copy. (copy.params.items ≡ s.params.items) × (copy.result ≡ s.result) };

    fn clone(&self) -> Result<Signature, AllocError> {
        let params = self.params.clone()?;
        Ok(Signature {
            params,
            result: self.result,
        })
    }
}

/// A borrowed method of a shape.
#[derive(Clone, Copy, Debug)]
pub struct MethodRef<'a> {
    pub name: &'a str,
    pub params: &'a [Kind],
    pub result: Kind,
}
