//! Shapes, which are lists of methods with distinct names.

ghost use Rattle.std.specs.Prelude.{◌≡◌, ◌<◌, ◌∷◌, ◌++◌, [], None, IfOk, IfSome, OnOk, length, option_map, slice_get, string_bytes};
ghost use Rattle.ui_machine.specs.Definition.Names.{place_named};
ghost use Rattle.peer_shapes.specs.MethodViews.{lent_view, method_view};

use crate::methods::{Method, MethodRef, Signature};
use indexmap::IndexMap;
use std::alloc::{AllocError, Global};
use std::marker::Model;

/// A list of methods, which calls name by their numbers, with a look-up by name. A contract sees the list of the methods.
#[derive(Drop)]
pub struct Shape {
    methods: IndexMap<String, Signature>,
}

impl Model for Shape {
    ghost use Rattle.std.specs.Prelude.{List, map};
    ghost use Rattle.ui_machine.specs.Definition.Signals as machine;
    ghost use Rattle.peer_shapes.specs.MethodViews.{signed};

    ghost Value = { List machine.Method };

    ghost view = { λ s. map signed s.methods.entries };
}

impl Shape {
    /// Creates a shape without methods. Takes no memory.
    pub fn new(alloc: Global) -> Self
        ensures { result ≡ [] }
    {
        Shape {
            methods: IndexMap::new(alloc),
        }
    }

    /// Returns the number of methods.
    pub fn len(&self) -> usize
        ensures { result ≡ length self.now }
    {
        self.methods.len()
    }

    /// Returns the number of the method with this name, or `None` if no method has it.
    pub fn find(&self, name: &str) -> Option<usize>
        ensures found { result ≡ place_named (λ m. m.name) self.now name.now }
        ensures within { IfSome result (λ k. k < length self.now) }
    {
        self.methods.get_index_of(name)
    }

    /// Returns the method with this number, or `None` if there are not so many.
    pub fn method(&self, number: usize) -> Option<MethodRef<'_>>
        ensures { option_map lent_view result ≡ slice_get self.now number }
    {
        let (name, signature) = self.methods.get_index(number)?;
        Some(MethodRef {
            name: name.as_str(),
            params: signature.params.as_slice(),
            result: signature.result,
        })
    }

    /// Copies the shape.
    ///
    /// # Errors
    ///
    /// `AllocError` if memory is refused.
    pub fn copied(&self) -> Result<Self, AllocError>
        ensures { IfOk result (λ copy. copy ≡ self.now) }
    {
        let methods = self.methods.clone()?;
        Ok(Shape { methods })
    }

    /// Adds a method at the end. No method has its name yet.
    ///
    /// # Errors
    ///
    /// `AllocError` if memory is refused.
    pub fn add(&mut self, method: Method) -> Result<(), AllocError>
        requires { place_named (λ m. m.name) self.old (string_bytes method.name) ≡ None }
        ensures { OnOk result (self.new ≡ self.old ++ method_view method ∷ []) }
    {
        let signature = Signature {
            params: method.params,
            result: method.result,
        };
        let _ = self.methods.insert(method.name, signature)?;
        Ok(())
    }
}
