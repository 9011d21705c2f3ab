//! The parts of which definitions are made.

use crate::places::{Objects, Prototypes};
use crate::programs::Programs;
use crate::shapes::Shapes;
use definition_format::Bind;
use param_specs::SpecTable;
use signal_core::SignalTable;
use type_tree::TypeTree;
use ui_machine::{Limits, ProgramId};

/// The parts of a definition.
#[derive(Drop)]
pub struct Parts {
    pub types: TypeTree,
    pub specs: SpecTable,
    pub signals: SignalTable,
    /// For each class, the program that it names for its objects once they are constructed.
    pub constructed: Vec<Option<ProgramId>>,
    pub shapes: Shapes,
    /// For each class, the shape that it names.
    pub shaped: Vec<Option<usize>>,
    pub programs: Programs,
    pub prototypes: Prototypes,
    pub objects: Objects,
    /// The bindings in document order.
    pub bindings: Vec<Bind>,
    pub limits: Limits,
}
