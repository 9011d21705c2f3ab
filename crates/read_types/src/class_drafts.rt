//! The types of a definition while their classes are read.

use definitions::shapes::Shapes;
use param_specs::SpecTable;
use signal_core::SignalTable;
use type_tree::TypeTree;
use ui_machine::ProgramId;

/// The types with their properties and signals, the shapes that there are, and what classes name.
#[derive(Drop)]
pub struct ClassDraft {
    pub types: TypeTree,
    pub specs: SpecTable,
    pub signals: SignalTable,
    /// The programs that classes run on their objects once these are constructed, by class.
    pub constructed: Vec<Option<ProgramId>>,
    pub shapes: Shapes,
    /// The numbers of the shapes that classes name, by class.
    pub shaped: Vec<Option<usize>>,
}
