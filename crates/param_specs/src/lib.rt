//! Property specs: what a property may hold, how it may be used, and which properties a type has.
//!
//! A contract sees a spec as the pure record of the abstract machine, and a table as the lists of the types' own specs.
#![tactic(auto)]

mod error;
mod flags;
mod growing;
mod overriding;
mod slots;
mod spec;
mod table;
mod validating;

pub use error::{OverrideFault, SpecError, SpecFault};
pub use flags::PropertyFlags;
pub use overriding::is_same_spec;
pub use slots::{SlotPlace, SlotTable};
pub use spec::Spec;
pub use table::{MOST_PROPERTIES, SpecTable};
pub use validating::{is_valid_default, takes, validate};
