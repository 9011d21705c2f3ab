//! Classes as JSON, for hosts that show or edit objects without reading the definition: what each class has, inherited parts too.
//!
//! Kinds, flags, ranges and defaults are written as a definition writes them. Beside them stands the type that declares a property or a signal.
#![tactic(auto)]

mod classes;
mod flags;
mod interfaces;
mod kinds;
mod owners;
mod properties;
mod signals;
mod texts;

pub use classes::class_text;
