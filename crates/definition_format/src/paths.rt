//! Paths of the values in a document.

/// The path of a value: `base` itself, or entry `index` of the list at `base`. Its text is only made for a refusal.
#[derive(Clone, Copy)]
pub struct Path<'a> {
    pub base: &'a str,
    pub index: Option<usize>,
}
