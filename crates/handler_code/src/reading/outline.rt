//! A program as it is read before its instructions are.

use bytecode::RegisterKind;
use g_values::Kind;
use json_trees::Value;

// A block whose instructions are not read yet: the kinds of the first registers where it begins, its number of passes, and its instructions
// as JSON values.
#[derive(Drop)]
pub(crate) struct BlockOutline<'a> {
    pub(crate) entry: Vec<RegisterKind>,
    pub(crate) repeat: Option<u32>,
    pub(crate) code: &'a [Value],
}

// A program whose instructions are not read yet.
#[derive(Drop)]
pub(crate) struct Outline<'a> {
    pub(crate) name: &'a str,
    pub(crate) params: Vec<RegisterKind>,
    pub(crate) registers: usize,
    pub(crate) result: Option<Kind>,
    pub(crate) blocks: Vec<BlockOutline<'a>>,
}
