//! The types from which a type has its signals, in their order.
//!
//! The sources of a type are the type itself and, if it is a class, the interfaces that it names. The sources of its ancestors come before
//! them.

ghost use Rattle.std.specs.Prelude.{◌≡◌, ◌+◌, ◌<◌, [], IsSome, None, Some, length, nat_eq, take};
ghost use Rattle.std.specs.List.{list_any};
ghost use Rattle.ui_machine.specs.Rules.Ancestry.{implemented_by, parent_of};
ghost use Rattle.type_tree.specs.Tree.{IsTree};
ghost use Rattle.signal_core.specs.Sources.{AreMarked, ancestor_of, brought_above, brought_at, brought_by, brought_until, came_before};

use type_tree::{MOST_TYPES, TypeId, TypeSort, TypeTree};

/// Returns the topmost ancestor of a type, and how many steps it is above the type.
pub(crate) fn root(tree: &TypeTree, t: TypeId) -> (TypeId, usize)
    ensures above { ancestor_of tree.now t result.1 ≡ Some result.0 }
    ensures root { parent_of tree.now result.0 ≡ None }
    ensures tree { IsTree tree.now }
{
    let mut class = t;
    let mut height = 0;
    'line: loop {
        let Some(parent) = tree.parent(class) else {
            return (class, height);
        };
        class = parent;
        height += 1;
    }
}

/// Returns the ancestor that is `height` steps above a type.
pub(crate) fn ancestor(tree: &TypeTree, t: TypeId, height: usize) -> TypeId
    requires { IsSome (ancestor_of tree.now t height) }
    ensures { ancestor_of tree.now t height ≡ Some result }
{
    let mut class = t;
    for _above in 0..height {
        let Some(parent) = tree.parent(class) else {
            unreachable!()
        };
        class = parent;
    }
    class
}

/// Returns the number of sources of a type, without those of its ancestors.
pub(crate) fn source_count(tree: &TypeTree, t: TypeId) -> usize
    ensures { result ≡ length (brought_by tree.now t) }
{
    implemented(tree, t).len() + 1
}

/// Returns the source of a type at a place.
pub(crate) fn source_at(tree: &TypeTree, t: TypeId, place: usize) -> TypeId
    requires { place < length (brought_by tree.now t) }
    ensures { result ≡ brought_at tree.now t place }
{
    if place == 0 {
        t
    } else {
        implemented(tree, t)[place - 1]
    }
}

/// Creates marks for the types of a tree, none of which is marked.
pub(crate) fn unmarked() -> [bool; MOST_TYPES]
    ensures { AreMarked result [] }
{
    [false; MOST_TYPES]
}

/// Returns whether the source at a place came before, as a source of an ancestor or at an earlier place. Types that came before are marked
/// by their numbers.
pub(crate) fn came_before(tree: &TypeTree, t: TypeId, place: usize, marks: &[bool]) -> bool
    requires place { place < length (brought_by tree.now t) }
    requires marks { AreMarked marks.now (brought_until tree.now t place) }
    ensures { result ≡ came_before tree.now t place }
{
    let source = source_at(tree, t, place);
    if source.index() < marks.len() {
        return marks[source.index()];
    }
    stands_above(tree, t, source) || stands_among(tree, t, place, source)
}

/// Marks the source of a type at a place.
pub(crate) fn mark(tree: &TypeTree, t: TypeId, place: usize, marks: &mut [bool])
    requires place { place < length (brought_by tree.now t) }
    requires marks { AreMarked marks.old (brought_until tree.now t place) }
    ensures { AreMarked marks.new (brought_until tree.now t (place + 1)) }
{
    let source = source_at(tree, t, place);
    if source.index() < marks.len() {
        marks[source.index()] = true;
    }
}

// Returns whether `source` is a source of an ancestor of a type.
fn stands_above(tree: &TypeTree, t: TypeId, source: TypeId) -> bool
    ensures { result ≡ list_any (nat_eq source) (brought_above tree.now t) }
{
    match tree.parent(t) {
        Some(parent) => tree.is_a(parent, source),
        None => false,
    }
}

// Returns whether `source` is among the first `count` sources of a type.
fn stands_among(tree: &TypeTree, t: TypeId, count: usize, source: TypeId) -> bool
    requires { count < length (brought_by tree.now t) }
    ensures { result ≡ list_any (nat_eq source) (take count (brought_by tree.now t)) }
{
    count > 0 && (source == t || contains(&implemented(tree, t)[..count - 1], source))
}

fn contains(types: &[TypeId], source: TypeId) -> bool
    ensures { result ≡ list_any (nat_eq source) types.now }
{
    types.iter().any(|t| source == *t)
}

// Returns the interfaces that a class names. Empty for types that are not classes.
fn implemented(tree: &TypeTree, t: TypeId) -> &[TypeId]
    ensures { result.now ≡ implemented_by tree.now t }
{
    if t.index() >= tree.len() {
        return &[];
    }
    match tree.sort(t) {
        TypeSort::Class => tree.interfaces(t),
        TypeSort::Interface | TypeSort::Enum | TypeSort::Flags => &[],
    }
}
