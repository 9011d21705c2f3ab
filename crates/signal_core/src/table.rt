//! The table of the signals of types, and of the programs that classes name for them.

ghost use Rattle.std.specs.List.{list_any};
ghost use Rattle.std.specs.Prelude.{◌≡◌, ◌&&◌, ◌*◌, ◌+◌, ◌<◌, ◌≤◌, ◌++◌, List, [], None, Some, IfErr, IfNone, IfOk, IfSome, OnErr, OnOk, bytes_eq, length, map, option_and_then, option_map, position, slice_get, string_bytes, true};
ghost use Rattle.ui_machine.specs.Definition.Names.{canonical, place_named, same_name};
ghost use Rattle.ui_machine.specs.Definition.Signals as signals;
ghost use Rattle.ui_machine.specs.Rules.Ancestry.{is_a};
ghost use Rattle.ui_machine.specs.Words as machine;
ghost use Rattle.type_tree.specs.Tree.{IsTree};
ghost use Rattle.signal_core.specs.Owners.{has_signal};
ghost use Rattle.signal_core.specs.SignalRows.{ArePlaces, HasSignals};
ghost use Rattle.signal_core.specs.SignalView.{declared_view, signal_view};
ghost use Rattle.signal_core.specs.Sources.{AreMarked, added_at, brought_by, brought_until, declared_of, declared_until, number_named, own_of, signals_of};
ghost use Rattle.signal_core.specs.Table.{AddsHandler, AddsSignal, RenamesHandlers, SameHandlers, SameSignals, line_count, named_of, nothing_declared, with_program};

use crate::class_handler::ClassHandler;
use crate::flags::SignalFlags;
use crate::growing::add;
use crate::owners::Owners;
use crate::signal::{DeclaredSignal, Signal};
use crate::signal_rows::{SignalPlace, SignalRows, add_places};
use crate::sources::{ancestor, came_before, mark, root, source_at, source_count, unmarked};
use std::alloc::{AllocError, Global};
use std::marker::Model;
use type_tree::{TypeId, TypeTree, is_spelling};
use ui_machine::{ProgramId, SignalId};

/// The most signals of a type and its ancestors. `notify` and the signals of interfaces do not count.
pub const MOST_SIGNALS: usize = 64;

// The most declared signals of a type, including those of interfaces: 64 for each of 256 types.
const MOST_DECLARED: usize = 16384;

/// The own signals of each type, in the order of declaration, and the class handlers that it names.
///
/// The signals of a type are numbered: 0 is `notify`, then from the root down come each class's own signals and those of the interfaces
/// that it names. An interface counts only where it comes first. A contract sees the lists of the types' own signals and class handlers.
#[derive(Drop)]
pub struct SignalTable {
    own: Vec<Vec<Signal>>,
    handlers: Vec<Vec<ClassHandler>>,
    owners: Owners,
}

impl Model for SignalTable {
    ghost use Rattle.std.specs.Prelude.{map};
    ghost use Rattle.signal_core.specs.SignalView.{signals_in};
    ghost use Rattle.signal_core.specs.Owners.{AreOwners};
    ghost use Rattle.signal_core.specs.Table.{Declared, IsTable};

    ghost Value = { Declared };

    ghost view = { λ t. record { signals = signals_in (λ v. v.items) t.own.items; handlers = map (λ v. v.items) t.handlers.items } };

    ghost invariant = { λ t. IsTable (signals_in (λ v. v.items) t.own.items) × AreOwners t.owners (signals_in (λ v. v.items) t.own.items) };
}

impl SignalTable {
    /// Creates a table without signals other than `notify`. Takes no memory.
    pub fn new(alloc: Global) -> Self
        ensures { result ≡ nothing_declared }
    {
        SignalTable {
            own: Vec::new(alloc),
            handlers: Vec::new(alloc),
            owners: Owners::new(alloc),
        }
    }

    /// Returns the allocator that the table was created with.
    pub(crate) fn allocator(&self) -> Global {
        *self.own.allocator()
    }

    /// Appends a signal to a type's own.
    pub(crate) fn add_own(&mut self, t: TypeId, signal: Signal) -> Result<(), AllocError>
        requires within { t < 256 }
        requires room { length (own_of self.old.signals t) < 64 }
        ensures ok { OnOk result (AddsSignal self.old.signals self.new.signals t (signal_view signal)) }
        ensures err { OnErr result (SameSignals self.old.signals self.new.signals) }
        ensures handlers { self.new.handlers ≡ self.old.handlers }
    {
        let alloc = *self.own.allocator();
        self.owners.add(alloc, signal.name.as_str(), t)?;
        add(alloc, &mut self.own, t.index(), signal)
    }

    /// Appends a class handler to those that a type names.
    pub(crate) fn add_handler(&mut self, t: TypeId, handler: ClassHandler) -> Result<(), AllocError>
        ensures ok { OnOk result (AddsHandler self.old.handlers self.new.handlers t handler) }
        ensures err { OnErr result (SameHandlers self.old.handlers self.new.handlers) }
        ensures signals { self.new.signals ≡ self.old.signals }
    {
        let alloc = *self.own.allocator();
        add(alloc, &mut self.handlers, t.index(), handler)
    }

    /// Returns the class handlers that a type names itself, in the order in which they were named.
    pub fn own_handlers(&self, t: TypeId) -> &[ClassHandler]
        ensures { result.now ≡ named_of self.now.handlers t }
    {
        let at = t.index();
        if at < self.handlers.len() {
            self.handlers[at].as_slice()
        } else {
            &[]
        }
    }

    /// Sets the program of each class handler that a type names itself for the signal with this canonical name.
    pub(crate) fn replace_program(&mut self, t: TypeId, name: &str, program: ProgramId)
        ensures handlers { RenamesHandlers self.old.handlers self.new.handlers t name.now program }
        ensures signals { self.new.signals ≡ self.old.signals }
    {
        let at = t.index();
        if at < self.handlers.len() {
            give_program(&mut self.handlers[at], name, program);
        }
    }

    /// Returns the signals declared for a type itself.
    pub fn own(&self, t: TypeId) -> &[Signal]
        ensures own { map signal_view result.now ≡ own_of self.now.signals t }
        ensures few { length result.now ≤ 64 }
    {
        let at = t.index();
        if at < self.own.len() {
            self.own[at].as_slice()
        } else {
            &[]
        }
    }

    /// Returns the number of signals declared for a type and its ancestors themselves.
    pub fn line_count(&self, tree: &TypeTree, t: TypeId) -> usize
        ensures count { result ≡ line_count tree.now self.now.signals t }
        ensures bound { result ≤ 64 * (t + 1) }
        ensures own { length (own_of self.now.signals t) ≤ result }
        ensures tree { IsTree tree.now }
    {
        let mut count = 0;
        let mut class = t;
        'line: loop {
            count += self.own(class).len();
            let Some(parent) = tree.parent(class) else {
                return count;
            };
            class = parent;
        }
    }

    // Returns the signals that the source of a type at a place contributes, which are its own unless it came before. Sources that came
    // before are marked.
    fn added(&self, tree: &TypeTree, t: TypeId, place: usize, marks: &[bool]) -> &[Signal]
        requires place { place < length (brought_by tree.now t) }
        requires marks { AreMarked marks.now (brought_until tree.now t place) }
        ensures { map signal_view result.now ≡ added_at tree.now self.now.signals t place }
    {
        if came_before(tree, t, place, marks) {
            &[]
        } else {
            self.own(source_at(tree, t, place))
        }
    }

    // Returns the index of the signal with this name, in any spelling, among the declared signals of a type. The error is the number of
    // these signals.
    fn place(&self, tree: &TypeTree, t: TypeId, name: &str) -> Result<usize, usize>
        ensures found { IfOk result (λ place. place_named (λ s. s.name) (declared_of tree.now self.now.signals t) (canonical name.now) ≡ Some place) }
        ensures none { IfErr result (λ count. place_named (λ s. s.name) (declared_of tree.now self.now.signals t) (canonical name.now) ≡ None) }
        ensures count { IfErr result (λ count. count ≡ length (declared_of tree.now self.now.signals t)) }
    {
        let (mut class, mut height) = root(tree, t);
        let mut marks = unmarked();
        let mut count = 0;
        'line: loop {
            match self.place_added(tree, class, name, count, &mut marks) {
                Ok(place) => return Ok(place),
                Err(more) => count = more,
            }
            if height == 0 {
                return Err(count);
            }
            height -= 1;
            class = ancestor(tree, t, height);
        }
    }

    // Like `place`, given that the ancestors do not have the name, contribute `above` signals, and that their sources are marked. Marks the
    // sources of the type.
    fn place_added(
        &self,
        tree: &TypeTree,
        t: TypeId,
        name: &str,
        above: usize,
        marks: &mut [bool],
    ) -> Result<usize, usize>
        requires none { place_named (λ s. s.name) (declared_until tree.now self.now.signals t 0) (canonical name.now) ≡ None }
        requires count { above ≡ length (declared_until tree.now self.now.signals t 0) }
        requires marks { AreMarked marks.old (brought_until tree.now t 0) }
        ensures found { IfOk result (λ place. place_named (λ s. s.name) (declared_of tree.now self.now.signals t) (canonical name.now) ≡ Some place) }
        ensures none { IfErr result (λ count. place_named (λ s. s.name) (declared_of tree.now self.now.signals t) (canonical name.now) ≡ None) }
        ensures count { IfErr result (λ count. count ≡ length (declared_of tree.now self.now.signals t)) }
        ensures marks { IfErr result (λ count. AreMarked marks.new (brought_until tree.now t (length (brought_by tree.now t)))) }
    {
        let _ = &self.own;
        let mut count = above;
        for at in 0..source_count(tree, t) {
            let added = self.added(tree, t, at, marks);
            if let Some(place) = position_of(added, name) {
                return Ok(count + place);
            }
            count += added.len();
            mark(tree, t, at, marks);
        }
        Err(count)
    }

    // Returns the signal at an index among the declared signals of a type. The error is the number of these signals.
    fn signal_at(&self, tree: &TypeTree, t: TypeId, place: usize) -> Result<&Signal, usize>
        ensures found { IfOk result (λ s. slice_get (declared_of tree.now self.now.signals t) place ≡ Some (signal_view s.now)) }
        ensures past { IfErr result (λ count. count ≤ place) }
        ensures count { IfErr result (λ count. count ≡ length (declared_of tree.now self.now.signals t)) }
    {
        let (mut class, mut height) = root(tree, t);
        let mut marks = unmarked();
        let mut count = 0;
        'line: loop {
            match self.signal_added(tree, class, place, count, &mut marks) {
                Ok(signal) => return Ok(signal),
                Err(more) => count = more,
            }
            if height == 0 {
                return Err(count);
            }
            height -= 1;
            class = ancestor(tree, t, height);
        }
    }

    // Like `signal_at`, given that the ancestors contribute `above` signals, at most `place`, and that their sources are marked. Marks the
    // sources of the type.
    fn signal_added(
        &self,
        tree: &TypeTree,
        t: TypeId,
        place: usize,
        above: usize,
        marks: &mut [bool],
    ) -> Result<&Signal, usize>
        requires past { above ≤ place }
        requires count { above ≡ length (declared_until tree.now self.now.signals t 0) }
        requires marks { AreMarked marks.old (brought_until tree.now t 0) }
        ensures found { IfOk result (λ s. slice_get (declared_of tree.now self.now.signals t) place ≡ Some (signal_view s.now)) }
        ensures past { IfErr result (λ count. count ≤ place) }
        ensures count { IfErr result (λ count. count ≡ length (declared_of tree.now self.now.signals t)) }
        ensures marks { IfErr result (λ count. AreMarked marks.new (brought_until tree.now t (length (brought_by tree.now t)))) }
    {
        let mut count = above;
        for at in 0..source_count(tree, t) {
            let added = self.added(tree, t, at, marks);
            if place - count < added.len() {
                return Ok(&added[place - count]);
            }
            count += added.len();
            mark(tree, t, at, marks);
        }
        Err(count)
    }

    /// Returns the signal with this number, using the table of the declarations of all types. Returns `None` if the type has not so many
    /// signals.
    pub fn signal_in(
        &self,
        rows: &SignalRows,
        tree: &TypeTree,
        t: TypeId,
        number: SignalId,
    ) -> Option<DeclaredSignal<'_>>
        requires rows { HasSignals tree.now self.now.signals rows.now }
        requires known { t < length tree.now }
        ensures { option_map declared_view result ≡ slice_get (signals_of tree.now self.now.signals t) number }
    {
        let _ = &self.own;
        if number == 0 {
            return Some(notify());
        }
        let place = rows.place(t, number as usize - 1)?;
        Some(declared(&self.own(place.owner)[place.at as usize]))
    }

    // Collects the declarations of a type's signals.
    pub(crate) fn places(
        &self,
        alloc: Global,
        tree: &TypeTree,
        t: TypeId,
    ) -> Result<Vec<SignalPlace>, AllocError>
        ensures places { IfOk result (λ places. ArePlaces self.now.signals places.items (declared_of tree.now self.now.signals t)) }
        ensures few { IfOk result (λ places. length places.items ≤ 16384) }
    {
        let _ = &self.own;
        let mut places = Vec::new(alloc);
        let (mut class, mut height) = root(tree, t);
        let mut marks = unmarked();
        'line: loop {
            self.add_brought(&mut places, tree, class, &mut marks)?;
            if height == 0 {
                return Ok(places);
            }
            height -= 1;
            class = ancestor(tree, t, height);
        }
    }

    // Appends the declarations of the signals that a type contributes to those of its ancestors. The sources of the ancestors are marked.
    // Marks those of the type.
    fn add_brought(
        &self,
        places: &mut Vec<SignalPlace>,
        tree: &TypeTree,
        t: TypeId,
        marks: &mut [bool],
    ) -> Result<(), AllocError>
        requires above { ArePlaces self.now.signals places.old.items (declared_until tree.now self.now.signals t 0) }
        requires marks { AreMarked marks.old (brought_until tree.now t 0) }
        ensures places { OnOk result (ArePlaces self.now.signals places.new.items (declared_of tree.now self.now.signals t)) }
        ensures marks { OnOk result (AreMarked marks.new (brought_until tree.now t (length (brought_by tree.now t)))) }
    {
        let _ = &self.own;
        for at in 0..source_count(tree, t) {
            self.add_source(places, tree, t, at, marks)?;
            mark(tree, t, at, marks);
        }
        Ok(())
    }

    // Appends the declarations of the signals that the source of a type at a place contributes. Sources that came before are marked.
    fn add_source(
        &self,
        places: &mut Vec<SignalPlace>,
        tree: &TypeTree,
        t: TypeId,
        at: usize,
        marks: &[bool],
    ) -> Result<(), AllocError>
        requires place { at < length (brought_by tree.now t) }
        requires marks { AreMarked marks.now (brought_until tree.now t at) }
        ensures { (before : List signals.Signal) → ArePlaces self.now.signals places.old.items before
            → OnOk result (ArePlaces self.now.signals places.new.items (before ++ added_at tree.now self.now.signals t at)) }
    {
        let _ = &self.own;
        if came_before(tree, t, at, marks) {
            return Ok(());
        }
        let source = source_at(tree, t, at);
        add_places(places, source, self.own(source).len())?;
        Ok(())
    }

    /// Returns the number of signals of a type, including `notify`.
    pub fn signal_count(&self, tree: &TypeTree, t: TypeId) -> usize
        ensures count { result ≡ length (signals_of tree.now self.now.signals t) }
        ensures few { result ≤ 16385 }
    {
        let _ = &self.own;
        match self.signal_at(tree, t, MOST_DECLARED) {
            Ok(_) => unreachable!(),
            Err(count) => count + 1,
        }
    }

    /// Returns the number of a type's signal with this name, in any spelling.
    pub fn find(&self, tree: &TypeTree, t: TypeId, name: &str) -> Option<SignalId>
        ensures number { result ≡ number_named (signals_of tree.now self.now.signals t) name.now }
        ensures within { IfSome result (λ number. number < length (signals_of tree.now self.now.signals t)) }
    {
        let _ = &self.own;
        if is_spelling(NOTIFY, name) {
            return Some(0);
        }
        match self.place(tree, t, name) {
            Ok(place) => Some((place + 1) as SignalId),
            Err(_) => None,
        }
    }

    /// Returns whether a type has a signal with this canonical name. Takes time by the number of types that declare one.
    pub fn has(&self, tree: &TypeTree, t: TypeId, name: &str) -> bool
        ensures { result ≡ has_signal (signals_of tree.now self.now.signals t) name.now }
    {
        NOTIFY == name || self.inherits(tree, t, name)
    }

    // Returns whether one of the types that declare a signal with this canonical name gives it to a type.
    fn inherits(&self, tree: &TypeTree, t: TypeId, name: &str) -> bool
        ensures { result ≡ has_signal (declared_of tree.now self.now.signals t) name.now }
    {
        self.is_given(tree, self.owners.listed(name), t, name)
    }

    // Returns whether one of these owners gives a type a signal with this canonical name.
    fn is_given(&self, tree: &TypeTree, owners: &[TypeId], t: TypeId, name: &str) -> bool
        ensures { result ≡ list_any (λ owner. is_a tree.now t owner && has_signal (own_of self.now.signals owner) name.now) owners.now }
    {
        owners.iter().any(|owner| self.gives(tree, *owner, t, name))
    }

    // Returns whether an owner declares a signal with this canonical name and a type is of the owner's type.
    fn gives(&self, tree: &TypeTree, owner: TypeId, t: TypeId, name: &str) -> bool
        ensures { result ≡ (is_a tree.now t owner && has_signal (own_of self.now.signals owner) name.now) }
    {
        tree.is_a(t, owner) && has_own(self.own(owner), name)
    }

    /// Returns the signal with this number, or `None` if the type has not so many.
    pub fn signal(&self, tree: &TypeTree, t: TypeId, number: SignalId) -> Option<DeclaredSignal<'_>>
        ensures { option_map declared_view result ≡ slice_get (signals_of tree.now self.now.signals t) number }
    {
        if number == 0 {
            return Some(notify());
        }
        match self.signal_at(tree, t, number as usize - 1) {
            Ok(signal) => Some(declared(signal)),
            Err(_) => None,
        }
    }
}

// Returns whether one of these signals has this canonical name.
fn has_own(signals: &[Signal], name: &str) -> bool
    ensures { result ≡ list_any (λ s. bytes_eq (string_bytes s.name) name.now) signals.now }
{
    signals.iter().any(|signal| signal.name.as_str() == name)
}

// Sets the program of the class handlers for the signal with this canonical name.
fn give_program(handlers: &mut [ClassHandler], name: &str, program: ProgramId)
    ensures { handlers.new ≡ map (with_program name.now program) handlers.old }
{
    for handler in handlers.iter_mut() {
        if handler.is_for(name) {
            handler.set_program(program);
        }
    }
}

// The name of the signal that each type has.
const NOTIFY: &str = "notify";

// Returns the signal that each type has, which is run first and detailed.
fn notify<'a>() -> DeclaredSignal<'a>
    ensures { declared_view result ≡ machine.notify }
{
    DeclaredSignal {
        name: NOTIFY,
        params: &[],
        result: None,
        flags: SignalFlags(SignalFlags::RUN_FIRST.0 | SignalFlags::DETAILED.0),
        accumulator: None,
    }
}

// Borrows a signal that was declared.
fn declared(signal: &Signal) -> DeclaredSignal<'_>
    ensures { declared_view result ≡ signal_view signal.now }
{
    DeclaredSignal {
        name: signal.name.as_str(),
        params: signal.params.as_slice(),
        result: signal.result,
        flags: signal.flags,
        accumulator: signal.accumulator,
    }
}

// Returns the index of the signal with this name, in any spelling.
fn position_of(signals: &[Signal], name: &str) -> Option<usize>
    ensures place { result ≡ position (λ s. same_name (string_bytes s.name) (canonical name.now)) signals.now }
    ensures within { IfSome result (λ place. place < length signals.now) }
{
    signals
        .iter()
        .position(|signal| is_spelling(signal.name.as_str(), name))
}
