//! The tasks that a run has to do.

ghost use Rattle.std.specs.Prelude.{◌≡◌, [], ◌∷◌, reverse, map, MatchOption};
ghost use Rattle.engine_stack.specs.TaskView.{making_of_code};

use crate::construction_frames::ConstructionFrame;
use crate::emission_frames::EmissionFrame;
use bindings::DueTransfers;
use bytecode::Register;
use definition_format::Request;
use frames::Frame;
use g_values::Value;
use std::alloc::Global;
use std::marker::Model;
use std::rc::RcStr;
use ui_machine::{ObjectId, Place, ProgramId, SignalId, Slot};

/// The notifications that are left of a thaw. The list is reversed: its last notification is made first.
#[derive(Drop)]
pub struct Slots {
    pub queue: Vec<Slot>,
}

impl Model for Slots {
    ghost use Rattle.std.specs.Prelude.{ℕ, List, reverse};

    ghost Value = { List ℕ };

    ghost view = { λ s. reverse s.queue.items };
}

impl Slots {
    /// Creates the notifications of a queue, which are made from its end.
    pub fn new(queue: Vec<Slot>) -> Self
        ensures { result ≡ reverse queue.items }
    {
        Slots { queue }
    }

    /// Takes the next notification, if one is left.
    pub fn take(&mut self) -> Option<Slot>
        ensures { MatchOption result ((self.old ≡ []) × (self.new ≡ [])) (λ slot. self.old ≡ slot ∷ self.new) }
    {
        self.queue.pop()
    }
}

/// A step that a construction has still to take.
#[derive(Drop)]
pub enum ConstructStep {
    Set { slot: Slot, value: Value },
    /// Runs a program that a class names for its objects.
    Run { program: ProgramId },
    Thaw,
}

/// The steps that a construction has still to take. The last of the list comes first.
#[derive(Drop)]
pub struct ConstructSteps {
    pub steps: Vec<ConstructStep>,
}

impl Model for ConstructSteps {
    ghost use Rattle.std.specs.Prelude.{List, map, reverse};
    ghost use Rattle.ui_machine.specs.State.Tasks as config;
    ghost use Rattle.engine_stack.specs.MakingView.{making_of_code};

    ghost Value = { List config.ConstructStep };

    ghost view = { λ m. reverse (map making_of_code m.steps.items) };
}

impl ConstructSteps {
    /// Creates the steps of a list, which are taken from its end.
    pub fn new(steps: Vec<ConstructStep>) -> Self
        ensures { result ≡ reverse (map making_of_code steps.items) }
    {
        ConstructSteps { steps }
    }

    /// Takes the next step, if one is left.
    pub fn take(&mut self) -> Option<ConstructStep>
        ensures { MatchOption result ((self.old ≡ []) × (self.new ≡ [])) (λ step. self.old ≡ making_of_code step ∷ self.new) }
    {
        self.steps.pop()
    }
}

/// A property of an object of the builder that is given an object which comes later, or the object itself.
#[derive(Clone, Copy, Debug)]
pub struct ForwardReference {
    /// The place of the object that has the property.
    pub object: Place,
    pub slot: Slot,
    pub to: Place,
}

/// The forward references that are still to be set. The last of the list comes first.
#[derive(Drop)]
pub struct ForwardReferences {
    pub references: Vec<ForwardReference>,
}

impl Model for ForwardReferences {
    ghost use Rattle.std.specs.Prelude.{List, reverse};
    ghost use Rattle.engine_stack.specs.declared.task.ForwardReference.{ForwardReference};

    ghost Value = { List ForwardReference };

    ghost view = { λ f. reverse f.references.items };
}

impl ForwardReferences {
    /// Creates the references of a list, which are taken from its end.
    pub fn new(references: Vec<ForwardReference>) -> Self
        ensures { result ≡ reverse references.items }
    {
        ForwardReferences { references }
    }

    /// Takes the next reference, if one is left.
    pub fn take(&mut self) -> Option<ForwardReference>
        ensures { MatchOption result ((self.old ≡ []) × (self.new ≡ [])) (λ forward. self.old ≡ forward ∷ self.new) }
    {
        self.references.pop()
    }
}

/// An emission that is to begin (GObject manual, Signals: `g_signal_emit`).
#[derive(Drop)]
pub struct NewEmission {
    /// The object that emits.
    pub object: ObjectId,
    /// The signal, by its number in the list of the object's class.
    pub signal: SignalId,
    /// The detail, as it is kept for the signal.
    pub detail: Option<RcStr>,
    pub args: Vec<Value>,
    /// Whether an event emits the signal and reports the result.
    pub by_event: bool,
}

/// The transfers of bindings that an emission has still to make. They are taken as a notification begins.
#[derive(Drop)]
pub enum Transfers {
    /// Their turn among the others is still to come.
    Ahead(DueTransfers),
    /// They come before all turns that are left.
    Due(DueTransfers),
}

impl Transfers {
    ghost use Rattle.engine_stack.specs.TransferView.{due_later, due_now};
    ghost use Rattle.engine_stack.specs.declared.task.Transfers.TheVariants as at;

    /// Creates an empty list of transfers.
    pub fn new(alloc: Global) -> Self
        ensures { result ≡ at.Due [] }
    {
        Transfers::Due(DueTransfers::new(alloc))
    }

    /// Makes the transfers come before all turns that are left. None of them is due yet.
    pub(crate) fn begun(self) -> Self
        requires { due_now self ≡ [] }
        ensures { result ≡ at.Due (due_later self) }
    {
        Transfers::Due(self.into_due())
    }

    /// Removes all transfers, and keeps the list for reuse.
    pub(crate) fn emptied(self) -> Self
        ensures { result ≡ at.Due [] }
    {
        let mut due = self.into_due();
        due.clear();
        Transfers::Due(due)
    }

    /// Returns the transfers that are left, whenever their turn is.
    pub fn into_due(self) -> DueTransfers
        ensures { (due_now self ≡ [] → result ≡ due_later self) }
    {
        match self {
            Transfers::Ahead(due) => due,
            Transfers::Due(due) => due,
        }
    }
}

/// A call of a peer that is due: the object that has the peer, the numbers of the peer and its method, the arguments, and the register that
/// waits for the answer.
#[derive(Drop)]
pub struct DueCall {
    pub object: ObjectId,
    pub peer: usize,
    pub method: usize,
    pub args: Vec<Value>,
    pub to: Register,
}

/// A task that is to be done.
#[derive(Drop)]
pub enum Task {
    /// A set is due.
    Setting {
        object: ObjectId,
        slot: Slot,
        value: Value,
    },
    /// A notification is to begin.
    Notifying {
        object: ObjectId,
        slot: Slot,
    },
    /// An emission is to begin.
    Beginning(NewEmission),
    /// The rest of an emission.
    Emitting(EmissionFrame),
    /// A binding, given by its number, is to set one of its ends: its target, or its source if `back`.
    Transferring {
        number: u64,
        back: bool,
    },
    /// The set that a binding made has ended, so that the binding no longer sets.
    Unsetting {
        number: u64,
    },
    /// The rest of a program.
    Running(Frame),
    /// The notifications that are left of a thaw.
    Thawing {
        object: ObjectId,
        slots: Slots,
    },
    /// The rest of a construction.
    Constructing(ConstructionFrame),
    /// The rest of the build: the objects from a place on, and then the forward references.
    Building {
        place: Place,
        forwards: ForwardReferences,
    },
    /// The object at a place becomes its parent's child, and then comes the rest of the build: the objects behind it, and the forward
    /// references.
    Adopting {
        place: Place,
        forwards: ForwardReferences,
    },
    /// The bindings of the definition are made from this number on, and then the signals are connected.
    Binding {
        number: usize,
    },
    /// The signals of an object are connected from this number on, and then those of the objects behind it.
    Connecting {
        place: Place,
        number: usize,
    },
    /// A source whose program runs. The answer of the program decides whether the source stays.
    Answering {
        source: u64,
    },
    /// A peer is to answer.
    Calling(DueCall),
    /// A request of an event is to be carried out.
    Handling(Request),
    /// A ready source is to run.
    Due {
        source: u64,
    },
}

impl Task {
    ghost use Rattle.std.specs.Prelude.{ℕ, List};
    ghost use Rattle.ui_machine.specs.Definition as machine;
    ghost use Rattle.ui_machine.specs.State.Handlers.{Handler};
    ghost use Rattle.ui_machine.specs.State.References.{in_option};
    ghost use Rattle.instance_tables.specs.Store.{id_of};
    ghost use Rattle.engine_stack.specs.BuildTasks.{is_of_build};
    ghost use Rattle.engine_stack.specs.HeldByTasks.{in_subject};
    ghost use Rattle.engine_stack.specs.TaskView.{task_of};

    /// Returns whether the task is the rest of the build.
    pub fn is_of_build(&self) -> bool
        ensures { result ≡ is_of_build self.now }
    {
        matches!(
            self,
            Task::Building { .. }
                | Task::Adopting { .. }
                | Task::Binding { .. }
                | Task::Connecting { .. }
        )
    }

    /// Returns the object that a task holds, if it holds one. It is let go once the task is done.
    pub fn object(&self) -> Option<ObjectId>
        ensures { (d : machine.Definition) (hs : List Handler) (o : ℕ) → in_option o (id_of result) ≡ in_subject o (task_of d hs self.now) }
    {
        match self {
            Task::Setting { object, .. } => Some(*object),
            Task::Notifying { object, .. } => Some(*object),
            Task::Beginning(emission) => Some(emission.object),
            Task::Emitting(emission) => Some(emission.cursor.object()),
            Task::Transferring { .. } => None,
            Task::Unsetting { .. } => None,
            Task::Running(_) => None,
            Task::Thawing { object, .. } => Some(*object),
            Task::Constructing(construction) => Some(construction.object),
            Task::Building { .. } => None,
            Task::Adopting { .. } => None,
            Task::Binding { .. } => None,
            Task::Connecting { .. } => None,
            Task::Answering { .. } => None,
            Task::Calling(call) => Some(call.object),
            Task::Handling(_) => None,
            Task::Due { .. } => None,
        }
    }
}
