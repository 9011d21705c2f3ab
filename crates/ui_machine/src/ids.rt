//! The identities of objects, the numbers of what a definition has, and the channels of its objects.

/// The identity of an object. Identities rise from 1, and none is given out twice.
#[derive(Clone, Copy, Debug, PartialEq, Eq, PartialOrd, Ord, Hash)]
pub struct ObjectId(pub u64);

/// The number of an object or prototype of a definition: objects in document order, then prototypes.
#[derive(Clone, Copy, Debug, PartialEq, Eq, PartialOrd, Ord, Hash)]
pub struct Place(pub u16);

/// The number of a property among those that a class has: inherited ones first, in the order of installation.
pub type Slot = u16;

/// The number of a program of a definition, in document order.
pub type ProgramId = u16;

/// The number of a signal among those that a class has. The first is `notify`.
pub type SignalId = u16;

/// A member of an object that may be raised: a property's notification, a signal, or the end of its construction.
#[derive(Clone, Copy, Debug, PartialEq, Eq)]
pub enum Member {
    /// The notification of this property.
    Property(Slot),
    Signal(SignalId),
    Constructed,
}

/// A member at a place.
#[derive(Clone, Copy, Debug, PartialEq, Eq)]
pub struct Channel {
    pub place: Place,
    pub member: Member,
}

/// The beginning of a dispatch.
#[derive(Clone, Copy, Debug, PartialEq, Eq)]
pub enum Entry {
    Build,
    At(Channel),
    /// A source that runs this program.
    Source(ProgramId),
    /// A read or a release, which runs no program.
    Plain,
}
