//! The stages of an emission.

/// A stage of an emission (GObject manual, Signals: GSignalFlags). In the stages of handlers it has the number of the handler that had its
/// turn last.
#[derive(Clone, Copy, Debug, PartialEq, Eq)]
pub(crate) enum Stage {
    /// The class handler is to come, if the signal is run first.
    First,
    /// The transfers of bindings are to come, if the emission is a notification.
    Transfers,
    /// The handlers that run before the class handler and have a number above this one are to come.
    Before(u64),
    /// The class handler is to come, if the signal is run last.
    Last,
    /// The handlers that run after the class handler and have a number above this one are to come.
    After(u64),
    /// The class handler is to come, if the signal is run in the cleanup stage.
    Cleanup,
    /// Nothing is to come.
    Over,
}
