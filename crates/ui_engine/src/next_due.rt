//! When a turn has something to run next.

ghost use Rattle.std.specs.Prelude.{◌≡◌, ◌≤◌, ℕ};
ghost use Rattle.main_context.specs.Moments.{is_from};
ghost use Rattle.ui_engine.specs.Due.{IsAfter, is_due};

/// When a turn has something to run next, if no event comes before it.
#[derive(Clone, Copy, Debug, PartialEq, Eq)]
pub enum NextDue {
    /// At once: a turn of the latest moment runs something.
    Now,
    /// At this moment, which is after the latest one.
    At(u64),
    /// At no moment.
    Never,
}

// Returns when something is due whose first moment is this, by the latest moment.
pub(crate) fn due_from(first: Option<u64>, latest: u64) -> NextDue
    ensures due { (moment : ℕ) → latest ≤ moment → is_from first moment ≡ is_due result moment }
    ensures later { IsAfter latest result }
{
    match first {
        None => NextDue::Never,
        Some(first) if first > latest => NextDue::At(first),
        Some(_) => NextDue::Now,
    }
}
