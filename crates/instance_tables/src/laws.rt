//! Laws about what objects hold, over the machine's definitions.

ghost use Rattle.instance_tables.specs.Laws.{WritesMove, DisposeMoves, FinaliseMoves, MarksKnown, MadeHoldsNothing};
ghost use Rattle.instance_tables.specs.Laws.{CountsFind, CountedFinds, HeldLives, NoneCounts, CreateCounts, FloatCounts, HoldCounts};
ghost use Rattle.instance_tables.specs.Laws.{LetGoCounts, SinkCounts, ForgetCounts, JoinCounts, LeaveCounts, DisposeCounts};
ghost use Rattle.instance_tables.specs.Laws.{FinaliseCounts, WriteCounts};

/// States that writing a strong property moves one mention.
pub fn writing_moves()
    ensures { WritesMove }
{}

/// States that disposing an object releases exactly what it held.
pub fn disposing_moves()
    ensures { DisposeMoves }
{}

/// States that finalising an object releases exactly what it held.
pub fn finalising_moves()
    ensures { FinaliseMoves }
{}

/// States that any weak marks belong to some definition.
pub fn marks_known()
    ensures { MarksKnown }
{}

/// States that counts which equal the mentions of what lives find the same object to finalise.
pub fn counts_find()
    ensures { CountsFind }
{}

/// States that an object that the machine makes holds nothing.
pub fn made_holds_nothing()
    ensures { MadeHoldsNothing }
{}

/// States that the counts of a table without objects are exact.
pub fn none_counts()
    ensures { NoneCounts }
{}

/// States that exact counts stay exact when an object is made of what was held.
pub fn create_counts()
    ensures { CreateCounts }
{}

/// States that exact counts stay exact when an object starts to float.
pub fn float_counts()
    ensures { FloatCounts }
{}

/// States that exact counts stay exact when an object is held once more.
pub fn hold_counts()
    ensures { HoldCounts }
{}

/// States that exact counts stay exact when an object is let go.
pub fn let_go_counts()
    ensures { LetGoCounts }
{}

/// States that exact counts stay exact when an object stops floating.
pub fn sink_counts()
    ensures { SinkCounts }
{}

/// States that exact counts stay exact when all objects forget one.
pub fn forget_counts()
    ensures { ForgetCounts }
{}

/// States that exact counts stay exact when an object becomes a child.
pub fn join_counts()
    ensures { JoinCounts }
{}

/// States that exact counts stay exact when an object leaves its parent.
pub fn leave_counts()
    ensures { LeaveCounts }
{}

/// States that exact counts stay exact when an object is disposed.
pub fn dispose_counts()
    ensures { DisposeCounts }
{}

/// States that exact counts stay exact when an object is finalised.
pub fn finalise_counts()
    ensures { FinaliseCounts }
{}

/// States that exact counts stay exact when a property is written.
pub fn write_counts()
    ensures { WriteCounts }
{}

/// States that exact counts find the lowest object that nothing holds.
pub fn counted_finds()
    ensures { CountedFinds }
{}

/// States that with exact counts, whatever is held lives.
pub fn held_lives()
    ensures { HeldLives }
{}
