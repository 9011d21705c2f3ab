//! Laws of every emission, and of the signals of every type.

ghost use Rattle.signal_core.specs.Laws.{PlanIsWalked, TurnsGoOn, TurnsTell};
ghost use Rattle.signal_core.specs.TableLaws.{AncestorsComeFirst, SignalsAreInherited};

/// States that the turns of an emission are the entries of the machine's plan at its beginning, and that what came after a turn is still to
/// come once the turn is taken. Without bindings, the next turn of a program is that of the first entry that is not passed over.
pub fn turns()
    ensures planned { PlanIsWalked }
    ensures goes_on { TurnsGoOn }
    ensures tells { TurnsTell }
{}

/// States that a type has the signals of its parent first, under the same numbers, and the signals of each type that it is.
pub fn inheritance()
    ensures first { AncestorsComeFirst }
    ensures all { SignalsAreInherited }
{}
