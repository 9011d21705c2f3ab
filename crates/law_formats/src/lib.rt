//! The law over formats: what was accepted in the first format is accepted now, with the same numbers.
#![tactic(auto)]

ghost use Rattle.law_formats.specs.SameNumbers.{NumbersStay, AcceptedBefore, NothingElseChanged};
ghost use Rattle.law_formats.specs.WorkedBefore.{PremiseMet};

/// A definition that was accepted in the first format is accepted now, with the same ranks, costs and depths, the same bound of each
/// entry and so the same report. What is accepted now was accepted there, unless a block is passed again or a program freezes an object with
/// a paired property. And a worked definition was accepted there.
pub fn formats()
    ensures stay { NumbersStay }
    ensures judged { AcceptedBefore }
    ensures back { NothingElseChanged }
    ensures met { PremiseMet }
{}
