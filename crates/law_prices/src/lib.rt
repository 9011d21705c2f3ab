//! Prices: what each dispatch of an accepted definition may cost at most, by any price list.
#![tactic(auto)]

ghost use Rattle.law_prices.specs.Begun.{EmissionsAreWithin, ProgramsAreWithin};
ghost use Rattle.law_prices.specs.Bounds.{CostIsWithin, LinesAreWithin, ObjectsAreWithin, PricesAreFound, PricesAreOnce, RepliesAreWithin, StepsAreWithin, ZeroIsNever};
ghost use Rattle.law_prices.specs.Calls.{CallsAreWithin, EachIsAskedFor, EachIsToOne, ZeroIsNoCall};
ghost use Rattle.law_prices.specs.Dispatches.{DispatchesPay, FreeIsNever, LinesAreFew, ObjectsAreFew, RepliesAreFew, StepsAreFew};
ghost use Rattle.law_prices.specs.Falls.{PricesFall};
ghost use Rattle.law_prices.specs.Placed.{PlacesAreWithin};
ghost use Rattle.law_prices.specs.Solved.{PricesAreSolved};
ghost use Rattle.law_prices.specs.Today.{CountedIsToday};
ghost use Rattle.law_prices.specs.Worked.Knobs as knobs_case;
ghost use Rattle.law_prices.specs.Worked.LastReference as last_reference_case;
ghost use Rattle.law_prices.specs.Worked.Pair as pair_case;

/// The bounds of three definitions by several price lists, computed from the definitions as data. By the list of counted steps they are
/// those of the report.
pub fn worked()
    ensures knobs { knobs_case.Holds }
    ensures last_reference { last_reference_case.Holds }
    ensures pair { pair_case.Holds }
{}

/// The prices that are computed solve their equations. By the list of counted steps they are the costs, and the bounds are those of the
/// report, number for number.
pub fn today()
    ensures counted { CountedIsToday }
    ensures solved { PricesAreSolved }
{}

/// By any price list each step of a dispatch is paid by what the potential falls, and no dispatch costs more than its bound. So what has
/// a price never happens where the bound is 0. A dispatch takes no more steps, takes no more replies of peers, says no more lines and
/// makes no more objects than its bounds by the ready lists say.
pub fn law()
    ensures falls { PricesFall }
    ensures pays { DispatchesPay }
    ensures never { FreeIsNever }
    ensures steps { StepsAreFew }
    ensures replies { RepliesAreFew }
    ensures lines { LinesAreFew }
    ensures objects { ObjectsAreFew }
{}

/// By any price list each accepted definition has its prices: going on from 0 computes them, and nothing else solves their equations.
pub fn found()
    ensures found { PricesAreFound }
    ensures once { PricesAreOnce }
{}

/// So each way into an accepted definition has a bound by any price list, a number that is computed from the definition alone, and all that
/// the law says of a dispatch is so by this bound.
pub fn bounds()
    ensures cost { CostIsWithin }
    ensures never { ZeroIsNever }
    ensures steps { StepsAreWithin }
    ensures replies { RepliesAreWithin }
    ensures lines { LinesAreWithin }
    ensures objects { ObjectsAreWithin }
{}

/// A dispatch takes no more replies of peers to a method of a shape than its bound by the list of these calls says, and none where that is 0.
/// Each reply that it takes is one to the method that the peer was asked for.
pub fn calls()
    ensures within { CallsAreWithin }
    ensures never { ZeroIsNoCall }
    ensures each { EachIsToOne }
    ensures asked { EachIsAskedFor }
{}

/// A dispatch begins no more emissions at a channel than its bound by the list of these emissions says, and a program no more often than its
/// bound by the list of the program's runs says.
pub fn begun()
    ensures emissions { EmissionsAreWithin }
    ensures programs { ProgramsAreWithin }
{}

/// A dispatch makes no more objects of a place than its bound by the list of these objects says.
pub fn placed()
    ensures places { PlacesAreWithin }
{}
