//! Laws of what is good where nothing moves: lists with rising numbers, and what an emission's plan costs.
#![tactic(auto)]

ghost use Rattle.law_static.specs.Rising.{RisingAreFound, RisingCosts};
ghost use Rattle.law_static.specs.PlanCost.{PlanCosts};
ghost use Rattle.law_static.specs.NotifyCost.{NotifyCosts};
ghost use Rattle.law_static.specs.Sites.{BlocksKeep, SitesKeep};
ghost use Rattle.law_static.specs.Subclass.{NamesFind, SpecsInherit, SignalsInherit, EmittedInherit, OwnNameFinds};
ghost use Rattle.law_static.specs.Fits.{HoldsFits, HoldsLive, HoldsKind, HoldsSet, OperandsStand, ClassesAgree, GivenHold, GivenFit};
ghost use Rattle.law_static.specs.Code.{InstructionsTaken, ProgramsGoOn, ProgramsWait, ProgramsBegin, FirstRegistersFit};
ghost use Rattle.law_static.specs.Raises.{ChannelsKnown, ConnectionsKnown, SourcesKnown};
ghost use Rattle.law_static.specs.Makings.{ObjectsComeFirst, ItemsCostLess, AllAreMade};
ghost use Rattle.law_static.specs.Items.{SignalsComeLast, AdoptsFollow, ForwardsFollow, BindingsFollow};
ghost use Rattle.law_static.specs.Attached.{AttachedFit, AttachedArePaid};
ghost use Rattle.law_static.specs.Means.{HandlersMean, RaisedKnown};
ghost use Rattle.law_static.specs.Starts.{StartsReach, ThawsReach, PairsPay, DueWithin};
ghost use Rattle.law_static.specs.MakingCost.{AbsentCostsNothing, ConstructionCosts};
ghost use Rattle.law_static.specs.Constructions.{ConstructionsFit, ConstructionsShallow, ConstructionsThaw};
ghost use Rattle.law_typing.specs.Laws.StepsKeepGood.{BuildBegins, RequestsBegin, SourcesBegin};

/// What is listed under rising numbers is found by its number. Bindings that are so listed cost together no more than those of the
/// definition.
pub fn rising()
    ensures found { RisingAreFound }
    ensures costs { RisingCosts }
{}

/// As an emission of a signal begins, its plan is within what the channel costs; as a notification begins, with the transfers of its bindings and
/// its pair, it is within what a due notification may cost.
pub fn plan()
    ensures costs { PlanCosts }
    ensures notifications { NotifyCosts }
{}

/// The build of an accepted definition begins well, within its bound and the depth. So does from any world at rest a due source, and a request
/// that names no released object.
pub fn beginnings()
    ensures build { BuildBegins }
    ensures sources { SourcesBegin }
    ensures requests { RequestsBegin }
{}

/// Each block of an accepted definition keeps its rules and its brackets, and each of its instructions is typed at its place, is among the
/// sites of the graph, and freezes no object with a paired property.
pub fn sites()
    ensures blocks { BlocksKeep }
    ensures instructions { SitesKeep }
{}

/// A class has under each name the property and the signal of each type that it is; and a property's own name finds it.
pub fn subclasses()
    ensures finds { NamesFind }
    ensures specs { SpecsInherit }
    ensures signals { SignalsInherit }
    ensures emitted { EmittedInherit }
    ensures own { OwnNameFinds }
{}

/// What a register holds is what its kind says, and what fits it is held as well. An object operand lives, and what a program is given fits
/// its parameters.
pub fn registers()
    ensures fits { HoldsFits }
    ensures live { HoldsLive }
    ensures kind { HoldsKind }
    ensures set { HoldsSet }
    ensures operands { OperandsStand }
    ensures classes { ClassesAgree }
    ensures given { GivenHold }
    ensures parameters { GivenFit }
{}

/// What is known of the instruction that a program has come to, and of what it costs. Past one that does not end its block the rest is good
/// with what is left of the steps, as is one that waits for what comes down; and a program begins well within its cost and depth.
pub fn code()
    ensures taken { InstructionsTaken }
    ensures goes_on { ProgramsGoOn }
    ensures waits { ProgramsWait }
    ensures begins { ProgramsBegin }
    ensures registers { FirstRegistersFit }
{}

/// A channel that is there is in the graph, with what runs there, and costs what that does; what an instruction connects is connectable
/// there, and what it attaches is a source.
pub fn raises()
    ensures channels { ChannelsKnown }
    ensures connections { ConnectionsKnown }
    ensures sources { SourcesKnown }
{}

/// A handler runs only at a channel that its signal and its detail can mean; and what the graph has of a channel is what runs there. The program
/// of a signal of the definition takes what it is given, and is paid for where it runs; the build connects it once all objects are made.
pub fn meanings()
    ensures handlers { HandlersMean }
    ensures raised { RaisedKnown }
    ensures attached { AttachedFit }
    ensures paid { AttachedArePaid }
    ensures last { SignalsComeLast }
{}

/// What an instruction raises at the place of its operand's object is within what it may start, and a thaw pays for the paired properties
/// there; what is due at a property is within its node.
pub fn starts()
    ensures reach { StartsReach }
    ensures thaws { ThawsReach }
    ensures pairs { PairsPay }
    ensures due { DueWithin }
{}

/// What is not raised costs nothing, and a construction costs no more than what the making of its place's object raises.
pub fn making()
    ensures absent { AbsentCostsNothing }
    ensures cheap { ConstructionCosts }
{}

/// The steps of a construction are good: their values fit and live, their programs take the new object, none goes deeper than what the making
/// raises, and one of them thaws the object.
pub fn constructions()
    ensures fit { ConstructionsFit }
    ensures shallow { ConstructionsShallow }
    ensures thaw { ConstructionsThaw }
{}

/// The build makes its objects first, in the order of the places, and what it connects later is reckoned at each channel. An adoption follows its
/// object, and forward values and bindings follow all objects.
pub fn items()
    ensures first { ObjectsComeFirst }
    ensures less { ItemsCostLess }
    ensures made { AllAreMade }
    ensures adopts { AdoptsFollow }
    ensures forwards { ForwardsFollow }
    ensures bindings { BindingsFollow }
{}
