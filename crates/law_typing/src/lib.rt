//! What an accepted definition is: typing, edges, ranks, costs, depths and the report, with laws of them.
#![tactic(auto)]

ghost use Rattle.law_typing.specs.Laws.{RanksRise, EdgesLeadToNodes, RankedIsAcyclic, UnrankedHasCycle, JudgedIsAccepted, AcceptedIsJudged, CycleIsReal, NamesDoNotCount};
ghost use Rattle.law_typing.specs.Laws.Costs.{CostsSolved, DepthsSolved, EmissionsCover, PairsCover, StartsCover, CodeCovers, BlocksCover, PassesCover, SetsCover, EmitsCover, DepthsCover};
ghost use Rattle.law_typing.specs.Laws.Beginnings.{WorkedBegin};
ghost use Rattle.law_typing.specs.Laws.StepsKeepGood.{GoodIsWithin, EndsRest, TurnsRest};
ghost use Rattle.law_typing.specs.Laws.MidRun.{MidRun};
ghost use Rattle.law_typing.specs.Laws.NotGood.{NotGood};
ghost use Rattle.law_typing.specs.Laws.WorkedRead.{WorkedRead};
ghost use Rattle.law_typing.specs.Laws.OneSolution.{OneRanking, OneCost, OneDepth, AcceptedIsPaired, AcceptedOnce};
ghost use Rattle.law_typing.specs.Laws.Chain.{ChainsDouble, ThreeLinks};
ghost use Rattle.law_typing.specs.Laws.Names.{OneGraph};
ghost use Rattle.law_typing.specs.Verdict.Accepted.{Accepted};
ghost use Rattle.law_typing.specs.Laws.RuleWords.{RuleWords, BindingWords, BracketWords};
ghost use Rattle.law_typing.specs.Examples.FirstRun as first_run_case;
ghost use Rattle.law_typing.specs.Examples.NothingToDo as nothing_to_do_case;
ghost use Rattle.law_typing.specs.Examples.Freezes as freezes_case;
ghost use Rattle.law_typing.specs.Examples.Pair as pair_case;
ghost use Rattle.law_typing.specs.Examples.Labels as labels_case;
ghost use Rattle.law_typing.specs.Examples.Floating as floating_case;
ghost use Rattle.law_typing.specs.Examples.LastReference as last_reference_case;
ghost use Rattle.law_typing.specs.Examples.MainLoop as main_loop_case;
ghost use Rattle.law_typing.specs.Examples.LabelChain as label_chain_case;
ghost use Rattle.law_typing.specs.Examples.LabelsRenamed as stickers_case;
ghost use Rattle.law_typing.specs.Examples.ClassHandlers as class_handlers_case;
ghost use Rattle.law_typing.specs.Examples.Chain as chain_case;
ghost use Rattle.law_typing.specs.Examples.RepeatedBlock as repeated_block_case;
ghost use Rattle.law_typing.specs.Examples.MostPasses as most_passes_case;
ghost use Rattle.law_typing.specs.Examples.UnfitPass as unfit_pass_case;
ghost use Rattle.law_typing.specs.Examples.AllParts as knobs_case;
ghost use Rattle.law_typing.specs.Examples.SetConstructOnly as set_construct_only_case;
ghost use Rattle.law_typing.specs.Examples.UnfitHandler as unfit_handler_case;
ghost use Rattle.law_typing.specs.Examples.UnfitChild as unfit_child_case;
ghost use Rattle.law_typing.specs.Examples.UnfitClassHandler as unfit_class_handler_case;
ghost use Rattle.law_typing.specs.Laws.FaultTexts.{FaultTexts, JudgesOnce, JudgesIsThere};
ghost use Rattle.law_typing.specs.Laws.Capped.{CappedLaws, CostsCapped};
ghost use Rattle.law_typing.specs.Examples.UnfitBinding as unfit_binding_case;
ghost use Rattle.law_typing.specs.Examples.SecondPair as second_pair_case;
ghost use Rattle.law_typing.specs.Examples.FrozenPair as frozen_pair_case;
ghost use Rattle.law_typing.specs.Examples.FrozenTarget as frozen_target_case;
ghost use Rattle.law_typing.specs.Examples.FrozenTwins as frozen_twins_case;
ghost use Rattle.law_typing.specs.Examples.FrozenCycle as frozen_cycle_case;
ghost use Rattle.law_typing.specs.Examples.OpenFreeze as open_freeze_case;
ghost use Rattle.law_typing.specs.Examples.LabelCycle as label_cycle_case;
ghost use Rattle.law_typing.specs.Examples.TooLarge as too_large_case;

/// Definitions that are accepted, each with its report, computed from the definition as data.
pub fn reports()
    ensures first_run { first_run_case.Holds }
    ensures nothing_to_do { nothing_to_do_case.Holds }
    ensures freezes { freezes_case.Holds }
    ensures pair { pair_case.Holds }
    ensures labels { labels_case.Holds }
    ensures floating { floating_case.Holds }
    ensures last_reference { last_reference_case.Holds }
    ensures main_loop { main_loop_case.Holds }
    ensures label_chain { label_chain_case.Holds }
    ensures stickers { stickers_case.Holds }
    ensures class_handlers { class_handlers_case.Holds }
    ensures chain { chain_case.Holds }
    ensures knobs { knobs_case.Holds }
    ensures repeated_block { repeated_block_case.Holds }
    ensures most_passes { most_passes_case.Holds }
    ensures frozen_pair { frozen_pair_case.Holds }
    ensures frozen_target { frozen_target_case.Holds }
    ensures frozen_twins { frozen_twins_case.Holds }
{}

/// Definitions that are refused, one for each word of refusal.
pub fn refusals()
    ensures set_construct_only { set_construct_only_case.Holds }
    ensures unfit_pass { unfit_pass_case.Holds }
    ensures unfit_handler { unfit_handler_case.Holds }
    ensures unfit_child { unfit_child_case.Holds }
    ensures unfit_class_handler { unfit_class_handler_case.Holds }
    ensures unfit_binding { unfit_binding_case.Holds }
    ensures second_pair { second_pair_case.Holds }
    ensures open_freeze { open_freeze_case.Holds }
    ensures label_cycle { label_cycle_case.Holds }
    ensures frozen_cycle { frozen_cycle_case.Holds }
    ensures too_large { too_large_case.Holds }
{}

/// Each word of the rules of instructions and of bindings, and which brackets match.
pub fn words()
    ensures rules { RuleWords }
    ensures bindings { BindingWords }
    ensures brackets { BracketWords }
{}

/// The line of each refusal. A verifier has one answer only, apart from which cycle it reports; and costs that are capped one above the
/// greatest bound come out as they do without.
pub fn answers()
    ensures texts { FaultTexts }
    ensures once { JudgesOnce }
    ensures there { JudgesIsThere }
    ensures capped { CappedLaws }
    ensures costs { CostsCapped }
{}

/// What is judged to be accepted is accepted, by ranks, costs and depths that meet their equations, and whatever is accepted is judged so.
/// What is judged to have a cycle has one. One definition with a program, a binding, a pair and a prototype is accepted.
pub fn judgement()
    ensures accepted { JudgedIsAccepted }
    ensures judged { AcceptedIsJudged }
    ensures cycle { CycleIsReal }
    ensures one { Accepted knobs_case.definition }
{}

/// Each accepted definition that is worked here is well read.
pub fn reading()
    ensures worked { WorkedRead }
{}

/// What each step is to keep holds as the build of each accepted definition begins, within the bound and the depth of its report.
pub fn beginning()
    ensures holds { WorkedBegin }
{}

/// What each step is to keep holds at two configurations in the middle of a run as well, which the machine reaches. It does not hold at two
/// that a run must not come to.
pub fn amid()
    ensures holds { MidRun }
    ensures fails { NotGood }
{}

/// What is good is within its bound and its depth, a dispatch that has ended leaves a world at rest, and so does a turn that begins.
pub fn rest()
    ensures within { GoodIsWithin }
    ensures ends { EndsRest }
    ensures turns { TurnsRest }
{}

/// A rank rises along each edge to a node, and in the graph of a definition each edge leads to one. Where there are ranks there is no
/// cycle, and where there are none there is one.
pub fn ranks()
    ensures rise { RanksRise }
    ensures lead { EdgesLeadToNodes }
    ensures acyclic { RankedIsAcyclic }
    ensures cycle { UnrankedHasCycle }
{}

/// A cost is at least each of the parts that are added to it.
pub fn costs()
    ensures solved { CostsSolved }
    ensures emissions { EmissionsCover }
    ensures pairs { PairsCover }
    ensures starts { StartsCover }
    ensures code { CodeCovers }
    ensures blocks { BlocksCover }
    ensures passes { PassesCover }
    ensures sets { SetsCover }
    ensures emits { EmitsCover }
{}

/// A depth is more than that of each thing that may run above.
pub fn depths()
    ensures solved { DepthsSolved }
    ensures cover { DepthsCover }
{}

/// Without a cycle the equations of ranks, costs and depths have one solution, so that an accepted definition has one report.
pub fn solutions()
    ensures ranks { OneRanking }
    ensures costs { OneCost }
    ensures depths { OneDepth }
    ensures paired { AcceptedIsPaired }
    ensures once { AcceptedOnce }
{}

/// Costs are of the graph alone, in which there are no names.
pub fn names()
    ensures graph { NamesDoNotCount }
    ensures renamed { OneGraph }
{}

/// Each handler of a chain that sets the next property twice doubles the cost.
pub fn chains()
    ensures double { ChainsDouble }
    ensures three { ThreeLinks }
{}
