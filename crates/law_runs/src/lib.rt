//! Laws of whole runs: what a configuration names lives and keeps its meaning, numbers are left for what is made, and agendas are short.
#![tactic(auto)]

ghost use Rattle.law_runs.specs.Living.{BuildsNameLiving, RequestsNameLiving, RestsNameLiving, SourcesNameLiving};
ghost use Rattle.law_runs.specs.Meanings.{BuildsKeepMeanings, RequestsKeepMeanings, RestsKeepMeanings, SourcesKeepMeanings};
ghost use Rattle.law_runs.specs.Stacks.{BuildsAreStacked, ConstructionsAreFew, RequestsAreStacked, SourcesAreStacked, StackedAreShort, StacksLast};
ghost use Rattle.law_runs.specs.Handlers.{BuildsHaveHandlerNumbers, HandlerNumbersLast, RequestsHaveHandlerNumbers, SourcesHaveHandlerNumbers};
ghost use Rattle.law_runs.specs.Identities.{BuildsHaveIdentities, RequestsHaveIdentities, SourcesHaveIdentities};
ghost use Rattle.law_runs.specs.Kin.{BuildsHaveKinMade, IdentitiesLastWithKin, KinLast};

/// Throughout each dispatch of an accepted definition, as long as its peers' replies fit, each identity that the world or a task names is one
/// of an object that lives; and what lives, with what the build has still to make, is no more than may. So it is of a world at rest.
pub fn names()
    ensures build { BuildsNameLiving }
    ensures request { RequestsNameLiving }
    ensures source { SourcesNameLiving }
    ensures rest { RestsNameLiving }
{}

/// Throughout each dispatch of an accepted definition, as long as its peers' replies fit, each binding that is there has the name of the
/// definition's binding of its number, and each object with a peer has one of its class's shape. So it is of a world at rest.
pub fn meanings()
    ensures build { BuildsKeepMeanings }
    ensures request { RequestsKeepMeanings }
    ensures source { SourcesKeepMeanings }
    ensures rest { RestsKeepMeanings }
{}

/// The tasks of each configuration lie on one another as those of a stack of frames do, whatever peers reply, and so they are few. Each
/// construction lies on the program or the build that makes its object.
pub fn stacks()
    ensures last { StacksLast }
    ensures short { StackedAreShort }
    ensures few { ConstructionsAreFew }
    ensures build { BuildsAreStacked }
    ensures request { RequestsAreStacked }
    ensures source { SourcesAreStacked }
{}

/// Where the children and the parents of what lives were made, and identities are left for what the build has still to make, both stay so at
/// each step: a program makes an object only where more are left than the build has still to make. Without the first the second would not last:
/// a child that was never made would be made as its parent forgets it.
pub fn identities()
    ensures last { IdentitiesLastWithKin }
    ensures build { BuildsHaveIdentities }
    ensures request { RequestsHaveIdentities }
    ensures source { SourcesHaveIdentities }
    ensures kin { KinLast }
    ensures kin_build { BuildsHaveKinMade }
{}

/// Where numbers are left for the handlers that the build has still to connect, they are after each step: a program connects a handler only
/// where more are left than the build has still to connect.
pub fn handler_numbers()
    ensures last { HandlerNumbersLast }
    ensures build { BuildsHaveHandlerNumbers }
    ensures request { RequestsHaveHandlerNumbers }
    ensures source { SourcesHaveHandlerNumbers }
{}
