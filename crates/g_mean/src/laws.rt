//! Laws of what regions, lambdas and programs mean.

ghost use Rattle.std.specs.Prelude.{List};
ghost use Rattle.g_mean.specs.Copies.{CopiedRegionsMeanTheSame, CopiedNodesMeanTheSame, CopiesToThemselves};
ghost use Rattle.g_mean.specs.Data.{Datum};
ghost use Rattle.g_mean.specs.Edits.{EditsReplace, EditsKeepMeaning, EditsKeepComplete};
ghost use Rattle.g_mean.specs.Holds.{RunNodesHold};
ghost use Rattle.g_mean.specs.Kinds.{RegionsKeepKinds, NodesKeepKinds, MapsKeepKinds, AppliedKeepsKinds, LambdasKeepKinds, WellFormedKeepMeaning};
ghost use Rattle.g_mean.specs.Laws.{RegionExtends, LambdaExtends, ProgramExtends, NodesInTurn, EventsGrow, RegionIsSound, LambdaIsSound, ThetaTurns, TurnsUnroll};
ghost use Rattle.g_mean.specs.LocalRefinement.{LocalRefinementsReplace, BodiesReplaceCalls};
ghost use Rattle.g_mean.specs.Moves.{PureNodesGiveTheSame, MovedNodesRefine, MovedRegionsRefine, LoopsRefine};
ghost use Rattle.g_mean.specs.Replacement.{LambdasKeepMeaning, RegionsKeepMeaning, ProgramsKeepMeaning};
ghost use Rattle.g_mean.specs.Silent.{StatelessNodesAreSilent};
ghost use Rattle.g_mean.specs.Splices.{SplicedRegionsRefine, RedirectedRegionsRefine, ReplacedNodesRefine};

/// A greater bound only extends: what ended stays as it is, and what was cut may go on.
pub fn bounds_extend()
    ensures region { RegionExtends }
    ensures lambda { LambdaExtends }
    ensures program { ProgramExtends }
{}

/// The nodes of a region run one after the other.
pub fn nodes_in_turn()
    ensures { NodesInTurn }
{}

/// What a region wrote, and the calls that it met, stay: the events of a run begin with those of
/// its first nodes.
pub fn events_grow()
    ensures { EventsGrow }
{}

/// Sound data stay sound.
pub fn soundness_is_kept()
    ensures region { RegionIsSound }
    ensures lambda { LambdaIsSound }
{}

/// The replacement law: where the lambdas of two lists are equal but for replaced regions, inside
/// any nest of gammas, thetas and calls, each run over one list is within a run over the other at
/// twice its bound and two more, and the changed list meets no deeper stacks.
pub fn replacement_keeps_meaning()
    ensures lambda { LambdasKeepMeaning }
    ensures region { RegionsKeepMeaning }
    ensures program { ProgramsKeepMeaning }
    ensures well_formed { WellFormedKeepMeaning }
{}

/// A well-formed region that takes data of its arguments' kinds gives data of its results' kinds,
/// and each of its nodes data of its outputs' kinds. So a well-formed lambda gives a value and both
/// states where it is given values and both states.
pub fn kinds_are_kept()
    ensures region { RegionsKeepKinds }
    ensures node { NodesKeepKinds }
    ensures map { MapsKeepKinds }
    ensures calls { AppliedKeepsKinds }
    ensures lambda { LambdasKeepKinds }
{}

/// A well-formed node that gives no state is not cut, does not end the program, writes nothing and
/// calls nothing.
pub fn stateless_nodes_are_silent()
    ensures { StatelessNodesAreSilent }
{}

/// A region that refines another one, wherever both stand, may replace it.
pub fn local_refinements_replace()
    ensures { LocalRefinementsReplace }
{}

/// A call of a lambda without objects may be replaced by its body.
pub fn bodies_replace_calls()
    ensures { BodiesReplaceCalls }
{}

/// The turns of a theta.
pub fn turns_unroll()
    ensures theta { ThetaTurns }
    ensures turns { TurnsUnroll }
{}

/// The copy law: nodes that are copied under new numbers, on origins that carry the same, give and
/// do the same.
pub fn copies_mean_the_same()
    ensures region { CopiedRegionsMeanTheSame }
    ensures nodes { CopiedNodesMeanTheSame }
    ensures itself { CopiesToThemselves }
{}

/// A change of one region of a well-formed lambda, where the new region may replace the old one,
/// leaves lists of lambdas that are equal but for replaced regions. So the changed lambda may stand
/// for the lambda in any list, and complete lists stay complete.
pub fn edits_replace()
    ensures same { EditsReplace }
    ensures meaning { EditsKeepMeaning }
    ensures complete { EditsKeepComplete }
{}

/// A pure node gives one value, and that is the same wherever its inputs carry the same.
pub fn pure_nodes_give_the_same()
    ensures { PureNodesGiveTheSame }
{}

/// The move law: nodes whose inputs come from elsewhere, and which may have new numbers, refine
/// where what they read is less defined. What they do not read may be anything.
pub fn moved_nodes_refine()
    ensures nodes { MovedNodesRefine }
    ensures region { MovedRegionsRefine }
{}

/// How the variables of a loop relate to those of another one.
pub trait LoopVariables {
    ghost relate: { List Datum → List Datum → Type 0 };
}

/// Two loops refine where their bodies keep a relation of their variables.
pub fn loops_refine<R: LoopVariables>()
    ensures { LoopsRefine R.relate }
{}

/// Once the nodes of a closed region with unique numbers have run, each gives its outputs on what
/// its inputs carry then.
pub fn run_nodes_hold()
    ensures { RunNodesHold }
{}

/// A region with a part or another node in the place of a node, or with uses of a node's outputs
/// that come from elsewhere, refines to what it was where these are.
pub fn changed_regions_refine()
    ensures spliced { SplicedRegionsRefine }
    ensures redirected { RedirectedRegionsRefine }
    ensures replaced { ReplacedNodesRefine }
{}
