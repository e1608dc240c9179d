//! The laws of the whole, each the contract of a call that does nothing.

ghost use Rattle.gl_parts.specs.Laws.{CyclesOfPartsAreCycles, GrantsOfOnePart, ModesOfTheWhole, PartsGoTogether, PartsHaveNoConflict, PartsIntend};
ghost use Rattle.gl_parts.specs.Laws.{StepsKeepParts};
ghost use Rattle.gl_parts.specs.Promises.{ActionsKeepLaw, CopiesAreGranted, IntentionsEnter, LeadersLead, MainStepsCanCopy, OthersStayCovered};
ghost use Rattle.gl_parts.specs.Promises.{PartStepsAct, PlainMainSteps, PlainPartSteps, PlainStepsAgree, RequestsCanCopy, RequestsObey};
ghost use Rattle.gl_parts.specs.Promises.{RunsHaveNoConflict, UnusedWorkAsOne, VisitorsJoin, VisitsNeverWait};
ghost use Rattle.gl_parts.specs.Promises.{AfterMainIsAllowed, ClearMayUnmark, CopiedMayMark, HereIsAllowed, InMainIsRefused, NextIsUncovered};
ghost use Rattle.gl_parts.specs.Promises.{AdoptsPassNoMore, BoardsJoin, ClearsKeepProgress, ListedLackNothing, MainStepsKeepPaths, MarksKeepPaths};
ghost use Rattle.gl_parts.specs.Promises.{IndexesNeedKeys, IndexesPassMore, OthersPassTheSame, OwnIsUncovered, PartStepsKeepPaths, PathsMayRequest};
ghost use Rattle.gl_parts.specs.Promises.{MovesAct, MovesAgree, MovesPassTheNode, MovesPassTheSame, ProgressIsVisited, RowPathsMayRequest};
ghost use Rattle.gl_parts.specs.Resting.{AbsentAreUncovered, AbsentHaveNoneMarked, EndsBesideRest, RestCountsFrom, UnmarkedMayRest};

/// Several managers work as one: a main one and parts. The main manager has each node that is in
/// several, and the parts hold intentions alone on such a node. Before anybody requests more on it in
/// the main manager, all intentions on it that are held in parts are copied there, and later ones are
/// acquired there first. If each manager then grants compatible modes by the rule of the graph, so
/// does the whole, and no two transactions have conflicting effective modes on any node of it.
pub fn no_conflict()
    ensures compatible { PartsGoTogether }
    ensures rule { PartsIntend }
    ensures lawful { PartsHaveNoConflict }
{}

/// What a transaction holds of a node in the whole: the supremum of what it holds in each manager. Of
/// a node that is in one manager alone, a record for example, it holds what it holds there.
pub fn modes()
    ensures whole { ModesOfTheWhole }
    ensures one_part { GrantsOfOnePart }
{}

/// A command that is carried out in one manager, and changes no graph, leaves all managers lawful and
/// in agreement with the graph of the whole, whatever the others do at any other time.
pub fn steps_keep_parts()
    ensures { StepsKeepParts }
{}

/// A transaction waits in the whole for those for which it waits in some manager. So if it is on no
/// cycle of the whole, it is on none of any manager.
pub fn cycles()
    ensures { CyclesOfPartsAreCycles }
{}

/// Managers work as one if the main one leads the parts: a part has intentions alone on the nodes that
/// the main manager has too, and nobody waits there for one; the part is marked for those of them on
/// which anybody has more than an intention in the main manager, or waits there for it; and on a node
/// for which a part is marked, everybody holds in the main manager what it holds in the part. Unused
/// managers do. Each step of a part and of the main manager that may be taken, each visit and each
/// clear leaves them so, and no two transactions ever have conflicting effective modes on any node.
pub fn work_as_one()
    ensures leads { LeadersLead }
    ensures start { UnusedWorkAsOne }
    ensures actions { ActionsKeepLaw }
    ensures runs { RunsHaveNoConflict }
{}

/// A part may carry out any command that requests, on a node that the main manager has too, an
/// intention alone, and if the part is marked for the node, only what its transaction holds in the main
/// manager. Every command but a lock, a try and an escalation requests nothing. Such an intention is
/// granted at once. A node that is new in a part is in no other manager.
pub fn part_steps()
    ensures action { PartStepsAct }
    ensures plain { PlainPartSteps }
    ensures at_once { IntentionsEnter }
    ensures obeys { RequestsObey }
    ensures agrees { PlainStepsAgree }
{}

/// The main manager may carry out any command that requests, on a node that a part has too, an intention
/// alone, or for which all parts that have the node are marked; but before its transaction releases a
/// grant on a node there, it releases what it has on it in parts that are marked. A step lowers a grant
/// only if its command releases or ends something, and then only grants of the transaction that the
/// command names; others keep theirs, and may be granted more.
pub fn main_steps()
    ensures action { PlainMainSteps }
    ensures others { OthersStayCovered }
{}

/// Before a transaction requests more than an intention on a node in the main manager, parts are visited
/// that are not marked for it, and what anybody has there, that transaction too, is copied. A copy is
/// never refused for a parent, and never waits, if its transaction is active in the main manager and
/// the parents were copied first.
pub fn copies()
    ensures granted { CopiesAreGranted }
    ensures visits { VisitsNeverWait }
    ensures joins { VisitorsJoin }
{}

/// What a transaction has in a part alone can be copied as long as it neither waits nor is condemned in
/// the main manager. So it is copied before the transaction waits there. All other steps leave that so.
pub fn can_copy()
    ensures parts { RequestsCanCopy }
    ensures main { MainStepsCanCopy }
{}

/// What `next_copy` and `own_copy` answer is held in the part alone, so it can be copied. If nothing is
/// left to copy, the part may be marked for the node; and if the node is clear in the main manager, a
/// part may lose its mark for it.
pub fn marks()
    ensures next { NextIsUncovered }
    ensures own { OwnIsUncovered }
    ensures copied { CopiedMayMark }
    ensures clear { ClearMayUnmark }
{}

/// A lock or a try of a node that goes by `way_for` is one that the part may carry out: `Here`,
/// whatever the main manager has, and `AfterMain`, if its transaction holds the mode there. One that
/// goes `InMain` is one that the part may never carry out.
pub fn ways()
    ensures here { HereIsAllowed }
    ensures after_main { AfterMainIsAllowed }
    ensures in_main { InMainIsRefused }
{}

/// A path in a part requests an intention on nodes above its own. Each of these requests may be carried
/// out in the part if its transaction lacks nothing: if it has the intention, there or in the main
/// manager, on each node that a path to the target passes and for which the part is marked. Who lacks
/// nothing goes on so after each step of the part by which no path passes more, each step of the main
/// manager that releases nothing of it, and each visit for a node where it does not lack the intention.
/// By the node of a row that is made no path to a row passes more.
pub fn paths()
    ensures nodes { PathsMayRequest }
    ensures rows { RowPathsMayRequest }
    ensures listed { ListedLackNothing }
    ensures marks { MarksKeepPaths }
    ensures main_steps { MainStepsKeepPaths }
    ensures part_steps { PartStepsKeepPaths }
    ensures adopts { AdoptsPassNoMore }
{}

/// After an index of a file was made, beside its records if it has any, a call that waits for a row of the
/// file lacks a key for it, whatever mode it waits for; no other call lacks one. A path to write such a row,
/// or a record of the file by its node, passes the index and its parents, where it may lack something: those
/// are the paths to write whose waits `after_index` ends. A path whose wait goes on by that passes what it
/// passed before, if its node lives, and so does each path to read.
pub fn new_indexes()
    ensures keys { IndexesNeedKeys }
    ensures more { IndexesPassMore }
    ensures others { OthersPassTheSame }
{}

/// After a node was moved to other parents, a path passes it if it passed it before, and a path that does not
/// passes what it passed. So `passes`, asked before the move or after it, says which waits may go on. A part
/// may move a node that no other manager has, to nodes of its own; then all managers agree with the graph of
/// the whole in which the node has these parents.
pub fn moves()
    ensures node { MovesPassTheNode }
    ensures same { MovesPassTheSame }
    ensures agree { MovesAgree }
    ensures action { MovesAct }
{}

/// What rests in a part is held there by a slot that may have no transaction in the main manager. Such a
/// slot holds nothing on a node for which the part is marked; and what it holds on another node is not
/// covered in the main manager, so that the part may be marked for that node only after it was released. A
/// transaction may end in the main manager if its slot holds nothing in parts on nodes for which they are
/// marked, as one that `may_rest` allows to leave something. What rests counts from the age that it is
/// given: no transaction that was in the part, and began before that age, is a victim in its place.
pub fn resting()
    ensures marked { AbsentHaveNoneMarked }
    ensures uncovered { AbsentAreUncovered }
    ensures ends { EndsBesideRest }
    ensures allowed { UnmarkedMayRest }
    ensures since { RestCountsFrom }
{}

/// A request for more than an intention on a node may wait for a node above it first. As long as it is
/// in progress the parts stay marked for its node, so that it is an action once it is made.
pub fn in_progress()
    ensures visited { ProgressIsVisited }
    ensures clears { ClearsKeepProgress }
{}

/// If each board shows who waits for whom in its manager, the board on which all are joined shows who
/// waits for whom in any of them. So who is on a cycle of that board is on one of the whole.
pub fn boards()
    ensures { BoardsJoin }
{}
