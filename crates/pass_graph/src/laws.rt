//! What holds of the graph of every legal history, over every accepted opening. Each function carries laws in its contract
//! and does nothing.
ghost use Rattle.pass_graph.specs.Lawful.{VersionRecordLaw, InputRecordLaw, RankLaw, OpeningLaw, AcyclicLaw, ChainLaw, PathLaw, GraphLaw, OwnGraphLaw, FirstOpeningLaw, FirstStartLaw, PrefixLaw, DuplicateLaw};
ghost use Rattle.pass_graph.specs.Words.{WordsLaw};
ghost use Rattle.pass_graph.specs.ListRanks.{NodesLaw, ListRankLaw, ListAcyclicLaw};

/// The records of a session have its freezes as versions and its fresh INs as edges, and no others.
pub fn edges()
    ensures versions { VersionRecordLaw }
    ensures inputs { InputRecordLaw }
{}

/// Along every edge of a session the rank falls, and no edge leads from a version of the opening to one of the session.
/// So the session's list has no cycle.
pub fn rank()
    ensures falls { RankLaw }
    ensures opening { OpeningLaw }
    ensures acyclic { AcyclicLaw }
{}

/// Where a version is joined to another one, a path leads there.
pub fn chain_gives_path()
    ensures { ChainLaw }
{}

/// Where a path leads from a version to another one, the two are joined.
pub fn path_gives_chain()
    ensures { PathLaw }
{}

/// A session's list has no cycle, and a path leads exactly where the versions are joined. So has the list of the first
/// session's own records.
pub fn graph()
    ensures after_records { GraphLaw }
    ensures alone { OwnGraphLaw }
{}

/// The first session of a store, which has no records yet, begins with an accepted opening.
pub fn first_opening()
    ensures opens { FirstOpeningLaw }
    ensures start { FirstStartLaw }
{}

/// After each number of a session's entries its list is well logged.
pub fn prefixes()
    ensures { PrefixLaw }
{}

/// An IN that isn't fresh has its edge already, and its source took nothing new between the OUTs of the two.
pub fn duplicates_lose_nothing()
    ensures { DuplicateLaw }
{}

/// Versions, marks, fresh INs and freezes are what the words over the places of a history say.
pub fn words()
    ensures { WordsLaw }
{}

/// The nodes of a well logged list are each made once, their ranks fall along every edge, and so the list has no cycle.
pub fn well_logged()
    ensures nodes { NodesLaw }
    ensures falls { ListRankLaw }
    ensures acyclic { ListAcyclicLaw }
{}
