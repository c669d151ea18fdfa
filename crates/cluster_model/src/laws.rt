//! What holds of every schedule.
//!
//! A schedule is a list of asks, each to one node, in which what is delivered was sent before. A
//! message that is never delivered is lost, and one that is delivered again is repeated.

ghost use Rattle.std.specs.Prelude.{◌≡◌, ℕ};
ghost use Rattle.replica_state.specs.Laws.{UnionIsLeast};
ghost use Rattle.node_core.specs.Traces.{Kept};
ghost use Rattle.cluster_model.specs.Laws.{NodeIsReplay, EventIsCall, StateIsFold};
ghost use Rattle.cluster_model.specs.Laws.{AnyOrderSameState, MutualKnowledgeSameState};
ghost use Rattle.cluster_model.specs.Laws.{DeliveryIsLeast, Escrow, StampIsIssuedOnce};
ghost use Rattle.cluster_model.specs.Laws.{StampIsOneKey, HonestMessages, HonestBytes};
ghost use Rattle.cluster_model.specs.Laws.{DeltaMessages, DeltaMessageBytes, MessagesAreReplies};
ghost use Rattle.cluster_model.specs.Laws.{ToldExecutionsAreIssued, DeltaMaySend};
ghost use Rattle.cluster_model.specs.Laws.{DeltasAreSchedules, TracesAreLegal, DeltaIsEmission};
ghost use Rattle.cluster_model.specs.Laws.{DeltaIsOne, IsLegalEmit, PastBegins, PastIsPresent};
ghost use Rattle.cluster_model.specs.Laws.{PastStays, PastIsState, KnownVersionIsReached};
ghost use Rattle.cluster_model.specs.Laws.{KnownVersionIsBelow, KnownVersionsSameState};
ghost use Rattle.cluster_model.specs.Laws.{EachVersionSeesWhole};
ghost use Rattle.cluster_model.specs.Lives.{LivesAreRuns, DeltaLivesAreRuns, DeltaLivesAreLives};
ghost use Rattle.cluster_model.specs.Lives.{AnsweredIsKept, SchedulesAreLives, RestartGoesOn};
ghost use Rattle.cluster_model.specs.Lives.{WholeRestartGoesOn, RestartIsTaken, LivesAreConserved};

/// Each event of a schedule is a call of one node: it is refused, and changes nothing, or it changes
/// that node by the step that the contracts of `NodeCore` cite, and its trace tells all of it. The
/// messages are those that the callers of emits were answered with.
pub fn calls()
    ensures node { NodeIsReplay }
    ensures call { EventIsCall }
    ensures messages { MessagesAreReplies }
{}

/// Nodes that know the same operations hold the same state, in whatever order, how often and by
/// whichever path they learnt of them, and a merge gives the least state above both.
pub fn same()
    ensures state { StateIsFold }
    ensures order { AnyOrderSameState }
    ensures known { MutualKnowledgeSameState }
    ensures least { UnionIsLeast }
    ensures delivery { DeliveryIsLeast }
{}

/// The count of a term, and what was granted of it, is the greatest number of its executions in the
/// whole cluster: of each term counted n and granted g in all under one stamp, the rights that the
/// nodes hold, the rights in transit between them and the executions add up to n + g, and none of
/// these is negative. Each execution that a caller was told of is of a term under such a stamp.
pub fn escrow()
    ensures stamp { StampIsIssuedOnce }
    ensures key { StampIsOneKey }
    ensures count { Escrow }
    ensures told { ToldExecutionsAreIssued }
{}

/// No message of the cluster is refused for what it says, and so none of the bytes that spell one,
/// but where a node knows of executions, its own or told, and not yet of the grant that paid for
/// them: an emit that chooses freely may leave a grant out. Where each node sends what differs there
/// is no such refusal.
pub fn honest()
    ensures messages { HonestMessages }
    ensures bytes { HonestBytes }
    ensures deltas { DeltaMessages }
    ensures delta_bytes { DeltaMessageBytes }
{}

/// A node that sends what differs between its state at the version that the receiver is known to
/// have and its state now, and tells just these versions, sends what a schedule lets it, and the
/// traces of such nodes are legal.
pub fn deltas()
    ensures any { DeltaMaySend }
    ensures schedule { DeltasAreSchedules }
    ensures traces { TracesAreLegal }
{}

/// Bytes that tell what differs between the state at the version that the receiver is known to have
/// and the state now are those of an emit that a schedule allows next, and there are no two such
/// strings of bytes.
pub fn emitted()
    ensures allowed { DeltaIsEmission }
    ensures one { DeltaIsOne }
{}

/// A legal trace tells which bytes an emit was answered with: with an emit of bytes at its end a
/// trace is legal exactly where it was before, the emit isn't refused, and the bytes tell what
/// differs.
pub fn legal_emits(nodes: u8, bytes: &[u8])
    ensures { (k : Kept) (to : ℕ) → k.config.nodes ≡ nodes → IsLegalEmit k to bytes.now }
{}

/// What a node has been: at version 0 it knew nothing, at its present version it knows what it
/// shows, and what it knew at a version that it has reached never changes.
pub fn past()
    ensures begins { PastBegins }
    ensures present { PastIsPresent }
    ensures stays { PastStays }
    ensures world { PastIsState }
{}

/// A version of a node that another knows is one that the node has reached. Where each node sends
/// what differs, a node that knows a version of another holds all that the other held at that
/// version, and two nodes that know each other's present version hold the same state. And each node
/// sees each other whole: of what the other wrote it holds all that the other held at one of its
/// versions, and nothing later.
pub fn known_versions()
    ensures reached { KnownVersionIsReached }
    ensures below { KnownVersionIsBelow }
    ensures same { KnownVersionsSameState }
    ensures whole { EachVersionSeesWhole }
{}

/// A cluster whose nodes end at any moment, each of which restarts from a prefix of its calls: where
/// the calls behind it, which are lost, are none whose caller got its reply or whose message was
/// delivered, the cluster is a run without the lost calls, and each call whose caller got its reply is
/// in that run. So it is of nodes that send what they choose, and of those that send what differs.
pub fn lives()
    ensures any { LivesAreRuns }
    ensures deltas { DeltaLivesAreRuns }
    ensures also { DeltaLivesAreLives }
    ensures answered { AnsweredIsKept }
{}

/// A node may restart from its first calls if these have each call whose caller got its reply, and that
/// of each message that was delivered; and so from all of its calls. A cluster in which no node ends is
/// one of these lives.
pub fn restarts()
    ensures none { SchedulesAreLives }
    ensures some { RestartGoesOn }
    ensures whole { WholeRestartGoesOn }
    ensures taken { RestartIsTaken }
{}

/// So rights are conserved over each such life, and its traces have no more executions of a term than
/// what was counted and what was granted by calls that aren't lost.
pub fn bounded()
    ensures { LivesAreConserved }
{}
