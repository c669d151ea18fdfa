//! The plan of a run.

ghost use Rattle.std.specs.Prelude.{◌≡◌, ◌&&◌, ℕ, ◌<◌, ◌≤◌, ◌==◌, count_by, nat_le, true};
ghost use Rattle.std.specs.List.{sum_by};
ghost use Rattle.message_format.specs.Limits.{max_nodes};

use crate::line::Start;
use node_calls::AskRef;

/// How many nodes there are, 1 to 32, and how many calls each of them accepts.
#[derive(Clone, Copy)]
pub struct Size {
    pub nodes: u8,
    pub trace_cap: u32,
    ghost some_nodes: { (nat_le 1 nodes && nat_le nodes max_nodes) ≡ true },
}

/// A call that is made so many times.
#[derive(Clone, Copy)]
pub struct CallLine<'a> {
    pub call: AskRef<'a>,
    pub times: u16,
}

/// The calls of one worker at a node, in their order, and how many they are.
#[derive(Drop)]
pub struct Block<'a> {
    pub node: u8,
    pub lines: Vec<CallLine<'a>>,
    pub calls: u32,
    ghost all: { calls ≡ sum_by (λ l. l.times) lines.items },
}

/// What a node does before the workers start.
#[derive(Clone, Copy)]
pub struct StartLine<'a> {
    pub node: u8,
    pub start: Start<'a>,
}

/// What each round of gossip begins with.
#[derive(Clone, Copy, Debug, PartialEq, Eq)]
pub enum RoundKind {
    /// The messages.
    Telling,
    /// The shifts by which the node shares its rights, and then the messages.
    Sharing,
}

/// So many rounds of gossip.
#[derive(Clone, Copy)]
pub struct Rounds {
    pub count: u32,
    pub kind: RoundKind,
}

/// The plan of a run: its nodes, the seed of the random draws that their passes are given, what is
/// done before the workers start, how many rounds of gossip the nodes do beside them, if any, and
/// the workers' blocks, of which a node has 250 at most.
#[derive(Drop)]
pub struct ThreadPlan<'a> {
    pub size: Size,
    pub seed: [u8; 32],
    pub starts: Vec<StartLine<'a>>,
    pub gossip: Option<Rounds>,
    pub blocks: Vec<Block<'a>>,
    ghost few_blocks: { (node : ℕ) → count_by (λ b. b.node == node) blocks.items ≤ 250 },
}

/// A plan without its last block, to which calls are still added.
#[derive(Drop)]
pub struct Working<'a> {
    pub plan: ThreadPlan<'a>,
    pub last: Block<'a>,
    ghost room: { count_by (λ b. b.node == last.node) plan.blocks.items < 250 },
}
