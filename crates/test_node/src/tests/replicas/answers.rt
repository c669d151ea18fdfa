//! What a replica answers. No function promises anything, since a test looks at values alone, and a
//! rich promise makes the proof of what calls it dear.

use super::*;

/// What the readers answer of a name, of a term at a node, and of what that moved to another node: the
/// key's clock, the node's hits and executions, and what it moved; the hits and executions of all
/// nodes; the node's rights; how many names there are, and would be with this one; and whether the
/// node is marked as one that has a right.
pub(super) type Answers = ([u64; 4], [u128; 2], i128, [usize; 2], Option<bool>);

pub(super) fn clock_of<R: Replica>(replica: &R, name: &Name) -> u64 {
    match replica.key(name) {
        Some(key) => key.clock,
        None => 0,
    }
}

fn mark_of<R: Replica>(replica: &R, name: &Name, term: u8, node: u8) -> Option<bool> {
    let (_, marks) = replica.key_and_rights(name, node)?;
    marks.get(usize::from(term)).copied()
}

fn answers_at<R: Replica>(replica: &R, name: &Name, term: u8, node: u8, to: u8) -> Answers {
    (
        [
            clock_of(replica, name),
            replica.hits(name, node),
            replica.exec(name, term, node),
            replica.moved(name, term, node, to),
        ],
        [replica.total_hits(name), replica.spent(name, term)],
        replica.rights(name, term, node),
        [replica.names(), replica.names_with(name)],
        mark_of(replica, name, term, node),
    )
}

/// What they answer of the first term at the nodes 0 and 1, and of what these moved to each other.
pub(super) fn seen<R: Replica>(replica: &R, name: &Name) -> [Answers; 2] {
    [
        answers_at(replica, name, 0, 0, 1),
        answers_at(replica, name, 0, 1, 0),
    ]
}

/// Whether they answer so again.
pub(super) fn is_as_before<R: Replica>(replica: &R, name: &Name, before: &[Answers; 2]) -> bool {
    seen(replica, name) == *before
}

/// What they answer of each of five terms at four nodes, and of what these moved to each other.
pub(super) fn answers<R: Replica>(
    alloc: Global,
    replica: &R,
    names: &[Name],
) -> Result<Vec<Answers>, AllocError> {
    let mut answers = Vec::new(alloc);
    for name in names {
        for place in 0u8..80 {
            let (term, node, to) = (place / 16, place / 4 % 4, place % 4);
            answers.push(answers_at(replica, name, term, node, to))?;
        }
    }
    Ok(answers)
}
