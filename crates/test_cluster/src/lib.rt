//! Tests of nodes behind locks and of clusters: what callers are told, a node that is made again of
//! its calls, runs of events, mailboxes, and rounds of gossip.
#![tactic(auto)]

#[cfg(test)]
mod tests;
