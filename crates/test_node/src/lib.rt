//! Tests of the crates below a node: action texts, settings, keys, counters, values that join,
//! replicas, reports, messages, texts of errors, recorded drills, and readers and writers that fail.
#![tactic(auto)]

#[cfg(test)]
mod tests;
