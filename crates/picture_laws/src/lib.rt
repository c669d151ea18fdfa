//! What the numbers of a drill's charts are, in the words of the cluster's model. Nothing here draws.
#![tactic(auto)]

pub mod laws;
