//! Counters that any two copies of can be joined: how many hits each node counted, and budgets,
//! which say how the count of a term is shared among the nodes, as rights to execute it. A budget
//! is a bounded counter (Balegas et al., SRDS 2015): a node spends and shifts only rights that
//! it sees as its own.
#![tactic(auto)]

mod balances;
mod budget;
mod cells;
mod fault;
mod hits;
pub mod laws;
mod ledger;

pub use budget::Budget;
pub use fault::CounterFault;
pub use hits::HitCounter;
