//! Which refusal is the answer where several apply, and where one step needs what another gave:
//! definitions for the contracts of the crates above, and no code.
#![tactic(auto)]
