//! What a node's calls come to in what it knows: how they are read, why they are refused, what they
//! change and what they answer. A node with a trace and versions stands above.
#![tactic(auto)]

mod config;
mod delivery;
mod generator;
mod grant;
mod list;
mod load;
mod name;
mod pass;
mod replica;
mod set;
mod setting;
mod shift;
mod words;

pub use config::{Config, MAX_TRACE_CAP};
pub use delivery::{Delivery, is_any_overspent, is_message_ahead, latest_clock, read_message};
pub use generator::Generator;
pub use grant::granted_with;
pub use list::list_of;
pub use load::{read_points, set_to, settings_issued, state_of_names};
pub use name::read_name;
pub use pass::{Outcome, outcome_of, reply_if};
pub use replica::State;
pub use set::{read_actions, setting_refusal};
pub use setting::{setting_at, words_needed};
pub use shift::total_with;
pub use words::WordSource;
