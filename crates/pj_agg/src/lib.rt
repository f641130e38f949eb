//! States of aggregates: what stands for a list of values, so that lists that were added up apart can be joined.
#![tactic(auto)]

mod agg_state;
mod bytes;
mod count_state;
mod groups;
mod guesses;
mod item;
mod kept;
mod laws;
mod max_state;
mod min_state;
mod pile;
mod pile_bytes;
mod piles;
mod state;
mod state_column;
mod sum_state;
mod uniq_state;

pub use agg_state::{AggState, Keyed};
pub use count_state::CountState;
pub use laws::{
    bytes_tell_their_summary, greatest_is_greatest, joins_ignore_the_order, least_is_least,
    summaries_stand_for_values,
};
pub use max_state::MaxState;
pub use min_state::MinState;
pub use state::{State, StateFault};
pub use state_column::StateColumn;
pub use sum_state::SumState;
pub use uniq_state::UniqState;
