//! Laws of events and their runs at the pair: what they never do to states, and that what undoes them restores the pair.
#![tactic(auto)]

mod laws;
mod reversal;

pub use laws::{
    copies_come_to_rest, frames_were_sent, held_packets_have_waiting_states,
    held_packets_leave_only_so, levels_never_fall, no_name_is_given_twice,
    no_number_is_given_twice, sources_never_fall, states_stay_apart,
};
pub use reversal::{all_there_and_back, there_and_back};
