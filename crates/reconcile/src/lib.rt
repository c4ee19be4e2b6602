// The state of a Delta table after a list of commits, by action reconciliation of the Delta protocol.
#![tactic(auto)]

mod ahead;
mod by_file;
mod by_name;
mod equal;
mod laws;
mod merge;
mod newest;
mod state;
mod walks;

pub use action_types::Key;
pub use laws::{
    a_base_and_commits_make_one_state, a_log_has_one_state, paths_are_files, walks_list_the_replay,
};
pub use newest::NewestFirst;
pub use state::State;
pub use walks::{DomainWalk, FileWalk, GoneWalk, TxnWalk};
