//! Laws of networks and runs, without code.
//!
//! - `networks`: tasks with some of a problem's ground actions have the same networks
//! - `joined`: joined runs of all agents make a valid plan
#![tactic(auto)]

mod joined;
mod networks;

pub use joined::{
    joined_runs_make_valid_plans, joint_runs_are_part_runs, networks_come_into_force,
    part_runs_keep_parts, schedules_make_valid_plans,
};
pub use networks::plans_have_same_networks;
