//! Which machines of a tailnet reach and see one another under a policy, and how they are shown.
#![tactic(auto)]

mod by_id;
mod laws;
mod machine;
mod near;
mod node;
mod pair;
mod routers;
mod routes;
mod shown_rows;
mod steps;
mod world;

pub use laws::{
    a_route_is_shown_at_one_machine, all_see_all_without_policy,
    machines_without_routes_change_no_row, reach_is_local, sight_is_mutual_and_by_rules,
    the_numbers_are_these,
};
pub use machine::LiveMachine;
pub use near::Near;
pub use node::TAGGED_OWNER;
pub use pair::{pair_test, sees, sees_machine};
pub use routers::{Routers, routers_of};
pub use shown_rows::{add_shown, own_row, shown};
pub use steps::Steps;
pub use world::World;
