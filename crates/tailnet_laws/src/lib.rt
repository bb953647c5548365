//! What users of a tailnet may rely on, whatever is asked of its server. No function here does
//! anything: each states a law.
#![tactic(auto)]

mod deltas;
mod entrances;
mod folds;
mod ids;
mod keys;
mod maps;
mod numbering;
mod peers;
mod polls;

pub use deltas::deltas_name_only_what_differs;
pub use entrances::{machines_enter_by_key_or_admission, machines_enter_for_a_user};
pub use folds::{clients_fold_fresh_maps, handles_are_given_once, legal_histories_keep_sessions};
pub use ids::gone_ids_stay_gone;
pub use keys::{registrations_take_keys, single_use_keys_admit_once, used_keys_are_refused};
pub use maps::{
    expired_machines_are_in_no_map, expired_machines_are_no_peers, expired_machines_get_no_map,
};
pub use numbering::numbers_run;
pub use peers::{closed_policies_show_nobody, maps_show_live_machines};
pub use polls::{
    machines_are_online_by_polls, machines_have_presence, waiting_polls_leave_a_worker,
};
