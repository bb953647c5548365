//! Addresses and names for new machines.
#![tactic(auto)]

mod addresses;
mod laws;
mod names;

pub use addresses::{CHROMEOS_FIRST, CHROMEOS_LAST, SERVICE_V4, SERVICE_V6, least_address};
pub use laws::{
    the_least_free_address_is_given, the_least_free_name_is_given, the_numbers_are_these,
};
pub use names::free_name;
