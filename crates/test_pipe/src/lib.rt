//! Tests of whole runs over memory objects: conversations of `pipe`, byte for byte, what operators save in them, and loads.
#![tactic(auto)]

#[cfg(test)]
mod edges;
#[cfg(test)]
mod extras;
#[cfg(test)]
mod faults;
#[cfg(test)]
mod granted_alike;
#[cfg(test)]
mod held;
#[cfg(test)]
mod limits;
#[cfg(test)]
mod loads;
#[cfg(test)]
mod office;
#[cfg(test)]
mod policies;
#[cfg(test)]
mod registrations;
#[cfg(test)]
mod requests;
#[cfg(test)]
mod routes;
#[cfg(test)]
mod settings_refused;
