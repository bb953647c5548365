//! Tests of texts that are read and written: bodies, settings files, responses.
#![tactic(auto)]

#[cfg(test)]
mod bodies;
#[cfg(test)]
mod parts;
#[cfg(test)]
mod responses;
#[cfg(test)]
mod settings_files;
