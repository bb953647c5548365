//! Tests of databases in memory and in files.
#![tactic(auto)]

#[cfg(test)]
mod damaged;
#[cfg(test)]
mod early;
#[cfg(test)]
mod files;
#[cfg(test)]
mod generic;
#[cfg(test)]
mod made;
#[cfg(test)]
mod others;
#[cfg(test)]
mod rows;
