//! Tests of what reads policies: tables of texts, and what is read from them. They stand here since a crate
//! with tests is proved twice.
#![tactic(auto)]

#[cfg(test)]
mod cases;
#[cfg(test)]
mod grant_cases;
#[cfg(test)]
mod grant_rules;
#[cfg(test)]
mod grant_sums;
#[cfg(test)]
mod hujson;
#[cfg(test)]
mod internet;
#[cfg(test)]
mod limits;
#[cfg(test)]
mod office;
