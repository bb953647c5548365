//! Tests of who sees whom, of what is shown of it, and of what each machine serves and may do by each rule, over a small
//! tailnet.
#![tactic(auto)]

#[cfg(test)]
mod flags;
#[cfg(test)]
mod pairs;
#[cfg(test)]
mod rows;
#[cfg(test)]
mod serving;
#[cfg(test)]
mod views;
