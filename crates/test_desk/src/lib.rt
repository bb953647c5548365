//! Tests of a desk: polls that last while other machines come and go.
#![tactic(auto)]

#[cfg(test)]
mod asks;
#[cfg(test)]
mod events;
#[cfg(test)]
mod follows;
#[cfg(test)]
mod parts;
#[cfg(test)]
mod replies;
#[cfg(test)]
mod rows;
#[cfg(test)]
mod stages;
