//! Tests of `explain` and `reach` through the top call, over memory objects.
#![tactic(auto)]

#[cfg(test)]
mod asked;
#[cfg(test)]
mod faults;
#[cfg(test)]
mod stores;
