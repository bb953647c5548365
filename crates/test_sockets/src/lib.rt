//! Tests of `serve` at listeners of their own: over loopback, with a poll that waits, and with one whose client leaves.
#![tactic(auto)]

#[cfg(test)]
mod gates;
#[cfg(test)]
mod leaving;
#[cfg(test)]
mod loopback;
#[cfg(test)]
mod waiting;
