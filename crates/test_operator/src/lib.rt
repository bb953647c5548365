//! Tests of the operator's commands: words and what they ask, the requests of commands, answers of
//! bytes, whole commands over a link in memory, and a link over a socket.
#![tactic(auto)]

#[cfg(test)]
mod answers;
#[cfg(test)]
mod commands;
#[cfg(test)]
mod sockets;
#[cfg(test)]
mod words;
