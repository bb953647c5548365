//! `tailnetd`: the control server of a private tailnet.
#![tactic(auto)]

use io_edge::{HostClock, HostEntropy, HostFiles, ReadSource, WriteSink};
use keeper_sqlite::HostOpener;
use std::io::ErrorKind;
use std::process::ExitCode;
use std::{env, io};
use tcp_edge::{HostPause, TcpDoors, TcpLink};
use top_call::{end_wordless, tailnetd};

/// The words after the program's name.
fn words_of(rt: &HostRuntime) -> io::Result<Vec<String>> {
    let mut words = Vec::new(rt.alloc());
    for word in env::args(rt)?.skip(1) {
        words.push(word)?;
    }
    Ok(words)
}

/// The program over the process's own streams, files, databases, clock, random source and sockets.
fn main(rt: HostRuntime) -> ExitCode {
    let alloc = rt.alloc();
    let words = match words_of(&rt) {
        Ok(words) => words,
        Err(error) if error.kind() == ErrorKind::OutOfMemory => {
            let status = end_wordless(alloc, &mut WriteSink::new(rt.stderr()));
            return ExitCode::from(status.number());
        }
        // A word that isn't UTF-8 is no word of a command, and no words are none either.
        Err(_) => Vec::new(alloc),
    };
    let status = tailnetd(
        &rt,
        alloc,
        &words,
        &mut ReadSource::new(rt.stdin()),
        &mut WriteSink::new(rt.stdout()),
        &mut WriteSink::new(rt.stderr()),
        &mut HostFiles::new(rt),
        &mut HostOpener::new(rt),
        &mut HostClock::new(rt),
        &mut HostEntropy::new(rt),
        &mut TcpDoors::new(rt),
        &HostPause::new(rt),
        &mut TcpLink::new(rt),
    );
    ExitCode::from(status.number())
}
