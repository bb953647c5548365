//! Connections over loopback, with short limits of time.
use io_edge::{Door, Doors, Sink, Source};
use std::io::{Read, Write};
use std::net::{Shutdown, TcpStream};
use std::time::Instant;
use tcp_edge::{TcpDoor, TcpDoors, TcpLimits, TcpSink, TcpSource};

const SHORT: TcpLimits = TcpLimits {
    idle: 200,
    request: 300,
    write: 300,
    linger: 300,
    linger_bytes: 1 << 20,
    retry: 10,
    tries: 5,
};

/// A door, a client that has connected, and both halves of the connection.
#[derive(Drop)]
struct Connected {
    door: TcpDoor<HostRuntime>,
    client: TcpStream,
    input: TcpSource<HostRuntime>,
    output: TcpSink<HostRuntime>,
}

/// A connection at one of two doors.
fn loopback(rt: HostRuntime) -> Option<Connected> {
    let mut doors = TcpDoors::with_limits(rt, SHORT);
    let mut opened = doors.open(rt.alloc(), "127.0.0.1:0", 2).ok()?;
    let mut door = opened.pop()?;
    let at = door.address()?;
    let client = TcpStream::connect(&rt, at).ok()?;
    let (input, output) = door.accept().ok()??;
    Some(Connected {
        door,
        client,
        input,
        output,
    })
}

#[test]
fn a_connection_is_read_answered_and_given_back(rt: HostRuntime) {
    let Connected {
        mut door,
        mut client,
        mut input,
        mut output,
    } = loopback(rt).expect(&rt, "a connection");
    client.write_all(b"ask").expect(&rt, "write");
    let mut bytes = [0; 8];
    assert!(rt; input.read(&mut bytes).ok() == Some(3));
    assert!(rt; output.write(b"answer").ok() == Some(6));
    assert!(rt; input.read(&mut bytes).is_err());
    door.finish(input, output);
    let mut told = [0; 16];
    assert!(rt; client.read(&mut told).ok() == Some(6));
    assert!(rt; client.read(&mut told).ok() == Some(0));
}

#[test]
fn a_peer_that_says_nothing(rt: HostRuntime) {
    let Connected {
        mut door,
        client: _client,
        mut input,
        output,
    } = loopback(rt).expect(&rt, "a connection");
    let mut bytes = [0; 8];
    assert!(rt; input.read(&mut bytes).is_err());
    door.finish(input, output);
}

#[test]
fn a_peer_that_stops_within_a_request(rt: HostRuntime) {
    let Connected {
        mut door,
        mut client,
        mut input,
        output,
    } = loopback(rt).expect(&rt, "a connection");
    client.write_all(b"GET").expect(&rt, "write");
    let mut bytes = [0; 8];
    assert!(rt; input.read(&mut bytes).ok() == Some(3));
    assert!(rt; input.read(&mut bytes).is_err());
    door.finish(input, output);
}

#[test]
fn a_peer_that_reads_nothing(rt: HostRuntime) {
    let Connected {
        mut door,
        client: _client,
        input,
        mut output,
    } = loopback(rt).expect(&rt, "a connection");
    let piece = [7; 65536];
    let mut failed = false;
    // (what the system itself takes ends some time)
    for _ in 0..1024 {
        if !failed {
            failed = output.write(&piece).is_err();
        }
    }
    assert!(rt; failed);
    door.finish(input, output);
}

#[test]
fn an_answer_arrives_before_input_that_nobody_reads(rt: HostRuntime) {
    let Connected {
        mut door,
        mut client,
        input,
        mut output,
    } = loopback(rt).expect(&rt, "a connection");
    let body = [7; 65536];
    client.write_all(&body).expect(&rt, "write");
    client.write_all(&body).expect(&rt, "write");
    assert!(rt; output.write(b"413").ok() == Some(3));
    door.finish(input, output);
    let mut told = [0; 16];
    assert!(rt; client.read(&mut told).ok() == Some(3));
}

/// A client is there, then with bytes that it sent ahead, which hide whether it left; and then it ends what it sends.
#[test]
fn a_client_that_left_is_seen(rt: HostRuntime) {
    let Connected {
        mut door,
        mut client,
        mut input,
        mut output,
    } = loopback(rt).expect(&rt, "a connection");
    assert!(rt; output.check().is_ok());
    client.write_all(b"ahead").expect(&rt, "write");
    assert!(rt; output.check().is_ok());
    let mut bytes = [0; 8];
    assert!(rt; input.read(&mut bytes).ok() == Some(5));
    assert!(rt; output.check().is_ok());
    client.shutdown(Shutdown::Write).expect(&rt, "end");
    assert!(rt; output.check().is_err());
    door.finish(input, output);
}

/// A look leaves the connection as it was: a read behind it waits for as long as before.
#[test]
fn a_read_behind_a_look_waits(rt: HostRuntime) {
    let Connected {
        mut door,
        client: _client,
        mut input,
        mut output,
    } = loopback(rt).expect(&rt, "a connection");
    assert!(rt; output.check().is_ok());
    let start = Instant::now(&rt).expect(&rt, "a clock");
    let mut bytes = [0; 8];
    assert!(rt; input.read(&mut bytes).is_err());
    let waited = start.elapsed(&rt).expect(&rt, "a clock").as_millis();
    assert!(rt; waited >= 100, "{waited}");
    door.finish(input, output);
}
