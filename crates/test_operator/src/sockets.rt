//! A link over a loopback socket, in one thread.
use io_edge::{EdgeFault, Link, Sink, Source};
use std::io::{Read, Write};
use std::net::TcpListener;
use std::test::Fail;
use tcp_edge::TcpLink;

#[test]
fn a_link_is_connected_written_and_read(rt: HostRuntime) -> Result<(), Fail> {
    let alloc = rt.alloc();
    let listener = TcpListener::bind(&rt, "127.0.0.1:0")?;
    let port = listener.local_addr()?.port();
    let address = format!(in alloc; "127.0.0.1:{port}")?;
    let mut link = TcpLink::new(rt);
    let mut bytes = [0; 8];
    assert!(rt; link.write(b"early").is_err());
    assert!(rt; link.read(&mut bytes).is_err());
    assert!(rt; link.connect(alloc, address.as_str()).is_ok());
    let (mut stream, _) = listener.accept()?;
    assert!(rt; link.write(b"ask").ok() == Some(3));
    assert!(rt; stream.read(&mut bytes).ok() == Some(3));
    assert!(rt; stream.write(b"answer").ok() == Some(6));
    drop(stream);
    assert!(rt; link.read(&mut bytes).ok() == Some(6));
    assert!(rt; link.read(&mut bytes).ok() == Some(0));
    Ok(())
}

#[test]
fn nobody_listens_at_a_port(rt: HostRuntime) -> Result<(), Fail> {
    let alloc = rt.alloc();
    // The system gave this port a moment ago.
    let listener = TcpListener::bind(&rt, "127.0.0.1:0")?;
    let port = listener.local_addr()?.port();
    drop(listener);
    let address = format!(in alloc; "127.0.0.1:{port}")?;
    let mut link = TcpLink::new(rt);
    let failed = matches!(
        link.connect(alloc, address.as_str()),
        Err(EdgeFault::Failed)
    );
    assert!(rt; failed);
    Ok(())
}
