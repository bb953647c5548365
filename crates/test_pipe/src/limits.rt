//! As many rows of a kind as there may be, and then one more.
use harness_pipe::{CALM, SETTINGS, piped};
use std::alloc::Global;
use std::test::Fail;
use tail_base::NoMemory;

/// What makes rows of a kind.
#[derive(Clone, Copy, Drop)]
enum Filling {
    Users,
    Keys,
    Machines,
    Pending,
}

/// The request that makes the row of a number.
fn request(alloc: Global, filling: Filling, number: u32) -> Result<String, NoMemory> {
    let operator = "Host: tail\r\nAuthorization: Bearer secret\r\n";
    let machine = "POST /machine/register HTTP/1.1\r\nHost: tail\r\nTs-Machine-Key: mkey:";
    let text = match filling {
        Filling::Users => {
            format!(in alloc;
                "POST /api/v1/user HTTP/1.1\r\n{operator}Content-Length: 18\r\n\r\n{{\"name\":\"u{number:06}\"}}"
            )?
        }
        Filling::Keys => {
            format!(in alloc;
                "POST /api/v1/preauthkey HTTP/1.1\r\n{operator}Content-Length: 16\r\n\r\n{{\"user\":\"seed@\"}}"
            )?
        }
        Filling::Machines => {
            format!(in alloc;
                "{machine}1{number:063}\r\nContent-Length: 110\r\n\r\n{{\"Auth\":{{\"AuthKey\":\"k1\"}},\"NodeKey\":\"nodekey:1{number:063}\"}}"
            )?
        }
        Filling::Pending => {
            format!(in alloc;
                "{machine}1{number:063}\r\nContent-Length: 86\r\n\r\n{{\"NodeKey\":\"nodekey:1{number:063}\"}}"
            )?
        }
    };
    Ok(text)
}

/// How many rows may be made beside the seed's, and how one more is refused.
fn limit(filling: Filling) -> (u32, &'static [u8]) {
    match filling {
        Filling::Users => (255, b"{\"error\":\"Full\",\"what\":\"User\"}"),
        Filling::Keys => (1023, b"{\"error\":\"Full\",\"what\":\"Key\"}"),
        Filling::Machines => (1024, b"{\"error\":\"Full\",\"what\":\"Machine\"}"),
        Filling::Pending => (256, b"{\"error\":\"Full\",\"what\":\"Pending\"}"),
    }
}

/// One request more than there is room for.
fn requests(alloc: Global, filling: Filling, rows: u32) -> Result<Vec<u8>, NoMemory> {
    let mut input = Vec::new(alloc);
    for number in 0..=rows {
        input.extend_from_slice(request(alloc, filling, number)?.as_bytes())?;
    }
    Ok(input)
}

/// How many answers have status 200.
fn served(output: &[u8]) -> u32 {
    let mut served = 0u32;
    if let Ok(text) = std::str::from_utf8(output) {
        for _answer in text.matches("HTTP/1.1 200 OK") {
            served = served.saturating_add(1);
        }
    }
    served
}

/// Whether all requests are served where one more is sent than there is room for, but the last one, which is
/// refused for want of room.
fn is_filled(alloc: Global, filling: Filling) -> Result<bool, NoMemory> {
    let (rows, refusal) = limit(filling);
    let input = requests(alloc, filling, rows)?;
    let ran = piped(alloc, SETTINGS, &input, &CALM)?;
    let output = ran.output.bytes();
    Ok(served(output) == rows && output.ends_with(refusal))
}

#[test]
fn one_row_more_than_there_may_be(rt: HostRuntime) -> Result<(), Fail> {
    for filling in [
        Filling::Users,
        Filling::Keys,
        Filling::Machines,
        Filling::Pending,
    ] {
        assert!(rt; is_filled(rt.alloc(), filling)?);
    }
    Ok(())
}
