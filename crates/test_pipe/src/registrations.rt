//! Registrations and other requests, byte for byte.
use exit_status::Status;
use harness_pipe::{CALM, SETTINGS, piped};
use std::alloc::Global;
use std::test::Fail;
use tail_base::NoMemory;

pub(crate) const REGISTERED: &[u8] =
    b"HTTP/1.1 200 OK\r\nContent-Type: application/json\r\nContent-Length: 147\r\n\r\n{\"AuthURL\":\"\",\"Error\":\"\",\"Login\":{\"ID\":1,\"LoginName\":\"seed@\"},\"MachineAuthorized\":true,\"NodeKeyExpired\":false,\"User\":{\"DisplayName\":\"seed\",\"ID\":1}}";

pub(crate) const FIRST: &[u8] =
    b"POST /machine/register HTTP/1.1\r\nHost: tail\r\nTs-Machine-Key: mkey:1111111111111111111111111111111111111111111111111111111111111111\r\nContent-Length: 110\r\n\r\n{\"Auth\":{\"AuthKey\":\"k1\"},\"NodeKey\":\"nodekey:aaaaaaaaaaaaaaaaaaaaaaaaaaaaaaaaaaaaaaaaaaaaaaaaaaaaaaaaaaaaaaaa\"}";

const UNKNOWN_KEY: &[u8] =
    b"POST /machine/register HTTP/1.1\r\nHost: tail\r\nTs-Machine-Key: mkey:1111111111111111111111111111111111111111111111111111111111111111\r\nContent-Length: 110\r\n\r\n{\"Auth\":{\"AuthKey\":\"zz\"},\"NodeKey\":\"nodekey:aaaaaaaaaaaaaaaaaaaaaaaaaaaaaaaaaaaaaaaaaaaaaaaaaaaaaaaaaaaaaaaa\"}";

const KEY_UNKNOWN: &[u8] =
    b"HTTP/1.1 401 Unauthorized\r\nContent-Type: application/json\r\nContent-Length: 22\r\n\r\n{\"error\":\"KeyUnknown\"}";

pub(crate) const REGISTERED_TWICE: &[u8] =
    b"HTTP/1.1 200 OK\r\nContent-Type: application/json\r\nContent-Length: 147\r\n\r\n{\"AuthURL\":\"\",\"Error\":\"\",\"Login\":{\"ID\":1,\"LoginName\":\"seed@\"},\"MachineAuthorized\":true,\"NodeKeyExpired\":false,\"User\":{\"DisplayName\":\"seed\",\"ID\":1}}HTTP/1.1 200 OK\r\nContent-Type: application/json\r\nContent-Length: 147\r\n\r\n{\"AuthURL\":\"\",\"Error\":\"\",\"Login\":{\"ID\":1,\"LoginName\":\"seed@\"},\"MachineAuthorized\":true,\"NodeKeyExpired\":false,\"User\":{\"DisplayName\":\"seed\",\"ID\":1}}";

pub(crate) const TWICE: &[u8] =
    b"POST /machine/register HTTP/1.1\r\nHost: tail\r\nTs-Machine-Key: mkey:1111111111111111111111111111111111111111111111111111111111111111\r\nContent-Length: 110\r\n\r\n{\"Auth\":{\"AuthKey\":\"k1\"},\"NodeKey\":\"nodekey:aaaaaaaaaaaaaaaaaaaaaaaaaaaaaaaaaaaaaaaaaaaaaaaaaaaaaaaaaaaaaaaa\"}POST /machine/register HTTP/1.1\r\nHost: tail\r\nTs-Machine-Key: mkey:1111111111111111111111111111111111111111111111111111111111111111\r\nContent-Length: 110\r\n\r\n{\"Auth\":{\"AuthKey\":\"k1\"},\"NodeKey\":\"nodekey:aaaaaaaaaaaaaaaaaaaaaaaaaaaaaaaaaaaaaaaaaaaaaaaaaaaaaaaaaaaaaaaa\"}";

const THEN_TAKEN: &[u8] =
    b"POST /machine/register HTTP/1.1\r\nHost: tail\r\nTs-Machine-Key: mkey:1111111111111111111111111111111111111111111111111111111111111111\r\nContent-Length: 110\r\n\r\n{\"Auth\":{\"AuthKey\":\"k1\"},\"NodeKey\":\"nodekey:aaaaaaaaaaaaaaaaaaaaaaaaaaaaaaaaaaaaaaaaaaaaaaaaaaaaaaaaaaaaaaaa\"}POST /machine/register HTTP/1.1\r\nHost: tail\r\nTs-Machine-Key: mkey:2222222222222222222222222222222222222222222222222222222222222222\r\nContent-Length: 110\r\n\r\n{\"Auth\":{\"AuthKey\":\"k1\"},\"NodeKey\":\"nodekey:aaaaaaaaaaaaaaaaaaaaaaaaaaaaaaaaaaaaaaaaaaaaaaaaaaaaaaaaaaaaaaaa\"}";

const REGISTERED_THEN_TAKEN: &[u8] =
    b"HTTP/1.1 200 OK\r\nContent-Type: application/json\r\nContent-Length: 147\r\n\r\n{\"AuthURL\":\"\",\"Error\":\"\",\"Login\":{\"ID\":1,\"LoginName\":\"seed@\"},\"MachineAuthorized\":true,\"NodeKeyExpired\":false,\"User\":{\"DisplayName\":\"seed\",\"ID\":1}}HTTP/1.1 409 Conflict\r\nContent-Type: application/json\r\nContent-Length: 24\r\n\r\n{\"error\":\"NodeKeyTaken\"}";

const CUT: &[u8] =
    b"POST /machine/register HTTP/1.1\r\nHost: x\r\nContent-Length: 100\r\n\r\nxxxxxxxxxxxxxxxxxxxxxxxxxxxxxxxxxxxxxxxx";

const NO_PATH: &[u8] =
    b"HTTP/1.1 404 Not Found\r\nContent-Type: application/json\r\nContent-Length: 18\r\n\r\n{\"error\":\"NoPath\"}";

const BAD_HEAD: &[u8] =
    b"HTTP/1.1 400 Bad Request\r\nContent-Type: application/json\r\nContent-Length: 19\r\nConnection: close\r\n\r\n{\"error\":\"BadHead\"}";

/// An input, the status of the run over it, its output, and how many machines there are then.
const ROWS: [(&[u8], Status, &[u8], usize); 8] = [
    (b"", Status::Ok, b"", 0),
    (FIRST, Status::Ok, REGISTERED, 1),
    (TWICE, Status::Ok, REGISTERED_TWICE, 1),
    (THEN_TAKEN, Status::Ok, REGISTERED_THEN_TAKEN, 1),
    (UNKNOWN_KEY, Status::Ok, KEY_UNKNOWN, 0),
    (CUT, Status::Early, b"", 0),
    (
        b"GET /x HTTP/1.1\r\nHost: x\r\n\r\n",
        Status::Ok,
        NO_PATH,
        0,
    ),
    (b"x\r\n\r\n", Status::Early, BAD_HEAD, 0),
];

/// Whether a run over the input results in this.
fn comes_to(
    alloc: Global,
    input: &[u8],
    status: Status,
    output: &[u8],
    machines: usize,
) -> Result<bool, NoMemory> {
    let line = if status == Status::Ok {
        b"".as_slice()
    } else {
        b"tailnetd: closed early\n".as_slice()
    };
    let ran = piped(alloc, SETTINGS, input, &CALM)?;
    Ok(
        ran.status == status
            && ran.output.bytes() == output
            && ran.errors.bytes() == line
            && ran.machines == machines,
    )
}

#[test]
fn rows_of_registrations(rt: HostRuntime) -> Result<(), Fail> {
    for (row, (input, status, output, machines)) in ROWS.iter().enumerate() {
        assert!(rt;
            comes_to(rt.alloc(), input, *status, output, *machines)?,
            "row {row}"
        );
    }
    Ok(())
}
