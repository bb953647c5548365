//! The operator's commands over the top call.
use crate::outside::{Outside, new_outside, status_of};
use std::alloc::Global;
use std::sync::Wait;
use std::test::Fail;
use std::thread::Threads;

/// The words of a run, the call of the link that fails (0 is none), and what the run leaves: the number
/// of its status, what is on the output and on errors, and, where it is looked at, what the link was
/// written.
#[derive(Clone, Copy)]
struct Row<'a> {
    words: &'a str,
    call: u32,
    number: u8,
    output: &'a [u8],
    errors: &'a [u8],
    written: Option<&'a [u8]>,
}

const NODES: &str = "node-list --server s --token secret";

/// The bytes of `node-list --server s --token secret`.
const NODES_ASKED: &[u8] =
    b"GET /api/v1/node HTTP/1.1\r\nHost: tailnetd\r\nAuthorization: Bearer secret\r\nConnection: close\r\n\r\n";

const NO_NODES: &[u8] = b"HTTP/1.1 200 OK\r\nContent-Length: 12\r\n\r\n{\"nodes\":[]}";

const READ_FAULT: &[u8] = b"tailnetd: read fault\n";

const WRITE_FAULT: &[u8] = b"tailnetd: write fault\n";

/// The bytes that the link gives, and what comes of them. An answer is written on the output, and a
/// refusal on errors; an id of 0 is no command; of an answer that is cut nothing is written.
const ROWS: [(&[u8], Row<'static>); 4] = [
    (
        NO_NODES,
        Row {
            words: NODES,
            call: 0,
            number: 0,
            output: b"{\"nodes\":[]}\n",
            errors: b"",
            written: Some(NODES_ASKED),
        },
    ),
    (
        b"HTTP/1.1 401 Unauthorized\r\nContent-Length: 13\r\n\r\n{\"error\":\"x\"}",
        Row {
            words: NODES,
            call: 0,
            number: 10,
            output: b"",
            errors: b"{\"error\":\"x\"}\n",
            written: Some(NODES_ASKED),
        },
    ),
    (
        NO_NODES,
        Row {
            words: "node-del 0 --server s --token t",
            call: 0,
            number: 2,
            output: b"",
            errors: b"tailnetd: usage\n",
            written: Some(b""),
        },
    ),
    (
        b"HTTP/1.1 200 OK\r\nContent-Length: 12\r\n\r\n{\"nod",
        Row {
            words: NODES,
            call: 0,
            number: 4,
            output: b"",
            errors: READ_FAULT,
            written: None,
        },
    ),
];

fn words_of(alloc: Global, line: &str) -> Result<Vec<String>, Fail> {
    let mut words = Vec::new(alloc);
    for word in line.split(" ") {
        words.push(String::from_str(alloc, word)?)?;
    }
    Ok(words)
}

/// Whether the link was written this, if it is looked at, and asked once if it was written anything.
fn is_written(given: &Outside, written: Option<&[u8]>) -> bool {
    match written {
        Some(written) => {
            let asked = given.link.asked().len();
            given.link.written() == written && asked == usize::from(!written.is_empty())
        }
        None => true,
    }
}

/// Whether a run of these words leaves what the row has.
fn is_left<R: Threads + Wait + Sync>(
    rt: &R,
    alloc: Global,
    words: &[String],
    given: &mut Outside,
    row: &Row<'_>,
) -> bool {
    let number = status_of(rt, alloc, words, given).number();
    number == row.number
        && given.output.bytes() == row.output
        && given.errors.bytes() == row.errors
        && is_written(given, row.written)
}

/// Whether a run over a link that gives these bytes results in what the row has.
fn runs_so<R: Threads + Wait + Sync>(
    rt: &R,
    alloc: Global,
    answer: &[u8],
    row: &Row<'_>,
) -> Result<bool, Fail> {
    let words = words_of(alloc, row.words)?;
    let mut given = new_outside(alloc, answer, row.call)?;
    Ok(is_left(rt, alloc, &words, &mut given, row))
}

#[test]
fn commands_come_to_this(rt: HostRuntime) -> Result<(), Fail> {
    for (answer, row) in ROWS {
        assert!(rt; runs_so(&rt, rt.alloc(), answer, &row)?, "{}", row.words);
    }
    Ok(())
}

/// An answer of two pieces of input, whose body is zeros.
fn long_answer(alloc: Global) -> Result<Vec<u8>, Fail> {
    let mut answer = Vec::from_slice(alloc, b"HTTP/1.1 200 OK\r\nContent-Length: 5000\r\n\r\n")?;
    for _ in 0..5000 {
        answer.push(b'0')?;
    }
    Ok(answer)
}

/// It connects, writes once and reads twice: the call of the link that fails, the number of the status
/// and what is on errors.
const FAULTS: [(u32, u8, &[u8]); 4] = [
    (1, 4, READ_FAULT),
    (2, 5, WRITE_FAULT),
    (3, 4, READ_FAULT),
    (4, 4, READ_FAULT),
];

/// Whether a run results in such a fault.
fn fails_so<R: Threads + Wait + Sync>(
    rt: &R,
    alloc: Global,
    call: u32,
    number: u8,
    errors: &'static [u8],
) -> Result<bool, Fail> {
    let answer = long_answer(alloc)?;
    let row = Row {
        words: NODES,
        call,
        number,
        output: b"",
        errors,
        written: None,
    };
    runs_so(rt, alloc, &answer, &row)
}

/// How many bytes a run writes whose fifth call would fail.
fn written_by_four_calls<R: Threads + Wait + Sync>(rt: &R, alloc: Global) -> Result<usize, Fail> {
    let answer = long_answer(alloc)?;
    let words = words_of(alloc, NODES)?;
    let mut given = new_outside(alloc, &answer, 5)?;
    let number = status_of(rt, alloc, &words, &mut given).number();
    let count = given.output.bytes().len();
    Ok(if number == 0 { count } else { 0 })
}

#[test]
fn each_call_of_the_link_fails_in_turn(rt: HostRuntime) -> Result<(), Fail> {
    for (call, number, errors) in FAULTS {
        assert!(rt;
            fails_so(&rt, rt.alloc(), call, number, errors)?,
            "call {call}"
        );
    }
    assert!(rt; written_by_four_calls(&rt, rt.alloc())? == 5001);
    Ok(())
}
