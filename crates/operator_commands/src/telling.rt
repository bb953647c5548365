//! An answer that is told.
ghost use Rattle.std.specs.Prelude.{◌≡◌, is_err};
ghost use Rattle.exit_status.specs.Pieces.{Wrote};
ghost use Rattle.operator_commands.specs.Operated.{IsTold, is_success, sink_point, told_line};

use exit_status::{Status, write_all};
use http_client::ServerAnswer;
use io_edge::{Failed, Sink};

/// Whether a status is 2xx.
fn is_success(status: u16) -> bool
    ensures value { result ≡ is_success status }
{
    200 <= status && status <= 299
}

/// Writes the body and a line feed, or a front of them where a write failed.
fn write_line<O: Sink>(sink: &mut O, body: &[u8]) -> Result<(), Failed>
    ensures wrote { Wrote (O.holds sink.old) (O.holds sink.new) (O.write_faults sink.old)
        (O.write_faults sink.new) (told_line body.now) (is_err result) }
{
    write_all(sink, body)?;
    write_all(sink, b"\n")
}

/// Writes an answer's body and a line feed, on the output where its status is 2xx, else on errors.
pub(crate) fn tell<O: Sink, E: Sink>(
    output: &mut O,
    errors: &mut E,
    answer: &ServerAnswer,
) -> Status
    ensures told { let out = sink_point O.holds O.write_faults in
        let err = sink_point E.holds E.write_faults in
        IsTold answer.now result (out output.old) (out output.new)
        (err errors.old) (err errors.new) }
{
    let body = answer.body.as_slice();
    if is_success(answer.status) {
        return match write_line(output, body) {
            Ok(()) => Status::Ok,
            Err(_) => Status::WriteFault,
        };
    }
    match write_line(errors, body) {
        Ok(()) => Status::Refused,
        Err(_) => Status::WriteFault,
    }
}
