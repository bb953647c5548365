//! An operator's command.
ghost use Rattle.std.specs.Prelude.{◌≡◌};
ghost use Rattle.io_edge.specs.Linked.{link_told};
ghost use Rattle.operator_commands.specs.Operated.{ServerAsked, Operated, command_line, operator_point};

use crate::asking::call_bytes;
use crate::exchanging::exchange;
use crate::filing::file_bytes;
use crate::telling::tell;
use crate::unanswered::Unanswered;
use command_words::OperatorCall;
use exit_status::{Status, note_line};
use http_client::ServerAnswer;
use io_edge::{Files, Link, Sink};
use operator_requests::file_of;
use std::alloc::Global;

/// Reads the file that the command sends, if it sends one, and then asks the server.
fn ask_server<F: Files, L: Link>(
    alloc: Global,
    call: &OperatorCall,
    files: &mut F,
    link: &mut L,
) -> Result<ServerAnswer, Unanswered>
    ensures asked { let at = link_told L.left L.read_faults L.holds L.write_faults L.asked in
        ServerAsked call.now (F.holds files.old) (F.faults files.old) (F.faults files.new)
        (at link.old) (at link.new) result }
{
    let file = file_bytes(alloc, files, file_of(&call.command))?;
    let Ok(bytes) = call_bytes(alloc, call, file.as_slice()) else {
        return Err(Unanswered::NoMemory);
    };
    exchange(alloc, link, call.server.as_str(), &bytes)
}

/// The line of a status on errors.
fn command_line(status: Status) -> &'static str
    ensures value { result.now ≡ command_line status }
{
    match status {
        Status::WriteFault => "tailnetd: write fault\n",
        Status::Settings => "tailnetd: file too large\n",
        Status::ReadFault => "tailnetd: read fault\n",
        Status::NoMemory => "tailnetd: no memory\n",
        Status::Ok
        | Status::Early
        | Status::Usage
        | Status::KeeperFault
        | Status::Damaged
        | Status::DoorFault
        | Status::Refused
        | Status::EntropyFault => "",
    }
}

/// Sends the request of an operator's command to its server, and writes the answer's body and a line
/// feed: on the output where its status is 2xx, else on errors. The line of any other end goes to
/// errors.
// Not inlined, so that the stack of a smaller command has no room for this one.
#[inline(never)]
pub fn operator_command<O: Sink, E: Sink, F: Files, L: Link>(
    alloc: Global,
    call: &OperatorCall,
    output: &mut O,
    errors: &mut E,
    files: &mut F,
    link: &mut L,
) -> Status
    ensures operated { let at = operator_point F.holds F.faults O.holds O.write_faults
        E.holds E.write_faults L.left L.read_faults L.holds L.write_faults L.asked in
        Operated call.now result (at files.old output.old errors.old link.old)
        (at files.new output.new errors.new link.new) }
{
    let status = match ask_server(alloc, call, files, link) {
        Ok(answer) => tell(output, errors, &answer),
        Err(fault) => fault.status(),
    };
    note_line(errors, command_line(status));
    status
}
