//! The bytes of a command's request.
ghost use Rattle.std.specs.Prelude.{◌≡◌, IfOk};
ghost use Rattle.operator_commands.specs.Exchange.{call_bytes};

use command_words::OperatorCall;
use http_client::ask_bytes;
use operator_requests::operator_request;
use std::alloc::Global;
use tail_base::{Bytes, NoMemory};

/// The bytes of a command's request, with those of its file, if it has one.
#[tactic(auto, unfolding(crate::specs::Exchange::call_bytes))]
pub(crate) fn call_bytes(
    alloc: Global,
    call: &OperatorCall,
    file: &[u8],
) -> Result<Vec<u8>, NoMemory>
    ensures value { IfOk result (λ made. made.items ≡ call_bytes call.now file.now) }
{
    let request = operator_request(alloc, &call.command, file)?;
    let body = match &request.body {
        Some(body) => Some(body.as_slice()),
        None => None,
    };
    ask_bytes(
        alloc,
        request.method.name(),
        request.path.as_str(),
        call.token.as_slice(),
        body,
    )
}
