//! One request of an operator.
ghost use Rattle.std.specs.Prelude.{◌≡◌};
ghost use Rattle.operator_requests.specs.Requests.{method_name};

use tail_base::{Bytes, Text};

/// The method of a request.
#[derive(Clone, Copy, Debug, PartialEq, Eq, Drop)]
pub enum AskMethod {
    Get,
    Post,
    Put,
    Delete,
}

impl AskMethod {
    /// The method as it stands in a request line.
    pub fn name(self) -> &'static str
        ensures value { result.now ≡ method_name self }
    {
        match self {
            AskMethod::Get => "GET",
            AskMethod::Post => "POST",
            AskMethod::Put => "PUT",
            AskMethod::Delete => "DELETE",
        }
    }
}

/// One request of an operator. Only POST and PUT have a body.
#[derive(Drop)]
pub struct OperatorRequest {
    pub method: AskMethod,
    pub path: Text,
    pub body: Option<Bytes>,
}
