//! Why a head is refused.
ghost use Rattle.std.specs.Prelude.{◌≡◌};
ghost use Rattle.http_front.specs.HeadFaults.{fault_name, fault_status};

use http::StatusCode;

/// Why a head is refused. Where its request ends isn't known then, so the connection ends with it.
#[derive(Clone, Copy, Debug, PartialEq, Eq, Drop)]
pub enum HeadFault {
    /// It is no head of HTTP/1.1 with one `Host`, or its length is no length (RFC 9110, section
    /// 15.5.1).
    BadHead,

    /// Its body has no length: there is none where one must be stated, or a transfer coding in its
    /// place (RFC 9110, section 15.5.12).
    NoLength,

    /// Its body is longer than a body may be (RFC 9110, section 15.5.14).
    BodyTooLong,

    /// It has too many bytes or too many field lines (RFC 6585, section 5).
    HeadTooLong,
}

impl HeadFault {
    /// The status that it is answered with.
    pub fn status(self) -> StatusCode
        ensures value { result ≡ fault_status self }
    {
        match self {
            HeadFault::BadHead => StatusCode::BAD_REQUEST,
            HeadFault::NoLength => StatusCode::LENGTH_REQUIRED,
            HeadFault::BodyTooLong => StatusCode::PAYLOAD_TOO_LARGE,
            HeadFault::HeadTooLong => StatusCode::REQUEST_HEADER_FIELDS_TOO_LARGE,
        }
    }

    /// The name that the body of its answer has.
    pub fn name(self) -> &'static str
        ensures value { result.now ≡ fault_name self }
    {
        match self {
            HeadFault::BadHead => "BadHead",
            HeadFault::NoLength => "NoLength",
            HeadFault::BodyTooLong => "BodyTooLong",
            HeadFault::HeadTooLong => "HeadTooLong",
        }
    }
}
