//! The codes of a policy's faults.
ghost use Rattle.std.specs.Prelude.{◌≡◌};
ghost use Rattle.policy_rows.specs.Faults.{number_of_code};

/// What is wrong with a policy. A fault is shown as `P` and the number of its code.
#[derive(Clone, Copy, Debug, PartialEq, Eq)]
pub enum PolicyCode {
    /// The text is no HuJSON.
    Syntax = 1,
    /// The top isn't an object.
    NotObject,
    /// A key that isn't known, or that stands for one that was there before.
    UnknownKey,
    /// A part of the policy file that isn't supported.
    Unsupported,
    /// An object, a list or a text was due and isn't there.
    WrongShape,
    /// A group's key or a member of a group is ill-formed.
    BadGroup,
    /// A host's key or value is ill-formed.
    BadHost,
    /// A tag or an owner of a tag is ill-formed.
    BadTag,
    /// The action isn't `accept`.
    BadAction,
    /// The protocol is none.
    BadProto,
    /// The selector has no form that may stand there.
    BadSelector,
    /// A group without an entry.
    UnknownGroup,
    /// A tag without an entry.
    UnknownTag,
    /// A host without an entry.
    UnknownHost,
    /// A selector that only stands for destinations.
    NotASource,
    /// A destination without ports, or with ill-formed ones.
    BadPorts,
    /// Ports for a protocol that has none.
    PortsForProto,
    /// A route is no prefix, or stands twice.
    BadRoute,
    /// Something is longer than its limit.
    TooMany,
    /// A test's subject or destination is ill-formed.
    BadTest,
    /// A test fails. No text has this fault alone: it depends on the tailnet.
    TestFailed,
}

impl PolicyCode {
    /// The number of the code.
    pub fn number(self) -> u8
        ensures value { result ≡ number_of_code self }
    {
        self as u8
    }
}
