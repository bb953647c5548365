//! The table of commands.
ghost use Rattle.std.specs.Prelude.{◌≡◌, map, option_map};
ghost use Rattle.command_words.specs.Table.{plain_line};
ghost use Rattle.command_words.specs.Words.{line_in, table_line};

use crate::argument::Argument;
use crate::argument::Argument::{
    Dest, Ephemeral, Events, Expiry, File, Id, List, Login, Machines, Name, Pending, Port, Proto,
    Reusable, Seed, Server, Settings, Source, Tags, Token,
};
use CommandKind::{Explain, Load, Operator, Pipe, PolicyCheck, Reach, Serve};
use OperatorKind::{
    DnsGet, DnsSet, KeyAdd, KeyExpire, KeyList, NodeDel, NodeExpire, NodeList, NodeRename,
    NodeRoutes, NodeTags, PendingAdmit, PendingList, PolicyGet, PolicySet, Sweep, UserAdd, UserDel,
    UserList,
};

/// What the line of a command leads to.
#[derive(Clone, Copy)]
pub enum CommandKind {
    Pipe,
    Serve,
    PolicyCheck,
    Load,
    Explain,
    Reach,
    Operator(OperatorKind),
}

/// What the line of an operator's command leads to.
#[derive(Clone, Copy)]
pub enum OperatorKind {
    UserList,
    UserAdd,
    UserDel,
    KeyList,
    KeyAdd,
    KeyExpire,
    NodeList,
    NodeDel,
    NodeExpire,
    NodeRename,
    NodeTags,
    NodeRoutes,
    PendingList,
    PendingAdmit,
    PolicyGet,
    PolicySet,
    DnsGet,
    DnsSet,
    Sweep,
}

/// Each command: its name, what it leads to, and its arguments, positional ones in their order.
pub const LINES: [(&str, CommandKind, &[Argument]); 25] = [
    ("pipe", Pipe, &[Settings, Seed]),
    ("serve", Serve, &[Settings]),
    ("policy-check", PolicyCheck, &[File]),
    ("load", Load, &[Machines, Events]),
    ("explain", Explain, &[Settings, Source, Dest, Proto, Port]),
    ("reach", Reach, &[Settings]),
    ("user-list", Operator(UserList), &[Server, Token]),
    ("user-add", Operator(UserAdd), &[Name, Server, Token]),
    ("user-del", Operator(UserDel), &[Login, Server, Token]),
    ("key-list", Operator(KeyList), &[Server, Token]),
    (
        "key-add",
        Operator(KeyAdd),
        &[Login, Reusable, Ephemeral, Expiry, Tags, Server, Token],
    ),
    ("key-expire", Operator(KeyExpire), &[Id, Server, Token]),
    ("node-list", Operator(NodeList), &[Server, Token]),
    ("node-del", Operator(NodeDel), &[Id, Server, Token]),
    ("node-expire", Operator(NodeExpire), &[Id, Server, Token]),
    (
        "node-rename",
        Operator(NodeRename),
        &[Id, Name, Server, Token],
    ),
    ("node-tags", Operator(NodeTags), &[Id, List, Server, Token]),
    (
        "node-routes",
        Operator(NodeRoutes),
        &[Id, List, Server, Token],
    ),
    ("pending-list", Operator(PendingList), &[Server, Token]),
    (
        "pending-admit",
        Operator(PendingAdmit),
        &[Pending, Login, Server, Token],
    ),
    ("policy-get", Operator(PolicyGet), &[Server, Token]),
    ("policy-set", Operator(PolicySet), &[File, Server, Token]),
    ("dns-get", Operator(DnsGet), &[Server, Token]),
    ("dns-set", Operator(DnsSet), &[File, Server, Token]),
    ("sweep", Operator(Sweep), &[Server, Token]),
];

/// The line of that name among these.
fn line_in(
    lines: &[(&'static str, CommandKind, &'static [Argument])],
    name: &str,
) -> Option<(&'static str, CommandKind, &'static [Argument])>
    ensures value { option_map plain_line result ≡ line_in (map plain_line lines.now) name.now }
{
    let mut rest = lines;
    while let [line, more @ ..] = rest {
        if line.0 == name {
            return Some(*line);
        }
        rest = more;
    }
    None
}

/// The line of a command's name.
pub(crate) fn table_line(name: &str) -> Option<(&'static str, CommandKind, &'static [Argument])>
    ensures value { option_map plain_line result ≡ table_line name.now }
{
    line_in(&LINES, name)
}
