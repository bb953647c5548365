//! What the program is asked to do.
use crate::asked_flow::AskedFlow;
use tail_base::Text;

/// What the program is asked to do.
#[derive(Drop)]
pub enum Invocation {
    /// To serve requests on the source and answer on the sink, with the settings of a file, and a
    /// pre-auth key that the tailnet begins with.
    Pipe { settings: Text, seed: Option<Text> },
    /// To serve the connections that come at the address in this settings file.
    Serve { settings: Text },
    /// To check the policy in this file.
    PolicyCheck { file: Text },
    /// To run the requests of 1 to 1024 machines and up to 100000 events through the program.
    Load { machines: u32, events: u32 },
    /// To say by which rule of the policy a flow is granted, over what the database of this settings file
    /// keeps.
    Explain { settings: Text, flow: AskedFlow },
    /// To list which machine reaches which by which rule, over what the database of this settings file keeps.
    Reach { settings: Text },
    /// To send one request to a server.
    Operator(OperatorCall),
}

/// A request of an operator, and the server that it is for.
#[derive(Drop)]
pub struct OperatorCall {
    /// The server's address.
    pub server: Text,
    /// The operator's token.
    pub token: Text,
    pub command: OperatorCommand,
}

/// What an operator asks of a server. Ids are 1 to 2147483647; a list is the text that was given.
#[derive(Drop)]
pub enum OperatorCommand {
    UserList,
    UserAdd {
        name: Text,
    },
    UserDel {
        login: Text,
    },
    KeyList,
    KeyAdd {
        login: Text,
        reusable: bool,
        ephemeral: bool,
        expiry: Option<Text>,
        tags: Option<Text>,
    },
    KeyExpire {
        id: u32,
    },
    NodeList,
    NodeDel {
        id: u32,
    },
    NodeExpire {
        id: u32,
    },
    NodeRename {
        id: u32,
        name: Text,
    },
    NodeTags {
        id: u32,
        list: Text,
    },
    NodeRoutes {
        id: u32,
        list: Text,
    },
    PendingList,
    PendingAdmit {
        pending: Text,
        login: Text,
    },
    PolicyGet,
    PolicySet {
        file: Text,
    },
    DnsGet,
    DnsSet {
        file: Text,
    },
    Sweep,
}
