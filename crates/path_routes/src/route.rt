//! Routes.

/// What a path leads to, whatever the method. The paths stand in `PATHS`.
#[derive(Clone, Copy, Debug, PartialEq, Eq, Drop)]
pub enum Route {
    Register,
    Map,
    Users,
    User,
    Keys,
    Key,
    Nodes,
    Node,
    NodeExpire,
    NodeRename,
    NodeTags,
    NodeRoutes,
    Waiting,
    Policy,
    Dns,
    Sweep,
}
