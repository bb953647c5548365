//! What is done by a method at a path.
ghost use Rattle.std.specs.Prelude.{◌≡◌};
ghost use Rattle.desk_front.specs.Actions.{action_of, if_method};
ghost use Rattle.desk_front.specs.declared.action.Action.{Action};

use http::Method;
use path_routes::Route;

/// What a machine does.
#[derive(Clone, Copy, Debug, PartialEq, Eq, Drop)]
pub enum MachineAction {
    Register,
    Map,
}

/// What an operator does.
#[derive(Clone, Copy, Debug, PartialEq, Eq, Drop)]
pub enum OperatorAction {
    Users,
    AddUser,
    DropUser,
    Keys,
    AddKey,
    ExpireKey,
    Nodes,
    DropNode,
    ExpireNode,
    Rename,
    SetTags,
    SetRoutes,
    Waiting,
    Admit,
    Policy,
    SavePolicy,
    Extras,
    SetExtras,
    Sweep,
}

/// What a request does, by its path and its method.
#[derive(Clone, Copy, Debug, PartialEq, Eq, Drop)]
pub enum Action {
    Machine(MachineAction),
    Operator(OperatorAction),
}

/// The action, if the method is that one.
fn if_method(method: &Method, name: &str, action: Action) -> Option<Action>
    ensures value { result ≡ if_method method.now name.now action }
{
    if method.as_str() == name {
        Some(action)
    } else {
        None
    }
}

fn if_machine(method: &Method, name: &str, action: MachineAction) -> Option<Action>
    ensures value { result ≡ if_method method.now name.now (Action.Machine action) }
{
    if_method(method, name, Action::Machine(action))
}

fn if_operator(method: &Method, name: &str, action: OperatorAction) -> Option<Action>
    ensures value { result ≡ if_method method.now name.now (Action.Operator action) }
{
    if_method(method, name, Action::Operator(action))
}

/// What a method does at a path; None if the path doesn't take it.
pub(crate) fn action_of(route: Route, method: &Method) -> Option<Action>
    ensures value { result ≡ action_of route method.now }
{
    match route {
        Route::Register => if_machine(method, "POST", MachineAction::Register),
        Route::Map => if_machine(method, "POST", MachineAction::Map),
        Route::Users => if_operator(method, "GET", OperatorAction::Users).or(if_operator(
            method,
            "POST",
            OperatorAction::AddUser,
        )),
        Route::User => if_operator(method, "DELETE", OperatorAction::DropUser),
        Route::Keys => if_operator(method, "GET", OperatorAction::Keys).or(if_operator(
            method,
            "POST",
            OperatorAction::AddKey,
        )),
        Route::Key => if_operator(method, "DELETE", OperatorAction::ExpireKey),
        Route::Nodes => if_operator(method, "GET", OperatorAction::Nodes),
        Route::Node => if_operator(method, "DELETE", OperatorAction::DropNode),
        Route::NodeExpire => if_operator(method, "POST", OperatorAction::ExpireNode),
        Route::NodeRename => if_operator(method, "POST", OperatorAction::Rename),
        Route::NodeTags => if_operator(method, "POST", OperatorAction::SetTags),
        Route::NodeRoutes => if_operator(method, "POST", OperatorAction::SetRoutes),
        Route::Waiting => if_operator(method, "GET", OperatorAction::Waiting).or(if_operator(
            method,
            "POST",
            OperatorAction::Admit,
        )),
        Route::Policy => if_operator(method, "GET", OperatorAction::Policy).or(if_operator(
            method,
            "PUT",
            OperatorAction::SavePolicy,
        )),
        Route::Dns => if_operator(method, "GET", OperatorAction::Extras).or(if_operator(
            method,
            "PUT",
            OperatorAction::SetExtras,
        )),
        Route::Sweep => if_operator(method, "POST", OperatorAction::Sweep),
    }
}
