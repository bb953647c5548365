//! Policies over the small tailnet.
use policy_doc::read_policy;
use policy_rows::Policy;
use std::alloc::Global;
use tail_base::NoMemory;

/// Rules whose destinations are networks, of which a router's approved route serves some.
pub const ROUTER_RULES: &str = r#"{"acls":[
  {"action":"accept","src":["bob@"],"dst":["10.2.0.0/16:*"]},
  {"action":"accept","src":["bob@"],"dst":["10.1.0.0/16:22"]},
  {"action":"accept","src":["seed@"],"dst":["10.1.128.0/17:*"]}]}"#;

/// An exit node, and own devices.
pub const EXIT_RULES: &str = r#"{"tagOwners":{"tag:web":[]},"acls":[
  {"action":"accept","src":["tag:web"],"dst":["8.8.8.0/24:53"]},
  {"action":"accept","src":["seed@"],"dst":["autogroup:internet:*"]},
  {"action":"accept","src":["autogroup:member"],"dst":["autogroup:self:*"]}]}"#;

/// The policy that the text states; `-` is none.
pub fn stated_policy(alloc: Global, text: &str) -> Result<Option<Policy>, NoMemory> {
    if text == "-" {
        return Ok(None);
    }
    match read_policy(alloc, text.as_bytes()) {
        Ok(policy) => Ok(Some(policy)),
        Err(_) => Err(NoMemory),
    }
}
