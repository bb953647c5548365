//! Copies of responses.
ghost use Rattle.std.specs.Prelude.{◌≡◌, IfOk, OnOk};
ghost use Rattle.frame_shelf.specs.Copies.{net_added, own_added, peers_added};

use std::alloc::Global;
use tail_base::{Duplicate, NoMemory};
use tailcfg::Response;

/// Copies what a response tells of the session and of the machine itself.
fn copy_own(alloc: Global, made: &mut Response, response: &Response) -> Result<(), NoMemory>
    ensures ok { OnOk result (made.new ≡ own_added made.old response.now) }
{
    made.handle = response.handle.copy(alloc)?;
    made.node = response.node.copy(alloc)?;
    made.domain = response.domain.copy(alloc)?;
    Ok(())
}

/// Copies what a response tells of the tailnet.
fn copy_net(alloc: Global, made: &mut Response, response: &Response) -> Result<(), NoMemory>
    ensures ok { OnOk result (made.new ≡ net_added made.old response.now) }
{
    made.filter = response.filter.copy(alloc)?;
    made.dns = response.dns.copy(alloc)?;
    made.profiles = response.profiles.copy(alloc)?;
    Ok(())
}

/// Copies what a response tells of peers.
fn copy_peers(alloc: Global, made: &mut Response, response: &Response) -> Result<(), NoMemory>
    ensures ok { OnOk result (made.new ≡ peers_added made.old response.now) }
{
    made.peers = response.peers.copy(alloc)?;
    made.changed = response.changed.copy(alloc)?;
    made.removed = response.removed.copy(alloc)?;
    made.patches = response.patches.copy(alloc)?;
    Ok(())
}

/// Copies all but the number.
fn copy_parts(alloc: Global, made: &mut Response, response: &Response) -> Result<(), NoMemory>
    ensures ok { OnOk result (made.new
        ≡ peers_added (net_added (own_added made.old response.now) response.now) response.now) }
{
    copy_own(alloc, made, response)?;
    copy_net(alloc, made, response)?;
    copy_peers(alloc, made, response)
}

/// An equal response of its own.
pub(crate) fn copy_of(alloc: Global, response: &Response) -> Result<Response, NoMemory>
    ensures value { IfOk result (λ made. made ≡ response.now) }
{
    let mut made = Response::new(alloc, response.seq);
    copy_parts(alloc, &mut made, response)?;
    Ok(made)
}
