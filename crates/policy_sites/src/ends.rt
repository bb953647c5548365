//! Which end an address is.
ghost use Rattle.std.specs.Prelude.{◌≡◌, IfOk};
ghost use Rattle.std.specs.Option.{option_copied};
ghost use Rattle.std.specs.List.{find};
ghost use Rattle.policy_sites.specs.Ends.{end_at, holder_of};
ghost use Rattle.policy_sites.specs.Sites.{site_has};

use crate::end::{End, Holder};
use crate::site::Site;
use net_addr::Addr;
use std::alloc::Global;
use tail_base::{Duplicate, NoMemory};

/// Who holds the site's addresses.
pub fn holder_of(alloc: Global, site: &Site) -> Result<Holder, NoMemory>
    ensures value { IfOk result (λ holder. holder ≡ holder_of site.now) }
{
    let login = site.login.copy(alloc)?;
    let tags = site.tags.copy(alloc)?;
    Ok(Holder {
        user: site.user,
        login,
        tags,
    })
}

fn site_has(site: &Site, addr: &Addr) -> bool
    ensures value { result ≡ site_has addr.now site.now }
{
    site.v4 == *addr || site.v6 == *addr
}

/// The machine that has the address.
fn site_at<'a>(sites: &'a [Site], addr: &Addr) -> Option<&'a Site>
    ensures value { option_copied result ≡ find (site_has addr.now) sites.now }
{
    sites.iter().find(|site| site_has(site, addr))
}

/// The end that the address is: held, where one of the sites has it.
pub fn end_at(alloc: Global, sites: &[Site], addr: Addr) -> Result<End, NoMemory>
    ensures value { IfOk result (λ end. end ≡ end_at sites.now addr) }
{
    match site_at(sites, &addr) {
        Some(site) => {
            let holder = holder_of(alloc, site)?;
            Ok(End {
                addr: Some(addr),
                holder: Some(holder),
            })
        }
        None => Ok(End {
            addr: Some(addr),
            holder: None,
        }),
    }
}
