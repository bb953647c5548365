//! By which rules each machine sends, and by which something that it serves is let in.
use policy_eval::{Expanded, SiteFlags};
use std::alloc::Global;
use tail_base::NoMemory;

fn add_flags(out: &mut String, flags: &[bool]) -> Result<(), NoMemory> {
    for flag in flags {
        out.push_str(if *flag { "1" } else { "0" })?;
    }
    Ok(())
}

fn add_site_flags(
    alloc: Global,
    out: &mut String,
    id: u32,
    flags: &SiteFlags,
) -> Result<(), NoMemory> {
    let head = format!(in alloc; " {id}:")?;
    out.push_str(head.as_str())?;
    add_flags(out, flags.sends.as_slice())?;
    out.push_str(",")?;
    add_flags(out, flags.takes.as_slice())
}

/// The flags of each live machine.
pub fn flags_of_all(alloc: Global, x: &Expanded) -> Result<String, NoMemory> {
    let mut out = String::new(alloc);
    for site in x.sites() {
        let flags = x.flags_of(alloc, site)?;
        add_site_flags(alloc, &mut out, site.id, &flags)?;
    }
    Ok(out)
}
