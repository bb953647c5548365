//! The texts of `tailcfg`'s own names, as a client reads them, and the frames that carry them.
use crate::parts::{dns, empty, node, one, patch, profile, rule};
use fresh_maps::{NodeTexts, frame_bytes};
use std::alloc::Global;
use std::test::Fail;
use tail_base::{Duplicate, Items, NoMemory, Text};
use tailcfg::Response;
use wire_write::response_text;

/// The text of a response, if it was filled.
fn text_if(alloc: Global, filled: Result<(), Fail>, response: &Response) -> Result<Text, Fail> {
    filled?;
    Ok(response_text(alloc, response)?)
}

/// An empty filter, and a peer that is gone.
fn add_change(alloc: Global, response: &mut Response) -> Result<(), Fail> {
    response.removed = Items::from_slice(alloc, &[2])?;
    response.filter = Some(Items::new(alloc));
    response.seq = Some(2);
    Ok(())
}

fn change_text(alloc: Global) -> Result<Text, Fail> {
    let mut response = empty(alloc);
    let filled = add_change(alloc, &mut response);
    text_if(alloc, filled, &response)
}

// Whole maps, answers to registrations and those to machines that wait are among the conversations
// of the program.
#[test]
fn a_change(rt: HostRuntime) -> Result<(), Fail> {
    let text = change_text(rt.alloc())?;
    assert_eq!(rt;
        text.as_str(),
        "{\"PacketFilter\":[],\"PeersRemoved\":[2],\"Seq\":2}"
    );
    Ok(())
}

fn add_texts(alloc: Global, response: &mut Response) -> Result<(), NoMemory> {
    let handle = Text::from_str(alloc, "s1")?;
    let domain = Text::from_str(alloc, "tail.example")?;
    response.handle = Some(handle);
    response.seq = Some(7);
    response.domain = Some(domain);
    Ok(())
}

fn add_changed(alloc: Global, response: &mut Response) -> Result<(), Fail> {
    let node = node(alloc)?;
    response.changed = one(alloc, node)?;
    response.removed = Items::from_slice(alloc, &[4, 6])?;
    Ok(())
}

fn add_patch(alloc: Global, response: &mut Response) -> Result<(), Fail> {
    let patch = patch(alloc)?;
    response.patches = one(alloc, patch)?;
    Ok(())
}

fn add_rule(alloc: Global, response: &mut Response) -> Result<(), Fail> {
    let rule = rule(alloc)?;
    response.filter = Some(one(alloc, rule)?);
    Ok(())
}

fn add_dns(alloc: Global, response: &mut Response) -> Result<(), Fail> {
    response.dns = Some(dns(alloc)?);
    Ok(())
}

fn add_profile(alloc: Global, response: &mut Response) -> Result<(), NoMemory> {
    let tagged = profile(alloc, 2_147_483_647, "tagged-devices", "Tagged Devices")?;
    response.profiles = one(alloc, tagged)?;
    Ok(())
}

/// Each kind of member.
fn add_all(alloc: Global, response: &mut Response) -> Result<(), Fail> {
    add_texts(alloc, response)?;
    add_changed(alloc, response)?;
    add_patch(alloc, response)?;
    add_rule(alloc, response)?;
    add_dns(alloc, response)?;
    add_profile(alloc, response)?;
    Ok(())
}

/// The text of a response in which each kind of member stands, a member a line.
const FULL: &str =
    r#"{"DNSConfig":{"Domains":["tail.example"],"ExtraRecords":[{"Name":"nas.tail.example","Type":"A","Value":"100.64.0.9"},{"Name":"six.tail.example","Type":"AAAA","Value":"fd7a:115c:a1e0::9"}],"Proxied":true,"Resolvers":[{"Addr":"1.1.1.1"},{"Addr":"2606:4700:4700::1111"}],"Routes":{"corp.example":[{"Addr":"fd00::53"}],"example.net":[{"Addr":"10.0.0.55"}],"example.org":[{"Addr":"10.0.0.53"}]}},
"Domain":"tail.example",
"MapSessionHandle":"s1",
"PacketFilter":[{"DstPorts":[{"IP":"fd7a:115c:a1e0::2","Ports":{"First":22,"Last":22}}],"IPProto":[6],"SrcIPs":["10.0.0.0/8","100.64.0.1"]}],
"PeersChanged":[{"Addresses":["100.64.0.1/32","fd7a:115c:a1e0::1/128"],"AllowedIPs":["::/0"],"Created":"2001-09-09T01:46:40Z","DiscoKey":"discokey:0000000000000000000000000000000000000000000000000000000000000000","Endpoints":[],"HomeDERP":0,"Hostinfo":{"Hostname":"no\"de"},"ID":5,"Key":"nodekey:a5a5a5a5a5a5a5a5a5a5a5a5a5a5a5a5a5a5a5a5a5a5a5a5a5a5a5a5a5a5a5a5","KeyExpiry":"0001-01-01T00:00:00Z","Machine":"mkey:1111111111111111111111111111111111111111111111111111111111111111","MachineAuthorized":true,"Name":"node.tail.example.","Online":false,"StableID":"n5","Tags":[],"User":2147483647}],
"PeersChangedPatch":[{"DERPRegion":3,"Endpoints":["192.0.2.7:41641","[fd00::1]:5"],"NodeID":2,"Online":false}],
"PeersRemoved":[4,6],
"Seq":7,
"UserProfiles":[{"DisplayName":"Tagged Devices","ID":2147483647,"LoginName":"tagged-devices"}]}"#;

/// The lines of a text, one behind the other.
fn joined(alloc: Global, text: &str) -> Result<String, Fail> {
    let mut out = String::new(alloc);
    for line in text.lines() {
        out.push_str(line)?;
    }
    Ok(out)
}

fn full_text(alloc: Global) -> Result<Text, Fail> {
    let mut response = empty(alloc);
    let filled = add_all(alloc, &mut response);
    text_if(alloc, filled, &response)
}

#[test]
fn a_whole_response(rt: HostRuntime) -> Result<(), Fail> {
    let made = full_text(rt.alloc())?;
    let wanted = joined(rt.alloc(), FULL)?;
    assert_eq!(rt; made.as_str(), wanted.as_str());
    Ok(())
}

fn add_greeting(alloc: Global, response: &mut Response) -> Result<(), NoMemory> {
    let handle = Text::from_str(alloc, "s1-0000000000000001")?;
    response.handle = Some(handle);
    Ok(())
}

/// The frame of a response, if it was filled.
fn frame_if(
    alloc: Global,
    filled: Result<(), NoMemory>,
    response: &Response,
) -> Result<Vec<u8>, NoMemory> {
    filled?;
    frame_bytes(alloc, &mut NodeTexts::new(alloc), response)
}

/// A response that greets, as a frame.
fn greeting(alloc: Global) -> Result<Vec<u8>, NoMemory> {
    let mut response = empty(alloc);
    let filled = add_greeting(alloc, &mut response);
    frame_if(alloc, filled, &response)
}

#[test]
fn a_frame_has_the_length_of_its_text(rt: HostRuntime) -> Result<(), Fail> {
    let frame = greeting(rt.alloc())?;
    let wanted: &[u8] = b"\x2a\x00\x00\x00{\"MapSessionHandle\":\"s1-0000000000000001\"}";
    assert!(rt; frame.as_slice() == wanted);
    Ok(())
}

/// The copy of a part, which is dropped.
fn copied<T: Duplicate + Drop>(alloc: Global, part: T) -> Result<T, NoMemory> {
    part.copy(alloc)
}

fn is_node_copied(alloc: Global) -> Result<bool, Fail> {
    let node = node(alloc)?;
    let copy = copied(alloc, node)?;
    Ok(copy.name.as_str() == "node.tail.example.")
}

fn is_profile_copied(alloc: Global) -> Result<bool, Fail> {
    let profile = profile(alloc, 1, "ann@", "ann")?;
    let copy = copied(alloc, profile)?;
    Ok(copy.display.as_str() == "ann")
}

fn is_dns_copied(alloc: Global) -> Result<bool, Fail> {
    let dns = dns(alloc)?;
    let copy = copied(alloc, dns)?;
    Ok(copy.extras.len() == 2 && copy.settings.routes.len() == 4)
}

fn is_rule_copied(alloc: Global) -> Result<bool, Fail> {
    let rule = rule(alloc)?;
    let copy = copied(alloc, rule)?;
    Ok(copy.dests.len() == 1)
}

fn is_patch_copied(alloc: Global) -> Result<bool, Fail> {
    let patch = patch(alloc)?;
    let copy = copied(alloc, patch)?;
    Ok(copy.online == Some(false))
}

#[test]
fn rows_are_copied(rt: HostRuntime) -> Result<(), Fail> {
    assert!(rt; is_node_copied(rt.alloc())?);
    assert!(rt; is_profile_copied(rt.alloc())?);
    assert!(rt; is_patch_copied(rt.alloc())?);
    Ok(())
}

#[test]
fn settings_are_copied(rt: HostRuntime) -> Result<(), Fail> {
    assert!(rt; is_dns_copied(rt.alloc())?);
    assert!(rt; is_rule_copied(rt.alloc())?);
    Ok(())
}
