//! Bodies with what a client takes them for. What is taken is shown as it is written again.
use response_read::read_response;
use std::alloc::Global;
use std::test::Fail;
use tail_base::{NoMemory, Text};
use wire_write::response_text;

/// The response that a body is, as it is written; a hyphen where it is none.
fn again(alloc: Global, body: &[u8]) -> Result<Text, NoMemory> {
    match read_response(alloc, body)? {
        Some(response) => response_text(alloc, &response),
        None => Text::from_str(alloc, "-"),
    }
}

/// The map that the row `netmap-print` prints.
const WHOLE: &str =
    r#"{"DNSConfig":{"Domains":["tail.example"],"ExtraRecords":[],"Proxied":true,"Resolvers":[],"Routes":{}},"Domain":"tail.example","Node":{"Addresses":["100.64.0.1/32","fd7a:115c:a1e0::1/128"],"AllowedIPs":["100.64.0.1/32","fd7a:115c:a1e0::1/128"],"Created":"2001-09-09T01:46:40Z","DiscoKey":"discokey:0000000000000000000000000000000000000000000000000000000000000000","Endpoints":[],"HomeDERP":0,"Hostinfo":{"Hostname":"Alice's MacBook Pro!"},"ID":1,"Key":"nodekey:aaaaaaaaaaaaaaaaaaaaaaaaaaaaaaaaaaaaaaaaaaaaaaaaaaaaaaaaaaaaaaaa","KeyExpiry":"0001-01-01T00:00:00Z","Machine":"mkey:1111111111111111111111111111111111111111111111111111111111111111","MachineAuthorized":true,"Name":"alice-s-macbook-pro.tail.example.","Online":true,"StableID":"n1","Tags":[],"User":1},"PacketFilter":[{"DstPorts":[{"IP":"100.64.0.1","Ports":{"First":0,"Last":65535}},{"IP":"fd7a:115c:a1e0::1","Ports":{"First":0,"Last":65535}}],"IPProto":[1,6,17,58],"SrcIPs":["*"]}],"UserProfiles":[{"DisplayName":"seed","ID":1,"LoginName":"seed@"}]}"#;

/// Bodies, with the text that is written of each.
const TAKEN: &str = r#"{} => {}
 { }  => {}
{"Seq":1} => {"Seq":1}
{"Seq":18446744073709551615} => {"Seq":18446744073709551615}
{"Seq":2,"Seq":3} => {"Seq":3}
{"Seq":0,"Seq":3} => {"Seq":3}
{"Seq":3,"Seq":null} => {}
{"Unnamed":[0],"seq":0} => {}
{"MapSessionHandle":"","Domain":""} => {"Domain":"","MapSessionHandle":""}
{"Peers":[],"PeersChanged":[],"PeersChangedPatch":[],"PeersRemoved":[],"UserProfiles":[]} => {}
{"PacketFilter":[]} => {"PacketFilter":[]}
{"PeersRemoved":[4,0,4294967295,4]} => {"PeersRemoved":[4,0,4294967295,4]}
{"PeersChangedPatch":[{"NodeID":0}]} => {"PeersChangedPatch":[{"NodeID":0}]}
{"PeersChangedPatch":[{"NodeID":2,"Endpoints":[],"DERPRegion":null,"Online":true}]} => {"PeersChangedPatch":[{"Endpoints":[],"NodeID":2,"Online":true}]}
{"PacketFilter":[{"SrcIPs":["FD7A::1","10.0.0.1/32","10.0.0.0/8"],"IPProto":[],"DstPorts":[{"IP":"10.0.0.2","Ports":{"First":9,"Last":8}}]}]} => {"PacketFilter":[{"DstPorts":[{"IP":"10.0.0.2","Ports":{"First":9,"Last":8}}],"IPProto":[],"SrcIPs":["fd7a::1","10.0.0.1","10.0.0.0/8"]}]}
{"PacketFilter":[{"SrcIPs":["*"],"IPProto":[1,255],"DstPorts":[]}]} => {"PacketFilter":[{"DstPorts":[],"IPProto":[1,255],"SrcIPs":["*"]}]}
{"DNSConfig":{"Domains":["a"],"ExtraRecords":[{"Name":"n","Type":"AAAA","Value":"FD00::1"}],"Proxied":false,"Resolvers":[{"Addr":"1.1.1.1"}],"Routes":{"b.example":[],"a.example":[{"Addr":"10.0.0.53"}],"c.example":null}}} => {"DNSConfig":{"Domains":["a"],"ExtraRecords":[{"Name":"n","Type":"AAAA","Value":"fd00::1"}],"Proxied":false,"Resolvers":[{"Addr":"1.1.1.1"}],"Routes":{"a.example":[{"Addr":"10.0.0.53"}],"b.example":[]}}}
{"UserProfiles":[{"ID":3,"LoginName":"ann@","DisplayName":"ann"}]} => {"UserProfiles":[{"DisplayName":"ann","ID":3,"LoginName":"ann@"}]}"#;

/// Bodies that are no responses.
const REFUSED: &str = r#"
{
{} {}
null
[]
"{}"
1
{"Seq":0}
{"Seq":-0}
{"Seq":1.0}
{"Seq":1e0}
{"Seq":"1"}
{"Seq":18446744073709551616}
{"Seq":-1}
{"Domain":1}
{"MapSessionHandle":{}}
{"Node":[]}
{"Node":{}}
{"Peers":{}}
{"Peers":[null]}
{"PacketFilter":{}}
{"PeersRemoved":[4294967296]}
{"PeersRemoved":["1"]}
{"PeersChangedPatch":[{}]}
{"PeersChangedPatch":[{"NodeID":2,"DERPRegion":"1"}]}
{"PeersChangedPatch":[{"NodeID":2,"DiscoKey":"nodekey:00"}]}
{"PacketFilter":[{"SrcIPs":["*","10.0.0.1"],"IPProto":[6],"DstPorts":[]}]}
{"PacketFilter":[{"SrcIPs":["*"],"IPProto":[17,6],"DstPorts":[]}]}
{"PacketFilter":[{"SrcIPs":["*"],"IPProto":[6,6],"DstPorts":[]}]}
{"PacketFilter":[{"SrcIPs":["*"],"IPProto":[0],"DstPorts":[]}]}
{"PacketFilter":[{"SrcIPs":["*"],"IPProto":[256],"DstPorts":[]}]}
{"PacketFilter":[{"SrcIPs":["*"],"DstPorts":[]}]}
{"PacketFilter":[{"SrcIPs":["10.0.0.1/8"],"IPProto":[6],"DstPorts":[]}]}
{"PacketFilter":[{"SrcIPs":["*"],"IPProto":[6],"DstPorts":[{"IP":"10.0.0.1","Ports":{"First":0}}]}]}
{"PacketFilter":[{"SrcIPs":["*"],"IPProto":[6],"DstPorts":[{"IP":"*","Ports":{"First":0,"Last":1}}]}]}
{"PacketFilter":[{"SrcIPs":["*"],"IPProto":[6],"DstPorts":[{"IP":"10.0.0.1","Ports":{"First":0,"Last":65536}}]}]}
{"DNSConfig":{"Domains":[],"ExtraRecords":[],"Proxied":false,"Resolvers":[]}}
{"DNSConfig":{"Domains":[],"ExtraRecords":[],"Proxied":false,"Resolvers":[],"Routes":[]}}
{"DNSConfig":{"Domains":[],"ExtraRecords":[],"Proxied":false,"Resolvers":[{}],"Routes":{}}}
{"DNSConfig":{"Domains":[],"ExtraRecords":[{"Name":"n","Type":"A","Value":"fd00::1"}],"Proxied":false,"Resolvers":[],"Routes":{}}}
{"DNSConfig":{"Domains":[],"ExtraRecords":[{"Name":"n","Value":"fd00::1"}],"Proxied":false,"Resolvers":[],"Routes":{}}}
{"UserProfiles":[{"ID":3,"LoginName":"ann@"}]}"#;

/// What may be replaced in the whole map, and it stays the same.
const SAME: &str = r#""0001-01-01T00:00:00Z" => "0001-01-01T02:00:00+02:00"
"2001-09-09T01:46:40Z" => "2001-09-09T02:46:40+01:00"
"Tags":[] => "Tags":[],"Cap":74
"Tags":[] => "Tags":["tag:a"],"Tags":[]
"fd7a:115c:a1e0::1/128" => "FD7A:115C:A1E0:0::1/128"
aaaa => aAaA"#;

/// What makes the whole map no response, replaced in it.
const SPOILED: &str = r#""StableID":"n1" => "StableID":"n2"
"StableID":"n1" => "StableID":"n01"
"StableID":"n1" => "StableID":null
"MachineAuthorized":true => "MachineAuthorized":false
"100.64.0.1/32" => "100.64.0.1"
"100.64.0.1/32" => "100.64.0.1/8"
"2001-09-09T01:46:40Z" => "2001-09-09"
"HomeDERP":0 => "HomeDERP":4294967296
"HomeDERP":0 => "HomeDERP":-1
{"Hostname" => {"Host"
"KeyExpiry":"0001-01-01T00:00:00Z" => "KeyExpiry":null
nodekey:aa => nodekey:a
mkey: => nodekey:
"Online":true => "Online":1
"Tags":[] => "Tags":["office"]
"Endpoints":[] => "Endpoints":["1.2.3.4"]
"Addresses": => "-Addresses":
"AllowedIPs": => "-AllowedIPs":
"Created": => "-Created":
"DiscoKey": => "-DiscoKey":
"Endpoints": => "-Endpoints":
"HomeDERP": => "-HomeDERP":
"Hostinfo": => "-Hostinfo":
"ID": => "-ID":
"Key": => "-Key":
"KeyExpiry": => "-KeyExpiry":
"Machine": => "-Machine":
"MachineAuthorized": => "-MachineAuthorized":
"Name": => "-Name":
"Online": => "-Online":
"StableID": => "-StableID":
"Tags": => "-Tags":
"User": => "-User":"#;

/// Whether the line's body is written as the line says.
fn is_taken(alloc: Global, line: &str) -> Result<bool, NoMemory> {
    let Some((body, wanted)) = line.split_once(" => ") else {
        return Ok(false);
    };
    let found = again(alloc, body.as_bytes())?;
    Ok(found.as_str() == wanted)
}

/// The text of the whole map, with the line's text in the other one's place, as it is written.
fn replaced(alloc: Global, line: &str) -> Result<Text, Fail> {
    let (old, new) = line.split_once(" => ").ok_or("no arrow")?;
    let body = WHOLE.replace(alloc, old, new)?;
    Ok(again(alloc, body.as_bytes())?)
}

#[test]
fn the_whole_map(rt: HostRuntime) -> Result<(), Fail> {
    let found = again(rt.alloc(), WHOLE.as_bytes())?;
    assert_eq!(rt; found.as_str(), WHOLE);
    Ok(())
}

#[test]
fn bodies_that_are_taken(rt: HostRuntime) -> Result<(), Fail> {
    for line in TAKEN.lines() {
        assert!(rt; is_taken(rt.alloc(), line)?, "{line}");
    }
    Ok(())
}

#[test]
fn bodies_that_are_refused(rt: HostRuntime) -> Result<(), Fail> {
    for line in REFUSED.lines() {
        let found = again(rt.alloc(), line.as_bytes())?;
        assert!(rt; found.as_str() == "-", "{line}");
    }
    let found = again(rt.alloc(), b"{\"a\":\"\xff\"}")?;
    assert_eq!(rt; found.as_str(), "-");
    Ok(())
}

#[test]
fn other_spellings(rt: HostRuntime) -> Result<(), Fail> {
    for line in SAME.lines() {
        let found = replaced(rt.alloc(), line)?;
        assert!(rt; found.as_str() == WHOLE, "{line}");
    }
    Ok(())
}

#[test]
fn spoiled_maps(rt: HostRuntime) -> Result<(), Fail> {
    for line in SPOILED.lines() {
        let found = replaced(rt.alloc(), line)?;
        assert!(rt; found.as_str() == "-", "{line}");
    }
    Ok(())
}
