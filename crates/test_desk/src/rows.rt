//! Rows of events, and what a desk replies to them.
use crate::stages::first_not_played;
use std::test::Fail;

/// Two routers of one network, of which one goes offline: who may go there sees the other take its place, and a machine without grants sees nothing.
const ROUTER_OFFLINE: &str = r#"> seed k1
< done
> register mkey:%1 nodekey:%a
< done
> register mkey:%2 nodekey:%b 192.168.5.0/24
< done
> register mkey:%3 nodekey:%c 192.168.5.0/24
< done
> register mkey:%4 nodekey:%d
< done
> register mkey:%5 nodekey:%e
< done
> approve 2 192.168.5.0/24
< done
> approve 3 192.168.5.0/24
< done
> policy {"acls":[{"action":"accept","src":["100.64.0.1"],"dst":["192.168.5.0/24:*"]}]}
< done
> attach mkey:%2 nodekey:%b - 0
< s1-0000000000000001 begins behind 0, may wait
> attach mkey:%3 nodekey:%c - 0
< s2-0000000000000001 begins behind 0, may wait
> attach mkey:%1 nodekey:%a - 0
< s3-0000000000000001 begins behind 0, may wait
> drain mkey:%1 s3-0000000000000001
< {"DNSConfig":{"Domains":["tail.example"],"ExtraRecords":[],"Proxied":true,"Resolvers":[],"Routes":{}},"Domain":"tail.example","MapSessionHandle":"s3-0000000000000001","Node":{"Addresses":["100.64.0.1/32","fd7a:115c:a1e0::1/128"],"AllowedIPs":["100.64.0.1/32","fd7a:115c:a1e0::1/128"],"Created":"2001-09-09T01:46:40Z","DiscoKey":"discokey:%0","Endpoints":[],"HomeDERP":0,"Hostinfo":{"Hostname":""},"ID":1,"Key":"nodekey:%a","KeyExpiry":"0001-01-01T00:00:00Z","Machine":"mkey:%1","MachineAuthorized":true,"Name":"node.tail.example.","Online":true,"StableID":"n1","Tags":[],"User":1},"PacketFilter":[],"Peers":[{"Addresses":["100.64.0.2/32","fd7a:115c:a1e0::2/128"],"AllowedIPs":["100.64.0.2/32","fd7a:115c:a1e0::2/128","192.168.5.0/24"],"Created":"2001-09-09T01:46:40Z","DiscoKey":"discokey:%0","Endpoints":[],"HomeDERP":0,"Hostinfo":{"Hostname":""},"ID":2,"Key":"nodekey:%b","KeyExpiry":"0001-01-01T00:00:00Z","Machine":"mkey:%2","MachineAuthorized":true,"Name":"node-1.tail.example.","Online":true,"StableID":"n2","Tags":[],"User":1},{"Addresses":["100.64.0.3/32","fd7a:115c:a1e0::3/128"],"AllowedIPs":["100.64.0.3/32","fd7a:115c:a1e0::3/128"],"Created":"2001-09-09T01:46:40Z","DiscoKey":"discokey:%0","Endpoints":[],"HomeDERP":0,"Hostinfo":{"Hostname":""},"ID":3,"Key":"nodekey:%c","KeyExpiry":"0001-01-01T00:00:00Z","Machine":"mkey:%3","MachineAuthorized":true,"Name":"node-2.tail.example.","Online":true,"StableID":"n3","Tags":[],"User":1}],"Seq":1,"UserProfiles":[{"DisplayName":"seed","ID":1,"LoginName":"seed@"}]}
> attach mkey:%5 nodekey:%e - 0
< s4-0000000000000001 begins behind 0, may not wait
> drain mkey:%5 s4-0000000000000001
< {"DNSConfig":{"Domains":["tail.example"],"ExtraRecords":[],"Proxied":true,"Resolvers":[],"Routes":{}},"Domain":"tail.example","MapSessionHandle":"s4-0000000000000001","Node":{"Addresses":["100.64.0.5/32","fd7a:115c:a1e0::5/128"],"AllowedIPs":["100.64.0.5/32","fd7a:115c:a1e0::5/128"],"Created":"2001-09-09T01:46:40Z","DiscoKey":"discokey:%0","Endpoints":[],"HomeDERP":0,"Hostinfo":{"Hostname":""},"ID":5,"Key":"nodekey:%e","KeyExpiry":"0001-01-01T00:00:00Z","Machine":"mkey:%5","MachineAuthorized":true,"Name":"node-4.tail.example.","Online":true,"StableID":"n5","Tags":[],"User":1},"PacketFilter":[],"Seq":1,"UserProfiles":[{"DisplayName":"seed","ID":1,"LoginName":"seed@"}]}
> detach mkey:%2 s1-0000000000000001
< detached
> drain mkey:%1 s3-0000000000000001
< {"PeersChanged":[{"Addresses":["100.64.0.2/32","fd7a:115c:a1e0::2/128"],"AllowedIPs":["100.64.0.2/32","fd7a:115c:a1e0::2/128"],"Created":"2001-09-09T01:46:40Z","DiscoKey":"discokey:%0","Endpoints":[],"HomeDERP":0,"Hostinfo":{"Hostname":""},"ID":2,"Key":"nodekey:%b","KeyExpiry":"0001-01-01T00:00:00Z","Machine":"mkey:%2","MachineAuthorized":true,"Name":"node-1.tail.example.","Online":false,"StableID":"n2","Tags":[],"User":1},{"Addresses":["100.64.0.3/32","fd7a:115c:a1e0::3/128"],"AllowedIPs":["100.64.0.3/32","fd7a:115c:a1e0::3/128","192.168.5.0/24"],"Created":"2001-09-09T01:46:40Z","DiscoKey":"discokey:%0","Endpoints":[],"HomeDERP":0,"Hostinfo":{"Hostname":""},"ID":3,"Key":"nodekey:%c","KeyExpiry":"0001-01-01T00:00:00Z","Machine":"mkey:%3","MachineAuthorized":true,"Name":"node-2.tail.example.","Online":true,"StableID":"n3","Tags":[],"User":1}],"Seq":2}
> drain mkey:%5 s4-0000000000000001
< nothing new
"#;

/// A machine whose time ends, seen by itself and by another; the time doesn't go back.
const EXPIRY_SEEN: &str = r#"@ 500
> seed k1
< done
> register mkey:%1 nodekey:%a 1970-01-01T00:16:40Z
< done
> attach mkey:%1 nodekey:%a - 0
< s1-0000000000000001 begins behind 0, may wait
> register mkey:%2 nodekey:%b
< done
> attach mkey:%2 nodekey:%b - 0
< s2-0000000000000001 begins behind 0, may wait
> drain mkey:%1 s1-0000000000000001
< {"DNSConfig":{"Domains":["tail.example"],"ExtraRecords":[],"Proxied":true,"Resolvers":[],"Routes":{}},"Domain":"tail.example","MapSessionHandle":"s1-0000000000000001","Node":{"Addresses":["100.64.0.1/32","fd7a:115c:a1e0::1/128"],"AllowedIPs":["100.64.0.1/32","fd7a:115c:a1e0::1/128"],"Created":"1970-01-01T00:08:20Z","DiscoKey":"discokey:%0","Endpoints":[],"HomeDERP":0,"Hostinfo":{"Hostname":""},"ID":1,"Key":"nodekey:%a","KeyExpiry":"1970-01-01T00:16:40Z","Machine":"mkey:%1","MachineAuthorized":true,"Name":"node.tail.example.","Online":true,"StableID":"n1","Tags":[],"User":1},"PacketFilter":[{"DstPorts":[{"IP":"100.64.0.1","Ports":{"First":0,"Last":65535}},{"IP":"fd7a:115c:a1e0::1","Ports":{"First":0,"Last":65535}}],"IPProto":[1,6,17,58],"SrcIPs":["*"]}],"Peers":[{"Addresses":["100.64.0.2/32","fd7a:115c:a1e0::2/128"],"AllowedIPs":["100.64.0.2/32","fd7a:115c:a1e0::2/128"],"Created":"1970-01-01T00:08:20Z","DiscoKey":"discokey:%0","Endpoints":[],"HomeDERP":0,"Hostinfo":{"Hostname":""},"ID":2,"Key":"nodekey:%b","KeyExpiry":"0001-01-01T00:00:00Z","Machine":"mkey:%2","MachineAuthorized":true,"Name":"node-1.tail.example.","Online":true,"StableID":"n2","Tags":[],"User":1}],"Seq":1,"UserProfiles":[{"DisplayName":"seed","ID":1,"LoginName":"seed@"}]}
> drain mkey:%2 s2-0000000000000001
< {"DNSConfig":{"Domains":["tail.example"],"ExtraRecords":[],"Proxied":true,"Resolvers":[],"Routes":{}},"Domain":"tail.example","MapSessionHandle":"s2-0000000000000001","Node":{"Addresses":["100.64.0.2/32","fd7a:115c:a1e0::2/128"],"AllowedIPs":["100.64.0.2/32","fd7a:115c:a1e0::2/128"],"Created":"1970-01-01T00:08:20Z","DiscoKey":"discokey:%0","Endpoints":[],"HomeDERP":0,"Hostinfo":{"Hostname":""},"ID":2,"Key":"nodekey:%b","KeyExpiry":"0001-01-01T00:00:00Z","Machine":"mkey:%2","MachineAuthorized":true,"Name":"node-1.tail.example.","Online":true,"StableID":"n2","Tags":[],"User":1},"PacketFilter":[{"DstPorts":[{"IP":"100.64.0.2","Ports":{"First":0,"Last":65535}},{"IP":"fd7a:115c:a1e0::2","Ports":{"First":0,"Last":65535}}],"IPProto":[1,6,17,58],"SrcIPs":["*"]}],"Peers":[{"Addresses":["100.64.0.1/32","fd7a:115c:a1e0::1/128"],"AllowedIPs":["100.64.0.1/32","fd7a:115c:a1e0::1/128"],"Created":"1970-01-01T00:08:20Z","DiscoKey":"discokey:%0","Endpoints":[],"HomeDERP":0,"Hostinfo":{"Hostname":""},"ID":1,"Key":"nodekey:%a","KeyExpiry":"1970-01-01T00:16:40Z","Machine":"mkey:%1","MachineAuthorized":true,"Name":"node.tail.example.","Online":true,"StableID":"n1","Tags":[],"User":1}],"Seq":1,"UserProfiles":[{"DisplayName":"seed","ID":1,"LoginName":"seed@"}]}
@ 999
> drain mkey:%1 s1-0000000000000001
< nothing new
@ 1000
> drain mkey:%1 s1-0000000000000001
< ended
> drain mkey:%2 s2-0000000000000001
< {"PeersRemoved":[1],"Seq":2}
@ 998
> drain mkey:%2 s2-0000000000000001
< nothing new
"#;

/// A disco key is set: the peer is patched.
const DISCO_PATCH: &str = r#"> seed k1
< done
> register mkey:%1 nodekey:%a
< done
> register mkey:%2 nodekey:%b
< done
> register mkey:%3 nodekey:%c
< done
> attach mkey:%1 nodekey:%a - 0
< s1-0000000000000001 begins behind 0, may wait
> attach mkey:%2 nodekey:%b - 0
< s2-0000000000000001 begins behind 0, may wait
> attach mkey:%3 nodekey:%c - 0
< s3-0000000000000001 begins behind 0, may wait
> drain mkey:%1 s1-0000000000000001
< {"DNSConfig":{"Domains":["tail.example"],"ExtraRecords":[],"Proxied":true,"Resolvers":[],"Routes":{}},"Domain":"tail.example","MapSessionHandle":"s1-0000000000000001","Node":{"Addresses":["100.64.0.1/32","fd7a:115c:a1e0::1/128"],"AllowedIPs":["100.64.0.1/32","fd7a:115c:a1e0::1/128"],"Created":"2001-09-09T01:46:40Z","DiscoKey":"discokey:%0","Endpoints":[],"HomeDERP":0,"Hostinfo":{"Hostname":""},"ID":1,"Key":"nodekey:%a","KeyExpiry":"0001-01-01T00:00:00Z","Machine":"mkey:%1","MachineAuthorized":true,"Name":"node.tail.example.","Online":true,"StableID":"n1","Tags":[],"User":1},"PacketFilter":[{"DstPorts":[{"IP":"100.64.0.1","Ports":{"First":0,"Last":65535}},{"IP":"fd7a:115c:a1e0::1","Ports":{"First":0,"Last":65535}}],"IPProto":[1,6,17,58],"SrcIPs":["*"]}],"Peers":[{"Addresses":["100.64.0.2/32","fd7a:115c:a1e0::2/128"],"AllowedIPs":["100.64.0.2/32","fd7a:115c:a1e0::2/128"],"Created":"2001-09-09T01:46:40Z","DiscoKey":"discokey:%0","Endpoints":[],"HomeDERP":0,"Hostinfo":{"Hostname":""},"ID":2,"Key":"nodekey:%b","KeyExpiry":"0001-01-01T00:00:00Z","Machine":"mkey:%2","MachineAuthorized":true,"Name":"node-1.tail.example.","Online":true,"StableID":"n2","Tags":[],"User":1},{"Addresses":["100.64.0.3/32","fd7a:115c:a1e0::3/128"],"AllowedIPs":["100.64.0.3/32","fd7a:115c:a1e0::3/128"],"Created":"2001-09-09T01:46:40Z","DiscoKey":"discokey:%0","Endpoints":[],"HomeDERP":0,"Hostinfo":{"Hostname":""},"ID":3,"Key":"nodekey:%c","KeyExpiry":"0001-01-01T00:00:00Z","Machine":"mkey:%3","MachineAuthorized":true,"Name":"node-2.tail.example.","Online":true,"StableID":"n3","Tags":[],"User":1}],"Seq":1,"UserProfiles":[{"DisplayName":"seed","ID":1,"LoginName":"seed@"}]}
> tell mkey:%2 nodekey:%b discokey:%d
< done
> drain mkey:%1 s1-0000000000000001
< {"PeersChangedPatch":[{"DiscoKey":"discokey:%d","NodeID":2}],"Seq":2}
"#;

/// A peer goes offline and comes back: it is patched.
const PEER_PRESENCE: &str = r#"> seed k1
< done
> register mkey:%1 nodekey:%a
< done
> register mkey:%2 nodekey:%b
< done
> attach mkey:%1 nodekey:%a - 0
< s1-0000000000000001 begins behind 0, may wait
> attach mkey:%2 nodekey:%b - 0
< s2-0000000000000001 begins behind 0, may wait
> drain mkey:%1 s1-0000000000000001
< {"DNSConfig":{"Domains":["tail.example"],"ExtraRecords":[],"Proxied":true,"Resolvers":[],"Routes":{}},"Domain":"tail.example","MapSessionHandle":"s1-0000000000000001","Node":{"Addresses":["100.64.0.1/32","fd7a:115c:a1e0::1/128"],"AllowedIPs":["100.64.0.1/32","fd7a:115c:a1e0::1/128"],"Created":"2001-09-09T01:46:40Z","DiscoKey":"discokey:%0","Endpoints":[],"HomeDERP":0,"Hostinfo":{"Hostname":""},"ID":1,"Key":"nodekey:%a","KeyExpiry":"0001-01-01T00:00:00Z","Machine":"mkey:%1","MachineAuthorized":true,"Name":"node.tail.example.","Online":true,"StableID":"n1","Tags":[],"User":1},"PacketFilter":[{"DstPorts":[{"IP":"100.64.0.1","Ports":{"First":0,"Last":65535}},{"IP":"fd7a:115c:a1e0::1","Ports":{"First":0,"Last":65535}}],"IPProto":[1,6,17,58],"SrcIPs":["*"]}],"Peers":[{"Addresses":["100.64.0.2/32","fd7a:115c:a1e0::2/128"],"AllowedIPs":["100.64.0.2/32","fd7a:115c:a1e0::2/128"],"Created":"2001-09-09T01:46:40Z","DiscoKey":"discokey:%0","Endpoints":[],"HomeDERP":0,"Hostinfo":{"Hostname":""},"ID":2,"Key":"nodekey:%b","KeyExpiry":"0001-01-01T00:00:00Z","Machine":"mkey:%2","MachineAuthorized":true,"Name":"node-1.tail.example.","Online":true,"StableID":"n2","Tags":[],"User":1}],"Seq":1,"UserProfiles":[{"DisplayName":"seed","ID":1,"LoginName":"seed@"}]}
> detach mkey:%2 s2-0000000000000001
< detached
> drain mkey:%1 s1-0000000000000001
< {"PeersChangedPatch":[{"NodeID":2,"Online":false}],"Seq":2}
> attach mkey:%2 nodekey:%b - 0
< s3-0000000000000001 begins behind 0, may wait
> drain mkey:%1 s1-0000000000000001
< {"PeersChangedPatch":[{"NodeID":2,"Online":true}],"Seq":3}
> map mkey:%1 nodekey:%a
< has it
"#;

/// The first machine of another user comes: its row brings the profile of its owner.
const NEW_OWNER: &str = r#"> seed k1
< done
> register mkey:%1 nodekey:%a
< done
> attach mkey:%1 nodekey:%a - 0
< s1-0000000000000001 begins behind 0, may wait
> drain mkey:%1 s1-0000000000000001
< {"DNSConfig":{"Domains":["tail.example"],"ExtraRecords":[],"Proxied":true,"Resolvers":[],"Routes":{}},"Domain":"tail.example","MapSessionHandle":"s1-0000000000000001","Node":{"Addresses":["100.64.0.1/32","fd7a:115c:a1e0::1/128"],"AllowedIPs":["100.64.0.1/32","fd7a:115c:a1e0::1/128"],"Created":"2001-09-09T01:46:40Z","DiscoKey":"discokey:%0","Endpoints":[],"HomeDERP":0,"Hostinfo":{"Hostname":""},"ID":1,"Key":"nodekey:%a","KeyExpiry":"0001-01-01T00:00:00Z","Machine":"mkey:%1","MachineAuthorized":true,"Name":"node.tail.example.","Online":true,"StableID":"n1","Tags":[],"User":1},"PacketFilter":[{"DstPorts":[{"IP":"100.64.0.1","Ports":{"First":0,"Last":65535}},{"IP":"fd7a:115c:a1e0::1","Ports":{"First":0,"Last":65535}}],"IPProto":[1,6,17,58],"SrcIPs":["*"]}],"Seq":1,"UserProfiles":[{"DisplayName":"seed","ID":1,"LoginName":"seed@"}]}
> user bob
< done
> key bob@
< done
> register mkey:%2 nodekey:%b tnkey-2-0000000000000001000000000000000200000000000000030000000000000004
< done
> map mkey:%1 nodekey:%a
< has another
> drain mkey:%1 s1-0000000000000001
< {"PeersChanged":[{"Addresses":["100.64.0.2/32","fd7a:115c:a1e0::2/128"],"AllowedIPs":["100.64.0.2/32","fd7a:115c:a1e0::2/128"],"Created":"2001-09-09T01:46:40Z","DiscoKey":"discokey:%0","Endpoints":[],"HomeDERP":0,"Hostinfo":{"Hostname":""},"ID":2,"Key":"nodekey:%b","KeyExpiry":"0001-01-01T00:00:00Z","Machine":"mkey:%2","MachineAuthorized":true,"Name":"node-1.tail.example.","Online":false,"StableID":"n2","Tags":[],"User":2}],"Seq":2,"UserProfiles":[{"DisplayName":"bob","ID":2,"LoginName":"bob@"}]}
> map mkey:%1 nodekey:%a
< has it
"#;

/// All that a patch can have differs at once: the peer's endpoints, its DERP region, its disco key, and whether it is online.
const ALL_PATCHED: &str = r#"> seed k1
< done
> register mkey:%1 nodekey:%a
< done
> register mkey:%2 nodekey:%b
< done
> attach mkey:%1 nodekey:%a - 0
< s1-0000000000000001 begins behind 0, may wait
> attach mkey:%2 nodekey:%b - 0
< s2-0000000000000001 begins behind 0, may wait
> drain mkey:%1 s1-0000000000000001
< {"DNSConfig":{"Domains":["tail.example"],"ExtraRecords":[],"Proxied":true,"Resolvers":[],"Routes":{}},"Domain":"tail.example","MapSessionHandle":"s1-0000000000000001","Node":{"Addresses":["100.64.0.1/32","fd7a:115c:a1e0::1/128"],"AllowedIPs":["100.64.0.1/32","fd7a:115c:a1e0::1/128"],"Created":"2001-09-09T01:46:40Z","DiscoKey":"discokey:%0","Endpoints":[],"HomeDERP":0,"Hostinfo":{"Hostname":""},"ID":1,"Key":"nodekey:%a","KeyExpiry":"0001-01-01T00:00:00Z","Machine":"mkey:%1","MachineAuthorized":true,"Name":"node.tail.example.","Online":true,"StableID":"n1","Tags":[],"User":1},"PacketFilter":[{"DstPorts":[{"IP":"100.64.0.1","Ports":{"First":0,"Last":65535}},{"IP":"fd7a:115c:a1e0::1","Ports":{"First":0,"Last":65535}}],"IPProto":[1,6,17,58],"SrcIPs":["*"]}],"Peers":[{"Addresses":["100.64.0.2/32","fd7a:115c:a1e0::2/128"],"AllowedIPs":["100.64.0.2/32","fd7a:115c:a1e0::2/128"],"Created":"2001-09-09T01:46:40Z","DiscoKey":"discokey:%0","Endpoints":[],"HomeDERP":0,"Hostinfo":{"Hostname":""},"ID":2,"Key":"nodekey:%b","KeyExpiry":"0001-01-01T00:00:00Z","Machine":"mkey:%2","MachineAuthorized":true,"Name":"node-1.tail.example.","Online":true,"StableID":"n2","Tags":[],"User":1}],"Seq":1,"UserProfiles":[{"DisplayName":"seed","ID":1,"LoginName":"seed@"}]}
> tell mkey:%2 nodekey:%b discokey:%d 192.0.2.1:41641 5
< done
> detach mkey:%2 s2-0000000000000001
< detached
> drain mkey:%1 s1-0000000000000001
< {"PeersChangedPatch":[{"DERPRegion":5,"DiscoKey":"discokey:%d","Endpoints":["192.0.2.1:41641"],"NodeID":2,"Online":false}],"Seq":2}
> map mkey:%1 nodekey:%a
< has it
"#;

/// A handle that no session has.
const UNKNOWN_HANDLE: &str = r#"> seed k1
< done
> register mkey:%1 nodekey:%a
< done
> drain mkey:%1 x
< ended
> attach mkey:%1 nodekey:%a x 0
< s1-0000000000000001 begins behind 0, may wait
> drain mkey:%1 x
< ended
"#;

/// A second poll of a machine begins a session of its own, whatever it names, and the older handle is nobody's any more.
const SECOND_POLL: &str = r#"> seed k1
< done
> register mkey:%1 nodekey:%a
< done
> attach mkey:%1 nodekey:%a - 0
< s1-0000000000000001 begins behind 0, may wait
> drain mkey:%1 s1-0000000000000001
< {"DNSConfig":{"Domains":["tail.example"],"ExtraRecords":[],"Proxied":true,"Resolvers":[],"Routes":{}},"Domain":"tail.example","MapSessionHandle":"s1-0000000000000001","Node":{"Addresses":["100.64.0.1/32","fd7a:115c:a1e0::1/128"],"AllowedIPs":["100.64.0.1/32","fd7a:115c:a1e0::1/128"],"Created":"2001-09-09T01:46:40Z","DiscoKey":"discokey:%0","Endpoints":[],"HomeDERP":0,"Hostinfo":{"Hostname":""},"ID":1,"Key":"nodekey:%a","KeyExpiry":"0001-01-01T00:00:00Z","Machine":"mkey:%1","MachineAuthorized":true,"Name":"node.tail.example.","Online":true,"StableID":"n1","Tags":[],"User":1},"PacketFilter":[{"DstPorts":[{"IP":"100.64.0.1","Ports":{"First":0,"Last":65535}},{"IP":"fd7a:115c:a1e0::1","Ports":{"First":0,"Last":65535}}],"IPProto":[1,6,17,58],"SrcIPs":["*"]}],"Seq":1,"UserProfiles":[{"DisplayName":"seed","ID":1,"LoginName":"seed@"}]}
> attach mkey:%1 nodekey:%a s1-0000000000000001 1
< s2-0000000000000001 begins behind 0, may wait
> drain mkey:%1 s1-0000000000000001
< ended
"#;

/// One worker is left for those that don't wait.
const ONE_WORKER: &str = r#": workers = 1
> seed k1
< done
> register mkey:%1 nodekey:%a
< done
> attach mkey:%1 nodekey:%a - 0
< s1-0000000000000001 begins behind 0, may not wait
"#;

/// The machine's own session isn't counted.
const TWO_WORKERS: &str = r#": workers = 2
> seed k1
< done
> register mkey:%1 nodekey:%a
< done
> register mkey:%2 nodekey:%b
< done
> attach mkey:%1 nodekey:%a - 0
< s1-0000000000000001 begins behind 0, may wait
> attach mkey:%2 nodekey:%b - 0
< s2-0000000000000001 begins behind 0, may not wait
> attach mkey:%1 nodekey:%a - 0
< s3-0000000000000001 begins behind 0, may wait
"#;

#[test]
fn polls_on_a_desk(rt: HostRuntime) -> Result<(), Fail> {
    let rows = [
        ("router-offline", ROUTER_OFFLINE),
        ("expiry-seen", EXPIRY_SEEN),
        ("disco-patch", DISCO_PATCH),
        ("peer-presence", PEER_PRESENCE),
        ("new-owner", NEW_OWNER),
        ("all-patched", ALL_PATCHED),
        ("unknown-handle", UNKNOWN_HANDLE),
        ("second-poll", SECOND_POLL),
        ("one-worker", ONE_WORKER),
        ("two-workers", TWO_WORKERS),
    ];
    let name = first_not_played(rt.alloc(), &rows)?;
    assert_eq!(rt; name, None);
    Ok(())
}
