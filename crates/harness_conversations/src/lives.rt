//! How machines come, are renewed, wait, and go, with the time.

/// Lives of machines.
pub const LIVES: &str = r#"= sweep-at-the-end
@ 1000000000 1000000000 1000000000 1000001799 1000001800 1000001800
> POST /machine/register mkey:%1 {"Auth":{"AuthKey":"k1"},"Ephemeral":true,"NodeKey":"nodekey:%a"}
< registered
> POST /api/v1/sweep Bearer/secret {}
< 200 {"machines":0,"pending":0}
> POST /api/v1/sweep Bearer/secret {}
< 200 {"machines":1,"pending":0}
> GET /api/v1/node Bearer/secret
< 200 {"nodes":[]}
= sweep-of-waiting-machines
@ 1000000000 1000000000 1000000000 1000003599 1000003599 1000003600
> POST /machine/register mkey:%1 {"NodeKey":"nodekey:%a"}
< 200 {"AuthURL":"http://tail.example/register/reg-1-00000000000000010000000000000002","Error":"","Login":{"ID":0,"LoginName":""},"MachineAuthorized":false,"NodeKeyExpired":false,"User":{"DisplayName":"","ID":0}}
> POST /api/v1/sweep Bearer/secret {}
< 200 {"machines":0,"pending":0}
> GET /api/v1/register Bearer/secret
< 200 {"pending":[{"host":"","id":"reg-1-00000000000000010000000000000002","machine":"mkey:%1","node":"nodekey:%a"}]}
> POST /api/v1/sweep Bearer/secret {}
< 200 {"machines":0,"pending":1}
> GET /api/v1/register Bearer/secret
< 200 {"pending":[]}
= logout-and-renewal
> POST /machine/register mkey:%1 {"Auth":{"AuthKey":"k1"},"NodeKey":"nodekey:%a","Hostinfo":{"Hostname":"one"}}
< registered
> POST /machine/register mkey:%1 {"Expiry":"1970-01-01T00:00:01Z","NodeKey":"nodekey:%a"}
< 200 {"AuthURL":"","Error":"","Login":{"ID":1,"LoginName":"seed@"},"MachineAuthorized":true,"NodeKeyExpired":true,"User":{"DisplayName":"seed","ID":1}}
> GET /api/v1/node Bearer/secret
< 200 {"nodes":[{"addresses":["100.64.0.1","fd7a:115c:a1e0::1"],"advertised":[],"approved":[],"expiry":"2001-09-09T01:46:40Z","id":1,"live":false,"name":"one","online":false,"served":[],"tags":[],"user":"seed@"}]}
> POST /machine/register mkey:%1 {"NodeKey":"nodekey:%a"}
< 200 {"AuthURL":"http://tail.example/register/reg-1-00000000000000010000000000000002","Error":"","Login":{"ID":0,"LoginName":""},"MachineAuthorized":false,"NodeKeyExpired":false,"User":{"DisplayName":"","ID":0}}
> POST /machine/register mkey:%1 {"Auth":{"AuthKey":"k1"},"NodeKey":"nodekey:%b","Hostinfo":{"Hostname":"two","RoutableIPs":["fd00::/8","10.0.0.0/8","10.0.0.0/8"]}}
< registered
> GET /api/v1/register Bearer/secret
< 200 {"pending":[]}
> GET /api/v1/node Bearer/secret
< 200 {"nodes":[{"addresses":["100.64.0.1","fd7a:115c:a1e0::1"],"advertised":["10.0.0.0/8","fd00::/8"],"approved":[],"expiry":"0001-01-01T00:00:00Z","id":1,"live":true,"name":"one","online":false,"served":[],"tags":[],"user":"seed@"}]}
> POST /machine/map mkey:%1 {"NodeKey":"nodekey:%b","ReadOnly":true}
< 200 #{"DNSConfig":{"Domains":["tail.example"],"ExtraRecords":[],"Proxied":true,"Resolvers":[],"Routes":{}},"Domain":"tail.example","Node":{"Addresses":["100.64.0.1/32","fd7a:115c:a1e0::1/128"],"AllowedIPs":["100.64.0.1/32","fd7a:115c:a1e0::1/128"],"Created":"2001-09-09T01:46:40Z","DiscoKey":"discokey:%0","Endpoints":[],"HomeDERP":0,"Hostinfo":{"Hostname":"two"},"ID":1,"Key":"nodekey:%b","KeyExpiry":"0001-01-01T00:00:00Z","Machine":"mkey:%1","MachineAuthorized":true,"Name":"one.tail.example.","Online":false,"StableID":"n1","Tags":[],"User":1},"PacketFilter":[{"DstPorts":[{"IP":"100.64.0.1","Ports":{"First":0,"Last":65535}},{"IP":"fd7a:115c:a1e0::1","Ports":{"First":0,"Last":65535}}],"IPProto":[1,6,17,58],"SrcIPs":["*"]}],"UserProfiles":[{"DisplayName":"seed","ID":1,"LoginName":"seed@"}]}
= logout-of-an-ephemeral-machine
> POST /api/v1/preauthkey Bearer/secret {"user":"seed@","ephemeral":true,"reusable":true}
< 200 {"ephemeral":true,"expiry":"0001-01-01T00:00:00Z","id":2,"key":"tnkey-2-0000000000000001000000000000000200000000000000030000000000000004","reusable":true,"tags":[],"used":false,"user":"seed@"}
> POST /machine/register mkey:%1 {"Auth":{"AuthKey":"tnkey-2-0000000000000001000000000000000200000000000000030000000000000004"},"NodeKey":"nodekey:%a"}
< registered
> POST /machine/register mkey:%1 {"Expiry":"1970-01-01T00:00:01Z","NodeKey":"nodekey:%a"}
< 200 {"AuthURL":"","Error":"","Login":{"ID":1,"LoginName":"seed@"},"MachineAuthorized":true,"NodeKeyExpired":true,"User":{"DisplayName":"seed","ID":1}}
> GET /api/v1/node Bearer/secret
< 200 {"nodes":[]}
> POST /machine/register mkey:%1 {"Auth":{"AuthKey":"tnkey-2-0000000000000001000000000000000200000000000000030000000000000004"},"NodeKey":"nodekey:%a"}
< registered
> GET /api/v1/node Bearer/secret
< 200 {"nodes":[{"addresses":["100.64.0.1","fd7a:115c:a1e0::1"],"advertised":[],"approved":[],"expiry":"0001-01-01T00:00:00Z","id":2,"live":true,"name":"node","online":false,"served":[],"tags":[],"user":"seed@"}]}
= renewed-as-it-was
@ 1000000000 1000000000 1000000000 1000001800
! keep 4
> POST /machine/register mkey:%1 {"Auth":{"AuthKey":"k1"},"Ephemeral":true,"NodeKey":"nodekey:%a"}
< registered
> POST /machine/register mkey:%1 {"Auth":{"AuthKey":"k1"},"Ephemeral":true,"NodeKey":"nodekey:%a"}
< registered
= rotation
> POST /machine/register mkey:%1 {"Auth":{"AuthKey":"k1"},"NodeKey":"nodekey:%a","Hostinfo":{"Hostname":"one"}}
< registered
> POST /machine/register mkey:%1 {"NodeKey":"nodekey:%b","OldNodeKey":"nodekey:%a","Hostinfo":{"Hostname":"two"}}
< registered
> POST /machine/map mkey:%1 {"NodeKey":"nodekey:%a"}
< 401 {"error":"UnknownMachine"}
> POST /machine/map mkey:%1 {"NodeKey":"nodekey:%b","ReadOnly":true}
< 200 #{"DNSConfig":{"Domains":["tail.example"],"ExtraRecords":[],"Proxied":true,"Resolvers":[],"Routes":{}},"Domain":"tail.example","Node":{"Addresses":["100.64.0.1/32","fd7a:115c:a1e0::1/128"],"AllowedIPs":["100.64.0.1/32","fd7a:115c:a1e0::1/128"],"Created":"2001-09-09T01:46:40Z","DiscoKey":"discokey:%0","Endpoints":[],"HomeDERP":0,"Hostinfo":{"Hostname":"one"},"ID":1,"Key":"nodekey:%b","KeyExpiry":"0001-01-01T00:00:00Z","Machine":"mkey:%1","MachineAuthorized":true,"Name":"one.tail.example.","Online":false,"StableID":"n1","Tags":[],"User":1},"PacketFilter":[{"DstPorts":[{"IP":"100.64.0.1","Ports":{"First":0,"Last":65535}},{"IP":"fd7a:115c:a1e0::1","Ports":{"First":0,"Last":65535}}],"IPProto":[1,6,17,58],"SrcIPs":["*"]}],"UserProfiles":[{"DisplayName":"seed","ID":1,"LoginName":"seed@"}]}
> POST /machine/register mkey:%1 {"NodeKey":"nodekey:%c","OldNodeKey":"nodekey:%a"}
< 200 {"AuthURL":"http://tail.example/register/reg-1-00000000000000010000000000000002","Error":"","Login":{"ID":0,"LoginName":""},"MachineAuthorized":false,"NodeKeyExpired":false,"User":{"DisplayName":"","ID":0}}
> GET /api/v1/register Bearer/secret
< 200 {"pending":[{"host":"","id":"reg-1-00000000000000010000000000000002","machine":"mkey:%1","node":"nodekey:%c"}]}
= waits-again
@ 1000000000 1000000000 1000000000 1000003599 1000003600
> POST /machine/register mkey:%1 {"NodeKey":"nodekey:%a","Hostinfo":{"Hostname":"one"}}
< 200 {"AuthURL":"http://tail.example/register/reg-1-00000000000000010000000000000002","Error":"","Login":{"ID":0,"LoginName":""},"MachineAuthorized":false,"NodeKeyExpired":false,"User":{"DisplayName":"","ID":0}}
> POST /machine/register mkey:%1 {"NodeKey":"nodekey:%a"}
< 200 {"AuthURL":"http://tail.example/register/reg-1-00000000000000010000000000000002","Error":"","Login":{"ID":0,"LoginName":""},"MachineAuthorized":false,"NodeKeyExpired":false,"User":{"DisplayName":"","ID":0}}
> POST /machine/register mkey:%1 {"NodeKey":"nodekey:%a"}
< 200 {"AuthURL":"http://tail.example/register/reg-2-00000000000000010000000000000002","Error":"","Login":{"ID":0,"LoginName":""},"MachineAuthorized":false,"NodeKeyExpired":false,"User":{"DisplayName":"","ID":0}}
> POST /machine/register mkey:%1 {"NodeKey":"nodekey:%b"}
< 200 {"AuthURL":"http://tail.example/register/reg-3-00000000000000010000000000000002","Error":"","Login":{"ID":0,"LoginName":""},"MachineAuthorized":false,"NodeKeyExpired":false,"User":{"DisplayName":"","ID":0}}
> GET /api/v1/register Bearer/secret
< 200 {"pending":[{"host":"","id":"reg-3-00000000000000010000000000000002","machine":"mkey:%1","node":"nodekey:%b"}]}
= keys-that-expire
: key_seconds = 100
@ 1000000000 1000000000 1000000000 1000000000 1000000099 1000000100
> POST /machine/register mkey:%1 {"Auth":{"AuthKey":"k1"},"NodeKey":"nodekey:%a"}
< registered
> POST /machine/register mkey:%2 {"Auth":{"AuthKey":"k1"},"NodeKey":"nodekey:%b","Expiry":"2001-09-09T03:46:41.9+02:00"}
< registered
> GET /api/v1/node Bearer/secret
< 200 {"nodes":[{"addresses":["100.64.0.1","fd7a:115c:a1e0::1"],"advertised":[],"approved":[],"expiry":"2001-09-09T01:48:20Z","id":1,"live":true,"name":"node","online":false,"served":[],"tags":[],"user":"seed@"},{"addresses":["100.64.0.2","fd7a:115c:a1e0::2"],"advertised":[],"approved":[],"expiry":"2001-09-09T01:46:41Z","id":2,"live":false,"name":"node-1","online":false,"served":[],"tags":[],"user":"seed@"}]}
> GET /api/v1/node Bearer/secret
< 200 {"nodes":[{"addresses":["100.64.0.1","fd7a:115c:a1e0::1"],"advertised":[],"approved":[],"expiry":"2001-09-09T01:48:20Z","id":1,"live":false,"name":"node","online":false,"served":[],"tags":[],"user":"seed@"},{"addresses":["100.64.0.2","fd7a:115c:a1e0::2"],"advertised":[],"approved":[],"expiry":"2001-09-09T01:46:41Z","id":2,"live":false,"name":"node-1","online":false,"served":[],"tags":[],"user":"seed@"}]}
> POST /machine/map mkey:%1 {"NodeKey":"nodekey:%a"}
< 401 {"error":"NotLive"}
> POST /api/v1/node/1/expire Bearer/secret {"expiry":"2001-09-09T01:48:21Z"}
< 200 {"addresses":["100.64.0.1","fd7a:115c:a1e0::1"],"advertised":[],"approved":[],"expiry":"2001-09-09T01:48:21Z","id":1,"live":true,"name":"node","online":false,"served":[],"tags":[],"user":"seed@"}
> POST /machine/map mkey:%1 {"NodeKey":"nodekey:%a"}
< 200 #{"DNSConfig":{"Domains":["tail.example"],"ExtraRecords":[],"Proxied":true,"Resolvers":[],"Routes":{}},"Domain":"tail.example","Node":{"Addresses":["100.64.0.1/32","fd7a:115c:a1e0::1/128"],"AllowedIPs":["100.64.0.1/32","fd7a:115c:a1e0::1/128"],"Created":"2001-09-09T01:46:40Z","DiscoKey":"discokey:%0","Endpoints":[],"HomeDERP":0,"Hostinfo":{"Hostname":""},"ID":1,"Key":"nodekey:%a","KeyExpiry":"2001-09-09T01:48:21Z","Machine":"mkey:%1","MachineAuthorized":true,"Name":"node.tail.example.","Online":false,"StableID":"n1","Tags":[],"User":1},"PacketFilter":[{"DstPorts":[{"IP":"100.64.0.1","Ports":{"First":0,"Last":65535}},{"IP":"fd7a:115c:a1e0::1","Ports":{"First":0,"Last":65535}}],"IPProto":[1,6,17,58],"SrcIPs":["*"]}],"UserProfiles":[{"DisplayName":"seed","ID":1,"LoginName":"seed@"}]}
= time-never-falls
: key_seconds = 100
@ 1000000000 1000000000 1000000000 1000000100 1000000000
> POST /machine/register mkey:%1 {"Auth":{"AuthKey":"k1"},"NodeKey":"nodekey:%a"}
< registered
> POST /machine/map mkey:%1 {"NodeKey":"nodekey:%a"}
< 401 {"error":"NotLive"}
> POST /machine/map mkey:%1 {"NodeKey":"nodekey:%a"}
< 401 {"error":"NotLive"}
= updates
> POST /machine/register mkey:%1 {"Auth":{"AuthKey":"k1"},"NodeKey":"nodekey:%a","Hostinfo":{"Hostname":"one"}}
< registered
> POST /api/v1/user Bearer/secret {"name":"ann"}
< 200 {"id":2,"login":"ann@"}
> POST /machine/register mkey:%2 {"NodeKey":"nodekey:%b","Hostinfo":{"Hostname":"two"}}
< 200 {"AuthURL":"http://tail.example/register/reg-1-00000000000000010000000000000002","Error":"","Login":{"ID":0,"LoginName":""},"MachineAuthorized":false,"NodeKeyExpired":false,"User":{"DisplayName":"","ID":0}}
> POST /api/v1/register Bearer/secret {"id":"reg-1-00000000000000010000000000000002","user":"ann@"}
< 200 {"addresses":["100.64.0.2","fd7a:115c:a1e0::2"],"advertised":[],"approved":[],"expiry":"0001-01-01T00:00:00Z","id":2,"live":true,"name":"two","online":false,"served":[],"tags":[],"user":"ann@"}
> POST /machine/map mkey:%2 {"NodeKey":"nodekey:%b","OmitPeers":true,"Endpoints":["192.0.2.7:41641","[2001:db8::1]:41641"],"DiscoKey":"discokey:%d","Hostinfo":{"Hostname":"three","NetInfo":{"PreferredDERP":7},"RoutableIPs":["10.0.0.0/8"]}}
< 200
> POST /machine/map mkey:%1 {"NodeKey":"nodekey:%a"}
< 200 #{"DNSConfig":{"Domains":["tail.example"],"ExtraRecords":[],"Proxied":true,"Resolvers":[],"Routes":{}},"Domain":"tail.example","Node":{"Addresses":["100.64.0.1/32","fd7a:115c:a1e0::1/128"],"AllowedIPs":["100.64.0.1/32","fd7a:115c:a1e0::1/128"],"Created":"2001-09-09T01:46:40Z","DiscoKey":"discokey:%0","Endpoints":[],"HomeDERP":0,"Hostinfo":{"Hostname":"one"},"ID":1,"Key":"nodekey:%a","KeyExpiry":"0001-01-01T00:00:00Z","Machine":"mkey:%1","MachineAuthorized":true,"Name":"one.tail.example.","Online":false,"StableID":"n1","Tags":[],"User":1},"PacketFilter":[{"DstPorts":[{"IP":"100.64.0.1","Ports":{"First":0,"Last":65535}},{"IP":"fd7a:115c:a1e0::1","Ports":{"First":0,"Last":65535}}],"IPProto":[1,6,17,58],"SrcIPs":["*"]}],"Peers":[{"Addresses":["100.64.0.2/32","fd7a:115c:a1e0::2/128"],"AllowedIPs":["100.64.0.2/32","fd7a:115c:a1e0::2/128"],"Created":"2001-09-09T01:46:40Z","DiscoKey":"discokey:%d","Endpoints":["192.0.2.7:41641","[2001:db8::1]:41641"],"HomeDERP":7,"Hostinfo":{"Hostname":"three"},"ID":2,"Key":"nodekey:%b","KeyExpiry":"0001-01-01T00:00:00Z","Machine":"mkey:%2","MachineAuthorized":true,"Name":"two.tail.example.","Online":false,"StableID":"n2","Tags":[],"User":2}],"UserProfiles":[{"DisplayName":"seed","ID":1,"LoginName":"seed@"},{"DisplayName":"ann","ID":2,"LoginName":"ann@"}]}
> POST /machine/map mkey:%2 {"NodeKey":"nodekey:%b","OmitPeers":true,"Hostinfo":{"NetInfo":{}}}
< 200
> POST /machine/map mkey:%2 {"NodeKey":"nodekey:%b","OmitPeers":true,"ReadOnly":true,"Endpoints":["192.0.2.7:41641"]}
< 200 #{"DNSConfig":{"Domains":["tail.example"],"ExtraRecords":[],"Proxied":true,"Resolvers":[],"Routes":{}},"Domain":"tail.example","Node":{"Addresses":["100.64.0.2/32","fd7a:115c:a1e0::2/128"],"AllowedIPs":["100.64.0.2/32","fd7a:115c:a1e0::2/128"],"Created":"2001-09-09T01:46:40Z","DiscoKey":"discokey:%d","Endpoints":[],"HomeDERP":0,"Hostinfo":{"Hostname":"three"},"ID":2,"Key":"nodekey:%b","KeyExpiry":"0001-01-01T00:00:00Z","Machine":"mkey:%2","MachineAuthorized":true,"Name":"two.tail.example.","Online":false,"StableID":"n2","Tags":[],"User":2},"PacketFilter":[{"DstPorts":[{"IP":"100.64.0.2","Ports":{"First":0,"Last":65535}},{"IP":"fd7a:115c:a1e0::2","Ports":{"First":0,"Last":65535}}],"IPProto":[1,6,17,58],"SrcIPs":["*"]}],"Peers":[{"Addresses":["100.64.0.1/32","fd7a:115c:a1e0::1/128"],"AllowedIPs":["100.64.0.1/32","fd7a:115c:a1e0::1/128"],"Created":"2001-09-09T01:46:40Z","DiscoKey":"discokey:%0","Endpoints":[],"HomeDERP":0,"Hostinfo":{"Hostname":"one"},"ID":1,"Key":"nodekey:%a","KeyExpiry":"0001-01-01T00:00:00Z","Machine":"mkey:%1","MachineAuthorized":true,"Name":"one.tail.example.","Online":false,"StableID":"n1","Tags":[],"User":1}],"UserProfiles":[{"DisplayName":"seed","ID":1,"LoginName":"seed@"},{"DisplayName":"ann","ID":2,"LoginName":"ann@"}]}
> GET /api/v1/node Bearer/secret
< 200 {"nodes":[{"addresses":["100.64.0.1","fd7a:115c:a1e0::1"],"advertised":[],"approved":[],"expiry":"0001-01-01T00:00:00Z","id":1,"live":true,"name":"one","online":false,"served":[],"tags":[],"user":"seed@"},{"addresses":["100.64.0.2","fd7a:115c:a1e0::2"],"advertised":[],"approved":[],"expiry":"0001-01-01T00:00:00Z","id":2,"live":true,"name":"two","online":false,"served":[],"tags":[],"user":"ann@"}]}
= map-with-an-update
> POST /machine/register mkey:%1 {"Auth":{"AuthKey":"k1"},"NodeKey":"nodekey:%a"}
< registered
> POST /machine/map mkey:%1 {"NodeKey":"nodekey:%a","Endpoints":["192.0.2.7:41641"]}
< 200 #{"DNSConfig":{"Domains":["tail.example"],"ExtraRecords":[],"Proxied":true,"Resolvers":[],"Routes":{}},"Domain":"tail.example","Node":{"Addresses":["100.64.0.1/32","fd7a:115c:a1e0::1/128"],"AllowedIPs":["100.64.0.1/32","fd7a:115c:a1e0::1/128"],"Created":"2001-09-09T01:46:40Z","DiscoKey":"discokey:%0","Endpoints":["192.0.2.7:41641"],"HomeDERP":0,"Hostinfo":{"Hostname":""},"ID":1,"Key":"nodekey:%a","KeyExpiry":"0001-01-01T00:00:00Z","Machine":"mkey:%1","MachineAuthorized":true,"Name":"node.tail.example.","Online":false,"StableID":"n1","Tags":[],"User":1},"PacketFilter":[{"DstPorts":[{"IP":"100.64.0.1","Ports":{"First":0,"Last":65535}},{"IP":"fd7a:115c:a1e0::1","Ports":{"First":0,"Last":65535}}],"IPProto":[1,6,17,58],"SrcIPs":["*"]}],"UserProfiles":[{"DisplayName":"seed","ID":1,"LoginName":"seed@"}]}
= admission-of-a-machine-that-has-a-row
> POST /machine/register mkey:%1 {"Auth":{"AuthKey":"k1"},"NodeKey":"nodekey:%a","Hostinfo":{"Hostname":"one"}}
< registered
> POST /api/v1/user Bearer/secret {"name":"ann"}
< 200 {"id":2,"login":"ann@"}
> POST /machine/register mkey:%1 {"NodeKey":"nodekey:%b","Hostinfo":{"Hostname":"two","RoutableIPs":["10.0.0.0/8"]},"Ephemeral":true,"Expiry":"2001-09-09T01:48:20Z"}
< 200 {"AuthURL":"http://tail.example/register/reg-1-00000000000000010000000000000002","Error":"","Login":{"ID":0,"LoginName":""},"MachineAuthorized":false,"NodeKeyExpired":false,"User":{"DisplayName":"","ID":0}}
> GET /api/v1/register Bearer/secret
< 200 {"pending":[{"host":"two","id":"reg-1-00000000000000010000000000000002","machine":"mkey:%1","node":"nodekey:%b"}]}
> POST /api/v1/register Bearer/secret {"id":"reg-1-00000000000000010000000000000002","user":"Ann@"}
< 200 {"addresses":["100.64.0.1","fd7a:115c:a1e0::1"],"advertised":["10.0.0.0/8"],"approved":[],"expiry":"2001-09-09T01:48:20Z","id":1,"live":true,"name":"one","online":false,"served":[],"tags":[],"user":"ann@"}
> GET /api/v1/register Bearer/secret
< 200 {"pending":[]}
> POST /machine/map mkey:%1 {"NodeKey":"nodekey:%b"}
< 200 #{"DNSConfig":{"Domains":["tail.example"],"ExtraRecords":[],"Proxied":true,"Resolvers":[],"Routes":{}},"Domain":"tail.example","Node":{"Addresses":["100.64.0.1/32","fd7a:115c:a1e0::1/128"],"AllowedIPs":["100.64.0.1/32","fd7a:115c:a1e0::1/128"],"Created":"2001-09-09T01:46:40Z","DiscoKey":"discokey:%0","Endpoints":[],"HomeDERP":0,"Hostinfo":{"Hostname":"two"},"ID":1,"Key":"nodekey:%b","KeyExpiry":"2001-09-09T01:48:20Z","Machine":"mkey:%1","MachineAuthorized":true,"Name":"one.tail.example.","Online":false,"StableID":"n1","Tags":[],"User":2},"PacketFilter":[{"DstPorts":[{"IP":"100.64.0.1","Ports":{"First":0,"Last":65535}},{"IP":"fd7a:115c:a1e0::1","Ports":{"First":0,"Last":65535}}],"IPProto":[1,6,17,58],"SrcIPs":["*"]}],"UserProfiles":[{"DisplayName":"ann","ID":2,"LoginName":"ann@"}]}"#;
