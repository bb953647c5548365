//! Conversations that are held through `pipe` here, and through a listener by tests of `serve`.

/// Worked conversations, byte for byte.
pub const WORKED: &str = r#"= first-registration
> POST /machine/register mkey:%1 {"Auth":{"AuthKey":"k1"},"Hostinfo":{"Hostname":"Alice's MacBook Pro!"},"NodeKey":"nodekey:%a"}
< registered
= first-map
> POST /machine/register mkey:%1 {"Auth":{"AuthKey":"k1"},"Hostinfo":{"Hostname":"Alice's MacBook Pro!"},"NodeKey":"nodekey:%a"}
< registered
> POST /machine/map mkey:%1 {"NodeKey":"nodekey:%a","OmitPeers":false,"Stream":false}
< 200 #{"DNSConfig":{"Domains":["tail.example"],"ExtraRecords":[],"Proxied":true,"Resolvers":[],"Routes":{}},"Domain":"tail.example","Node":{"Addresses":["100.64.0.1/32","fd7a:115c:a1e0::1/128"],"AllowedIPs":["100.64.0.1/32","fd7a:115c:a1e0::1/128"],"Created":"2001-09-09T01:46:40Z","DiscoKey":"discokey:%0","Endpoints":[],"HomeDERP":0,"Hostinfo":{"Hostname":"Alice's MacBook Pro!"},"ID":1,"Key":"nodekey:%a","KeyExpiry":"0001-01-01T00:00:00Z","Machine":"mkey:%1","MachineAuthorized":true,"Name":"alice-s-macbook-pro.tail.example.","Online":false,"StableID":"n1","Tags":[],"User":1},"PacketFilter":[{"DstPorts":[{"IP":"100.64.0.1","Ports":{"First":0,"Last":65535}},{"IP":"fd7a:115c:a1e0::1","Ports":{"First":0,"Last":65535}}],"IPProto":[1,6,17,58],"SrcIPs":["*"]}],"UserProfiles":[{"DisplayName":"seed","ID":1,"LoginName":"seed@"}]}
> POST /machine/map mkey:%1 {"NodeKey":"nodekey:%a","OmitPeers":true,"ReadOnly":true,"Stream":false}
< 200 #{"DNSConfig":{"Domains":["tail.example"],"ExtraRecords":[],"Proxied":true,"Resolvers":[],"Routes":{}},"Domain":"tail.example","Node":{"Addresses":["100.64.0.1/32","fd7a:115c:a1e0::1/128"],"AllowedIPs":["100.64.0.1/32","fd7a:115c:a1e0::1/128"],"Created":"2001-09-09T01:46:40Z","DiscoKey":"discokey:%0","Endpoints":[],"HomeDERP":0,"Hostinfo":{"Hostname":"Alice's MacBook Pro!"},"ID":1,"Key":"nodekey:%a","KeyExpiry":"0001-01-01T00:00:00Z","Machine":"mkey:%1","MachineAuthorized":true,"Name":"alice-s-macbook-pro.tail.example.","Online":false,"StableID":"n1","Tags":[],"User":1},"PacketFilter":[{"DstPorts":[{"IP":"100.64.0.1","Ports":{"First":0,"Last":65535}},{"IP":"fd7a:115c:a1e0::1","Ports":{"First":0,"Last":65535}}],"IPProto":[1,6,17,58],"SrcIPs":["*"]}],"UserProfiles":[{"DisplayName":"seed","ID":1,"LoginName":"seed@"}]}
= map-bytes
> POST /machine/register mkey:%1 {"Auth":{"AuthKey":"k1"},"NodeKey":"nodekey:%a"}
< registered
> POST /machine/map mkey:%1 {"NodeKey":"nodekey:%a","OmitPeers":false,"Stream":false}
< 200 #{"DNSConfig":{"Domains":["tail.example"],"ExtraRecords":[],"Proxied":true,"Resolvers":[],"Routes":{}},"Domain":"tail.example","Node":{"Addresses":["100.64.0.1/32","fd7a:115c:a1e0::1/128"],"AllowedIPs":["100.64.0.1/32","fd7a:115c:a1e0::1/128"],"Created":"2001-09-09T01:46:40Z","DiscoKey":"discokey:%0","Endpoints":[],"HomeDERP":0,"Hostinfo":{"Hostname":""},"ID":1,"Key":"nodekey:%a","KeyExpiry":"0001-01-01T00:00:00Z","Machine":"mkey:%1","MachineAuthorized":true,"Name":"node.tail.example.","Online":false,"StableID":"n1","Tags":[],"User":1},"PacketFilter":[{"DstPorts":[{"IP":"100.64.0.1","Ports":{"First":0,"Last":65535}},{"IP":"fd7a:115c:a1e0::1","Ports":{"First":0,"Last":65535}}],"IPProto":[1,6,17,58],"SrcIPs":["*"]}],"UserProfiles":[{"DisplayName":"seed","ID":1,"LoginName":"seed@"}]}
= map-with-dns
: dns.magic = false
: dns.resolvers = ["192.0.2.53", "2001:db8::53"]
: dns.routes = { "corp.example" = ["192.0.2.1"], "b.example" = [] }
: dns.search = ["corp.example", "tail.example"]
> POST /machine/register mkey:%1 {"Auth":{"AuthKey":"k1"},"NodeKey":"nodekey:%a"}
< registered
> POST /machine/map mkey:%1 {"NodeKey":"nodekey:%a","OmitPeers":false,"Stream":false}
< 200 #{"DNSConfig":{"Domains":["corp.example","tail.example"],"ExtraRecords":[],"Proxied":false,"Resolvers":[{"Addr":"192.0.2.53"},{"Addr":"2001:db8::53"}],"Routes":{"b.example":[],"corp.example":[{"Addr":"192.0.2.1"}]}},"Domain":"tail.example","Node":{"Addresses":["100.64.0.1/32","fd7a:115c:a1e0::1/128"],"AllowedIPs":["100.64.0.1/32","fd7a:115c:a1e0::1/128"],"Created":"2001-09-09T01:46:40Z","DiscoKey":"discokey:%0","Endpoints":[],"HomeDERP":0,"Hostinfo":{"Hostname":""},"ID":1,"Key":"nodekey:%a","KeyExpiry":"0001-01-01T00:00:00Z","Machine":"mkey:%1","MachineAuthorized":true,"Name":"node.tail.example.","Online":false,"StableID":"n1","Tags":[],"User":1},"PacketFilter":[{"DstPorts":[{"IP":"100.64.0.1","Ports":{"First":0,"Last":65535}},{"IP":"fd7a:115c:a1e0::1","Ports":{"First":0,"Last":65535}}],"IPProto":[1,6,17,58],"SrcIPs":["*"]}],"UserProfiles":[{"DisplayName":"seed","ID":1,"LoginName":"seed@"}]}
= map-unknown-machine
> POST /machine/register mkey:%1 {"Auth":{"AuthKey":"k1"},"NodeKey":"nodekey:%a"}
< registered
> POST /machine/map mkey:%1 {"NodeKey":"nodekey:%b","OmitPeers":false,"Stream":false}
< 401 {"error":"UnknownMachine"}
= numbered-names
> POST /machine/register mkey:%1 {"Auth":{"AuthKey":"k1"},"Hostinfo":{"Hostname":"Alice's MacBook Pro!"},"NodeKey":"nodekey:%a"}
< registered
> POST /machine/register mkey:%2 {"Auth":{"AuthKey":"k1"},"Hostinfo":{"Hostname":"Alice's MacBook Pro!"},"NodeKey":"nodekey:%b"}
< registered
> POST /machine/register mkey:%3 {"Auth":{"AuthKey":"k1"},"Hostinfo":{"Hostname":"aaaaaaaaaaaaaaaaaaaaaaaaaaaaaaaaaaaaaaaaaaaaaaaaaaaaaaaaaaaa-bb"},"NodeKey":"nodekey:%c"}
< registered
> POST /machine/register mkey:%4 {"Auth":{"AuthKey":"k1"},"Hostinfo":{"Hostname":"aaaaaaaaaaaaaaaaaaaaaaaaaaaaaaaaaaaaaaaaaaaaaaaaaaaaaaaaaaaa-bb"},"NodeKey":"nodekey:%d"}
< registered
= single-use-key
> POST /machine/register mkey:%1 {"Auth":{"AuthKey":"k1"},"Hostinfo":{"Hostname":"Alice's MacBook Pro!"},"NodeKey":"nodekey:%a"}
< registered
> POST /api/v1/preauthkey Bearer/secret {"user":"seed@","reusable":false}
< 200 {"ephemeral":false,"expiry":"0001-01-01T00:00:00Z","id":2,"key":"tnkey-2-0000000000000001000000000000000200000000000000030000000000000004","reusable":false,"tags":[],"used":false,"user":"seed@"}
> POST /machine/register mkey:%2 {"Auth":{"AuthKey":"tnkey-2-0000000000000001000000000000000200000000000000030000000000000004"},"NodeKey":"nodekey:%b"}
< registered
> POST /machine/register mkey:%2 {"Auth":{"AuthKey":"tnkey-2-0000000000000001000000000000000200000000000000030000000000000004"},"NodeKey":"nodekey:%b"}
< registered
> POST /machine/register mkey:%3 {"Auth":{"AuthKey":"tnkey-2-0000000000000001000000000000000200000000000000030000000000000004"},"NodeKey":"nodekey:%c"}
< 401 {"error":"KeyUsed"}
= small-prefix
: prefix_v4 = "100.64.0.0/30"
> POST /machine/register mkey:%1 {"Auth":{"AuthKey":"k1"},"NodeKey":"nodekey:%a"}
< registered
> POST /machine/register mkey:%2 {"Auth":{"AuthKey":"k1"},"NodeKey":"nodekey:%b"}
< registered
> POST /machine/register mkey:%3 {"Auth":{"AuthKey":"k1"},"NodeKey":"nodekey:%c"}
< 507 {"error":"AddressesSpent","family":4}
> GET /api/v1/node Bearer/secret
< 200 {"nodes":[{"addresses":["100.64.0.1","fd7a:115c:a1e0::1"],"advertised":[],"approved":[],"expiry":"0001-01-01T00:00:00Z","id":1,"live":true,"name":"node","online":false,"served":[],"tags":[],"user":"seed@"},{"addresses":["100.64.0.2","fd7a:115c:a1e0::2"],"advertised":[],"approved":[],"expiry":"0001-01-01T00:00:00Z","id":2,"live":true,"name":"node-1","online":false,"served":[],"tags":[],"user":"seed@"}]}
= waiting-for-admission
> POST /machine/register mkey:%4 {"NodeKey":"nodekey:%d"}
< 200 {"AuthURL":"http://tail.example/register/reg-1-00000000000000010000000000000002","Error":"","Login":{"ID":0,"LoginName":""},"MachineAuthorized":false,"NodeKeyExpired":false,"User":{"DisplayName":"","ID":0}}
> POST /machine/register mkey:%4 {"NodeKey":"nodekey:%d"}
< 200 {"AuthURL":"http://tail.example/register/reg-1-00000000000000010000000000000002","Error":"","Login":{"ID":0,"LoginName":""},"MachineAuthorized":false,"NodeKeyExpired":false,"User":{"DisplayName":"","ID":0}}
> POST /api/v1/register Bearer/secret {"id":"reg-1-00000000000000010000000000000002","user":"seed@"}
< 200 {"addresses":["100.64.0.1","fd7a:115c:a1e0::1"],"advertised":[],"approved":[],"expiry":"0001-01-01T00:00:00Z","id":1,"live":true,"name":"node","online":false,"served":[],"tags":[],"user":"seed@"}
> POST /machine/register mkey:%4 {"NodeKey":"nodekey:%d"}
< registered
> POST /api/v1/register Bearer/secret {"id":"reg-9-x","user":"seed@"}
< 404 {"error":"PendingUnknown"}
= filter-of-two-sources
> POST /machine/register mkey:%1 {"Auth":{"AuthKey":"k1"},"NodeKey":"nodekey:%a"}
< registered
> PUT /api/v1/policy Bearer/secret {"acls":[{"action":"accept","src":["100.64.0.2","100.64.0.3"],"dst":["100.64.0.1:22,80-90,85-100"]}]}
< 200 {}
> POST /machine/map mkey:%1 {"NodeKey":"nodekey:%a","OmitPeers":false,"Stream":false}
< 200 #{"DNSConfig":{"Domains":["tail.example"],"ExtraRecords":[],"Proxied":true,"Resolvers":[],"Routes":{}},"Domain":"tail.example","Node":{"Addresses":["100.64.0.1/32","fd7a:115c:a1e0::1/128"],"AllowedIPs":["100.64.0.1/32","fd7a:115c:a1e0::1/128"],"Created":"2001-09-09T01:46:40Z","DiscoKey":"discokey:%0","Endpoints":[],"HomeDERP":0,"Hostinfo":{"Hostname":""},"ID":1,"Key":"nodekey:%a","KeyExpiry":"0001-01-01T00:00:00Z","Machine":"mkey:%1","MachineAuthorized":true,"Name":"node.tail.example.","Online":false,"StableID":"n1","Tags":[],"User":1},"PacketFilter":[{"DstPorts":[{"IP":"100.64.0.1","Ports":{"First":22,"Last":22}},{"IP":"100.64.0.1","Ports":{"First":80,"Last":100}}],"IPProto":[1,6,17,58],"SrcIPs":["100.64.0.2/31"]}],"UserProfiles":[{"DisplayName":"seed","ID":1,"LoginName":"seed@"}]}
= self-filter
> POST /api/v1/user Bearer/secret {"name":"ann"}
< 200 {"id":2,"login":"ann@"}
> POST /api/v1/user Bearer/secret {"name":"bob"}
< 200 {"id":3,"login":"bob@"}
> PUT /api/v1/policy Bearer/secret {"tagOwners":{"tag:srv":["ann@"]},"acls":[{"action":"accept","src":["autogroup:member"],"dst":["autogroup:self:*"]}]}
< 200 {}
> POST /api/v1/preauthkey Bearer/secret {"user":"ann@","reusable":true}
< 200 {"ephemeral":false,"expiry":"0001-01-01T00:00:00Z","id":2,"key":"tnkey-2-0000000000000001000000000000000200000000000000030000000000000004","reusable":true,"tags":[],"used":false,"user":"ann@"}
> POST /api/v1/preauthkey Bearer/secret {"user":"bob@","reusable":true}
< 200 {"ephemeral":false,"expiry":"0001-01-01T00:00:00Z","id":3,"key":"tnkey-3-0000000000000001000000000000000200000000000000030000000000000004","reusable":true,"tags":[],"used":false,"user":"bob@"}
> POST /machine/register mkey:%1 {"Auth":{"AuthKey":"tnkey-2-0000000000000001000000000000000200000000000000030000000000000004"},"NodeKey":"nodekey:%a"}
< 200 {"AuthURL":"","Error":"","Login":{"ID":2,"LoginName":"ann@"},"MachineAuthorized":true,"NodeKeyExpired":false,"User":{"DisplayName":"ann","ID":2}}
> POST /machine/register mkey:%2 {"Auth":{"AuthKey":"tnkey-2-0000000000000001000000000000000200000000000000030000000000000004"},"NodeKey":"nodekey:%b"}
< 200 {"AuthURL":"","Error":"","Login":{"ID":2,"LoginName":"ann@"},"MachineAuthorized":true,"NodeKeyExpired":false,"User":{"DisplayName":"ann","ID":2}}
> POST /machine/register mkey:%3 {"Auth":{"AuthKey":"tnkey-2-0000000000000001000000000000000200000000000000030000000000000004"},"Hostinfo":{"RequestTags":["tag:srv"]},"NodeKey":"nodekey:%c"}
< 200 {"AuthURL":"","Error":"","Login":{"ID":2,"LoginName":"ann@"},"MachineAuthorized":true,"NodeKeyExpired":false,"User":{"DisplayName":"ann","ID":2}}
> POST /machine/register mkey:%4 {"Auth":{"AuthKey":"tnkey-3-0000000000000001000000000000000200000000000000030000000000000004"},"NodeKey":"nodekey:%d"}
< 200 {"AuthURL":"","Error":"","Login":{"ID":3,"LoginName":"bob@"},"MachineAuthorized":true,"NodeKeyExpired":false,"User":{"DisplayName":"bob","ID":3}}
> POST /machine/map mkey:%1 {"NodeKey":"nodekey:%a","OmitPeers":false,"Stream":false}
< 200 #{"DNSConfig":{"Domains":["tail.example"],"ExtraRecords":[],"Proxied":true,"Resolvers":[],"Routes":{}},"Domain":"tail.example","Node":{"Addresses":["100.64.0.1/32","fd7a:115c:a1e0::1/128"],"AllowedIPs":["100.64.0.1/32","fd7a:115c:a1e0::1/128"],"Created":"2001-09-09T01:46:40Z","DiscoKey":"discokey:%0","Endpoints":[],"HomeDERP":0,"Hostinfo":{"Hostname":""},"ID":1,"Key":"nodekey:%a","KeyExpiry":"0001-01-01T00:00:00Z","Machine":"mkey:%1","MachineAuthorized":true,"Name":"node.tail.example.","Online":false,"StableID":"n1","Tags":[],"User":2},"PacketFilter":[{"DstPorts":[{"IP":"100.64.0.1","Ports":{"First":0,"Last":65535}},{"IP":"fd7a:115c:a1e0::1","Ports":{"First":0,"Last":65535}}],"IPProto":[1,6,17,58],"SrcIPs":["100.64.0.1","100.64.0.2","fd7a:115c:a1e0::1","fd7a:115c:a1e0::2"]}],"Peers":[{"Addresses":["100.64.0.2/32","fd7a:115c:a1e0::2/128"],"AllowedIPs":["100.64.0.2/32","fd7a:115c:a1e0::2/128"],"Created":"2001-09-09T01:46:40Z","DiscoKey":"discokey:%0","Endpoints":[],"HomeDERP":0,"Hostinfo":{"Hostname":""},"ID":2,"Key":"nodekey:%b","KeyExpiry":"0001-01-01T00:00:00Z","Machine":"mkey:%2","MachineAuthorized":true,"Name":"node-1.tail.example.","Online":false,"StableID":"n2","Tags":[],"User":2}],"UserProfiles":[{"DisplayName":"ann","ID":2,"LoginName":"ann@"}]}
> POST /machine/map mkey:%3 {"NodeKey":"nodekey:%c","OmitPeers":false,"Stream":false}
< 200 #{"DNSConfig":{"Domains":["tail.example"],"ExtraRecords":[],"Proxied":true,"Resolvers":[],"Routes":{}},"Domain":"tail.example","Node":{"Addresses":["100.64.0.3/32","fd7a:115c:a1e0::3/128"],"AllowedIPs":["100.64.0.3/32","fd7a:115c:a1e0::3/128"],"Created":"2001-09-09T01:46:40Z","DiscoKey":"discokey:%0","Endpoints":[],"HomeDERP":0,"Hostinfo":{"Hostname":""},"ID":3,"Key":"nodekey:%c","KeyExpiry":"0001-01-01T00:00:00Z","Machine":"mkey:%3","MachineAuthorized":true,"Name":"node-2.tail.example.","Online":false,"StableID":"n3","Tags":["tag:srv"],"User":2147483647},"PacketFilter":[],"UserProfiles":[{"DisplayName":"Tagged Devices","ID":2147483647,"LoginName":"tagged-devices"}]}
= closed-map
> POST /machine/register mkey:%1 {"Auth":{"AuthKey":"k1"},"NodeKey":"nodekey:%a"}
< registered
> POST /machine/register mkey:%2 {"Auth":{"AuthKey":"k1"},"NodeKey":"nodekey:%b"}
< registered
> PUT /api/v1/policy Bearer/secret {"acls":[]}
< 200 {}
> POST /machine/map mkey:%1 {"NodeKey":"nodekey:%a","OmitPeers":false,"Stream":false}
< 200 #{"DNSConfig":{"Domains":["tail.example"],"ExtraRecords":[],"Proxied":true,"Resolvers":[],"Routes":{}},"Domain":"tail.example","Node":{"Addresses":["100.64.0.1/32","fd7a:115c:a1e0::1/128"],"AllowedIPs":["100.64.0.1/32","fd7a:115c:a1e0::1/128"],"Created":"2001-09-09T01:46:40Z","DiscoKey":"discokey:%0","Endpoints":[],"HomeDERP":0,"Hostinfo":{"Hostname":""},"ID":1,"Key":"nodekey:%a","KeyExpiry":"0001-01-01T00:00:00Z","Machine":"mkey:%1","MachineAuthorized":true,"Name":"node.tail.example.","Online":false,"StableID":"n1","Tags":[],"User":1},"PacketFilter":[],"UserProfiles":[{"DisplayName":"seed","ID":1,"LoginName":"seed@"}]}
= one-way-map
> POST /machine/register mkey:%1 {"Auth":{"AuthKey":"k1"},"NodeKey":"nodekey:%a"}
< registered
> POST /machine/register mkey:%2 {"Auth":{"AuthKey":"k1"},"NodeKey":"nodekey:%b"}
< registered
> POST /machine/register mkey:%3 {"Auth":{"AuthKey":"k1"},"NodeKey":"nodekey:%c"}
< registered
> PUT /api/v1/policy Bearer/secret {"acls":[{"action":"accept","src":["100.64.0.2","100.64.0.3"],"dst":["100.64.0.1:22,80-90,85-100"]}]}
< 200 {}
> POST /machine/map mkey:%2 {"NodeKey":"nodekey:%b","OmitPeers":false,"Stream":false}
< 200 #{"DNSConfig":{"Domains":["tail.example"],"ExtraRecords":[],"Proxied":true,"Resolvers":[],"Routes":{}},"Domain":"tail.example","Node":{"Addresses":["100.64.0.2/32","fd7a:115c:a1e0::2/128"],"AllowedIPs":["100.64.0.2/32","fd7a:115c:a1e0::2/128"],"Created":"2001-09-09T01:46:40Z","DiscoKey":"discokey:%0","Endpoints":[],"HomeDERP":0,"Hostinfo":{"Hostname":""},"ID":2,"Key":"nodekey:%b","KeyExpiry":"0001-01-01T00:00:00Z","Machine":"mkey:%2","MachineAuthorized":true,"Name":"node-1.tail.example.","Online":false,"StableID":"n2","Tags":[],"User":1},"PacketFilter":[],"Peers":[{"Addresses":["100.64.0.1/32","fd7a:115c:a1e0::1/128"],"AllowedIPs":["100.64.0.1/32","fd7a:115c:a1e0::1/128"],"Created":"2001-09-09T01:46:40Z","DiscoKey":"discokey:%0","Endpoints":[],"HomeDERP":0,"Hostinfo":{"Hostname":""},"ID":1,"Key":"nodekey:%a","KeyExpiry":"0001-01-01T00:00:00Z","Machine":"mkey:%1","MachineAuthorized":true,"Name":"node.tail.example.","Online":false,"StableID":"n1","Tags":[],"User":1}],"UserProfiles":[{"DisplayName":"seed","ID":1,"LoginName":"seed@"}]}
= compressed-refused
> POST /machine/register mkey:%1 {"Auth":{"AuthKey":"k1"},"NodeKey":"nodekey:%a"}
< registered
> POST /machine/map mkey:%1 {"Compress":"zstd","NodeKey":"nodekey:%a","OmitPeers":false,"Stream":false}
< 400 {"error":"Compressed"}
> POST /machine/map mkey:%1 {"NodeKey":"nodekey:%a","OmitPeers":false,"Stream":false}
= born-expired
> POST /machine/register mkey:%1 {"Auth":{"AuthKey":"k1"},"NodeKey":"nodekey:%a"}
< registered
> POST /machine/register mkey:%1 {"Auth":{"AuthKey":"k1"},"Expiry":"1970-01-01T00:00:01Z","NodeKey":"nodekey:%a"}
< 200 {"AuthURL":"","Error":"","Login":{"ID":1,"LoginName":"seed@"},"MachineAuthorized":true,"NodeKeyExpired":true,"User":{"DisplayName":"seed","ID":1}}
> POST /machine/map mkey:%1 {"NodeKey":"nodekey:%a","OmitPeers":false,"Stream":false}
< 401 {"error":"NotLive"}
= user-added
> POST /api/v1/user Bearer/secret {"name":"Ann"}
< 200 {"id":2,"login":"ann@"}
> POST /api/v1/user Bearer/secret {"name":"Ann"}
< 409 {"error":"NameTaken"}
> GET /api/v1/user Bearer/secret
< 200 {"users":[{"id":1,"login":"seed@"},{"id":2,"login":"ann@"}]}
= user-has-machines
> POST /machine/register mkey:%1 {"Auth":{"AuthKey":"k1"},"Hostinfo":{"Hostname":"Alice's MacBook Pro!"},"NodeKey":"nodekey:%a"}
< registered
> DELETE /api/v1/user/seed@ Bearer/secret
< 409 {"error":"UserHasMachines"}
= bad-token
> GET /api/v1/user Bearer/x
< 401 {"error":"BadToken"}
= bad-method
> PUT /machine/map - {}
< 405 {"error":"BadMethod"}
= node-list
> POST /machine/register mkey:%1 {"Auth":{"AuthKey":"k1"},"Hostinfo":{"Hostname":"Alice's MacBook Pro!"},"NodeKey":"nodekey:%a"}
< registered
> GET /api/v1/node Bearer/secret
< 200 {"nodes":[{"addresses":["100.64.0.1","fd7a:115c:a1e0::1"],"advertised":[],"approved":[],"expiry":"0001-01-01T00:00:00Z","id":1,"live":true,"name":"alice-s-macbook-pro","online":false,"served":[],"tags":[],"user":"seed@"}]}
> GET /api/v1/preauthkey Bearer/secret
< 200 {"keys":[{"ephemeral":false,"expiry":"0001-01-01T00:00:00Z","id":1,"key":"k1","reusable":true,"tags":[],"used":true,"user":"seed@"}]}
= long-body
> POST /machine/register - *1048577
< 413 {"error":"BodyTooLong"}
= every-path
> POST /machine/register mkey:%1 {"Auth":{"AuthKey":"k1"},"Hostinfo":{"Hostname":"Alice's MacBook Pro!"},"NodeKey":"nodekey:%a"}
< registered
> POST /machine/map mkey:%1 {"NodeKey":"nodekey:%a"}
< 200 #{"DNSConfig":{"Domains":["tail.example"],"ExtraRecords":[],"Proxied":true,"Resolvers":[],"Routes":{}},"Domain":"tail.example","Node":{"Addresses":["100.64.0.1/32","fd7a:115c:a1e0::1/128"],"AllowedIPs":["100.64.0.1/32","fd7a:115c:a1e0::1/128"],"Created":"2001-09-09T01:46:40Z","DiscoKey":"discokey:%0","Endpoints":[],"HomeDERP":0,"Hostinfo":{"Hostname":"Alice's MacBook Pro!"},"ID":1,"Key":"nodekey:%a","KeyExpiry":"0001-01-01T00:00:00Z","Machine":"mkey:%1","MachineAuthorized":true,"Name":"alice-s-macbook-pro.tail.example.","Online":false,"StableID":"n1","Tags":[],"User":1},"PacketFilter":[{"DstPorts":[{"IP":"100.64.0.1","Ports":{"First":0,"Last":65535}},{"IP":"fd7a:115c:a1e0::1","Ports":{"First":0,"Last":65535}}],"IPProto":[1,6,17,58],"SrcIPs":["*"]}],"UserProfiles":[{"DisplayName":"seed","ID":1,"LoginName":"seed@"}]}
> POST /api/v1/user Bearer/secret {"name":"Ann"}
< 200 {"id":2,"login":"ann@"}
> GET /api/v1/user Bearer/secret
< 200 {"users":[{"id":1,"login":"seed@"},{"id":2,"login":"ann@"}]}
> POST /api/v1/preauthkey Bearer/secret {"user":"ann@","reusable":true,"expiry":"2002-01-01T00:00:00Z"}
< 200 {"ephemeral":false,"expiry":"2002-01-01T00:00:00Z","id":2,"key":"tnkey-2-0000000000000001000000000000000200000000000000030000000000000004","reusable":true,"tags":[],"used":false,"user":"ann@"}
> GET /api/v1/preauthkey Bearer/secret
< 200 {"keys":[{"ephemeral":false,"expiry":"0001-01-01T00:00:00Z","id":1,"key":"k1","reusable":true,"tags":[],"used":true,"user":"seed@"},{"ephemeral":false,"expiry":"2002-01-01T00:00:00Z","id":2,"key":"tnkey-2-0000000000000001000000000000000200000000000000030000000000000004","reusable":true,"tags":[],"used":false,"user":"ann@"}]}
> DELETE /api/v1/preauthkey/2 Bearer/secret
< 200 {}
> POST /machine/register mkey:%2 {"Hostinfo":{"Hostname":"desktop"},"NodeKey":"nodekey:%b"}
< 200 {"AuthURL":"http://tail.example/register/reg-1-00000000000000010000000000000002","Error":"","Login":{"ID":0,"LoginName":""},"MachineAuthorized":false,"NodeKeyExpired":false,"User":{"DisplayName":"","ID":0}}
> GET /api/v1/register Bearer/secret
< 200 {"pending":[{"host":"desktop","id":"reg-1-00000000000000010000000000000002","machine":"mkey:%2","node":"nodekey:%b"}]}
> POST /api/v1/register Bearer/secret {"id":"reg-1-00000000000000010000000000000002","user":"ann@"}
< 200 {"addresses":["100.64.0.2","fd7a:115c:a1e0::2"],"advertised":[],"approved":[],"expiry":"0001-01-01T00:00:00Z","id":2,"live":true,"name":"desktop","online":false,"served":[],"tags":[],"user":"ann@"}
> GET /api/v1/node Bearer/secret
< 200 {"nodes":[{"addresses":["100.64.0.1","fd7a:115c:a1e0::1"],"advertised":[],"approved":[],"expiry":"0001-01-01T00:00:00Z","id":1,"live":true,"name":"alice-s-macbook-pro","online":false,"served":[],"tags":[],"user":"seed@"},{"addresses":["100.64.0.2","fd7a:115c:a1e0::2"],"advertised":[],"approved":[],"expiry":"0001-01-01T00:00:00Z","id":2,"live":true,"name":"desktop","online":false,"served":[],"tags":[],"user":"ann@"}]}
> POST /api/v1/node/2/rename Bearer/secret {"name":"workshop"}
< 200 {"addresses":["100.64.0.2","fd7a:115c:a1e0::2"],"advertised":[],"approved":[],"expiry":"0001-01-01T00:00:00Z","id":2,"live":true,"name":"workshop","online":false,"served":[],"tags":[],"user":"ann@"}
> POST /api/v1/node/2/expire Bearer/secret {"expiry":"2001-12-31T23:00:00-01:00"}
< 200 {"addresses":["100.64.0.2","fd7a:115c:a1e0::2"],"advertised":[],"approved":[],"expiry":"2002-01-01T00:00:00Z","id":2,"live":true,"name":"workshop","online":false,"served":[],"tags":[],"user":"ann@"}
> POST /api/v1/node/2/tags Bearer/secret {"tags":[]}
< 200 {"addresses":["100.64.0.2","fd7a:115c:a1e0::2"],"advertised":[],"approved":[],"expiry":"2002-01-01T00:00:00Z","id":2,"live":true,"name":"workshop","online":false,"served":[],"tags":[],"user":"ann@"}
> POST /api/v1/node/2/routes Bearer/secret {"routes":[]}
< 200 {"addresses":["100.64.0.2","fd7a:115c:a1e0::2"],"advertised":[],"approved":[],"expiry":"2002-01-01T00:00:00Z","id":2,"live":true,"name":"workshop","online":false,"served":[],"tags":[],"user":"ann@"}
> DELETE /api/v1/node/2 Bearer/secret
< 200 {}
> DELETE /api/v1/user/ann@ Bearer/secret
< 200 {}
> PUT /api/v1/dns Bearer/secret [{"Name":"nas.tail.example","Type":"A","Value":"192.168.5.9"}]
< 200 [{"Name":"nas.tail.example","Type":"A","Value":"192.168.5.9"}]
> GET /api/v1/dns Bearer/secret
< 200 [{"Name":"nas.tail.example","Type":"A","Value":"192.168.5.9"}]
> POST /api/v1/sweep Bearer/secret {}
< 200 {"machines":0,"pending":0}"#;

/// Polls: what their streams hold, and when a session goes on.
pub const POLLS: &str = r#"= first-poll
> POST /machine/register mkey:%1 {"Auth":{"AuthKey":"k1"},"Hostinfo":{"Hostname":"Alice's MacBook Pro!"},"NodeKey":"nodekey:%a"}
< registered
> POST /machine/map mkey:%1 {"MapSessionHandle":"","MapSessionSeq":0,"NodeKey":"nodekey:%a","OmitPeers":false,"Stream":true}
< stream
+ {"DNSConfig":{"Domains":["tail.example"],"ExtraRecords":[],"Proxied":true,"Resolvers":[],"Routes":{}},"Domain":"tail.example","MapSessionHandle":"s1-0000000000000001","Node":{"Addresses":["100.64.0.1/32","fd7a:115c:a1e0::1/128"],"AllowedIPs":["100.64.0.1/32","fd7a:115c:a1e0::1/128"],"Created":"2001-09-09T01:46:40Z","DiscoKey":"discokey:%0","Endpoints":[],"HomeDERP":0,"Hostinfo":{"Hostname":"Alice's MacBook Pro!"},"ID":1,"Key":"nodekey:%a","KeyExpiry":"0001-01-01T00:00:00Z","Machine":"mkey:%1","MachineAuthorized":true,"Name":"alice-s-macbook-pro.tail.example.","Online":true,"StableID":"n1","Tags":[],"User":1},"PacketFilter":[{"DstPorts":[{"IP":"100.64.0.1","Ports":{"First":0,"Last":65535}},{"IP":"fd7a:115c:a1e0::1","Ports":{"First":0,"Last":65535}}],"IPProto":[1,6,17,58],"SrcIPs":["*"]}],"Seq":1,"UserProfiles":[{"DisplayName":"seed","ID":1,"LoginName":"seed@"}]}
.
= resumed-nothing-new
> POST /machine/register mkey:%1 {"Auth":{"AuthKey":"k1"},"NodeKey":"nodekey:%a"}
< registered
> POST /machine/map mkey:%1 {"MapSessionHandle":"","MapSessionSeq":0,"NodeKey":"nodekey:%a","OmitPeers":false,"Stream":true}
< stream
+ {"DNSConfig":{"Domains":["tail.example"],"ExtraRecords":[],"Proxied":true,"Resolvers":[],"Routes":{}},"Domain":"tail.example","MapSessionHandle":"s1-0000000000000001","Node":{"Addresses":["100.64.0.1/32","fd7a:115c:a1e0::1/128"],"AllowedIPs":["100.64.0.1/32","fd7a:115c:a1e0::1/128"],"Created":"2001-09-09T01:46:40Z","DiscoKey":"discokey:%0","Endpoints":[],"HomeDERP":0,"Hostinfo":{"Hostname":""},"ID":1,"Key":"nodekey:%a","KeyExpiry":"0001-01-01T00:00:00Z","Machine":"mkey:%1","MachineAuthorized":true,"Name":"node.tail.example.","Online":true,"StableID":"n1","Tags":[],"User":1},"PacketFilter":[{"DstPorts":[{"IP":"100.64.0.1","Ports":{"First":0,"Last":65535}},{"IP":"fd7a:115c:a1e0::1","Ports":{"First":0,"Last":65535}}],"IPProto":[1,6,17,58],"SrcIPs":["*"]}],"Seq":1,"UserProfiles":[{"DisplayName":"seed","ID":1,"LoginName":"seed@"}]}
.
> POST /machine/map mkey:%1 {"MapSessionHandle":"s1-0000000000000001","MapSessionSeq":1,"NodeKey":"nodekey:%a","OmitPeers":false,"Stream":true}
< stream
+ {"MapSessionHandle":"s1-0000000000000001"}
.
> POST /machine/map mkey:%1 {"MapSessionHandle":"s1-0000000000000001","MapSessionSeq":0,"NodeKey":"nodekey:%a","OmitPeers":false,"Stream":true}
< stream
+ {"DNSConfig":{"Domains":["tail.example"],"ExtraRecords":[],"Proxied":true,"Resolvers":[],"Routes":{}},"Domain":"tail.example","MapSessionHandle":"s2-0000000000000001","Node":{"Addresses":["100.64.0.1/32","fd7a:115c:a1e0::1/128"],"AllowedIPs":["100.64.0.1/32","fd7a:115c:a1e0::1/128"],"Created":"2001-09-09T01:46:40Z","DiscoKey":"discokey:%0","Endpoints":[],"HomeDERP":0,"Hostinfo":{"Hostname":""},"ID":1,"Key":"nodekey:%a","KeyExpiry":"0001-01-01T00:00:00Z","Machine":"mkey:%1","MachineAuthorized":true,"Name":"node.tail.example.","Online":true,"StableID":"n1","Tags":[],"User":1},"PacketFilter":[{"DstPorts":[{"IP":"100.64.0.1","Ports":{"First":0,"Last":65535}},{"IP":"fd7a:115c:a1e0::1","Ports":{"First":0,"Last":65535}}],"IPProto":[1,6,17,58],"SrcIPs":["*"]}],"Seq":1,"UserProfiles":[{"DisplayName":"seed","ID":1,"LoginName":"seed@"}]}
.
= closing-policy
> POST /machine/register mkey:%1 {"Auth":{"AuthKey":"k1"},"NodeKey":"nodekey:%a"}
< registered
> POST /machine/register mkey:%2 {"Auth":{"AuthKey":"k1"},"NodeKey":"nodekey:%b"}
< registered
> POST /machine/map mkey:%1 {"MapSessionHandle":"","MapSessionSeq":0,"NodeKey":"nodekey:%a","OmitPeers":false,"Stream":true}
< stream
+ {"DNSConfig":{"Domains":["tail.example"],"ExtraRecords":[],"Proxied":true,"Resolvers":[],"Routes":{}},"Domain":"tail.example","MapSessionHandle":"s1-0000000000000001","Node":{"Addresses":["100.64.0.1/32","fd7a:115c:a1e0::1/128"],"AllowedIPs":["100.64.0.1/32","fd7a:115c:a1e0::1/128"],"Created":"2001-09-09T01:46:40Z","DiscoKey":"discokey:%0","Endpoints":[],"HomeDERP":0,"Hostinfo":{"Hostname":""},"ID":1,"Key":"nodekey:%a","KeyExpiry":"0001-01-01T00:00:00Z","Machine":"mkey:%1","MachineAuthorized":true,"Name":"node.tail.example.","Online":true,"StableID":"n1","Tags":[],"User":1},"PacketFilter":[{"DstPorts":[{"IP":"100.64.0.1","Ports":{"First":0,"Last":65535}},{"IP":"fd7a:115c:a1e0::1","Ports":{"First":0,"Last":65535}}],"IPProto":[1,6,17,58],"SrcIPs":["*"]}],"Peers":[{"Addresses":["100.64.0.2/32","fd7a:115c:a1e0::2/128"],"AllowedIPs":["100.64.0.2/32","fd7a:115c:a1e0::2/128"],"Created":"2001-09-09T01:46:40Z","DiscoKey":"discokey:%0","Endpoints":[],"HomeDERP":0,"Hostinfo":{"Hostname":""},"ID":2,"Key":"nodekey:%b","KeyExpiry":"0001-01-01T00:00:00Z","Machine":"mkey:%2","MachineAuthorized":true,"Name":"node-1.tail.example.","Online":false,"StableID":"n2","Tags":[],"User":1}],"Seq":1,"UserProfiles":[{"DisplayName":"seed","ID":1,"LoginName":"seed@"}]}
.
> PUT /api/v1/policy Bearer/secret {"acls":[]}
< 200 {}
> POST /machine/map mkey:%1 {"MapSessionHandle":"s1-0000000000000001","MapSessionSeq":1,"NodeKey":"nodekey:%a","OmitPeers":false,"Stream":true}
< stream
+ {"MapSessionHandle":"s1-0000000000000001"}
+ {"PacketFilter":[],"PeersRemoved":[2],"Seq":2}
.
= endpoint-delta
> POST /machine/register mkey:%1 {"Auth":{"AuthKey":"k1"},"NodeKey":"nodekey:%a"}
< registered
> POST /machine/register mkey:%2 {"Auth":{"AuthKey":"k1"},"NodeKey":"nodekey:%b"}
< registered
> POST /machine/map mkey:%2 {"Endpoints":["192.0.2.1:1","192.0.2.2:2"],"NodeKey":"nodekey:%b","OmitPeers":true,"Stream":false}
< 200
> POST /machine/map mkey:%1 {"MapSessionHandle":"","MapSessionSeq":0,"NodeKey":"nodekey:%a","OmitPeers":false,"Stream":true}
< stream
+ {"DNSConfig":{"Domains":["tail.example"],"ExtraRecords":[],"Proxied":true,"Resolvers":[],"Routes":{}},"Domain":"tail.example","MapSessionHandle":"s1-0000000000000001","Node":{"Addresses":["100.64.0.1/32","fd7a:115c:a1e0::1/128"],"AllowedIPs":["100.64.0.1/32","fd7a:115c:a1e0::1/128"],"Created":"2001-09-09T01:46:40Z","DiscoKey":"discokey:%0","Endpoints":[],"HomeDERP":0,"Hostinfo":{"Hostname":""},"ID":1,"Key":"nodekey:%a","KeyExpiry":"0001-01-01T00:00:00Z","Machine":"mkey:%1","MachineAuthorized":true,"Name":"node.tail.example.","Online":true,"StableID":"n1","Tags":[],"User":1},"PacketFilter":[{"DstPorts":[{"IP":"100.64.0.1","Ports":{"First":0,"Last":65535}},{"IP":"fd7a:115c:a1e0::1","Ports":{"First":0,"Last":65535}}],"IPProto":[1,6,17,58],"SrcIPs":["*"]}],"Peers":[{"Addresses":["100.64.0.2/32","fd7a:115c:a1e0::2/128"],"AllowedIPs":["100.64.0.2/32","fd7a:115c:a1e0::2/128"],"Created":"2001-09-09T01:46:40Z","DiscoKey":"discokey:%0","Endpoints":["192.0.2.1:1","192.0.2.2:2"],"HomeDERP":0,"Hostinfo":{"Hostname":""},"ID":2,"Key":"nodekey:%b","KeyExpiry":"0001-01-01T00:00:00Z","Machine":"mkey:%2","MachineAuthorized":true,"Name":"node-1.tail.example.","Online":false,"StableID":"n2","Tags":[],"User":1}],"Seq":1,"UserProfiles":[{"DisplayName":"seed","ID":1,"LoginName":"seed@"}]}
.
> POST /machine/map mkey:%2 {"Endpoints":[],"NodeKey":"nodekey:%b","OmitPeers":true,"Stream":false}
< 200
> POST /machine/map mkey:%1 {"MapSessionHandle":"s1-0000000000000001","MapSessionSeq":1,"NodeKey":"nodekey:%a","OmitPeers":false,"Stream":true}
< stream
+ {"MapSessionHandle":"s1-0000000000000001"}
+ {"PeersChanged":[{"Addresses":["100.64.0.2/32","fd7a:115c:a1e0::2/128"],"AllowedIPs":["100.64.0.2/32","fd7a:115c:a1e0::2/128"],"Created":"2001-09-09T01:46:40Z","DiscoKey":"discokey:%0","Endpoints":[],"HomeDERP":0,"Hostinfo":{"Hostname":""},"ID":2,"Key":"nodekey:%b","KeyExpiry":"0001-01-01T00:00:00Z","Machine":"mkey:%2","MachineAuthorized":true,"Name":"node-1.tail.example.","Online":false,"StableID":"n2","Tags":[],"User":1}],"Seq":2}
.
> POST /machine/map mkey:%2 {"Endpoints":["192.0.2.7:41641"],"NodeKey":"nodekey:%b","OmitPeers":true,"Stream":false}
< 200
> POST /machine/map mkey:%1 {"MapSessionHandle":"s1-0000000000000001","MapSessionSeq":2,"NodeKey":"nodekey:%a","OmitPeers":false,"Stream":true}
< stream
+ {"MapSessionHandle":"s1-0000000000000001"}
+ {"PeersChangedPatch":[{"Endpoints":["192.0.2.7:41641"],"NodeID":2}],"Seq":3}
.
= clock-of-a-poll
: key_seconds = 100
@ 1000000000 1000000000 1000000000 1000000000 1000000000 1000000000 1000000099 1000000100
> POST /machine/register mkey:%1 {"Auth":{"AuthKey":"k1"},"NodeKey":"nodekey:%a"}
< registered
> POST /machine/map mkey:%1 {"NodeKey":"nodekey:%a","Stream":true}
< stream
+ {"DNSConfig":{"Domains":["tail.example"],"ExtraRecords":[],"Proxied":true,"Resolvers":[],"Routes":{}},"Domain":"tail.example","MapSessionHandle":"s1-0000000000000001","Node":{"Addresses":["100.64.0.1/32","fd7a:115c:a1e0::1/128"],"AllowedIPs":["100.64.0.1/32","fd7a:115c:a1e0::1/128"],"Created":"2001-09-09T01:46:40Z","DiscoKey":"discokey:%0","Endpoints":[],"HomeDERP":0,"Hostinfo":{"Hostname":""},"ID":1,"Key":"nodekey:%a","KeyExpiry":"2001-09-09T01:48:20Z","Machine":"mkey:%1","MachineAuthorized":true,"Name":"node.tail.example.","Online":true,"StableID":"n1","Tags":[],"User":1},"PacketFilter":[{"DstPorts":[{"IP":"100.64.0.1","Ports":{"First":0,"Last":65535}},{"IP":"fd7a:115c:a1e0::1","Ports":{"First":0,"Last":65535}}],"IPProto":[1,6,17,58],"SrcIPs":["*"]}],"Seq":1,"UserProfiles":[{"DisplayName":"seed","ID":1,"LoginName":"seed@"}]}
.
> GET /api/v1/node Bearer/secret
< 200 {"nodes":[{"addresses":["100.64.0.1","fd7a:115c:a1e0::1"],"advertised":[],"approved":[],"expiry":"2001-09-09T01:48:20Z","id":1,"live":true,"name":"node","online":false,"served":[],"tags":[],"user":"seed@"}]}
> GET /api/v1/node Bearer/secret
< 200 {"nodes":[{"addresses":["100.64.0.1","fd7a:115c:a1e0::1"],"advertised":[],"approved":[],"expiry":"2001-09-09T01:48:20Z","id":1,"live":false,"name":"node","online":false,"served":[],"tags":[],"user":"seed@"}]}
= refused-polls
: key_seconds = 100
@ 1000000000 1000000000 1000000000 1000000000 1000000000 1000000100
> POST /machine/register mkey:%1 {"Auth":{"AuthKey":"k1"},"NodeKey":"nodekey:%a"}
< registered
> POST /machine/map mkey:%2 {"NodeKey":"nodekey:%a","Stream":true}
< 401 {"error":"UnknownMachine"}
> POST /machine/map mkey:%1 {"NodeKey":"nodekey:%b","Stream":true}
< 401 {"error":"UnknownMachine"}
> POST /machine/map mkey:%1 {"NodeKey":"nodekey:%a","Stream":true}
< 401 {"error":"NotLive"}
= no-words-for-a-session
! word 1
> POST /machine/register mkey:%1 {"Auth":{"AuthKey":"k1"},"NodeKey":"nodekey:%a"}
< registered
> POST /machine/map mkey:%1 {"NodeKey":"nodekey:%a","Stream":true}
< 500 {"error":"EntropyFault"}
> POST /machine/map mkey:%1 {"NodeKey":"nodekey:%a","Stream":true}
< stream
+ {"DNSConfig":{"Domains":["tail.example"],"ExtraRecords":[],"Proxied":true,"Resolvers":[],"Routes":{}},"Domain":"tail.example","MapSessionHandle":"s1-0000000000000001","Node":{"Addresses":["100.64.0.1/32","fd7a:115c:a1e0::1/128"],"AllowedIPs":["100.64.0.1/32","fd7a:115c:a1e0::1/128"],"Created":"2001-09-09T01:46:40Z","DiscoKey":"discokey:%0","Endpoints":[],"HomeDERP":0,"Hostinfo":{"Hostname":""},"ID":1,"Key":"nodekey:%a","KeyExpiry":"0001-01-01T00:00:00Z","Machine":"mkey:%1","MachineAuthorized":true,"Name":"node.tail.example.","Online":true,"StableID":"n1","Tags":[],"User":1},"PacketFilter":[{"DstPorts":[{"IP":"100.64.0.1","Ports":{"First":0,"Last":65535}},{"IP":"fd7a:115c:a1e0::1","Ports":{"First":0,"Last":65535}}],"IPProto":[1,6,17,58],"SrcIPs":["*"]}],"Seq":1,"UserProfiles":[{"DisplayName":"seed","ID":1,"LoginName":"seed@"}]}
.
= taken-up-without-words
! word 2
> POST /machine/register mkey:%1 {"Auth":{"AuthKey":"k1"},"NodeKey":"nodekey:%a"}
< registered
> POST /machine/map mkey:%1 {"NodeKey":"nodekey:%a","Stream":true}
< stream
+ {"DNSConfig":{"Domains":["tail.example"],"ExtraRecords":[],"Proxied":true,"Resolvers":[],"Routes":{}},"Domain":"tail.example","MapSessionHandle":"s1-0000000000000001","Node":{"Addresses":["100.64.0.1/32","fd7a:115c:a1e0::1/128"],"AllowedIPs":["100.64.0.1/32","fd7a:115c:a1e0::1/128"],"Created":"2001-09-09T01:46:40Z","DiscoKey":"discokey:%0","Endpoints":[],"HomeDERP":0,"Hostinfo":{"Hostname":""},"ID":1,"Key":"nodekey:%a","KeyExpiry":"0001-01-01T00:00:00Z","Machine":"mkey:%1","MachineAuthorized":true,"Name":"node.tail.example.","Online":true,"StableID":"n1","Tags":[],"User":1},"PacketFilter":[{"DstPorts":[{"IP":"100.64.0.1","Ports":{"First":0,"Last":65535}},{"IP":"fd7a:115c:a1e0::1","Ports":{"First":0,"Last":65535}}],"IPProto":[1,6,17,58],"SrcIPs":["*"]}],"Seq":1,"UserProfiles":[{"DisplayName":"seed","ID":1,"LoginName":"seed@"}]}
.
> POST /machine/map mkey:%1 {"MapSessionHandle":"s1-0000000000000001","MapSessionSeq":1,"NodeKey":"nodekey:%a","Stream":true}
< stream
+ {"MapSessionHandle":"s1-0000000000000001"}
.
= polls-update-nothing
> POST /machine/register mkey:%1 {"Auth":{"AuthKey":"k1"},"NodeKey":"nodekey:%a"}
< registered
> POST /machine/map mkey:%1 {"NodeKey":"nodekey:%a","Endpoints":["192.0.2.7:41641"],"DiscoKey":"discokey:%d","Hostinfo":{"Hostname":"two","NetInfo":{"PreferredDERP":7},"RoutableIPs":["10.0.0.0/8"]},"OmitPeers":true,"Stream":true}
< stream
+ {"DNSConfig":{"Domains":["tail.example"],"ExtraRecords":[],"Proxied":true,"Resolvers":[],"Routes":{}},"Domain":"tail.example","MapSessionHandle":"s1-0000000000000001","Node":{"Addresses":["100.64.0.1/32","fd7a:115c:a1e0::1/128"],"AllowedIPs":["100.64.0.1/32","fd7a:115c:a1e0::1/128"],"Created":"2001-09-09T01:46:40Z","DiscoKey":"discokey:%0","Endpoints":[],"HomeDERP":0,"Hostinfo":{"Hostname":""},"ID":1,"Key":"nodekey:%a","KeyExpiry":"0001-01-01T00:00:00Z","Machine":"mkey:%1","MachineAuthorized":true,"Name":"node.tail.example.","Online":true,"StableID":"n1","Tags":[],"User":1},"PacketFilter":[{"DstPorts":[{"IP":"100.64.0.1","Ports":{"First":0,"Last":65535}},{"IP":"fd7a:115c:a1e0::1","Ports":{"First":0,"Last":65535}}],"IPProto":[1,6,17,58],"SrcIPs":["*"]}],"Seq":1,"UserProfiles":[{"DisplayName":"seed","ID":1,"LoginName":"seed@"}]}
.
> POST /machine/map mkey:%1 {"NodeKey":"nodekey:%a","ReadOnly":true}
< 200 #{"DNSConfig":{"Domains":["tail.example"],"ExtraRecords":[],"Proxied":true,"Resolvers":[],"Routes":{}},"Domain":"tail.example","Node":{"Addresses":["100.64.0.1/32","fd7a:115c:a1e0::1/128"],"AllowedIPs":["100.64.0.1/32","fd7a:115c:a1e0::1/128"],"Created":"2001-09-09T01:46:40Z","DiscoKey":"discokey:%0","Endpoints":[],"HomeDERP":0,"Hostinfo":{"Hostname":""},"ID":1,"Key":"nodekey:%a","KeyExpiry":"0001-01-01T00:00:00Z","Machine":"mkey:%1","MachineAuthorized":true,"Name":"node.tail.example.","Online":false,"StableID":"n1","Tags":[],"User":1},"PacketFilter":[{"DstPorts":[{"IP":"100.64.0.1","Ports":{"First":0,"Last":65535}},{"IP":"fd7a:115c:a1e0::1","Ports":{"First":0,"Last":65535}}],"IPProto":[1,6,17,58],"SrcIPs":["*"]}],"UserProfiles":[{"DisplayName":"seed","ID":1,"LoginName":"seed@"}]}
= handles-of-others
> POST /machine/register mkey:%1 {"Auth":{"AuthKey":"k1"},"NodeKey":"nodekey:%a"}
< registered
> POST /machine/register mkey:%2 {"Auth":{"AuthKey":"k1"},"NodeKey":"nodekey:%b"}
< registered
> POST /machine/map mkey:%1 {"NodeKey":"nodekey:%a","Stream":true}
< stream
+ {"DNSConfig":{"Domains":["tail.example"],"ExtraRecords":[],"Proxied":true,"Resolvers":[],"Routes":{}},"Domain":"tail.example","MapSessionHandle":"s1-0000000000000001","Node":{"Addresses":["100.64.0.1/32","fd7a:115c:a1e0::1/128"],"AllowedIPs":["100.64.0.1/32","fd7a:115c:a1e0::1/128"],"Created":"2001-09-09T01:46:40Z","DiscoKey":"discokey:%0","Endpoints":[],"HomeDERP":0,"Hostinfo":{"Hostname":""},"ID":1,"Key":"nodekey:%a","KeyExpiry":"0001-01-01T00:00:00Z","Machine":"mkey:%1","MachineAuthorized":true,"Name":"node.tail.example.","Online":true,"StableID":"n1","Tags":[],"User":1},"PacketFilter":[{"DstPorts":[{"IP":"100.64.0.1","Ports":{"First":0,"Last":65535}},{"IP":"fd7a:115c:a1e0::1","Ports":{"First":0,"Last":65535}}],"IPProto":[1,6,17,58],"SrcIPs":["*"]}],"Peers":[{"Addresses":["100.64.0.2/32","fd7a:115c:a1e0::2/128"],"AllowedIPs":["100.64.0.2/32","fd7a:115c:a1e0::2/128"],"Created":"2001-09-09T01:46:40Z","DiscoKey":"discokey:%0","Endpoints":[],"HomeDERP":0,"Hostinfo":{"Hostname":""},"ID":2,"Key":"nodekey:%b","KeyExpiry":"0001-01-01T00:00:00Z","Machine":"mkey:%2","MachineAuthorized":true,"Name":"node-1.tail.example.","Online":false,"StableID":"n2","Tags":[],"User":1}],"Seq":1,"UserProfiles":[{"DisplayName":"seed","ID":1,"LoginName":"seed@"}]}
.
> POST /machine/map mkey:%2 {"MapSessionHandle":"s1-0000000000000001","MapSessionSeq":1,"NodeKey":"nodekey:%b","Stream":true}
< stream
+ {"DNSConfig":{"Domains":["tail.example"],"ExtraRecords":[],"Proxied":true,"Resolvers":[],"Routes":{}},"Domain":"tail.example","MapSessionHandle":"s2-0000000000000001","Node":{"Addresses":["100.64.0.2/32","fd7a:115c:a1e0::2/128"],"AllowedIPs":["100.64.0.2/32","fd7a:115c:a1e0::2/128"],"Created":"2001-09-09T01:46:40Z","DiscoKey":"discokey:%0","Endpoints":[],"HomeDERP":0,"Hostinfo":{"Hostname":""},"ID":2,"Key":"nodekey:%b","KeyExpiry":"0001-01-01T00:00:00Z","Machine":"mkey:%2","MachineAuthorized":true,"Name":"node-1.tail.example.","Online":true,"StableID":"n2","Tags":[],"User":1},"PacketFilter":[{"DstPorts":[{"IP":"100.64.0.2","Ports":{"First":0,"Last":65535}},{"IP":"fd7a:115c:a1e0::2","Ports":{"First":0,"Last":65535}}],"IPProto":[1,6,17,58],"SrcIPs":["*"]}],"Peers":[{"Addresses":["100.64.0.1/32","fd7a:115c:a1e0::1/128"],"AllowedIPs":["100.64.0.1/32","fd7a:115c:a1e0::1/128"],"Created":"2001-09-09T01:46:40Z","DiscoKey":"discokey:%0","Endpoints":[],"HomeDERP":0,"Hostinfo":{"Hostname":""},"ID":1,"Key":"nodekey:%a","KeyExpiry":"0001-01-01T00:00:00Z","Machine":"mkey:%1","MachineAuthorized":true,"Name":"node.tail.example.","Online":false,"StableID":"n1","Tags":[],"User":1}],"Seq":1,"UserProfiles":[{"DisplayName":"seed","ID":1,"LoginName":"seed@"}]}
.
> POST /machine/map mkey:%1 {"MapSessionHandle":"s1-0000000000000001","MapSessionSeq":1,"NodeKey":"nodekey:%a","Stream":true}
< stream
+ {"MapSessionHandle":"s1-0000000000000001"}
.
= sessions-that-end
> POST /machine/register mkey:%1 {"Auth":{"AuthKey":"k1"},"NodeKey":"nodekey:%a"}
< registered
> POST /machine/map mkey:%1 {"NodeKey":"nodekey:%a","Stream":true}
< stream
+ {"DNSConfig":{"Domains":["tail.example"],"ExtraRecords":[],"Proxied":true,"Resolvers":[],"Routes":{}},"Domain":"tail.example","MapSessionHandle":"s1-0000000000000001","Node":{"Addresses":["100.64.0.1/32","fd7a:115c:a1e0::1/128"],"AllowedIPs":["100.64.0.1/32","fd7a:115c:a1e0::1/128"],"Created":"2001-09-09T01:46:40Z","DiscoKey":"discokey:%0","Endpoints":[],"HomeDERP":0,"Hostinfo":{"Hostname":""},"ID":1,"Key":"nodekey:%a","KeyExpiry":"0001-01-01T00:00:00Z","Machine":"mkey:%1","MachineAuthorized":true,"Name":"node.tail.example.","Online":true,"StableID":"n1","Tags":[],"User":1},"PacketFilter":[{"DstPorts":[{"IP":"100.64.0.1","Ports":{"First":0,"Last":65535}},{"IP":"fd7a:115c:a1e0::1","Ports":{"First":0,"Last":65535}}],"IPProto":[1,6,17,58],"SrcIPs":["*"]}],"Seq":1,"UserProfiles":[{"DisplayName":"seed","ID":1,"LoginName":"seed@"}]}
.
> POST /machine/register mkey:%1 {"Auth":{"AuthKey":"k1"},"NodeKey":"nodekey:%a"}
< registered
> POST /machine/map mkey:%1 {"MapSessionHandle":"s1-0000000000000001","MapSessionSeq":1,"NodeKey":"nodekey:%a","Stream":true}
< stream
+ {"MapSessionHandle":"s1-0000000000000001"}
.
> POST /machine/register mkey:%1 {"NodeKey":"nodekey:%b","OldNodeKey":"nodekey:%a"}
< registered
> POST /machine/map mkey:%1 {"MapSessionHandle":"s1-0000000000000001","MapSessionSeq":1,"NodeKey":"nodekey:%b","Stream":true}
< stream
+ {"DNSConfig":{"Domains":["tail.example"],"ExtraRecords":[],"Proxied":true,"Resolvers":[],"Routes":{}},"Domain":"tail.example","MapSessionHandle":"s2-0000000000000001","Node":{"Addresses":["100.64.0.1/32","fd7a:115c:a1e0::1/128"],"AllowedIPs":["100.64.0.1/32","fd7a:115c:a1e0::1/128"],"Created":"2001-09-09T01:46:40Z","DiscoKey":"discokey:%0","Endpoints":[],"HomeDERP":0,"Hostinfo":{"Hostname":""},"ID":1,"Key":"nodekey:%b","KeyExpiry":"0001-01-01T00:00:00Z","Machine":"mkey:%1","MachineAuthorized":true,"Name":"node.tail.example.","Online":true,"StableID":"n1","Tags":[],"User":1},"PacketFilter":[{"DstPorts":[{"IP":"100.64.0.1","Ports":{"First":0,"Last":65535}},{"IP":"fd7a:115c:a1e0::1","Ports":{"First":0,"Last":65535}}],"IPProto":[1,6,17,58],"SrcIPs":["*"]}],"Seq":1,"UserProfiles":[{"DisplayName":"seed","ID":1,"LoginName":"seed@"}]}
.
> POST /machine/register mkey:%1 {"Auth":{"AuthKey":"k1"},"NodeKey":"nodekey:%c"}
< registered
> POST /machine/map mkey:%1 {"MapSessionHandle":"s2-0000000000000001","MapSessionSeq":1,"NodeKey":"nodekey:%c","Stream":true}
< stream
+ {"DNSConfig":{"Domains":["tail.example"],"ExtraRecords":[],"Proxied":true,"Resolvers":[],"Routes":{}},"Domain":"tail.example","MapSessionHandle":"s3-0000000000000001","Node":{"Addresses":["100.64.0.1/32","fd7a:115c:a1e0::1/128"],"AllowedIPs":["100.64.0.1/32","fd7a:115c:a1e0::1/128"],"Created":"2001-09-09T01:46:40Z","DiscoKey":"discokey:%0","Endpoints":[],"HomeDERP":0,"Hostinfo":{"Hostname":""},"ID":1,"Key":"nodekey:%c","KeyExpiry":"0001-01-01T00:00:00Z","Machine":"mkey:%1","MachineAuthorized":true,"Name":"node.tail.example.","Online":true,"StableID":"n1","Tags":[],"User":1},"PacketFilter":[{"DstPorts":[{"IP":"100.64.0.1","Ports":{"First":0,"Last":65535}},{"IP":"fd7a:115c:a1e0::1","Ports":{"First":0,"Last":65535}}],"IPProto":[1,6,17,58],"SrcIPs":["*"]}],"Seq":1,"UserProfiles":[{"DisplayName":"seed","ID":1,"LoginName":"seed@"}]}
.
> POST /machine/register mkey:%1 {"Expiry":"1970-01-01T00:00:01Z","NodeKey":"nodekey:%c"}
< 200 {"AuthURL":"","Error":"","Login":{"ID":1,"LoginName":"seed@"},"MachineAuthorized":true,"NodeKeyExpired":true,"User":{"DisplayName":"seed","ID":1}}
> POST /api/v1/node/1/expire Bearer/secret {"expiry":"2001-09-09T01:48:21Z"}
< 200 {"addresses":["100.64.0.1","fd7a:115c:a1e0::1"],"advertised":[],"approved":[],"expiry":"2001-09-09T01:48:21Z","id":1,"live":true,"name":"node","online":false,"served":[],"tags":[],"user":"seed@"}
> POST /machine/map mkey:%1 {"MapSessionHandle":"s3-0000000000000001","MapSessionSeq":1,"NodeKey":"nodekey:%c","Stream":true}
< stream
+ {"DNSConfig":{"Domains":["tail.example"],"ExtraRecords":[],"Proxied":true,"Resolvers":[],"Routes":{}},"Domain":"tail.example","MapSessionHandle":"s4-0000000000000001","Node":{"Addresses":["100.64.0.1/32","fd7a:115c:a1e0::1/128"],"AllowedIPs":["100.64.0.1/32","fd7a:115c:a1e0::1/128"],"Created":"2001-09-09T01:46:40Z","DiscoKey":"discokey:%0","Endpoints":[],"HomeDERP":0,"Hostinfo":{"Hostname":""},"ID":1,"Key":"nodekey:%c","KeyExpiry":"2001-09-09T01:48:21Z","Machine":"mkey:%1","MachineAuthorized":true,"Name":"node.tail.example.","Online":true,"StableID":"n1","Tags":[],"User":1},"PacketFilter":[{"DstPorts":[{"IP":"100.64.0.1","Ports":{"First":0,"Last":65535}},{"IP":"fd7a:115c:a1e0::1","Ports":{"First":0,"Last":65535}}],"IPProto":[1,6,17,58],"SrcIPs":["*"]}],"Seq":1,"UserProfiles":[{"DisplayName":"seed","ID":1,"LoginName":"seed@"}]}
.
> POST /api/v1/node/1/expire Bearer/secret {"expiry":"2001-09-09T01:48:22Z"}
< 200 {"addresses":["100.64.0.1","fd7a:115c:a1e0::1"],"advertised":[],"approved":[],"expiry":"2001-09-09T01:48:22Z","id":1,"live":true,"name":"node","online":false,"served":[],"tags":[],"user":"seed@"}
> POST /machine/map mkey:%1 {"MapSessionHandle":"s4-0000000000000001","MapSessionSeq":1,"NodeKey":"nodekey:%c","Stream":true}
< stream
+ {"MapSessionHandle":"s4-0000000000000001"}
+ {"Node":{"Addresses":["100.64.0.1/32","fd7a:115c:a1e0::1/128"],"AllowedIPs":["100.64.0.1/32","fd7a:115c:a1e0::1/128"],"Created":"2001-09-09T01:46:40Z","DiscoKey":"discokey:%0","Endpoints":[],"HomeDERP":0,"Hostinfo":{"Hostname":""},"ID":1,"Key":"nodekey:%c","KeyExpiry":"2001-09-09T01:48:22Z","Machine":"mkey:%1","MachineAuthorized":true,"Name":"node.tail.example.","Online":true,"StableID":"n1","Tags":[],"User":1},"Seq":2}
.
= sessions-that-end-by-an-operator-or-in-silence
> POST /machine/register mkey:%1 {"Auth":{"AuthKey":"k1"},"NodeKey":"nodekey:%a"}
< registered
> POST /machine/map mkey:%1 {"NodeKey":"nodekey:%a","Stream":true}
< stream
+ {"DNSConfig":{"Domains":["tail.example"],"ExtraRecords":[],"Proxied":true,"Resolvers":[],"Routes":{}},"Domain":"tail.example","MapSessionHandle":"s1-0000000000000001","Node":{"Addresses":["100.64.0.1/32","fd7a:115c:a1e0::1/128"],"AllowedIPs":["100.64.0.1/32","fd7a:115c:a1e0::1/128"],"Created":"2001-09-09T01:46:40Z","DiscoKey":"discokey:%0","Endpoints":[],"HomeDERP":0,"Hostinfo":{"Hostname":""},"ID":1,"Key":"nodekey:%a","KeyExpiry":"0001-01-01T00:00:00Z","Machine":"mkey:%1","MachineAuthorized":true,"Name":"node.tail.example.","Online":true,"StableID":"n1","Tags":[],"User":1},"PacketFilter":[{"DstPorts":[{"IP":"100.64.0.1","Ports":{"First":0,"Last":65535}},{"IP":"fd7a:115c:a1e0::1","Ports":{"First":0,"Last":65535}}],"IPProto":[1,6,17,58],"SrcIPs":["*"]}],"Seq":1,"UserProfiles":[{"DisplayName":"seed","ID":1,"LoginName":"seed@"}]}
.
> POST /machine/register mkey:%1 {"NodeKey":"nodekey:%b"}
< 200 {"AuthURL":"http://tail.example/register/reg-1-00000000000000010000000000000002","Error":"","Login":{"ID":0,"LoginName":""},"MachineAuthorized":false,"NodeKeyExpired":false,"User":{"DisplayName":"","ID":0}}
> POST /machine/map mkey:%1 {"MapSessionHandle":"s1-0000000000000001","MapSessionSeq":1,"NodeKey":"nodekey:%a","Stream":true}
< stream
+ {"MapSessionHandle":"s1-0000000000000001"}
.
> POST /api/v1/register Bearer/secret {"id":"reg-1-00000000000000010000000000000002","user":"seed@"}
< 200 {"addresses":["100.64.0.1","fd7a:115c:a1e0::1"],"advertised":[],"approved":[],"expiry":"0001-01-01T00:00:00Z","id":1,"live":true,"name":"node","online":false,"served":[],"tags":[],"user":"seed@"}
> POST /machine/map mkey:%1 {"MapSessionHandle":"s1-0000000000000001","MapSessionSeq":1,"NodeKey":"nodekey:%b","Stream":true}
< stream
+ {"DNSConfig":{"Domains":["tail.example"],"ExtraRecords":[],"Proxied":true,"Resolvers":[],"Routes":{}},"Domain":"tail.example","MapSessionHandle":"s2-0000000000000001","Node":{"Addresses":["100.64.0.1/32","fd7a:115c:a1e0::1/128"],"AllowedIPs":["100.64.0.1/32","fd7a:115c:a1e0::1/128"],"Created":"2001-09-09T01:46:40Z","DiscoKey":"discokey:%0","Endpoints":[],"HomeDERP":0,"Hostinfo":{"Hostname":""},"ID":1,"Key":"nodekey:%b","KeyExpiry":"0001-01-01T00:00:00Z","Machine":"mkey:%1","MachineAuthorized":true,"Name":"node.tail.example.","Online":true,"StableID":"n1","Tags":[],"User":1},"PacketFilter":[{"DstPorts":[{"IP":"100.64.0.1","Ports":{"First":0,"Last":65535}},{"IP":"fd7a:115c:a1e0::1","Ports":{"First":0,"Last":65535}}],"IPProto":[1,6,17,58],"SrcIPs":["*"]}],"Seq":1,"UserProfiles":[{"DisplayName":"seed","ID":1,"LoginName":"seed@"}]}
.
> POST /api/v1/node/1/expire Bearer/secret {}
< 200 {"addresses":["100.64.0.1","fd7a:115c:a1e0::1"],"advertised":[],"approved":[],"expiry":"2001-09-09T01:46:40Z","id":1,"live":false,"name":"node","online":false,"served":[],"tags":[],"user":"seed@"}
> POST /machine/register mkey:%1 {"Expiry":"1970-01-01T00:00:01Z","NodeKey":"nodekey:%b"}
< 200 {"AuthURL":"","Error":"","Login":{"ID":1,"LoginName":"seed@"},"MachineAuthorized":true,"NodeKeyExpired":true,"User":{"DisplayName":"seed","ID":1}}
> POST /api/v1/node/1/expire Bearer/secret {"expiry":"2001-09-09T01:48:21Z"}
< 200 {"addresses":["100.64.0.1","fd7a:115c:a1e0::1"],"advertised":[],"approved":[],"expiry":"2001-09-09T01:48:21Z","id":1,"live":true,"name":"node","online":false,"served":[],"tags":[],"user":"seed@"}
> POST /machine/map mkey:%1 {"MapSessionHandle":"s2-0000000000000001","MapSessionSeq":1,"NodeKey":"nodekey:%b","Stream":true}
< stream
+ {"DNSConfig":{"Domains":["tail.example"],"ExtraRecords":[],"Proxied":true,"Resolvers":[],"Routes":{}},"Domain":"tail.example","MapSessionHandle":"s3-0000000000000001","Node":{"Addresses":["100.64.0.1/32","fd7a:115c:a1e0::1/128"],"AllowedIPs":["100.64.0.1/32","fd7a:115c:a1e0::1/128"],"Created":"2001-09-09T01:46:40Z","DiscoKey":"discokey:%0","Endpoints":[],"HomeDERP":0,"Hostinfo":{"Hostname":""},"ID":1,"Key":"nodekey:%b","KeyExpiry":"2001-09-09T01:48:21Z","Machine":"mkey:%1","MachineAuthorized":true,"Name":"node.tail.example.","Online":true,"StableID":"n1","Tags":[],"User":1},"PacketFilter":[{"DstPorts":[{"IP":"100.64.0.1","Ports":{"First":0,"Last":65535}},{"IP":"fd7a:115c:a1e0::1","Ports":{"First":0,"Last":65535}}],"IPProto":[1,6,17,58],"SrcIPs":["*"]}],"Seq":1,"UserProfiles":[{"DisplayName":"seed","ID":1,"LoginName":"seed@"}]}
.
= session-of-a-machine-that-goes
> POST /machine/register mkey:%1 {"Auth":{"AuthKey":"k1"},"NodeKey":"nodekey:%a"}
< registered
> POST /machine/map mkey:%1 {"NodeKey":"nodekey:%a","Stream":true}
< stream
+ {"DNSConfig":{"Domains":["tail.example"],"ExtraRecords":[],"Proxied":true,"Resolvers":[],"Routes":{}},"Domain":"tail.example","MapSessionHandle":"s1-0000000000000001","Node":{"Addresses":["100.64.0.1/32","fd7a:115c:a1e0::1/128"],"AllowedIPs":["100.64.0.1/32","fd7a:115c:a1e0::1/128"],"Created":"2001-09-09T01:46:40Z","DiscoKey":"discokey:%0","Endpoints":[],"HomeDERP":0,"Hostinfo":{"Hostname":""},"ID":1,"Key":"nodekey:%a","KeyExpiry":"0001-01-01T00:00:00Z","Machine":"mkey:%1","MachineAuthorized":true,"Name":"node.tail.example.","Online":true,"StableID":"n1","Tags":[],"User":1},"PacketFilter":[{"DstPorts":[{"IP":"100.64.0.1","Ports":{"First":0,"Last":65535}},{"IP":"fd7a:115c:a1e0::1","Ports":{"First":0,"Last":65535}}],"IPProto":[1,6,17,58],"SrcIPs":["*"]}],"Seq":1,"UserProfiles":[{"DisplayName":"seed","ID":1,"LoginName":"seed@"}]}
.
> DELETE /api/v1/node/1 Bearer/secret
< 200 {}
> POST /machine/map mkey:%1 {"MapSessionHandle":"s1-0000000000000001","MapSessionSeq":1,"NodeKey":"nodekey:%a","Stream":true}
< 401 {"error":"UnknownMachine"}
> POST /machine/register mkey:%1 {"Auth":{"AuthKey":"k1"},"NodeKey":"nodekey:%a"}
< registered
> POST /machine/map mkey:%1 {"MapSessionHandle":"s1-0000000000000001","MapSessionSeq":1,"NodeKey":"nodekey:%a","Stream":true}
< stream
+ {"DNSConfig":{"Domains":["tail.example"],"ExtraRecords":[],"Proxied":true,"Resolvers":[],"Routes":{}},"Domain":"tail.example","MapSessionHandle":"s2-0000000000000001","Node":{"Addresses":["100.64.0.1/32","fd7a:115c:a1e0::1/128"],"AllowedIPs":["100.64.0.1/32","fd7a:115c:a1e0::1/128"],"Created":"2001-09-09T01:46:40Z","DiscoKey":"discokey:%0","Endpoints":[],"HomeDERP":0,"Hostinfo":{"Hostname":""},"ID":2,"Key":"nodekey:%a","KeyExpiry":"0001-01-01T00:00:00Z","Machine":"mkey:%1","MachineAuthorized":true,"Name":"node.tail.example.","Online":true,"StableID":"n2","Tags":[],"User":1},"PacketFilter":[{"DstPorts":[{"IP":"100.64.0.1","Ports":{"First":0,"Last":65535}},{"IP":"fd7a:115c:a1e0::1","Ports":{"First":0,"Last":65535}}],"IPProto":[1,6,17,58],"SrcIPs":["*"]}],"Seq":1,"UserProfiles":[{"DisplayName":"seed","ID":1,"LoginName":"seed@"}]}
.
= polls-keep-an-ephemeral-machine
@ 1000000000 1000000000 1000000000 1000001799 1000001800 1000001800 1000003599 1000003600
> POST /machine/register mkey:%1 {"Auth":{"AuthKey":"k1"},"NodeKey":"nodekey:%a","Ephemeral":true}
< registered
> POST /machine/map mkey:%1 {"NodeKey":"nodekey:%a","Stream":true}
< stream
+ {"DNSConfig":{"Domains":["tail.example"],"ExtraRecords":[],"Proxied":true,"Resolvers":[],"Routes":{}},"Domain":"tail.example","MapSessionHandle":"s1-0000000000000001","Node":{"Addresses":["100.64.0.1/32","fd7a:115c:a1e0::1/128"],"AllowedIPs":["100.64.0.1/32","fd7a:115c:a1e0::1/128"],"Created":"2001-09-09T01:46:40Z","DiscoKey":"discokey:%0","Endpoints":[],"HomeDERP":0,"Hostinfo":{"Hostname":""},"ID":1,"Key":"nodekey:%a","KeyExpiry":"0001-01-01T00:00:00Z","Machine":"mkey:%1","MachineAuthorized":true,"Name":"node.tail.example.","Online":true,"StableID":"n1","Tags":[],"User":1},"PacketFilter":[{"DstPorts":[{"IP":"100.64.0.1","Ports":{"First":0,"Last":65535}},{"IP":"fd7a:115c:a1e0::1","Ports":{"First":0,"Last":65535}}],"IPProto":[1,6,17,58],"SrcIPs":["*"]}],"Seq":1,"UserProfiles":[{"DisplayName":"seed","ID":1,"LoginName":"seed@"}]}
.
> POST /api/v1/sweep Bearer/secret {}
< 200 {"machines":0,"pending":0}
> POST /api/v1/sweep Bearer/secret {}
< 200 {"machines":1,"pending":0}
= ended-before-the-first-frame
: key_seconds = 100
@ 1000000000 1000000000 1000000000 1000000099 1000000100
> POST /machine/register mkey:%1 {"Auth":{"AuthKey":"k1"},"NodeKey":"nodekey:%a"}
< registered
> POST /machine/map mkey:%1 {"NodeKey":"nodekey:%a","Stream":true}
< stream
.
> POST /api/v1/node/1/expire Bearer/secret {"expiry":"2001-09-09T01:48:21Z"}
< 200 {"addresses":["100.64.0.1","fd7a:115c:a1e0::1"],"advertised":[],"approved":[],"expiry":"2001-09-09T01:48:21Z","id":1,"live":true,"name":"node","online":false,"served":[],"tags":[],"user":"seed@"}
> POST /machine/map mkey:%1 {"MapSessionHandle":"s1-0000000000000001","MapSessionSeq":0,"NodeKey":"nodekey:%a","Stream":true}
< stream
+ {"MapSessionHandle":"s1-0000000000000001"}
+ {"DNSConfig":{"Domains":["tail.example"],"ExtraRecords":[],"Proxied":true,"Resolvers":[],"Routes":{}},"Domain":"tail.example","MapSessionHandle":"s1-0000000000000001","Node":{"Addresses":["100.64.0.1/32","fd7a:115c:a1e0::1/128"],"AllowedIPs":["100.64.0.1/32","fd7a:115c:a1e0::1/128"],"Created":"2001-09-09T01:46:40Z","DiscoKey":"discokey:%0","Endpoints":[],"HomeDERP":0,"Hostinfo":{"Hostname":""},"ID":1,"Key":"nodekey:%a","KeyExpiry":"2001-09-09T01:48:21Z","Machine":"mkey:%1","MachineAuthorized":true,"Name":"node.tail.example.","Online":true,"StableID":"n1","Tags":[],"User":1},"PacketFilter":[{"DstPorts":[{"IP":"100.64.0.1","Ports":{"First":0,"Last":65535}},{"IP":"fd7a:115c:a1e0::1","Ports":{"First":0,"Last":65535}}],"IPProto":[1,6,17,58],"SrcIPs":["*"]}],"Seq":1,"UserProfiles":[{"DisplayName":"seed","ID":1,"LoginName":"seed@"}]}
."#;
