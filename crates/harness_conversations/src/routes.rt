//! Routes that operators approve, and maps that show them.

/// What an operator approves, and what becomes of it.
pub const ROUTE_ROWS: &str = r##"= half-exit
> POST /machine/register mkey:%1 {"Auth":{"AuthKey":"k1"},"NodeKey":"nodekey:%a","Hostinfo":{"RoutableIPs":["0.0.0.0/0"]}}
< registered
> POST /api/v1/node/1/routes Bearer/secret {"routes":["0.0.0.0/0"]}
< 409 {"error":"RouteNotAdvertised"}
> GET /api/v1/node Bearer/secret
< 200 {"nodes":[{"addresses":["100.64.0.1","fd7a:115c:a1e0::1"],"advertised":["0.0.0.0/0"],"approved":[],"expiry":"0001-01-01T00:00:00Z","id":1,"live":true,"name":"node","online":false,"served":[],"tags":[],"user":"seed@"}]}
= tailnet-route
> POST /machine/register mkey:%1 {"Auth":{"AuthKey":"k1"},"NodeKey":"nodekey:%a","Hostinfo":{"RoutableIPs":["100.64.8.0/24"]}}
< registered
> POST /api/v1/node/1/routes Bearer/secret {"routes":["100.64.8.0/24"]}
< 409 {"error":"RouteOverlaps"}
> GET /api/v1/node Bearer/secret
< 200 {"nodes":[{"addresses":["100.64.0.1","fd7a:115c:a1e0::1"],"advertised":["100.64.8.0/24"],"approved":[],"expiry":"0001-01-01T00:00:00Z","id":1,"live":true,"name":"node","online":false,"served":[],"tags":[],"user":"seed@"}]}
= exit-approved
> POST /machine/register mkey:%1 {"Auth":{"AuthKey":"k1"},"NodeKey":"nodekey:%a","Hostinfo":{"RoutableIPs":["::/0","0.0.0.0/0"]}}
< registered
> POST /api/v1/node/1/routes Bearer/secret {"routes":["::/0"]}
< 200 {"addresses":["100.64.0.1","fd7a:115c:a1e0::1"],"advertised":["0.0.0.0/0","::/0"],"approved":["0.0.0.0/0","::/0"],"expiry":"0001-01-01T00:00:00Z","id":1,"live":true,"name":"node","online":false,"served":["0.0.0.0/0","::/0"],"tags":[],"user":"seed@"}
= routes-tried-in-order
> POST /api/v1/node/1/routes Bearer/secret {"routes":[]}
< 404 {"error":"UnknownMachine"}
> POST /machine/register mkey:%1 {"Auth":{"AuthKey":"k1"},"NodeKey":"nodekey:%a","Hostinfo":{"RoutableIPs":["10.1.0.0/16","100.0.0.0/8","fd7a:115c:a1e0::/64","::/0"]}}
< registered
> POST /api/v1/node/1/routes Bearer/secret {"routes":["100.0.0.0/8","10.2.0.0/16"]}
< 409 {"error":"RouteNotAdvertised"}
> POST /api/v1/node/1/routes Bearer/secret {"routes":["192.168.0.0/16","100.0.0.0/8"]}
< 409 {"error":"RouteOverlaps"}
> POST /api/v1/node/1/routes Bearer/secret {"routes":["100.64.0.0/16"]}
< 409 {"error":"RouteNotAdvertised"}
> POST /api/v1/node/1/routes Bearer/secret {"routes":["10.1.0.0/17"]}
< 409 {"error":"RouteNotAdvertised"}
> POST /api/v1/node/1/routes Bearer/secret {"routes":["fd7a:115c:a1e0::/64"]}
< 409 {"error":"RouteOverlaps"}
> POST /api/v1/node/1/routes Bearer/secret {"routes":["fd7a:115c:a1e0::/64","::/0"]}
< 409 {"error":"RouteNotAdvertised"}
> GET /api/v1/node Bearer/secret
< 200 {"nodes":[{"addresses":["100.64.0.1","fd7a:115c:a1e0::1"],"advertised":["10.1.0.0/16","100.0.0.0/8","::/0","fd7a:115c:a1e0::/64"],"approved":[],"expiry":"0001-01-01T00:00:00Z","id":1,"live":true,"name":"node","online":false,"served":[],"tags":[],"user":"seed@"}]}
= approvals-replace
> POST /machine/register mkey:%1 {"Auth":{"AuthKey":"k1"},"NodeKey":"nodekey:%a","Hostinfo":{"RoutableIPs":["10.1.0.0/16","10.2.0.0/16"]}}
< registered
> POST /api/v1/node/1/routes Bearer/secret {"routes":["10.2.0.0/16","10.2.0.0/16"]}
< 200 {"addresses":["100.64.0.1","fd7a:115c:a1e0::1"],"advertised":["10.1.0.0/16","10.2.0.0/16"],"approved":["10.2.0.0/16"],"expiry":"0001-01-01T00:00:00Z","id":1,"live":true,"name":"node","online":false,"served":["10.2.0.0/16"],"tags":[],"user":"seed@"}
> POST /api/v1/node/1/routes Bearer/secret {"routes":["10.1.0.0/16"]}
< 200 {"addresses":["100.64.0.1","fd7a:115c:a1e0::1"],"advertised":["10.1.0.0/16","10.2.0.0/16"],"approved":["10.1.0.0/16"],"expiry":"0001-01-01T00:00:00Z","id":1,"live":true,"name":"node","online":false,"served":["10.1.0.0/16"],"tags":[],"user":"seed@"}
> POST /api/v1/node/1/routes Bearer/secret {"routes":[]}
< 200 {"addresses":["100.64.0.1","fd7a:115c:a1e0::1"],"advertised":["10.1.0.0/16","10.2.0.0/16"],"approved":[],"expiry":"0001-01-01T00:00:00Z","id":1,"live":true,"name":"node","online":false,"served":[],"tags":[],"user":"seed@"}
= advertisement-withdrawn
> POST /machine/register mkey:%1 {"Auth":{"AuthKey":"k1"},"NodeKey":"nodekey:%a","Hostinfo":{"RoutableIPs":["10.1.0.0/16","10.2.0.0/16"]}}
< registered
> POST /api/v1/node/1/routes Bearer/secret {"routes":["10.1.0.0/16"]}
< 200 {"addresses":["100.64.0.1","fd7a:115c:a1e0::1"],"advertised":["10.1.0.0/16","10.2.0.0/16"],"approved":["10.1.0.0/16"],"expiry":"0001-01-01T00:00:00Z","id":1,"live":true,"name":"node","online":false,"served":["10.1.0.0/16"],"tags":[],"user":"seed@"}
> POST /machine/map mkey:%1 {"NodeKey":"nodekey:%a","OmitPeers":true,"Hostinfo":{"RoutableIPs":["10.2.0.0/16"]}}
< 200 
> GET /api/v1/node Bearer/secret
< 200 {"nodes":[{"addresses":["100.64.0.1","fd7a:115c:a1e0::1"],"advertised":["10.2.0.0/16"],"approved":["10.1.0.0/16"],"expiry":"0001-01-01T00:00:00Z","id":1,"live":true,"name":"node","online":false,"served":[],"tags":[],"user":"seed@"}]}
> POST /machine/map mkey:%1 {"NodeKey":"nodekey:%a","OmitPeers":true,"Hostinfo":{"RoutableIPs":["10.1.0.0/16"]}}
< 200 
> GET /api/v1/node Bearer/secret
< 200 {"nodes":[{"addresses":["100.64.0.1","fd7a:115c:a1e0::1"],"advertised":["10.1.0.0/16"],"approved":["10.1.0.0/16"],"expiry":"0001-01-01T00:00:00Z","id":1,"live":true,"name":"node","online":false,"served":["10.1.0.0/16"],"tags":[],"user":"seed@"}]}
= renewed-with-approvals
> POST /machine/register mkey:%1 {"Auth":{"AuthKey":"k1"},"NodeKey":"nodekey:%a","Hostinfo":{"RoutableIPs":["10.1.0.0/16"]}}
< registered
> POST /api/v1/node/1/routes Bearer/secret {"routes":["10.1.0.0/16"]}
< 200 {"addresses":["100.64.0.1","fd7a:115c:a1e0::1"],"advertised":["10.1.0.0/16"],"approved":["10.1.0.0/16"],"expiry":"0001-01-01T00:00:00Z","id":1,"live":true,"name":"node","online":false,"served":["10.1.0.0/16"],"tags":[],"user":"seed@"}
> POST /api/v1/node/1/expire Bearer/secret {}
< 200 {"addresses":["100.64.0.1","fd7a:115c:a1e0::1"],"advertised":["10.1.0.0/16"],"approved":["10.1.0.0/16"],"expiry":"2001-09-09T01:46:40Z","id":1,"live":false,"name":"node","online":false,"served":["10.1.0.0/16"],"tags":[],"user":"seed@"}
> POST /machine/register mkey:%1 {"Auth":{"AuthKey":"k1"},"NodeKey":"nodekey:%b","Hostinfo":{"RoutableIPs":["10.1.0.0/16"]}}
< registered
> GET /api/v1/node Bearer/secret
< 200 {"nodes":[{"addresses":["100.64.0.1","fd7a:115c:a1e0::1"],"advertised":["10.1.0.0/16"],"approved":["10.1.0.0/16"],"expiry":"0001-01-01T00:00:00Z","id":1,"live":true,"name":"node","online":false,"served":["10.1.0.0/16"],"tags":[],"user":"seed@"}]}
= approver-taken-away
> PUT /api/v1/policy Bearer/secret {"autoApprovers":{"routes":{"10.0.0.0/8":["seed@"]}}}
< 200 {}
> POST /machine/register mkey:%1 {"Auth":{"AuthKey":"k1"},"NodeKey":"nodekey:%a","Hostinfo":{"RoutableIPs":["10.1.0.0/16","10.2.0.0/16"]}}
< registered
> POST /api/v1/node/1/routes Bearer/secret {"routes":["10.2.0.0/16"]}
< 200 {"addresses":["100.64.0.1","fd7a:115c:a1e0::1"],"advertised":["10.1.0.0/16","10.2.0.0/16"],"approved":["10.2.0.0/16"],"expiry":"0001-01-01T00:00:00Z","id":1,"live":true,"name":"node","online":false,"served":["10.1.0.0/16","10.2.0.0/16"],"tags":[],"user":"seed@"}
> PUT /api/v1/policy Bearer/secret {"autoApprovers":{"routes":{"10.0.0.0/8":["bob@"]}}}
< 200 {}
> GET /api/v1/node Bearer/secret
< 200 {"nodes":[{"addresses":["100.64.0.1","fd7a:115c:a1e0::1"],"advertised":["10.1.0.0/16","10.2.0.0/16"],"approved":["10.2.0.0/16"],"expiry":"0001-01-01T00:00:00Z","id":1,"live":true,"name":"node","online":false,"served":["10.2.0.0/16"],"tags":[],"user":"seed@"}]}
= failed-route-commit
! keep 4
> POST /machine/register mkey:%1 {"Auth":{"AuthKey":"k1"},"NodeKey":"nodekey:%a","Hostinfo":{"RoutableIPs":["10.1.0.0/16"]}}
< registered
> POST /api/v1/node/1/routes Bearer/secret {"routes":["10.1.0.0/16"]}
< 500 {"error":"KeeperFault"}
> GET /api/v1/node Bearer/secret
< 200 {"nodes":[{"addresses":["100.64.0.1","fd7a:115c:a1e0::1"],"advertised":["10.1.0.0/16"],"approved":[],"expiry":"0001-01-01T00:00:00Z","id":1,"live":true,"name":"node","online":false,"served":[],"tags":[],"user":"seed@"}]}
> POST /api/v1/node/1/routes Bearer/secret {"routes":["10.1.0.0/16"]}
< 200 {"addresses":["100.64.0.1","fd7a:115c:a1e0::1"],"advertised":["10.1.0.0/16"],"approved":["10.1.0.0/16"],"expiry":"0001-01-01T00:00:00Z","id":1,"live":true,"name":"node","online":false,"served":["10.1.0.0/16"],"tags":[],"user":"seed@"}
= failed-route-commit-and-a-poll
! keep 5
> POST /machine/register mkey:%1 {"Auth":{"AuthKey":"k1"},"NodeKey":"nodekey:%a"}
< registered
> POST /machine/register mkey:%2 {"Auth":{"AuthKey":"k1"},"NodeKey":"nodekey:%b","Hostinfo":{"RoutableIPs":["10.1.0.0/16"]}}
< registered
> POST /machine/map mkey:%1 {"MapSessionHandle":"","MapSessionSeq":0,"NodeKey":"nodekey:%a","OmitPeers":false,"Stream":true}
< stream
+ {"DNSConfig":{"Domains":["tail.example"],"ExtraRecords":[],"Proxied":true,"Resolvers":[],"Routes":{}},"Domain":"tail.example","MapSessionHandle":"s1-0000000000000001","Node":{"Addresses":["100.64.0.1/32","fd7a:115c:a1e0::1/128"],"AllowedIPs":["100.64.0.1/32","fd7a:115c:a1e0::1/128"],"Created":"2001-09-09T01:46:40Z","DiscoKey":"discokey:%0","Endpoints":[],"HomeDERP":0,"Hostinfo":{"Hostname":""},"ID":1,"Key":"nodekey:%a","KeyExpiry":"0001-01-01T00:00:00Z","Machine":"mkey:%1","MachineAuthorized":true,"Name":"node.tail.example.","Online":true,"StableID":"n1","Tags":[],"User":1},"PacketFilter":[{"DstPorts":[{"IP":"100.64.0.1","Ports":{"First":0,"Last":65535}},{"IP":"fd7a:115c:a1e0::1","Ports":{"First":0,"Last":65535}}],"IPProto":[1,6,17,58],"SrcIPs":["*"]}],"Peers":[{"Addresses":["100.64.0.2/32","fd7a:115c:a1e0::2/128"],"AllowedIPs":["100.64.0.2/32","fd7a:115c:a1e0::2/128"],"Created":"2001-09-09T01:46:40Z","DiscoKey":"discokey:%0","Endpoints":[],"HomeDERP":0,"Hostinfo":{"Hostname":""},"ID":2,"Key":"nodekey:%b","KeyExpiry":"0001-01-01T00:00:00Z","Machine":"mkey:%2","MachineAuthorized":true,"Name":"node-1.tail.example.","Online":false,"StableID":"n2","Tags":[],"User":1}],"Seq":1,"UserProfiles":[{"DisplayName":"seed","ID":1,"LoginName":"seed@"}]}
.
> POST /api/v1/node/2/routes Bearer/secret {"routes":["10.1.0.0/16"]}
< 500 {"error":"KeeperFault"}
> POST /machine/map mkey:%1 {"MapSessionHandle":"s1-0000000000000001","MapSessionSeq":1,"NodeKey":"nodekey:%a","OmitPeers":false,"Stream":true}
< stream
+ {"MapSessionHandle":"s1-0000000000000001"}
.
> POST /api/v1/node/2/routes Bearer/secret {"routes":["10.1.0.0/16"]}
< 200 {"addresses":["100.64.0.2","fd7a:115c:a1e0::2"],"advertised":["10.1.0.0/16"],"approved":["10.1.0.0/16"],"expiry":"0001-01-01T00:00:00Z","id":2,"live":true,"name":"node-1","online":false,"served":["10.1.0.0/16"],"tags":[],"user":"seed@"}
> POST /machine/map mkey:%1 {"MapSessionHandle":"s1-0000000000000001","MapSessionSeq":1,"NodeKey":"nodekey:%a","OmitPeers":false,"Stream":true}
< stream
+ {"MapSessionHandle":"s1-0000000000000001"}
+ {"PeersChanged":[{"Addresses":["100.64.0.2/32","fd7a:115c:a1e0::2/128"],"AllowedIPs":["100.64.0.2/32","fd7a:115c:a1e0::2/128","10.1.0.0/16"],"Created":"2001-09-09T01:46:40Z","DiscoKey":"discokey:%0","Endpoints":[],"HomeDERP":0,"Hostinfo":{"Hostname":""},"ID":2,"Key":"nodekey:%b","KeyExpiry":"0001-01-01T00:00:00Z","Machine":"mkey:%2","MachineAuthorized":true,"Name":"node-1.tail.example.","Online":false,"StableID":"n2","Tags":[],"User":1}],"Seq":2}
.
= routes-again
! keep 5
> POST /machine/register mkey:%1 {"Auth":{"AuthKey":"k1"},"NodeKey":"nodekey:%a","Hostinfo":{"RoutableIPs":["0.0.0.0/0","10.1.0.0/16","::/0"]}}
< registered
> POST /api/v1/node/1/routes Bearer/secret {"routes":["0.0.0.0/0","10.1.0.0/16"]}
< 200 {"addresses":["100.64.0.1","fd7a:115c:a1e0::1"],"advertised":["0.0.0.0/0","10.1.0.0/16","::/0"],"approved":["0.0.0.0/0","10.1.0.0/16","::/0"],"expiry":"0001-01-01T00:00:00Z","id":1,"live":true,"name":"node","online":false,"served":["10.1.0.0/16","0.0.0.0/0","::/0"],"tags":[],"user":"seed@"}
> POST /api/v1/node/1/routes Bearer/secret {"routes":["::/0","10.1.0.0/16"]}
< 200 {"addresses":["100.64.0.1","fd7a:115c:a1e0::1"],"advertised":["0.0.0.0/0","10.1.0.0/16","::/0"],"approved":["0.0.0.0/0","10.1.0.0/16","::/0"],"expiry":"0001-01-01T00:00:00Z","id":1,"live":true,"name":"node","online":false,"served":["10.1.0.0/16","0.0.0.0/0","::/0"],"tags":[],"user":"seed@"}
> POST /api/v1/node/1/routes Bearer/secret {"routes":["::/0"]}
< 500 {"error":"KeeperFault"}"##;

/// Of two routers each machine is shown the route at the first that it sees.
pub const FIRST_ROUTER: &str = r##"= first-router
> POST /machine/register mkey:%1 {"Auth":{"AuthKey":"k1"},"NodeKey":"nodekey:%a"}
< registered
> POST /machine/register mkey:%2 {"Auth":{"AuthKey":"k1"},"NodeKey":"nodekey:%b","Hostinfo":{"RoutableIPs":["10.1.0.0/16"]}}
< registered
> POST /machine/register mkey:%3 {"Auth":{"AuthKey":"k1"},"NodeKey":"nodekey:%c","Hostinfo":{"RoutableIPs":["10.1.0.0/16"]}}
< registered
> POST /api/v1/node/3/routes Bearer/secret {"routes":["10.1.0.0/16"]}
< 200 {"addresses":["100.64.0.3","fd7a:115c:a1e0::3"],"advertised":["10.1.0.0/16"],"approved":["10.1.0.0/16"],"expiry":"0001-01-01T00:00:00Z","id":3,"live":true,"name":"node-2","online":false,"served":["10.1.0.0/16"],"tags":[],"user":"seed@"}
> POST /api/v1/node/2/routes Bearer/secret {"routes":["10.1.0.0/16"]}
< 200 {"addresses":["100.64.0.2","fd7a:115c:a1e0::2"],"advertised":["10.1.0.0/16"],"approved":["10.1.0.0/16"],"expiry":"0001-01-01T00:00:00Z","id":2,"live":true,"name":"node-1","online":false,"served":["10.1.0.0/16"],"tags":[],"user":"seed@"}
> POST /machine/map mkey:%1 {"NodeKey":"nodekey:%a","ReadOnly":true}
< 200 #{"DNSConfig":{"Domains":["tail.example"],"ExtraRecords":[],"Proxied":true,"Resolvers":[],"Routes":{}},"Domain":"tail.example","Node":{"Addresses":["100.64.0.1/32","fd7a:115c:a1e0::1/128"],"AllowedIPs":["100.64.0.1/32","fd7a:115c:a1e0::1/128"],"Created":"2001-09-09T01:46:40Z","DiscoKey":"discokey:%0","Endpoints":[],"HomeDERP":0,"Hostinfo":{"Hostname":""},"ID":1,"Key":"nodekey:%a","KeyExpiry":"0001-01-01T00:00:00Z","Machine":"mkey:%1","MachineAuthorized":true,"Name":"node.tail.example.","Online":false,"StableID":"n1","Tags":[],"User":1},"PacketFilter":[{"DstPorts":[{"IP":"100.64.0.1","Ports":{"First":0,"Last":65535}},{"IP":"fd7a:115c:a1e0::1","Ports":{"First":0,"Last":65535}}],"IPProto":[1,6,17,58],"SrcIPs":["*"]}],"Peers":[{"Addresses":["100.64.0.2/32","fd7a:115c:a1e0::2/128"],"AllowedIPs":["100.64.0.2/32","fd7a:115c:a1e0::2/128","10.1.0.0/16"],"Created":"2001-09-09T01:46:40Z","DiscoKey":"discokey:%0","Endpoints":[],"HomeDERP":0,"Hostinfo":{"Hostname":""},"ID":2,"Key":"nodekey:%b","KeyExpiry":"0001-01-01T00:00:00Z","Machine":"mkey:%2","MachineAuthorized":true,"Name":"node-1.tail.example.","Online":false,"StableID":"n2","Tags":[],"User":1},{"Addresses":["100.64.0.3/32","fd7a:115c:a1e0::3/128"],"AllowedIPs":["100.64.0.3/32","fd7a:115c:a1e0::3/128"],"Created":"2001-09-09T01:46:40Z","DiscoKey":"discokey:%0","Endpoints":[],"HomeDERP":0,"Hostinfo":{"Hostname":""},"ID":3,"Key":"nodekey:%c","KeyExpiry":"0001-01-01T00:00:00Z","Machine":"mkey:%3","MachineAuthorized":true,"Name":"node-2.tail.example.","Online":false,"StableID":"n3","Tags":[],"User":1}],"UserProfiles":[{"DisplayName":"seed","ID":1,"LoginName":"seed@"}]}
> POST /machine/map mkey:%3 {"NodeKey":"nodekey:%c","ReadOnly":true}
< 200 #{"DNSConfig":{"Domains":["tail.example"],"ExtraRecords":[],"Proxied":true,"Resolvers":[],"Routes":{}},"Domain":"tail.example","Node":{"Addresses":["100.64.0.3/32","fd7a:115c:a1e0::3/128"],"AllowedIPs":["100.64.0.3/32","fd7a:115c:a1e0::3/128","10.1.0.0/16"],"Created":"2001-09-09T01:46:40Z","DiscoKey":"discokey:%0","Endpoints":[],"HomeDERP":0,"Hostinfo":{"Hostname":""},"ID":3,"Key":"nodekey:%c","KeyExpiry":"0001-01-01T00:00:00Z","Machine":"mkey:%3","MachineAuthorized":true,"Name":"node-2.tail.example.","Online":false,"StableID":"n3","Tags":[],"User":1},"PacketFilter":[{"DstPorts":[{"IP":"10.1.0.0/16","Ports":{"First":0,"Last":65535}},{"IP":"100.64.0.3","Ports":{"First":0,"Last":65535}},{"IP":"fd7a:115c:a1e0::3","Ports":{"First":0,"Last":65535}}],"IPProto":[1,6,17,58],"SrcIPs":["*"]}],"Peers":[{"Addresses":["100.64.0.1/32","fd7a:115c:a1e0::1/128"],"AllowedIPs":["100.64.0.1/32","fd7a:115c:a1e0::1/128"],"Created":"2001-09-09T01:46:40Z","DiscoKey":"discokey:%0","Endpoints":[],"HomeDERP":0,"Hostinfo":{"Hostname":""},"ID":1,"Key":"nodekey:%a","KeyExpiry":"0001-01-01T00:00:00Z","Machine":"mkey:%1","MachineAuthorized":true,"Name":"node.tail.example.","Online":false,"StableID":"n1","Tags":[],"User":1},{"Addresses":["100.64.0.2/32","fd7a:115c:a1e0::2/128"],"AllowedIPs":["100.64.0.2/32","fd7a:115c:a1e0::2/128","10.1.0.0/16"],"Created":"2001-09-09T01:46:40Z","DiscoKey":"discokey:%0","Endpoints":[],"HomeDERP":0,"Hostinfo":{"Hostname":""},"ID":2,"Key":"nodekey:%b","KeyExpiry":"0001-01-01T00:00:00Z","Machine":"mkey:%2","MachineAuthorized":true,"Name":"node-1.tail.example.","Online":false,"StableID":"n2","Tags":[],"User":1}],"UserProfiles":[{"DisplayName":"seed","ID":1,"LoginName":"seed@"}]}
> POST /api/v1/node/2/expire Bearer/secret {}
< 200 {"addresses":["100.64.0.2","fd7a:115c:a1e0::2"],"advertised":["10.1.0.0/16"],"approved":["10.1.0.0/16"],"expiry":"2001-09-09T01:46:40Z","id":2,"live":false,"name":"node-1","online":false,"served":["10.1.0.0/16"],"tags":[],"user":"seed@"}
> POST /machine/map mkey:%1 {"NodeKey":"nodekey:%a","ReadOnly":true}
< 200 #{"DNSConfig":{"Domains":["tail.example"],"ExtraRecords":[],"Proxied":true,"Resolvers":[],"Routes":{}},"Domain":"tail.example","Node":{"Addresses":["100.64.0.1/32","fd7a:115c:a1e0::1/128"],"AllowedIPs":["100.64.0.1/32","fd7a:115c:a1e0::1/128"],"Created":"2001-09-09T01:46:40Z","DiscoKey":"discokey:%0","Endpoints":[],"HomeDERP":0,"Hostinfo":{"Hostname":""},"ID":1,"Key":"nodekey:%a","KeyExpiry":"0001-01-01T00:00:00Z","Machine":"mkey:%1","MachineAuthorized":true,"Name":"node.tail.example.","Online":false,"StableID":"n1","Tags":[],"User":1},"PacketFilter":[{"DstPorts":[{"IP":"100.64.0.1","Ports":{"First":0,"Last":65535}},{"IP":"fd7a:115c:a1e0::1","Ports":{"First":0,"Last":65535}}],"IPProto":[1,6,17,58],"SrcIPs":["*"]}],"Peers":[{"Addresses":["100.64.0.3/32","fd7a:115c:a1e0::3/128"],"AllowedIPs":["100.64.0.3/32","fd7a:115c:a1e0::3/128","10.1.0.0/16"],"Created":"2001-09-09T01:46:40Z","DiscoKey":"discokey:%0","Endpoints":[],"HomeDERP":0,"Hostinfo":{"Hostname":""},"ID":3,"Key":"nodekey:%c","KeyExpiry":"0001-01-01T00:00:00Z","Machine":"mkey:%3","MachineAuthorized":true,"Name":"node-2.tail.example.","Online":false,"StableID":"n3","Tags":[],"User":1}],"UserProfiles":[{"DisplayName":"seed","ID":1,"LoginName":"seed@"}]}"##;

/// What the path takes.
pub const ROUTE_BODIES: &str = r##"= routes-bodies
> POST /machine/register mkey:%1 {"Auth":{"AuthKey":"k1"},"NodeKey":"nodekey:%a"}
< registered
> GET /api/v1/node/1/routes Bearer/secret
< 405 {"error":"BadMethod"}
> POST /api/v1/node/1/routes Bearer/other {"routes":[]}
< 401 {"error":"BadToken"}
> POST /api/v1/node/0/routes Bearer/secret {"routes":[]}
< 404 {"error":"NoPath"}
> POST /api/v1/node/2/routes Bearer/secret {"routes":["10.0.0.0/8"]}
< 404 {"error":"UnknownMachine"}
> POST /api/v1/node/1/routes Bearer/secret {"routes":["10.0.0.0/8"]}
< 409 {"error":"RouteNotAdvertised"}
= routes-left-out
> POST /api/v1/node/1/routes Bearer/secret {}
< 400 {"error":"Missing","field":"routes"}
= routes-null
> POST /api/v1/node/1/routes Bearer/secret {"routes":null}
< 400 {"error":"Missing","field":"routes"}
= routes-with-bits-behind
> POST /api/v1/node/1/routes Bearer/secret {"routes":["10.0.0.0/8","10.0.0.1/8"]}
< 400 {"error":"BadField","field":"routes"}
= routes-without-length
> POST /api/v1/node/1/routes Bearer/secret {"routes":["10.0.0.0"]}
< 400 {"error":"BadField","field":"routes"}
= routes-as-a-text
> POST /api/v1/node/1/routes Bearer/secret {"routes":"10.0.0.0/8"}
< 400 {"error":"BadField","field":"routes"}
= routes-over-the-limit
> POST /api/v1/node/1/routes Bearer/secret {"routes":["10.0.0.0/8","10.0.0.0/8","10.0.0.0/8","10.0.0.0/8","10.0.0.0/8","10.0.0.0/8","10.0.0.0/8","10.0.0.0/8","10.0.0.0/8","10.0.0.0/8","10.0.0.0/8","10.0.0.0/8","10.0.0.0/8","10.0.0.0/8","10.0.0.0/8","10.0.0.0/8","10.0.0.0/8","10.0.0.0/8","10.0.0.0/8","10.0.0.0/8","10.0.0.0/8","10.0.0.0/8","10.0.0.0/8","10.0.0.0/8","10.0.0.0/8","10.0.0.0/8","10.0.0.0/8","10.0.0.0/8","10.0.0.0/8","10.0.0.0/8","10.0.0.0/8","10.0.0.0/8","10.0.0.0/8"]}
< 400 {"error":"BadField","field":"routes"}
= routes-at-the-limit
> POST /api/v1/node/1/routes Bearer/secret {"routes":["10.0.0.0/8","10.0.0.0/8","10.0.0.0/8","10.0.0.0/8","10.0.0.0/8","10.0.0.0/8","10.0.0.0/8","10.0.0.0/8","10.0.0.0/8","10.0.0.0/8","10.0.0.0/8","10.0.0.0/8","10.0.0.0/8","10.0.0.0/8","10.0.0.0/8","10.0.0.0/8","10.0.0.0/8","10.0.0.0/8","10.0.0.0/8","10.0.0.0/8","10.0.0.0/8","10.0.0.0/8","10.0.0.0/8","10.0.0.0/8","10.0.0.0/8","10.0.0.0/8","10.0.0.0/8","10.0.0.0/8","10.0.0.0/8","10.0.0.0/8","10.0.0.0/8","10.0.0.0/8"]}
< 404 {"error":"UnknownMachine"}"##;
