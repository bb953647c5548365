//! Policies with `grants`: saved, refused, opened, and the maps under them.

/// What grants let through, by the filters of maps, and what is refused of them.
pub const GRANTS: &str = r#"= grant-filter
> PUT /api/v1/policy Bearer/secret {"tagOwners":{"tag:web":[]},"grants":[{"src":["*"],"dst":["tag:web"],"ip":["tcp:443","icmp:*"]}]}
< 200 {}
> POST /machine/register mkey:%1 {"Auth":{"AuthKey":"k1"},"NodeKey":"nodekey:%a"}
< registered
> POST /api/v1/node/1/tags Bearer/secret {"tags":["tag:web"]}
< 200 {"addresses":["100.64.0.1","fd7a:115c:a1e0::1"],"advertised":[],"approved":[],"expiry":"0001-01-01T00:00:00Z","id":1,"live":true,"name":"node","online":false,"served":[],"tags":["tag:web"],"user":"seed@"}
> POST /machine/map mkey:%1 {"NodeKey":"nodekey:%a","OmitPeers":false,"Stream":false}
< 200 #{"DNSConfig":{"Domains":["tail.example"],"ExtraRecords":[],"Proxied":true,"Resolvers":[],"Routes":{}},"Domain":"tail.example","Node":{"Addresses":["100.64.0.1/32","fd7a:115c:a1e0::1/128"],"AllowedIPs":["100.64.0.1/32","fd7a:115c:a1e0::1/128"],"Created":"2001-09-09T01:46:40Z","DiscoKey":"discokey:%0","Endpoints":[],"HomeDERP":0,"Hostinfo":{"Hostname":""},"ID":1,"Key":"nodekey:%a","KeyExpiry":"0001-01-01T00:00:00Z","Machine":"mkey:%1","MachineAuthorized":true,"Name":"node.tail.example.","Online":false,"StableID":"n1","Tags":["tag:web"],"User":2147483647},"PacketFilter":[{"DstPorts":[{"IP":"100.64.0.1","Ports":{"First":443,"Last":443}},{"IP":"fd7a:115c:a1e0::1","Ports":{"First":443,"Last":443}}],"IPProto":[6],"SrcIPs":["*"]},{"DstPorts":[{"IP":"100.64.0.1","Ports":{"First":0,"Last":65535}},{"IP":"fd7a:115c:a1e0::1","Ports":{"First":0,"Last":65535}}],"IPProto":[1],"SrcIPs":["*"]}],"UserProfiles":[{"DisplayName":"Tagged Devices","ID":2147483647,"LoginName":"tagged-devices"}]}
= empty-grants
> POST /machine/register mkey:%1 {"Auth":{"AuthKey":"k1"},"NodeKey":"nodekey:%a"}
< registered
> POST /machine/register mkey:%2 {"Auth":{"AuthKey":"k1"},"NodeKey":"nodekey:%b"}
< registered
> PUT /api/v1/policy Bearer/secret {"grants":[]}
< 200 {}
> POST /machine/map mkey:%1 {"NodeKey":"nodekey:%a","OmitPeers":false,"Stream":false}
< 200 #{"DNSConfig":{"Domains":["tail.example"],"ExtraRecords":[],"Proxied":true,"Resolvers":[],"Routes":{}},"Domain":"tail.example","Node":{"Addresses":["100.64.0.1/32","fd7a:115c:a1e0::1/128"],"AllowedIPs":["100.64.0.1/32","fd7a:115c:a1e0::1/128"],"Created":"2001-09-09T01:46:40Z","DiscoKey":"discokey:%0","Endpoints":[],"HomeDERP":0,"Hostinfo":{"Hostname":""},"ID":1,"Key":"nodekey:%a","KeyExpiry":"0001-01-01T00:00:00Z","Machine":"mkey:%1","MachineAuthorized":true,"Name":"node.tail.example.","Online":false,"StableID":"n1","Tags":[],"User":1},"PacketFilter":[],"UserProfiles":[{"DisplayName":"seed","ID":1,"LoginName":"seed@"}]}
= acls-and-grants
> POST /machine/register mkey:%1 {"Auth":{"AuthKey":"k1"},"NodeKey":"nodekey:%a"}
< registered
> PUT /api/v1/policy Bearer/secret {"grants":[{"src":["*"],"dst":["*"],"ip":["tcp:2"]}],"acls":[{"action":"accept","src":["*"],"dst":["*:1"]}]}
< 200 {}
> POST /machine/map mkey:%1 {"NodeKey":"nodekey:%a","OmitPeers":false,"Stream":false}
< 200 #{"DNSConfig":{"Domains":["tail.example"],"ExtraRecords":[],"Proxied":true,"Resolvers":[],"Routes":{}},"Domain":"tail.example","Node":{"Addresses":["100.64.0.1/32","fd7a:115c:a1e0::1/128"],"AllowedIPs":["100.64.0.1/32","fd7a:115c:a1e0::1/128"],"Created":"2001-09-09T01:46:40Z","DiscoKey":"discokey:%0","Endpoints":[],"HomeDERP":0,"Hostinfo":{"Hostname":""},"ID":1,"Key":"nodekey:%a","KeyExpiry":"0001-01-01T00:00:00Z","Machine":"mkey:%1","MachineAuthorized":true,"Name":"node.tail.example.","Online":false,"StableID":"n1","Tags":[],"User":1},"PacketFilter":[{"DstPorts":[{"IP":"100.64.0.1","Ports":{"First":1,"Last":1}},{"IP":"fd7a:115c:a1e0::1","Ports":{"First":1,"Last":1}}],"IPProto":[1,6,17,58],"SrcIPs":["*"]},{"DstPorts":[{"IP":"100.64.0.1","Ports":{"First":2,"Last":2}},{"IP":"fd7a:115c:a1e0::1","Ports":{"First":2,"Last":2}}],"IPProto":[6],"SrcIPs":["*"]}],"UserProfiles":[{"DisplayName":"seed","ID":1,"LoginName":"seed@"}]}
= bad-ip-entries
> PUT /api/v1/policy Bearer/secret {"grants":[{"src":["*"],"dst":["*"],"ip":["icmp:80"]}]}
< 422 {"code":"P17","place":"grants[0].ip[0]"}
> PUT /api/v1/policy Bearer/secret {"grants":[{"src":["*"],"dst":["*"],"ip":["tcp:80,81"]}]}
< 422 {"code":"P16","place":"grants[0].ip[0]"}
> PUT /api/v1/policy Bearer/secret {"grants":[{"src":["*"],"dst":["*"],"ip":["foo:80"]}]}
< 422 {"code":"P10","place":"grants[0].ip[0]"}
> GET /api/v1/policy Bearer/secret
< 200 {}
= grant-via
> PUT /api/v1/policy Bearer/secret {"grants":[{"src":["*"],"dst":["*"],"ip":["*"],"via":["tag:r"]}]}
< 422 {"code":"P4","place":"grants[0].via"}
> GET /api/v1/policy Bearer/secret
< 200 {}
= grant-self
> PUT /api/v1/policy Bearer/secret {"tagOwners":{"tag:web":[]},"grants":[{"src":["autogroup:member"],"dst":["100.64.0.1","tag:web","autogroup:self"],"ip":["tcp:22","icmp:*"]}]}
< 200 {}
> POST /machine/register mkey:%1 {"Auth":{"AuthKey":"k1"},"NodeKey":"nodekey:%a"}
< registered
> POST /machine/register mkey:%2 {"Auth":{"AuthKey":"k1"},"NodeKey":"nodekey:%b"}
< registered
> POST /machine/map mkey:%1 {"NodeKey":"nodekey:%a","OmitPeers":false,"Stream":false}
< 200 #{"DNSConfig":{"Domains":["tail.example"],"ExtraRecords":[],"Proxied":true,"Resolvers":[],"Routes":{}},"Domain":"tail.example","Node":{"Addresses":["100.64.0.1/32","fd7a:115c:a1e0::1/128"],"AllowedIPs":["100.64.0.1/32","fd7a:115c:a1e0::1/128"],"Created":"2001-09-09T01:46:40Z","DiscoKey":"discokey:%0","Endpoints":[],"HomeDERP":0,"Hostinfo":{"Hostname":""},"ID":1,"Key":"nodekey:%a","KeyExpiry":"0001-01-01T00:00:00Z","Machine":"mkey:%1","MachineAuthorized":true,"Name":"node.tail.example.","Online":false,"StableID":"n1","Tags":[],"User":1},"PacketFilter":[{"DstPorts":[{"IP":"100.64.0.1","Ports":{"First":22,"Last":22}}],"IPProto":[6],"SrcIPs":["100.64.0.1","100.64.0.2","fd7a:115c:a1e0::1","fd7a:115c:a1e0::2"]},{"DstPorts":[{"IP":"100.64.0.1","Ports":{"First":22,"Last":22}},{"IP":"fd7a:115c:a1e0::1","Ports":{"First":22,"Last":22}}],"IPProto":[6],"SrcIPs":["100.64.0.1","100.64.0.2","fd7a:115c:a1e0::1","fd7a:115c:a1e0::2"]},{"DstPorts":[{"IP":"100.64.0.1","Ports":{"First":0,"Last":65535}}],"IPProto":[1],"SrcIPs":["100.64.0.1","100.64.0.2","fd7a:115c:a1e0::1","fd7a:115c:a1e0::2"]},{"DstPorts":[{"IP":"100.64.0.1","Ports":{"First":0,"Last":65535}},{"IP":"fd7a:115c:a1e0::1","Ports":{"First":0,"Last":65535}}],"IPProto":[1],"SrcIPs":["100.64.0.1","100.64.0.2","fd7a:115c:a1e0::1","fd7a:115c:a1e0::2"]}],"Peers":[{"Addresses":["100.64.0.2/32","fd7a:115c:a1e0::2/128"],"AllowedIPs":["100.64.0.2/32","fd7a:115c:a1e0::2/128"],"Created":"2001-09-09T01:46:40Z","DiscoKey":"discokey:%0","Endpoints":[],"HomeDERP":0,"Hostinfo":{"Hostname":""},"ID":2,"Key":"nodekey:%b","KeyExpiry":"0001-01-01T00:00:00Z","Machine":"mkey:%2","MachineAuthorized":true,"Name":"node-1.tail.example.","Online":false,"StableID":"n2","Tags":[],"User":1}],"UserProfiles":[{"DisplayName":"seed","ID":1,"LoginName":"seed@"}]}
= tests-under-grants
> PUT /api/v1/policy Bearer/secret {"grants":[{"src":["ann@"],"dst":["bob@"],"ip":["tcp:22"]}],"tests":[{"src":"ann@","accept":["bob@:22"],"deny":["bob@:23"]}]}
< 200 {}
> PUT /api/v1/policy Bearer/secret {"grants":[{"src":["ann@"],"dst":["bob@"],"ip":["tcp:22"]}],"tests":[{"src":"ann@","proto":"udp","accept":["bob@:22"]}]}
< 422 {"code":"P21","place":"tests[0].accept[0]"}
> PUT /api/v1/policy Bearer/secret {"grants":[{"src":["ann@"],"dst":["bob@"],"ip":["80"]}],"tests":[{"src":"ann@","proto":"icmp","accept":["bob@:1"],"deny":["bob@:2"]}]}
< 422 {"code":"P21","place":"tests[0].deny[0]"}
> PUT /api/v1/policy Bearer/secret {"grants":[{"src":["100.64.0.1"],"dst":["*"],"ip":["22"]}],"tests":[{"src":"seed@","deny":["eve@:22"]}]}
< 200 {}
> POST /machine/register mkey:%1 {"Auth":{"AuthKey":"k1"},"NodeKey":"nodekey:%a"}
< registered
> PUT /api/v1/policy Bearer/secret {"grants":[{"src":["100.64.0.1"],"dst":["*"],"ip":["22"]}],"tests":[{"src":"seed@","deny":["eve@:22"]}]}
< 422 {"code":"P21","place":"tests[0].deny[0]"}
> PUT /api/v1/policy Bearer/secret {"grants":[{"src":["*"],"dst":["bob@"],"ip":["22"]}],"acls":[{"action":"accept","src":["ann@"],"dst":["bob@:23"]}],"tests":[{"src":"ann@","accept":["bob@:22","bob@:23"],"deny":["bob@:24"]}]}
< 200 {}"#;

/// A policy with grants that is kept when the program begins.
pub const KEPT_GRANTS: &str = r#"= kept-policy-with-grants
~ {"grants":[{"src":["*"],"dst":["100.64.0.1"],"ip":["tcp:443"]}]}
> POST /machine/register mkey:%1 {"Auth":{"AuthKey":"k1"},"NodeKey":"nodekey:%a"}
< registered
> POST /machine/map mkey:%1 {"NodeKey":"nodekey:%a","ReadOnly":true}
< 200 #{"DNSConfig":{"Domains":["tail.example"],"ExtraRecords":[],"Proxied":true,"Resolvers":[],"Routes":{}},"Domain":"tail.example","Node":{"Addresses":["100.64.0.1/32","fd7a:115c:a1e0::1/128"],"AllowedIPs":["100.64.0.1/32","fd7a:115c:a1e0::1/128"],"Created":"2001-09-09T01:46:40Z","DiscoKey":"discokey:%0","Endpoints":[],"HomeDERP":0,"Hostinfo":{"Hostname":""},"ID":1,"Key":"nodekey:%a","KeyExpiry":"0001-01-01T00:00:00Z","Machine":"mkey:%1","MachineAuthorized":true,"Name":"node.tail.example.","Online":false,"StableID":"n1","Tags":[],"User":1},"PacketFilter":[{"DstPorts":[{"IP":"100.64.0.1","Ports":{"First":443,"Last":443}}],"IPProto":[6],"SrcIPs":["*"]}],"UserProfiles":[{"DisplayName":"seed","ID":1,"LoginName":"seed@"}]}
> GET /api/v1/policy Bearer/secret
< 200 {"grants":[{"src":["*"],"dst":["100.64.0.1"],"ip":["tcp:443"]}]}"#;
