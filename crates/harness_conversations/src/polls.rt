//! Polls: what their streams hold, when a session goes on, and what a fault of a write results in.

/// Each write of a poll fails in turn.
pub const FAULTED_POLLS: &str = r#"= head
! write 2
> POST /machine/register mkey:%1 {"Auth":{"AuthKey":"k1"},"NodeKey":"nodekey:%a"}
< registered
> POST /machine/map mkey:%1 {"NodeKey":"nodekey:%a","Stream":true}
x
= first-frame
! write 3
> POST /machine/register mkey:%1 {"Auth":{"AuthKey":"k1"},"NodeKey":"nodekey:%a"}
< registered
> POST /machine/map mkey:%1 {"NodeKey":"nodekey:%a","Stream":true}
< stream
x
= last-chunk
! write 4
> POST /machine/register mkey:%1 {"Auth":{"AuthKey":"k1"},"NodeKey":"nodekey:%a"}
< registered
> POST /machine/map mkey:%1 {"NodeKey":"nodekey:%a","Stream":true}
< stream
+ {"DNSConfig":{"Domains":["tail.example"],"ExtraRecords":[],"Proxied":true,"Resolvers":[],"Routes":{}},"Domain":"tail.example","MapSessionHandle":"s1-0000000000000001","Node":{"Addresses":["100.64.0.1/32","fd7a:115c:a1e0::1/128"],"AllowedIPs":["100.64.0.1/32","fd7a:115c:a1e0::1/128"],"Created":"2001-09-09T01:46:40Z","DiscoKey":"discokey:%0","Endpoints":[],"HomeDERP":0,"Hostinfo":{"Hostname":""},"ID":1,"Key":"nodekey:%a","KeyExpiry":"0001-01-01T00:00:00Z","Machine":"mkey:%1","MachineAuthorized":true,"Name":"node.tail.example.","Online":true,"StableID":"n1","Tags":[],"User":1},"PacketFilter":[{"DstPorts":[{"IP":"100.64.0.1","Ports":{"First":0,"Last":65535}},{"IP":"fd7a:115c:a1e0::1","Ports":{"First":0,"Last":65535}}],"IPProto":[1,6,17,58],"SrcIPs":["*"]}],"Seq":1,"UserProfiles":[{"DisplayName":"seed","ID":1,"LoginName":"seed@"}]}
x
= greeting
! write 5
> POST /machine/register mkey:%1 {"Auth":{"AuthKey":"k1"},"NodeKey":"nodekey:%a"}
< registered
> POST /machine/map mkey:%1 {"NodeKey":"nodekey:%a","Stream":true}
< stream
+ {"DNSConfig":{"Domains":["tail.example"],"ExtraRecords":[],"Proxied":true,"Resolvers":[],"Routes":{}},"Domain":"tail.example","MapSessionHandle":"s1-0000000000000001","Node":{"Addresses":["100.64.0.1/32","fd7a:115c:a1e0::1/128"],"AllowedIPs":["100.64.0.1/32","fd7a:115c:a1e0::1/128"],"Created":"2001-09-09T01:46:40Z","DiscoKey":"discokey:%0","Endpoints":[],"HomeDERP":0,"Hostinfo":{"Hostname":""},"ID":1,"Key":"nodekey:%a","KeyExpiry":"0001-01-01T00:00:00Z","Machine":"mkey:%1","MachineAuthorized":true,"Name":"node.tail.example.","Online":true,"StableID":"n1","Tags":[],"User":1},"PacketFilter":[{"DstPorts":[{"IP":"100.64.0.1","Ports":{"First":0,"Last":65535}},{"IP":"fd7a:115c:a1e0::1","Ports":{"First":0,"Last":65535}}],"IPProto":[1,6,17,58],"SrcIPs":["*"]}],"Seq":1,"UserProfiles":[{"DisplayName":"seed","ID":1,"LoginName":"seed@"}]}
.
> POST /machine/map mkey:%1 {"MapSessionHandle":"s1-0000000000000001","MapSessionSeq":1,"NodeKey":"nodekey:%a","Stream":true}
x
= last-chunk-behind-a-greeting
! write 6
> POST /machine/register mkey:%1 {"Auth":{"AuthKey":"k1"},"NodeKey":"nodekey:%a"}
< registered
> POST /machine/map mkey:%1 {"NodeKey":"nodekey:%a","Stream":true}
< stream
+ {"DNSConfig":{"Domains":["tail.example"],"ExtraRecords":[],"Proxied":true,"Resolvers":[],"Routes":{}},"Domain":"tail.example","MapSessionHandle":"s1-0000000000000001","Node":{"Addresses":["100.64.0.1/32","fd7a:115c:a1e0::1/128"],"AllowedIPs":["100.64.0.1/32","fd7a:115c:a1e0::1/128"],"Created":"2001-09-09T01:46:40Z","DiscoKey":"discokey:%0","Endpoints":[],"HomeDERP":0,"Hostinfo":{"Hostname":""},"ID":1,"Key":"nodekey:%a","KeyExpiry":"0001-01-01T00:00:00Z","Machine":"mkey:%1","MachineAuthorized":true,"Name":"node.tail.example.","Online":true,"StableID":"n1","Tags":[],"User":1},"PacketFilter":[{"DstPorts":[{"IP":"100.64.0.1","Ports":{"First":0,"Last":65535}},{"IP":"fd7a:115c:a1e0::1","Ports":{"First":0,"Last":65535}}],"IPProto":[1,6,17,58],"SrcIPs":["*"]}],"Seq":1,"UserProfiles":[{"DisplayName":"seed","ID":1,"LoginName":"seed@"}]}
.
> POST /machine/map mkey:%1 {"MapSessionHandle":"s1-0000000000000001","MapSessionSeq":1,"NodeKey":"nodekey:%a","Stream":true}
< stream
+ {"MapSessionHandle":"s1-0000000000000001"}
x
= answer-to-a-refused-poll
! write 2
> POST /machine/register mkey:%1 {"Auth":{"AuthKey":"k1"},"NodeKey":"nodekey:%a"}
< registered
> POST /machine/map mkey:%2 {"NodeKey":"nodekey:%b","Stream":true}
x"#;
