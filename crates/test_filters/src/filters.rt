//! Maps under policies: whom a machine sees, and its packet filter.
//!
//! To the marks of `harness_pipe` come four. `| RULES` saves a policy with these rules, over the tailnet of `SETUP`, which
//! stands behind its conversation's beginning; `& RULES` has the routers of `ROUTERS` in it, too; `$ GRANTS` saves one with
//! these grants. `? N PEERS FILTER` asks for the map of machine N: its peers, each a digit, or `-` for none, and its filter,
//! where `@` and `#` stand for the beginning of an address, and `~` for all ports. Behind a digit stand the routes that the
//! map has at the machine: `a` for 10.1.0.0/16, `b` for 10.2.0.0/16, `x` for both exit routes.
use harness_pipe::{cut, first_not_held};
use std::alloc::Global;
use std::test::Fail;
use tail_base::NoMemory;

/// The machines 1 and 2 of seed@, 3 of seed@ with a tag, 4 of bob@, and 5 of bob@ with a tag. 2 and 5 aren't live.
const SETUP: &str = r#"> POST /api/v1/user Bearer/secret {"name":"bob"}
< 200 {"id":2,"login":"bob@"}
> POST /api/v1/preauthkey Bearer/secret {"user":"bob@","reusable":true}
< 200 {"ephemeral":false,"expiry":"0001-01-01T00:00:00Z","id":2,"key":"tnkey-2-0000000000000001000000000000000200000000000000030000000000000004","reusable":true,"tags":[],"used":false,"user":"bob@"}
> PUT /api/v1/policy Bearer/secret {"tagOwners":{"tag:web":["seed@","bob@"]}}
< 200 {}
> POST /machine/register mkey:%1 {"Auth":{"AuthKey":"k1"},"NodeKey":"nodekey:%1"}
< registered
> POST /machine/register mkey:%2 {"Auth":{"AuthKey":"k1"},"NodeKey":"nodekey:%2"}
< registered
> POST /machine/register mkey:%3 {"Auth":{"AuthKey":"k1"},"NodeKey":"nodekey:%3","Hostinfo":{"RequestTags":["tag:web"]}}
< registered
> POST /machine/register mkey:%4 {"Auth":{"AuthKey":"tnkey-2-0000000000000001000000000000000200000000000000030000000000000004"},"NodeKey":"nodekey:%4"}
< 200 {"AuthURL":"","Error":"","Login":{"ID":2,"LoginName":"bob@"},"MachineAuthorized":true,"NodeKeyExpired":false,"User":{"DisplayName":"bob","ID":2}}
> POST /machine/register mkey:%5 {"Auth":{"AuthKey":"tnkey-2-0000000000000001000000000000000200000000000000030000000000000004"},"NodeKey":"nodekey:%5","Hostinfo":{"RequestTags":["tag:web"]}}
< 200 {"AuthURL":"","Error":"","Login":{"ID":2,"LoginName":"bob@"},"MachineAuthorized":true,"NodeKeyExpired":false,"User":{"DisplayName":"bob","ID":2}}
> POST /api/v1/node/2/expire Bearer/secret {}
< 200 {"addresses":["100.64.0.2","fd7a:115c:a1e0::2"],"advertised":[],"approved":[],"expiry":"2001-09-09T01:46:40Z","id":2,"live":false,"name":"node-1","online":false,"served":[],"tags":[],"user":"seed@"}
> POST /api/v1/node/5/expire Bearer/secret {}
< 200 {"addresses":["100.64.0.5","fd7a:115c:a1e0::5"],"advertised":[],"approved":[],"expiry":"2001-09-09T01:46:40Z","id":5,"live":false,"name":"node-4","online":false,"served":[],"tags":["tag:web"],"user":"bob@"}
"#;

/// A policy with groups, hosts, tags, and these rules.
const BEFORE_RULES: &str =
    r#"> PUT /api/v1/policy Bearer/secret {"groups":{"group:g":["bob@","eve@"]},"hosts":{"lab":"100.64.0.4/31"},"tagOwners":{"tag:web":[]},"acls":["#;

/// The same with grants in place of the rules.
const BEFORE_GRANTS: &str =
    r#"> PUT /api/v1/policy Bearer/secret {"groups":{"group:g":["bob@","eve@"]},"hosts":{"lab":"100.64.0.4/31"},"tagOwners":{"tag:web":[]},"grants":["#;

/// The same with approvers of routes and of exit nodes.
const BEFORE_ROUTED_RULES: &str =
    r#"> PUT /api/v1/policy Bearer/secret {"groups":{"group:g":["bob@","eve@"]},"tagOwners":{"tag:web":[]},"autoApprovers":{"routes":{"10.0.0.0/8":["tag:web","bob@"]},"exitNode":["bob@"]},"acls":["#;

/// Machine 3 advertises two routes, and 4 one of them and the exit routes.
const ROUTERS: &str =
    r#"> POST /machine/map mkey:%3 {"NodeKey":"nodekey:%3","OmitPeers":true,"Hostinfo":{"RoutableIPs":["10.1.0.0/16","10.2.0.0/16"]}}
< 200
> POST /machine/map mkey:%4 {"NodeKey":"nodekey:%4","OmitPeers":true,"Hostinfo":{"RoutableIPs":["10.1.0.0/16","0.0.0.0/0","::/0"]}}
< 200
"#;

const ROUTED: &str = r##"= everything to everybody
& {"action":"accept","src":["*"],"dst":["*:*"]}
? 1 3ab4x [{"DstPorts":[{"IP":"@1",~},{"IP":"#1",~}],"IPProto":[1,6,17,58],"SrcIPs":["*"]}]
? 3ab 14ax [{"DstPorts":[{"IP":"10.1.0.0/16",~},{"IP":"10.2.0.0/16",~},{"IP":"@3",~},{"IP":"#3",~}],"IPProto":[1,6,17,58],"SrcIPs":["*"]}]
= seed@ -> 10.1.0.0/16:*
& {"action":"accept","src":["seed@"],"dst":["10.1.0.0/16:*"]}
? 1 3a4 []
? 3ab 1 [{"DstPorts":[{"IP":"10.1.0.0/16",~}],"IPProto":[1,6,17,58],"SrcIPs":["@1","#1"]}]
? 4ax 1 [{"DstPorts":[{"IP":"10.1.0.0/16",~}],"IPProto":[1,6,17,58],"SrcIPs":["@1","#1"]}]
> POST /api/v1/node/3/expire Bearer/secret {}
< 200 {"addresses":["100.64.0.3","fd7a:115c:a1e0::3"],"advertised":["10.1.0.0/16","10.2.0.0/16"],"approved":[],"expiry":"2001-09-09T01:46:40Z","id":3,"live":false,"name":"node-2","online":false,"served":["10.1.0.0/16","10.2.0.0/16"],"tags":["tag:web"],"user":"seed@"}
? 1 4a []
= bob@ -> 10.2.0.0/16:22
& {"action":"accept","src":["bob@"],"dst":["10.2.0.0/16:22"]}
? 1 - []
? 3ab 4 [{"DstPorts":[{"IP":"10.2.0.0/16","Ports":{"First":22,"Last":22}}],"IPProto":[1,6,17,58],"SrcIPs":["@4","#4"]}]
? 4ax 3b []
= seed@ -> 10.1.2.0/24:*, inside a route
& {"action":"accept","src":["seed@"],"dst":["10.1.2.0/24:*"]}
? 1 3a4 []
? 3ab 1 [{"DstPorts":[{"IP":"10.1.2.0/24",~}],"IPProto":[1,6,17,58],"SrcIPs":["@1","#1"]}]
= seed@ -> 10.0.0.0/8:*, around two routes
& {"action":"accept","src":["seed@"],"dst":["10.0.0.0/8:*"]}
? 1 3ab4 []
? 3ab 1 [{"DstPorts":[{"IP":"10.1.0.0/16",~},{"IP":"10.2.0.0/16",~}],"IPProto":[1,6,17,58],"SrcIPs":["@1","#1"]}]
? 4ax 1 [{"DstPorts":[{"IP":"10.1.0.0/16",~}],"IPProto":[1,6,17,58],"SrcIPs":["@1","#1"]}]
= seed@ -> autogroup:internet:443
& {"action":"accept","src":["seed@"],"dst":["autogroup:internet:443"]}
? 1 4x []
? 3ab - []
= seed@ -> 8.8.8.8:53 2001:db8::8:53
& {"action":"accept","src":["seed@"],"dst":["8.8.8.8:53","2001:db8::8:53"]}
? 1 4x []
? 4ax 1 [{"DstPorts":[{"IP":"8.8.8.8","Ports":{"First":53,"Last":53}},{"IP":"2001:db8::8","Ports":{"First":53,"Last":53}}],"IPProto":[1,6,17,58],"SrcIPs":["@1","#1"]}]
= seed@ -> 192.168.0.0/16:*, which nobody serves
& {"action":"accept","src":["seed@"],"dst":["192.168.0.0/16:*"]}
? 1 - []
? 4ax - []
= seed@ -> bob@:22 tag:web:22, and no route
& {"action":"accept","src":["seed@"],"dst":["bob@:22","tag:web:22"]}
? 1 34 []
? 3ab 1 [{"DstPorts":[{"IP":"@3","Ports":{"First":22,"Last":22}},{"IP":"#3","Ports":{"First":22,"Last":22}}],"IPProto":[1,6,17,58],"SrcIPs":["@1","#1"]}]
= tag:web -> *:*
& {"action":"accept","src":["tag:web"],"dst":["*:*"]}
? 1 3 [{"DstPorts":[{"IP":"@1",~},{"IP":"#1",~}],"IPProto":[1,6,17,58],"SrcIPs":["@3","#3"]}]
? 3ab 14ax [{"DstPorts":[{"IP":"10.1.0.0/16",~},{"IP":"10.2.0.0/16",~},{"IP":"@3",~},{"IP":"#3",~}],"IPProto":[1,6,17,58],"SrcIPs":["@3","#3"]}]"##;

const FILTERS: &str = r##"= * -> *:*
| {"action":"accept","src":["*"],"dst":["*:*"]}
? 1 34 [{"DstPorts":[{"IP":"@1",~},{"IP":"#1",~}],"IPProto":[1,6,17,58],"SrcIPs":["*"]}]
? 3 14 [{"DstPorts":[{"IP":"@3",~},{"IP":"#3",~}],"IPProto":[1,6,17,58],"SrcIPs":["*"]}]
? 4 13 [{"DstPorts":[{"IP":"@4",~},{"IP":"#4",~}],"IPProto":[1,6,17,58],"SrcIPs":["*"]}]
= seed@ -> *:*
| {"action":"accept","src":["seed@"],"dst":["*:*"]}
? 1 34 [{"DstPorts":[{"IP":"@1",~},{"IP":"#1",~}],"IPProto":[1,6,17,58],"SrcIPs":["@1","#1"]}]
? 3 1 [{"DstPorts":[{"IP":"@3",~},{"IP":"#3",~}],"IPProto":[1,6,17,58],"SrcIPs":["@1","#1"]}]
? 4 1 [{"DstPorts":[{"IP":"@4",~},{"IP":"#4",~}],"IPProto":[1,6,17,58],"SrcIPs":["@1","#1"]}]
= group:g -> *:*
| {"action":"accept","src":["group:g"],"dst":["*:*"]}
? 1 4 [{"DstPorts":[{"IP":"@1",~},{"IP":"#1",~}],"IPProto":[1,6,17,58],"SrcIPs":["@4","#4"]}]
? 3 4 [{"DstPorts":[{"IP":"@3",~},{"IP":"#3",~}],"IPProto":[1,6,17,58],"SrcIPs":["@4","#4"]}]
? 4 13 [{"DstPorts":[{"IP":"@4",~},{"IP":"#4",~}],"IPProto":[1,6,17,58],"SrcIPs":["@4","#4"]}]
= tag:web -> *:*
| {"action":"accept","src":["tag:web"],"dst":["*:*"]}
? 1 3 [{"DstPorts":[{"IP":"@1",~},{"IP":"#1",~}],"IPProto":[1,6,17,58],"SrcIPs":["@3","#3"]}]
? 3 14 [{"DstPorts":[{"IP":"@3",~},{"IP":"#3",~}],"IPProto":[1,6,17,58],"SrcIPs":["@3","#3"]}]
? 4 3 [{"DstPorts":[{"IP":"@4",~},{"IP":"#4",~}],"IPProto":[1,6,17,58],"SrcIPs":["@3","#3"]}]
= autogroup:member -> *:*
| {"action":"accept","src":["autogroup:member"],"dst":["*:*"]}
? 1 34 [{"DstPorts":[{"IP":"@1",~},{"IP":"#1",~}],"IPProto":[1,6,17,58],"SrcIPs":["@1","@4","#1","#4"]}]
? 3 14 [{"DstPorts":[{"IP":"@3",~},{"IP":"#3",~}],"IPProto":[1,6,17,58],"SrcIPs":["@1","@4","#1","#4"]}]
? 4 13 [{"DstPorts":[{"IP":"@4",~},{"IP":"#4",~}],"IPProto":[1,6,17,58],"SrcIPs":["@1","@4","#1","#4"]}]
= autogroup:tagged -> *:*
| {"action":"accept","src":["autogroup:tagged"],"dst":["*:*"]}
? 1 3 [{"DstPorts":[{"IP":"@1",~},{"IP":"#1",~}],"IPProto":[1,6,17,58],"SrcIPs":["@3","#3"]}]
? 3 14 [{"DstPorts":[{"IP":"@3",~},{"IP":"#3",~}],"IPProto":[1,6,17,58],"SrcIPs":["@3","#3"]}]
? 4 3 [{"DstPorts":[{"IP":"@4",~},{"IP":"#4",~}],"IPProto":[1,6,17,58],"SrcIPs":["@3","#3"]}]
= 100.64.0.2 -> *:*
| {"action":"accept","src":["100.64.0.2"],"dst":["*:*"]}
? 1 - [{"DstPorts":[{"IP":"@1",~},{"IP":"#1",~}],"IPProto":[1,6,17,58],"SrcIPs":["@2"]}]
? 3 - [{"DstPorts":[{"IP":"@3",~},{"IP":"#3",~}],"IPProto":[1,6,17,58],"SrcIPs":["@2"]}]
? 4 - [{"DstPorts":[{"IP":"@4",~},{"IP":"#4",~}],"IPProto":[1,6,17,58],"SrcIPs":["@2"]}]
= 100.64.0.0/30 -> *:*
| {"action":"accept","src":["100.64.0.0/30"],"dst":["*:*"]}
? 1 34 [{"DstPorts":[{"IP":"@1",~},{"IP":"#1",~}],"IPProto":[1,6,17,58],"SrcIPs":["@0/30"]}]
? 3 14 [{"DstPorts":[{"IP":"@3",~},{"IP":"#3",~}],"IPProto":[1,6,17,58],"SrcIPs":["@0/30"]}]
? 4 13 [{"DstPorts":[{"IP":"@4",~},{"IP":"#4",~}],"IPProto":[1,6,17,58],"SrcIPs":["@0/30"]}]
= fd7a:115c:a1e0::4 -> *:*
| {"action":"accept","src":["fd7a:115c:a1e0::4"],"dst":["*:*"]}
? 1 4 [{"DstPorts":[{"IP":"@1",~},{"IP":"#1",~}],"IPProto":[1,6,17,58],"SrcIPs":["#4"]}]
? 3 4 [{"DstPorts":[{"IP":"@3",~},{"IP":"#3",~}],"IPProto":[1,6,17,58],"SrcIPs":["#4"]}]
? 4 13 [{"DstPorts":[{"IP":"@4",~},{"IP":"#4",~}],"IPProto":[1,6,17,58],"SrcIPs":["#4"]}]
= lab -> *:*
| {"action":"accept","src":["lab"],"dst":["*:*"]}
? 1 4 [{"DstPorts":[{"IP":"@1",~},{"IP":"#1",~}],"IPProto":[1,6,17,58],"SrcIPs":["@4/31"]}]
? 3 4 [{"DstPorts":[{"IP":"@3",~},{"IP":"#3",~}],"IPProto":[1,6,17,58],"SrcIPs":["@4/31"]}]
? 4 13 [{"DstPorts":[{"IP":"@4",~},{"IP":"#4",~}],"IPProto":[1,6,17,58],"SrcIPs":["@4/31"]}]
= 10.0.0.0/8 -> *:*
| {"action":"accept","src":["10.0.0.0/8"],"dst":["*:*"]}
? 1 - [{"DstPorts":[{"IP":"@1",~},{"IP":"#1",~}],"IPProto":[1,6,17,58],"SrcIPs":["10.0.0.0/8"]}]
? 3 - [{"DstPorts":[{"IP":"@3",~},{"IP":"#3",~}],"IPProto":[1,6,17,58],"SrcIPs":["10.0.0.0/8"]}]
? 4 - [{"DstPorts":[{"IP":"@4",~},{"IP":"#4",~}],"IPProto":[1,6,17,58],"SrcIPs":["10.0.0.0/8"]}]
= * -> seed@:*
| {"action":"accept","src":["*"],"dst":["seed@:*"]}
? 1 34 [{"DstPorts":[{"IP":"@1",~},{"IP":"#1",~}],"IPProto":[1,6,17,58],"SrcIPs":["*"]}]
? 3 1 []
? 4 1 []
= * -> group:g:*
| {"action":"accept","src":["*"],"dst":["group:g:*"]}
? 1 4 []
? 3 4 []
? 4 13 [{"DstPorts":[{"IP":"@4",~},{"IP":"#4",~}],"IPProto":[1,6,17,58],"SrcIPs":["*"]}]
= * -> tag:web:*
| {"action":"accept","src":["*"],"dst":["tag:web:*"]}
? 1 3 []
? 3 14 [{"DstPorts":[{"IP":"@3",~},{"IP":"#3",~}],"IPProto":[1,6,17,58],"SrcIPs":["*"]}]
? 4 3 []
= * -> autogroup:member:*
| {"action":"accept","src":["*"],"dst":["autogroup:member:*"]}
? 1 34 [{"DstPorts":[{"IP":"@1",~},{"IP":"#1",~}],"IPProto":[1,6,17,58],"SrcIPs":["*"]}]
? 3 14 []
? 4 13 [{"DstPorts":[{"IP":"@4",~},{"IP":"#4",~}],"IPProto":[1,6,17,58],"SrcIPs":["*"]}]
= * -> autogroup:tagged:*
| {"action":"accept","src":["*"],"dst":["autogroup:tagged:*"]}
? 1 3 []
? 3 14 [{"DstPorts":[{"IP":"@3",~},{"IP":"#3",~}],"IPProto":[1,6,17,58],"SrcIPs":["*"]}]
? 4 3 []
= * -> 100.64.0.2:*
| {"action":"accept","src":["*"],"dst":["100.64.0.2:*"]}
? 1 - []
? 3 - []
? 4 - []
= * -> 100.64.0.0/30:*
| {"action":"accept","src":["*"],"dst":["100.64.0.0/30:*"]}
? 1 34 [{"DstPorts":[{"IP":"@1",~}],"IPProto":[1,6,17,58],"SrcIPs":["*"]}]
? 3 14 [{"DstPorts":[{"IP":"@3",~}],"IPProto":[1,6,17,58],"SrcIPs":["*"]}]
? 4 13 []
= * -> fd7a:115c:a1e0::4:*
| {"action":"accept","src":["*"],"dst":["fd7a:115c:a1e0::4:*"]}
? 1 4 []
? 3 4 []
? 4 13 [{"DstPorts":[{"IP":"#4",~}],"IPProto":[1,6,17,58],"SrcIPs":["*"]}]
= * -> lab:*
| {"action":"accept","src":["*"],"dst":["lab:*"]}
? 1 4 []
? 3 4 []
? 4 13 [{"DstPorts":[{"IP":"@4",~}],"IPProto":[1,6,17,58],"SrcIPs":["*"]}]
= * -> 10.0.0.0/8:*
| {"action":"accept","src":["*"],"dst":["10.0.0.0/8:*"]}
? 1 - []
? 3 - []
? 4 - []
= * -> autogroup:internet:*
| {"action":"accept","src":["*"],"dst":["autogroup:internet:*"]}
? 1 - []
? 3 - []
? 4 - []
= * -> autogroup:self:*
| {"action":"accept","src":["*"],"dst":["autogroup:self:*"]}
? 1 - [{"DstPorts":[{"IP":"@1",~},{"IP":"#1",~}],"IPProto":[1,6,17,58],"SrcIPs":["@1","#1"]}]
? 3 - []
? 4 - [{"DstPorts":[{"IP":"@4",~},{"IP":"#4",~}],"IPProto":[1,6,17,58],"SrcIPs":["@4","#4"]}]
= autogroup:member -> autogroup:self:*
| {"action":"accept","src":["autogroup:member"],"dst":["autogroup:self:*"]}
? 1 - [{"DstPorts":[{"IP":"@1",~},{"IP":"#1",~}],"IPProto":[1,6,17,58],"SrcIPs":["@1","#1"]}]
? 3 - []
? 4 - [{"DstPorts":[{"IP":"@4",~},{"IP":"#4",~}],"IPProto":[1,6,17,58],"SrcIPs":["@4","#4"]}]
= seed@ lab -> autogroup:self:22
| {"action":"accept","src":["seed@","lab"],"dst":["autogroup:self:22"]}
? 1 - [{"DstPorts":[{"IP":"@1","Ports":{"First":22,"Last":22}},{"IP":"#1","Ports":{"First":22,"Last":22}}],"IPProto":[1,6,17,58],"SrcIPs":["@1","#1"]}]
? 3 - []
? 4 - [{"DstPorts":[{"IP":"@4","Ports":{"First":22,"Last":22}},{"IP":"#4","Ports":{"First":22,"Last":22}}],"IPProto":[1,6,17,58],"SrcIPs":["@4"]}]
= * -> 100.64.0.1:443 autogroup:self:22 100.64.0.0/29:80-90,85-100
| {"action":"accept","src":["*"],"dst":["100.64.0.1:443","autogroup:self:22","100.64.0.0/29:80-90,85-100"]}
? 1 34 [{"DstPorts":[{"IP":"@1","Ports":{"First":443,"Last":443}},{"IP":"@1","Ports":{"First":80,"Last":100}}],"IPProto":[1,6,17,58],"SrcIPs":["*"]},{"DstPorts":[{"IP":"@1","Ports":{"First":22,"Last":22}},{"IP":"#1","Ports":{"First":22,"Last":22}}],"IPProto":[1,6,17,58],"SrcIPs":["@1","#1"]}]
? 3 14 [{"DstPorts":[{"IP":"@3","Ports":{"First":80,"Last":100}}],"IPProto":[1,6,17,58],"SrcIPs":["*"]}]
? 4 13 [{"DstPorts":[{"IP":"@4","Ports":{"First":80,"Last":100}}],"IPProto":[1,6,17,58],"SrcIPs":["*"]},{"DstPorts":[{"IP":"@4","Ports":{"First":22,"Last":22}},{"IP":"#4","Ports":{"First":22,"Last":22}}],"IPProto":[1,6,17,58],"SrcIPs":["@4","#4"]}]
= icmp: tag:web -> seed@:*; 132: group:g -> tag:web:1,3
| {"action":"accept","proto":"icmp","src":["tag:web"],"dst":["seed@:*"]},{"action":"accept","proto":"132","src":["group:g"],"dst":["tag:web:1,3"]}
? 1 3 [{"DstPorts":[{"IP":"@1",~},{"IP":"#1",~}],"IPProto":[1],"SrcIPs":["@3","#3"]}]
? 3 14 [{"DstPorts":[{"IP":"@3","Ports":{"First":1,"Last":1}},{"IP":"@3","Ports":{"First":3,"Last":3}},{"IP":"#3","Ports":{"First":1,"Last":1}},{"IP":"#3","Ports":{"First":3,"Last":3}}],"IPProto":[132],"SrcIPs":["@4","#4"]}]
? 4 3 []
= 100.64.0.2 100.64.0.3 seed@ -> lab:22,80-90,85-100,101
| {"action":"accept","src":["100.64.0.2","100.64.0.3","seed@"],"dst":["lab:22,80-90,85-100,101"]}
? 1 4 []
? 3 4 []
? 4 13 [{"DstPorts":[{"IP":"@4","Ports":{"First":22,"Last":22}},{"IP":"@4","Ports":{"First":80,"Last":101}}],"IPProto":[1,6,17,58],"SrcIPs":["@1","@2/31","#1"]}]
= tag:web -> bob@:22; bob@ -> tag:web:22
| {"action":"accept","src":["tag:web"],"dst":["bob@:22"]},{"action":"accept","src":["bob@"],"dst":["tag:web:22"]}
? 1 - []
? 3 4 [{"DstPorts":[{"IP":"@3","Ports":{"First":22,"Last":22}},{"IP":"#3","Ports":{"First":22,"Last":22}}],"IPProto":[1,6,17,58],"SrcIPs":["@4","#4"]}]
? 4 3 [{"DstPorts":[{"IP":"@4","Ports":{"First":22,"Last":22}},{"IP":"#4","Ports":{"First":22,"Last":22}}],"IPProto":[1,6,17,58],"SrcIPs":["@3","#3"]}]
= grants: seed@ -> bob@ tag:web by tcp:22 80-90
$ {"src":["seed@"],"dst":["bob@","tag:web"],"ip":["tcp:22","80-90"]}
? 1 34 []
? 3 1 [{"DstPorts":[{"IP":"@3","Ports":{"First":22,"Last":22}},{"IP":"#3","Ports":{"First":22,"Last":22}}],"IPProto":[6],"SrcIPs":["@1","#1"]},{"DstPorts":[{"IP":"@3","Ports":{"First":80,"Last":90}},{"IP":"#3","Ports":{"First":80,"Last":90}}],"IPProto":[1,6,17,58],"SrcIPs":["@1","#1"]}]
= grants: autogroup:member -> 100.64.0.1 autogroup:self by tcp:22 icmp:*
$ {"src":["autogroup:member"],"dst":["100.64.0.1","autogroup:self"],"ip":["tcp:22","icmp:*"]}
? 1 4 [{"DstPorts":[{"IP":"@1","Ports":{"First":22,"Last":22}}],"IPProto":[6],"SrcIPs":["@1","@4","#1","#4"]},{"DstPorts":[{"IP":"@1","Ports":{"First":22,"Last":22}},{"IP":"#1","Ports":{"First":22,"Last":22}}],"IPProto":[6],"SrcIPs":["@1","#1"]},{"DstPorts":[{"IP":"@1",~}],"IPProto":[1],"SrcIPs":["@1","@4","#1","#4"]},{"DstPorts":[{"IP":"@1",~},{"IP":"#1",~}],"IPProto":[1],"SrcIPs":["@1","#1"]}]
? 4 1 [{"DstPorts":[{"IP":"@4","Ports":{"First":22,"Last":22}},{"IP":"#4","Ports":{"First":22,"Last":22}}],"IPProto":[6],"SrcIPs":["@4","#4"]},{"DstPorts":[{"IP":"@4",~},{"IP":"#4",~}],"IPProto":[1],"SrcIPs":["@4","#4"]}]
= refused-saves-leave-all
| {"action":"accept","src":["bob@"],"dst":["seed@:22"]}
> PUT /api/v1/policy Bearer/secret {"acls":[{"action":"accept","src":["autogroup:self"],"dst":["*:*"]}]}
< 422 {"code":"P15","place":"acls[0].src[0]"}
> PUT /api/v1/policy Bearer/secret {"acls":[{"action":"accept","src":["*","autogroup:internet"],"dst":["*:*"]}]}
< 422 {"code":"P15","place":"acls[0].src[1]"}
> PUT /api/v1/policy Bearer/secret {"acls":[{"action":"accept","src":["group:g"],"dst":["*:*"]}]}
< 422 {"code":"P12","place":"acls[0].src[0]"}
> PUT /api/v1/policy Bearer/secret {"acls":[]} /*
< 422 {"code":"P1","place":"offset 12"}
> PUT /api/v1/policy Bearer/other {"acls":[]}
< 401 {"error":"BadToken"}
? 1 4 [{"DstPorts":[{"IP":"@1","Ports":{"First":22,"Last":22}},{"IP":"#1","Ports":{"First":22,"Last":22}}],"IPProto":[1,6,17,58],"SrcIPs":["@4","#4"]}]
? 4 1 []
> PUT /api/v1/policy Bearer/secret {"acls":[]}
< 200 {}
? 1 - []
? 4 - []
> PUT /api/v1/policy Bearer/secret {}
< 200 {}
? 4 13 [{"DstPorts":[{"IP":"@4",~},{"IP":"#4",~}],"IPProto":[1,6,17,58],"SrcIPs":["*"]}]
= a-keeper-fault-leaves-all
! keep 14
| {"action":"accept","src":["bob@"],"dst":["seed@:22"]}
> PUT /api/v1/policy Bearer/secret {"acls":[]}
< 500 {"error":"KeeperFault"}
? 4 1 []
> PUT /api/v1/policy Bearer/secret {"acls":[]}
< 200 {}
? 4 - []"##;

/// A machine of the tailnet, as maps show it.
#[derive(Clone, Copy, Drop)]
struct Shown {
    id: &'static str,
    digit: char,
    label: &'static str,
    tags: &'static str,
    owner: &'static str,
}

const MACHINES: [Shown; 3] = [
    Shown {
        id: "1",
        digit: '1',
        label: "node",
        tags: "",
        owner: "1",
    },
    Shown {
        id: "3",
        digit: '3',
        label: "node-2",
        tags: "\"tag:web\"",
        owner: "2147483647",
    },
    Shown {
        id: "4",
        digit: '4',
        label: "node-3",
        tags: "",
        owner: "2",
    },
];

/// The owners' profiles, each behind its id.
const PROFILES: [(&str, &str); 3] = [
    ("1", r#"{"DisplayName":"seed","ID":1,"LoginName":"seed@"}"#),
    ("2", r#"{"DisplayName":"bob","ID":2,"LoginName":"bob@"}"#),
    (
        "2147483647",
        r#"{"DisplayName":"Tagged Devices","ID":2147483647,"LoginName":"tagged-devices"}"#,
    ),
];

/// The routes that the letters behind the machine's digit stand for, each behind a comma.
fn routes_of(alloc: Global, ids: &str, machine: &Shown) -> Result<String, NoMemory> {
    let mut out = String::new(alloc);
    let mut is_own = false;
    for part in ids.chars() {
        match part {
            'a' if is_own => out.push_str(r#","10.1.0.0/16""#)?,
            'b' if is_own => out.push_str(r#","10.2.0.0/16""#)?,
            'x' if is_own => out.push_str(r#","0.0.0.0/0","::/0""#)?,
            'a' | 'b' | 'x' => {}
            digit => is_own = digit == machine.digit,
        }
    }
    Ok(out)
}

/// The machine as these ids show it.
fn add_node(alloc: Global, out: &mut String, ids: &str, machine: &Shown) -> Result<(), NoMemory> {
    let routes = routes_of(alloc, ids, machine)?;
    let Shown {
        id,
        digit: _,
        label,
        tags,
        owner,
    } = machine;
    let addresses = format!(in alloc; r#""100.64.0.{id}/32","fd7a:115c:a1e0::{id}/128""#)?;
    let node = format!(in alloc;
        r#"{{"Addresses":[{addresses}],"AllowedIPs":[{addresses}{routes}],"Created":"2001-09-09T01:46:40Z","DiscoKey":"discokey:%0","Endpoints":[],"HomeDERP":0,"Hostinfo":{{"Hostname":""}},"ID":{id},"Key":"nodekey:%{id}","KeyExpiry":"0001-01-01T00:00:00Z","Machine":"mkey:%{id}","MachineAuthorized":true,"Name":"{label}.tail.example.","Online":false,"StableID":"n{id}","Tags":[{tags}],"User":{owner}}}"#
    )?;
    out.push_str(node.as_str())?;
    Ok(())
}

/// A comma, unless nothing stands before.
fn add_comma(out: &mut String, is_first: bool) -> Result<(), NoMemory> {
    if !is_first {
        out.push_str(",")?;
    }
    Ok(())
}

/// The nodes of these machines, behind a comma each but the first.
fn add_nodes(alloc: Global, out: &mut String, ids: &str) -> Result<(), NoMemory> {
    let mut is_first = true;
    for machine in &MACHINES {
        if ids.contains(machine.id) {
            add_comma(out, is_first)?;
            add_node(alloc, out, ids, machine)?;
            is_first = false;
        }
    }
    Ok(())
}

fn is_owner(ids: &str, owner: &str) -> bool {
    MACHINES.iter().any(|machine| machine.owner == owner && ids.contains(machine.id))
}

/// The profiles of the owners of these machines.
fn add_profiles(out: &mut String, ids: &str) -> Result<(), NoMemory> {
    let mut is_first = true;
    for (owner, profile) in &PROFILES {
        if is_owner(ids, owner) {
            add_comma(out, is_first)?;
            out.push_str(profile)?;
            is_first = false;
        }
    }
    Ok(())
}

/// The filter, written out.
fn add_filter(out: &mut String, filter: &str) -> Result<(), NoMemory> {
    for part in filter.chars() {
        match part {
            '@' => out.push_str("100.64.0.")?,
            '#' => out.push_str("fd7a:115c:a1e0::")?,
            '~' => out.push_str(r#""Ports":{"First":0,"Last":65535}"#)?,
            other => out.push(other)?,
        }
    }
    Ok(())
}

/// The request for the map of a machine.
fn add_request(alloc: Global, out: &mut String, id: &str) -> Result<(), NoMemory> {
    let request = format!(in alloc;
        "> POST /machine/map mkey:%{id} {{\"NodeKey\":\"nodekey:%{id}\",\"ReadOnly\":true}}\n"
    )?;
    out.push_str(request.as_str())?;
    Ok(())
}

const BEFORE_NODE: &str =
    r##"< 200 #{"DNSConfig":{"Domains":["tail.example"],"ExtraRecords":[],"Proxied":true,"Resolvers":[],"Routes":{}},"Domain":"tail.example","Node":"##;

/// The map up to its filter.
fn add_own(alloc: Global, out: &mut String, id: &str) -> Result<(), NoMemory> {
    out.push_str(BEFORE_NODE)?;
    add_nodes(alloc, out, id)?;
    out.push_str(",\"PacketFilter\":")?;
    Ok(())
}

/// The member with these peers; none for `-`.
fn add_peers(alloc: Global, out: &mut String, peers: &str) -> Result<(), NoMemory> {
    if peers == "-" {
        return Ok(());
    }
    out.push_str(",\"Peers\":[")?;
    add_nodes(alloc, out, peers)?;
    out.push_str("]")?;
    Ok(())
}

/// The rest of the map: the profiles of the owners of these machines.
fn add_owners(out: &mut String, ids: &str) -> Result<(), NoMemory> {
    out.push_str(",\"UserProfiles\":[")?;
    add_profiles(out, ids)?;
    out.push_str("]}\n")?;
    Ok(())
}

/// The id that the digit stands for.
fn id_of(own: &str) -> &'static str {
    for machine in &MACHINES {
        if own.contains(machine.id) {
            return machine.id;
        }
    }
    ""
}

/// The request for the map of a machine, and its answer.
fn add_map(alloc: Global, out: &mut String, line: &str) -> Result<(), NoMemory> {
    let (own, rest) = cut(line);
    let (peers, filter) = cut(rest);
    add_request(alloc, out, id_of(own))?;
    add_own(alloc, out, own)?;
    add_filter(out, filter)?;
    add_peers(alloc, out, peers)?;
    let shown = format!(in alloc; "{own}{peers}")?;
    add_owners(out, shown.as_str())
}

/// A policy with these rules, saved over the tailnet.
fn add_rules(out: &mut String, before: &str, rules: &str) -> Result<(), NoMemory> {
    out.push_str(SETUP)?;
    out.push_str(before)?;
    out.push_str(rules)?;
    out.push_str("]}\n< 200 {}\n")?;
    Ok(())
}

/// The same with routers.
fn add_routed_rules(out: &mut String, rules: &str) -> Result<(), NoMemory> {
    add_rules(out, BEFORE_ROUTED_RULES, rules)?;
    out.push_str(ROUTERS)?;
    Ok(())
}

fn add_plain(out: &mut String, line: &str) -> Result<(), NoMemory> {
    out.push_str(line)?;
    out.push_str("\n")?;
    Ok(())
}

/// The lines of `talks` that a line stands for.
fn add_line(alloc: Global, out: &mut String, line: &str) -> Result<(), NoMemory> {
    let (mark, rest) = cut(line);
    match mark {
        "|" => add_rules(out, BEFORE_RULES, rest),
        "$" => add_rules(out, BEFORE_GRANTS, rest),
        "&" => add_routed_rules(out, rest),
        "?" => add_map(alloc, out, rest),
        _ => add_plain(out, line),
    }
}

/// A table as `talks` has it.
fn written(alloc: Global, table: &str) -> Result<String, NoMemory> {
    let mut talks = String::new(alloc);
    for line in table.lines() {
        add_line(alloc, &mut talks, line)?;
    }
    Ok(talks)
}

#[test]
fn maps_are_those_of_the_policy_in_force(rt: HostRuntime) -> Result<(), Fail> {
    let talks = written(rt.alloc(), FILTERS)?;
    let name = first_not_held(rt.alloc(), talks.as_str())?;
    assert_eq!(rt; name, None);
    Ok(())
}

#[test]
fn maps_have_routes_at_one_router(rt: HostRuntime) -> Result<(), Fail> {
    let talks = written(rt.alloc(), ROUTED)?;
    let name = first_not_held(rt.alloc(), talks.as_str())?;
    assert_eq!(rt; name, None);
    Ok(())
}
