//! Policies saved, refused and opened, and the tags that they let machines have.

/// What is kept of each save.
pub const SAVES: &str = r#"= policy-none
> GET /api/v1/policy Bearer/secret
< 200 {}
= policy-kept
> PUT /api/v1/policy Bearer/secret {/* all of it */"ACLs":[{"action":"accept","Users":["*"],"Ports":["*:*",],}],// open^}
< 200 {}
> GET /api/v1/policy Bearer/secret
< 200 {/* all of it */"ACLs":[{"action":"accept","Users":["*"],"Ports":["*:*",],}],// open^}
> PUT /api/v1/policy Bearer/secret {}
< 200 {}
> GET /api/v1/policy Bearer/secret
< 200 {}
= policy-syntax
> PUT /api/v1/policy Bearer/secret [,]
< 422 {"code":"P1","place":"offset 1"}
> PUT /api/v1/policy Bearer/secret /* open
< 422 {"code":"P1","place":"offset 0"}
> PUT /api/v1/policy Bearer/secret
< 422 {"code":"P1","place":"json"}
> GET /api/v1/policy Bearer/secret
< 200 {}
= policy-ports-for-proto
> PUT /api/v1/policy Bearer/secret {"acls":[]}
< 200 {}
> PUT /api/v1/policy Bearer/secret {"tagOwners":{"tag:web":[]},"acls":[{"action":"accept","proto":"icmp","src":["*"],"dst":["tag:web:22","x"]}]}
< 422 {"code":"P17","place":"acls[0].dst[0]"}
> GET /api/v1/policy Bearer/secret
< 200 {"acls":[]}
= policy-quoted-place
> PUT /api/v1/policy Bearer/secret {"a\"b":1}
< 422 {"code":"P3","place":"a\"b"}
= policy-with-approvers
> PUT /api/v1/policy Bearer/secret {"autoApprovers":{"routes":{"10.0.0.0/8":["ann@"]}},"tests":[{"src":"ann@","accept":["bob@:22"]}]}
< 200 {}
> PUT /api/v1/policy Bearer/secret {"autoApprovers":{"exitNode":["ann@"]}}
< 200 {}
> PUT /api/v1/policy Bearer/secret {"autoApprovers":{"exitNode":["ann@"]},"acls":[],"tests":[{"src":"ann@","accept":["bob@:22"]}]}
< 422 {"code":"P21","place":"tests[0].accept[0]"}
> PUT /api/v1/policy Bearer/secret {"autoApprovers":{"exitNode":["*"]}}
< 422 {"code":"P11","place":"autoApprovers.exitNode[0]"}
> GET /api/v1/policy Bearer/secret
< 200 {"autoApprovers":{"exitNode":["ann@"]}}
= policy-caller
> PUT /api/v1/policy Bearer/other {}
< 401 {"error":"BadToken"}
> POST /api/v1/policy Bearer/secret {}
< 405 {"error":"BadMethod"}
> GET /api/v1/policy mkey:%1
< 401 {"error":"BadToken"}
= policy-keeper-fault
! keep 4
> PUT /api/v1/policy Bearer/secret {"tagOwners":{"tag:a":[]}}
< 200 {}
> PUT /api/v1/policy Bearer/secret {"tagOwners":{"tag:b":[]}}
< 500 {"error":"KeeperFault"}
> GET /api/v1/policy Bearer/secret
< 200 {"tagOwners":{"tag:a":[]}}
> POST /api/v1/preauthkey Bearer/secret {"user":"seed@","tags":["tag:b"]}
< 403 {"error":"TagUndefined"}
> PUT /api/v1/policy Bearer/secret {"tagOwners":{"tag:b":[]}}
< 200 {}
> POST /api/v1/preauthkey Bearer/secret {"user":"seed@","tags":["tag:a"]}
< 403 {"error":"TagUndefined"}
= policy-kept-text-again
! keep 4
> PUT /api/v1/policy Bearer/secret {"acls":[]}
< 200 {}
> PUT /api/v1/policy Bearer/secret {"acls":[]}
< 200 {}
> PUT /api/v1/policy Bearer/secret {"acls": []}
< 500 {"error":"KeeperFault"}"#;

/// The tags that a policy defines, and whose machines may have them.
pub const TAGS: &str = r#"= tags-of-a-policy
> POST /api/v1/user Bearer/secret {"name":"bob"}
< 200 {"id":2,"login":"bob@"}
> PUT /api/v1/policy Bearer/secret {"groups":{"group:g":["seed@"]},"tagOwners":{"tag:a":["seed@"],"tag:b":["group:g"],"tag:c":["bob@"]}}
< 200 {}
> POST /machine/register mkey:%1 {"Auth":{"AuthKey":"k1"},"NodeKey":"nodekey:%a","Hostinfo":{"RequestTags":["tag:a","tag:c","tag:x"]}}
< 403 {"error":"TagNotOwned"}
> POST /machine/register mkey:%1 {"Auth":{"AuthKey":"k1"},"NodeKey":"nodekey:%a","Hostinfo":{"RequestTags":["tag:a","tag:x","tag:c"]}}
< 403 {"error":"TagUndefined"}
> POST /machine/register mkey:%1 {"Auth":{"AuthKey":"k1"},"NodeKey":"nodekey:%a","Hostinfo":{"RequestTags":["tag:b","tag:a"]}}
< registered
> GET /api/v1/node Bearer/secret
< 200 {"nodes":[{"addresses":["100.64.0.1","fd7a:115c:a1e0::1"],"advertised":[],"approved":[],"expiry":"0001-01-01T00:00:00Z","id":1,"live":true,"name":"node","online":false,"served":[],"tags":["tag:a","tag:b"],"user":"seed@"}]}
= tags-of-an-admission
> POST /api/v1/user Bearer/secret {"name":"bob"}
< 200 {"id":2,"login":"bob@"}
> PUT /api/v1/policy Bearer/secret {"tagOwners":{"tag:c":["bob@"]}}
< 200 {}
> POST /machine/register mkey:%1 {"NodeKey":"nodekey:%a","Hostinfo":{"RequestTags":["tag:c"]}}
< 200 {"AuthURL":"http://tail.example/register/reg-1-00000000000000010000000000000002","Error":"","Login":{"ID":0,"LoginName":""},"MachineAuthorized":false,"NodeKeyExpired":false,"User":{"DisplayName":"","ID":0}}
> POST /api/v1/register Bearer/secret {"id":"reg-1-00000000000000010000000000000002","user":"seed@"}
< 403 {"error":"TagNotOwned"}
> POST /api/v1/register Bearer/secret {"id":"reg-1-00000000000000010000000000000002","user":"bob@"}
< 200 {"addresses":["100.64.0.1","fd7a:115c:a1e0::1"],"advertised":[],"approved":[],"expiry":"0001-01-01T00:00:00Z","id":1,"live":true,"name":"node","online":false,"served":[],"tags":["tag:c"],"user":"bob@"}
= tags-by-operators
> PUT /api/v1/policy Bearer/secret {"tagOwners":{"tag:c":["bob@"]}}
< 200 {}
> POST /machine/register mkey:%1 {"Auth":{"AuthKey":"k1"},"NodeKey":"nodekey:%a"}
< registered
> POST /api/v1/node/1/tags Bearer/secret {"tags":["tag:x"]}
< 403 {"error":"TagUndefined"}
> POST /api/v1/node/1/tags Bearer/secret {"tags":["tag:c"]}
< 200 {"addresses":["100.64.0.1","fd7a:115c:a1e0::1"],"advertised":[],"approved":[],"expiry":"0001-01-01T00:00:00Z","id":1,"live":true,"name":"node","online":false,"served":[],"tags":["tag:c"],"user":"seed@"}
> POST /api/v1/preauthkey Bearer/secret {"user":"seed@","tags":["tag:c"]}
< 200 {"ephemeral":false,"expiry":"0001-01-01T00:00:00Z","id":2,"key":"tnkey-2-0000000000000001000000000000000200000000000000030000000000000004","reusable":false,"tags":["tag:c"],"used":false,"user":"seed@"}
> PUT /api/v1/policy Bearer/secret {}
< 200 {}
> POST /machine/register mkey:%2 {"Auth":{"AuthKey":"tnkey-2-0000000000000001000000000000000200000000000000030000000000000004"},"NodeKey":"nodekey:%b"}
< registered"#;

/// Tests of policies, over the machines that are live.
pub const TESTS: &str = r#"= tests-with-phantoms
> PUT /api/v1/policy Bearer/secret {"tagOwners":{"tag:web":[]},"acls":[{"action":"accept","src":["bob@"],"dst":["tag:web:443"]}],"tests":[{"src":"eve@","accept":["tag:web:443"]}]}
< 422 {"code":"P21","place":"tests[0].accept[0]"}
> PUT /api/v1/policy Bearer/secret {"tagOwners":{"tag:web":[]},"groups":{"group:e":["eve@"]},"acls":[{"action":"accept","src":["group:e"],"dst":["tag:web:443"]}],"tests":[{"src":"eve@","accept":["tag:web:443"]}]}
< 200 {}
= tests-of-the-policy-that-is-saved
> PUT /api/v1/policy Bearer/secret {"acls":[]}
< 200 {}
> PUT /api/v1/policy Bearer/secret {"tests":[{"src":"ann@","accept":["bob@:22"]}]}
< 200 {}
> PUT /api/v1/policy Bearer/secret {"acls":[],"tests":[{"src":"ann@","accept":["bob@:22"]}]}
< 422 {"code":"P21","place":"tests[0].accept[0]"}
> PUT /api/v1/policy Bearer/secret {"acls":[],"tests":[{"src":"ann@","accept":["bob@:22"]},{"src":"*"}]}
< 422 {"code":"P20","place":"tests[1].src"}
> GET /api/v1/policy Bearer/secret
< 200 {"tests":[{"src":"ann@","accept":["bob@:22"]}]}
= tests-of-the-kept-text
> PUT /api/v1/policy Bearer/secret {"acls":[{"action":"accept","src":["100.64.0.1"],"dst":["*:22"]}],"tests":[{"src":"seed@","deny":["eve@:22"]}]}
< 200 {}
> POST /machine/register mkey:%1 {"Auth":{"AuthKey":"k1"},"NodeKey":"nodekey:%a"}
< registered
> PUT /api/v1/policy Bearer/secret {"acls":[{"action":"accept","src":["100.64.0.1"],"dst":["*:22"]}],"tests":[{"src":"seed@","deny":["eve@:22"]}]}
< 422 {"code":"P21","place":"tests[0].deny[0]"}
> GET /api/v1/policy Bearer/secret
< 200 {"acls":[{"action":"accept","src":["100.64.0.1"],"dst":["*:22"]}],"tests":[{"src":"seed@","deny":["eve@:22"]}]}
> DELETE /api/v1/node/1 Bearer/secret
< 200 {}
> PUT /api/v1/policy Bearer/secret {"acls":[{"action":"accept","src":["100.64.0.1"],"dst":["*:22"]}],"tests":[{"src":"seed@","deny":["eve@:22"]}]}
< 200 {}
= tests-of-a-live-address
> PUT /api/v1/policy Bearer/secret {"hosts":{"nas":"100.64.0.1"},"acls":[{"action":"accept","src":["seed@"],"dst":["*:*"]}],"tests":[{"src":"nas","accept":["eve@:22"]}]}
< 422 {"code":"P21","place":"tests[0].accept[0]"}
> POST /machine/register mkey:%1 {"Auth":{"AuthKey":"k1"},"NodeKey":"nodekey:%a"}
< registered
> PUT /api/v1/policy Bearer/secret {"hosts":{"nas":"100.64.0.1"},"acls":[{"action":"accept","src":["seed@"],"dst":["*:*"]}],"tests":[{"src":"nas","accept":["eve@:22"]}]}
< 200 {}
> POST /api/v1/node/1/expire Bearer/secret {}
< 200 {"addresses":["100.64.0.1","fd7a:115c:a1e0::1"],"advertised":[],"approved":[],"expiry":"2001-09-09T01:46:40Z","id":1,"live":false,"name":"node","online":false,"served":[],"tags":[],"user":"seed@"}
> PUT /api/v1/policy Bearer/secret {"hosts":{"nas":"100.64.0.1"},"acls":[{"action":"accept","src":["seed@"],"dst":["*:*"]}],"tests":[{"src":"nas","accept":["eve@:22"]}]}
< 422 {"code":"P21","place":"tests[0].accept[0]"}
= tests-of-both-addresses
> POST /machine/register mkey:%1 {"Auth":{"AuthKey":"k1"},"NodeKey":"nodekey:%a"}
< registered
> PUT /api/v1/policy Bearer/secret {"acls":[{"action":"accept","src":["eve@"],"dst":["100.64.0.1:22"]}],"tests":[{"src":"eve@","deny":["seed@:22"]}]}
< 422 {"code":"P21","place":"tests[0].deny[0]"}
> PUT /api/v1/policy Bearer/secret {"acls":[{"action":"accept","src":["eve@"],"dst":["fd7a:115c:a1e0::1:22"]}],"tests":[{"src":"eve@","deny":["seed@:22"]}]}
< 422 {"code":"P21","place":"tests[0].deny[0]"}
> PUT /api/v1/policy Bearer/secret {"acls":[{"action":"accept","src":["eve@"],"dst":["100.64.0.2:22"]}],"tests":[{"src":"eve@","deny":["seed@:22"]}]}
< 200 {}
= tests-of-tagged-machines
> PUT /api/v1/policy Bearer/secret {"tagOwners":{"tag:web":["seed@"]}}
< 200 {}
> POST /machine/register mkey:%1 {"Auth":{"AuthKey":"k1"},"NodeKey":"nodekey:%a","Hostinfo":{"RequestTags":["tag:web"]}}
< registered
> PUT /api/v1/policy Bearer/secret {"tagOwners":{"tag:web":["seed@"]},"acls":[{"action":"accept","src":["100.64.0.1"],"dst":["*:22"]}],"tests":[{"src":"seed@","deny":["eve@:22"]}]}
< 200 {}
> PUT /api/v1/policy Bearer/secret {"tagOwners":{"tag:web":["seed@"]},"acls":[{"action":"accept","src":["100.64.0.1"],"dst":["*:22"]}],"tests":[{"src":"tag:web","deny":["eve@:22"]}]}
< 422 {"code":"P21","place":"tests[0].deny[0]"}"#;

/// Policies that are kept when the program begins. The first that is saved afterwards is another text.
pub const KEPT: &str = r#"= kept-policy-closes
~ {"acls":[]}
> POST /machine/register mkey:%1 {"Auth":{"AuthKey":"k1"},"NodeKey":"nodekey:%a"}
< registered
> POST /machine/register mkey:%2 {"Auth":{"AuthKey":"k1"},"NodeKey":"nodekey:%b"}
< registered
> POST /machine/map mkey:%1 {"NodeKey":"nodekey:%a","ReadOnly":true}
< 200 #{"DNSConfig":{"Domains":["tail.example"],"ExtraRecords":[],"Proxied":true,"Resolvers":[],"Routes":{}},"Domain":"tail.example","Node":{"Addresses":["100.64.0.1/32","fd7a:115c:a1e0::1/128"],"AllowedIPs":["100.64.0.1/32","fd7a:115c:a1e0::1/128"],"Created":"2001-09-09T01:46:40Z","DiscoKey":"discokey:%0","Endpoints":[],"HomeDERP":0,"Hostinfo":{"Hostname":""},"ID":1,"Key":"nodekey:%a","KeyExpiry":"0001-01-01T00:00:00Z","Machine":"mkey:%1","MachineAuthorized":true,"Name":"node.tail.example.","Online":false,"StableID":"n1","Tags":[],"User":1},"PacketFilter":[],"UserProfiles":[{"DisplayName":"seed","ID":1,"LoginName":"seed@"}]}
> GET /api/v1/policy Bearer/secret
< 200 {"acls":[]}
= kept-policy-grants-tags
~ {"tagOwners":{"tag:a":["seed@"]}}
> POST /machine/register mkey:%1 {"Auth":{"AuthKey":"k1"},"NodeKey":"nodekey:%a","Hostinfo":{"RequestTags":["tag:b"]}}
< 403 {"error":"TagUndefined"}
> POST /machine/register mkey:%1 {"Auth":{"AuthKey":"k1"},"NodeKey":"nodekey:%a","Hostinfo":{"RequestTags":["tag:a"]}}
< registered
= kept-text-saved-again
~ {"acls":[]}
! keep 3
> PUT /api/v1/policy Bearer/secret {"acls":[]}
< 200 {}
> PUT /api/v1/policy Bearer/secret {}
< 500 {"error":"KeeperFault"}"#;
