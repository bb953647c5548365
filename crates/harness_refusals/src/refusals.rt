//! Every refusal, and what stands in the tables after it; the first fault of every body.

/// What the desk refuses, and that it changes nothing.
pub const REFUSALS: &str = r#"= logins
> POST /api/v1/user Bearer/secret {"name":"Ann"}
< 200 {"id":2,"login":"ann@"}
> POST /api/v1/user Bearer/secret {"name":"ANN@"}
< 409 {"error":"NameTaken"}
> POST /api/v1/user Bearer/secret {"name":"a b"}
< 409 {"error":"BadName"}
> POST /api/v1/user Bearer/secret {"name":""}
< 409 {"error":"BadName"}
> DELETE /api/v1/user/bob@ Bearer/secret
< 404 {"error":"UnknownUser"}
> DELETE /api/v1/user/ann Bearer/secret
< 404 {"error":"UnknownUser"}
> GET /api/v1/user Bearer/secret
< 200 {"users":[{"id":1,"login":"seed@"},{"id":2,"login":"ann@"}]}
> DELETE /api/v1/user/ANN@ Bearer/secret
< 200 {}
> GET /api/v1/user Bearer/secret
< 200 {"users":[{"id":1,"login":"seed@"}]}
= keys
> POST /api/v1/preauthkey Bearer/secret {"user":"bob@"}
< 404 {"error":"UnknownUser"}
> POST /api/v1/preauthkey Bearer/secret {"user":"bob@","tags":["tag:web"]}
< 404 {"error":"UnknownUser"}
> POST /api/v1/preauthkey Bearer/secret {"user":"seed@","tags":["tag:web"]}
< 403 {"error":"TagUndefined"}
> DELETE /api/v1/preauthkey/2 Bearer/secret
< 404 {"error":"KeyUnknown"}
> GET /api/v1/preauthkey Bearer/secret
< 200 {"keys":[{"ephemeral":false,"expiry":"0001-01-01T00:00:00Z","id":1,"key":"k1","reusable":true,"tags":[],"used":false,"user":"seed@"}]}
= key-unknown
> POST /machine/register mkey:%1 {"Auth":{"AuthKey":"zz"},"NodeKey":"nodekey:%a"}
< 401 {"error":"KeyUnknown"}
> GET /api/v1/node Bearer/secret
< 200 {"nodes":[]}
= key-expired
> POST /machine/register mkey:%1 {"Auth":{"AuthKey":"k1"},"NodeKey":"nodekey:%a"}
< registered
> DELETE /api/v1/preauthkey/1 Bearer/secret
< 200 {}
> POST /machine/register mkey:%2 {"Auth":{"AuthKey":"k1"},"NodeKey":"nodekey:%b"}
< 401 {"error":"KeyExpired"}
> POST /machine/register mkey:%1 {"Auth":{"AuthKey":"k1"},"NodeKey":"nodekey:%a"}
< registered
> GET /api/v1/preauthkey Bearer/secret
< 200 {"keys":[{"ephemeral":false,"expiry":"2001-09-09T01:46:40Z","id":1,"key":"k1","reusable":true,"tags":[],"used":true,"user":"seed@"}]}
> GET /api/v1/node Bearer/secret
< 200 {"nodes":[{"addresses":["100.64.0.1","fd7a:115c:a1e0::1"],"advertised":[],"approved":[],"expiry":"0001-01-01T00:00:00Z","id":1,"live":true,"name":"node","online":false,"served":[],"tags":[],"user":"seed@"}]}
= key-expires-by-itself
@ 1000000000 1000000000 1000000000 1000000099 1000000100
> POST /api/v1/preauthkey Bearer/secret {"user":"seed@","reusable":true,"expiry":"2001-09-09T01:48:20Z"}
< 200 {"ephemeral":false,"expiry":"2001-09-09T01:48:20Z","id":2,"key":"tnkey-2-0000000000000001000000000000000200000000000000030000000000000004","reusable":true,"tags":[],"used":false,"user":"seed@"}
> POST /machine/register mkey:%1 {"Auth":{"AuthKey":"tnkey-2-0000000000000001000000000000000200000000000000030000000000000004"},"NodeKey":"nodekey:%a"}
< registered
> POST /machine/register mkey:%2 {"Auth":{"AuthKey":"tnkey-2-0000000000000001000000000000000200000000000000030000000000000004"},"NodeKey":"nodekey:%b"}
< 401 {"error":"KeyExpired"}
> GET /api/v1/preauthkey Bearer/secret
< 200 {"keys":[{"ephemeral":false,"expiry":"0001-01-01T00:00:00Z","id":1,"key":"k1","reusable":true,"tags":[],"used":false,"user":"seed@"},{"ephemeral":false,"expiry":"2001-09-09T01:48:20Z","id":2,"key":"tnkey-2-0000000000000001000000000000000200000000000000030000000000000004","reusable":true,"tags":[],"used":true,"user":"seed@"}]}
= key-used
> POST /api/v1/preauthkey Bearer/secret {"user":"seed@","ephemeral":true}
< 200 {"ephemeral":true,"expiry":"0001-01-01T00:00:00Z","id":2,"key":"tnkey-2-0000000000000001000000000000000200000000000000030000000000000004","reusable":false,"tags":[],"used":false,"user":"seed@"}
> POST /machine/register mkey:%1 {"Auth":{"AuthKey":"tnkey-2-0000000000000001000000000000000200000000000000030000000000000004"},"NodeKey":"nodekey:%a"}
< registered
> POST /machine/register mkey:%2 {"Auth":{"AuthKey":"tnkey-2-0000000000000001000000000000000200000000000000030000000000000004"},"NodeKey":"nodekey:%b","Hostinfo":{"RequestTags":["tag:a"]}}
< 401 {"error":"KeyUsed"}
> GET /api/v1/preauthkey Bearer/secret
< 200 {"keys":[{"ephemeral":false,"expiry":"0001-01-01T00:00:00Z","id":1,"key":"k1","reusable":true,"tags":[],"used":false,"user":"seed@"},{"ephemeral":true,"expiry":"0001-01-01T00:00:00Z","id":2,"key":"tnkey-2-0000000000000001000000000000000200000000000000030000000000000004","reusable":false,"tags":[],"used":true,"user":"seed@"}]}
> GET /api/v1/node Bearer/secret
< 200 {"nodes":[{"addresses":["100.64.0.1","fd7a:115c:a1e0::1"],"advertised":[],"approved":[],"expiry":"0001-01-01T00:00:00Z","id":1,"live":true,"name":"node","online":false,"served":[],"tags":[],"user":"seed@"}]}
= tags
> POST /machine/register mkey:%1 {"Auth":{"AuthKey":"zz"},"NodeKey":"nodekey:%a","Hostinfo":{"RequestTags":["tag:a"]}}
< 401 {"error":"KeyUnknown"}
> POST /machine/register mkey:%1 {"Auth":{"AuthKey":"k1"},"NodeKey":"nodekey:%a","Hostinfo":{"RequestTags":["tag:a"]}}
< 403 {"error":"TagUndefined"}
> POST /machine/register mkey:%1 {"NodeKey":"nodekey:%a","Hostinfo":{"RequestTags":["tag:a"]}}
< 200 {"AuthURL":"http://tail.example/register/reg-1-00000000000000010000000000000002","Error":"","Login":{"ID":0,"LoginName":""},"MachineAuthorized":false,"NodeKeyExpired":false,"User":{"DisplayName":"","ID":0}}
> POST /api/v1/register Bearer/secret {"id":"reg-1-00000000000000010000000000000002","user":"seed@"}
< 403 {"error":"TagUndefined"}
> POST /machine/register mkey:%2 {"Auth":{"AuthKey":"k1"},"NodeKey":"nodekey:%b"}
< registered
> POST /api/v1/node/1/tags Bearer/secret {"tags":["tag:a"]}
< 403 {"error":"TagUndefined"}
> POST /api/v1/node/2/tags Bearer/secret {"tags":["tag:a"]}
< 404 {"error":"UnknownMachine"}
> POST /api/v1/node/1/tags Bearer/secret {"tags":[]}
< 200 {"addresses":["100.64.0.1","fd7a:115c:a1e0::1"],"advertised":[],"approved":[],"expiry":"0001-01-01T00:00:00Z","id":1,"live":true,"name":"node","online":false,"served":[],"tags":[],"user":"seed@"}
> GET /api/v1/node Bearer/secret
< 200 {"nodes":[{"addresses":["100.64.0.1","fd7a:115c:a1e0::1"],"advertised":[],"approved":[],"expiry":"0001-01-01T00:00:00Z","id":1,"live":true,"name":"node","online":false,"served":[],"tags":[],"user":"seed@"}]}
> GET /api/v1/register Bearer/secret
< 200 {"pending":[{"host":"","id":"reg-1-00000000000000010000000000000002","machine":"mkey:%1","node":"nodekey:%a"}]}
= node-key-taken
> POST /machine/register mkey:%2 {"NodeKey":"nodekey:%b"}
< 200 {"AuthURL":"http://tail.example/register/reg-1-00000000000000010000000000000002","Error":"","Login":{"ID":0,"LoginName":""},"MachineAuthorized":false,"NodeKeyExpired":false,"User":{"DisplayName":"","ID":0}}
> POST /machine/register mkey:%1 {"Auth":{"AuthKey":"k1"},"NodeKey":"nodekey:%b"}
< registered
> POST /machine/register mkey:%3 {"Auth":{"AuthKey":"zz"},"NodeKey":"nodekey:%b"}
< 409 {"error":"NodeKeyTaken"}
> POST /machine/register mkey:%3 {"NodeKey":"nodekey:%b"}
< 409 {"error":"NodeKeyTaken"}
> POST /api/v1/register Bearer/secret {"id":"reg-1-00000000000000010000000000000002","user":"bob@"}
< 404 {"error":"UnknownUser"}
> POST /api/v1/register Bearer/secret {"id":"reg-1-00000000000000010000000000000002","user":"seed@"}
< 409 {"error":"NodeKeyTaken"}
> GET /api/v1/register Bearer/secret
< 200 {"pending":[{"host":"","id":"reg-1-00000000000000010000000000000002","machine":"mkey:%2","node":"nodekey:%b"}]}
> GET /api/v1/node Bearer/secret
< 200 {"nodes":[{"addresses":["100.64.0.1","fd7a:115c:a1e0::1"],"advertised":[],"approved":[],"expiry":"0001-01-01T00:00:00Z","id":1,"live":true,"name":"node","online":false,"served":[],"tags":[],"user":"seed@"}]}
= pending-unknown
@ 1000000000 1000000000 1000000000 1000003599 1000003599 1000003600
> POST /machine/register mkey:%1 {"NodeKey":"nodekey:%a"}
< 200 {"AuthURL":"http://tail.example/register/reg-1-00000000000000010000000000000002","Error":"","Login":{"ID":0,"LoginName":""},"MachineAuthorized":false,"NodeKeyExpired":false,"User":{"DisplayName":"","ID":0}}
> POST /api/v1/register Bearer/secret {"id":"reg-1-00000000000000010000000000000003","user":"bob@"}
< 404 {"error":"PendingUnknown"}
> POST /api/v1/register Bearer/secret {"id":"reg-1-00000000000000010000000000000002","user":"bob@"}
< 404 {"error":"UnknownUser"}
> POST /api/v1/register Bearer/secret {"id":"reg-1-00000000000000010000000000000002","user":"seed@"}
< 404 {"error":"PendingUnknown"}
> GET /api/v1/register Bearer/secret
< 200 {"pending":[{"host":"","id":"reg-1-00000000000000010000000000000002","machine":"mkey:%1","node":"nodekey:%a"}]}
> GET /api/v1/node Bearer/secret
< 200 {"nodes":[]}
= unknown-machine
> POST /machine/register mkey:%1 {"Expiry":"1970-01-01T00:00:01Z","NodeKey":"nodekey:%a"}
< 401 {"error":"UnknownMachine"}
> POST /machine/register mkey:%1 {"Auth":{"AuthKey":"k1"},"NodeKey":"nodekey:%a"}
< registered
> POST /machine/register mkey:%1 {"Expiry":"1970-01-01T00:00:01Z","NodeKey":"nodekey:%b"}
< 401 {"error":"UnknownMachine"}
> POST /machine/map mkey:%1 {"NodeKey":"nodekey:%b"}
< 401 {"error":"UnknownMachine"}
> POST /machine/map mkey:%2 {"NodeKey":"nodekey:%a","OmitPeers":true}
< 401 {"error":"UnknownMachine"}
> POST /api/v1/node/2/expire Bearer/secret {}
< 404 {"error":"UnknownMachine"}
> POST /api/v1/node/2/rename Bearer/secret {"name":"A"}
< 404 {"error":"UnknownMachine"}
> POST /api/v1/node/2/tags Bearer/secret {"tags":[]}
< 404 {"error":"UnknownMachine"}
> DELETE /api/v1/node/2 Bearer/secret
< 404 {"error":"UnknownMachine"}
> GET /api/v1/node Bearer/secret
< 200 {"nodes":[{"addresses":["100.64.0.1","fd7a:115c:a1e0::1"],"advertised":[],"approved":[],"expiry":"0001-01-01T00:00:00Z","id":1,"live":true,"name":"node","online":false,"served":[],"tags":[],"user":"seed@"}]}
= not-live
> POST /machine/register mkey:%1 {"Auth":{"AuthKey":"k1"},"NodeKey":"nodekey:%a"}
< registered
> POST /api/v1/node/1/expire Bearer/secret {}
< 200 {"addresses":["100.64.0.1","fd7a:115c:a1e0::1"],"advertised":[],"approved":[],"expiry":"2001-09-09T01:46:40Z","id":1,"live":false,"name":"node","online":false,"served":[],"tags":[],"user":"seed@"}
> POST /machine/map mkey:%1 {"NodeKey":"nodekey:%a","OmitPeers":true,"Hostinfo":{"RoutableIPs":["10.0.0.0/8"]}}
< 401 {"error":"NotLive"}
> POST /machine/map mkey:%1 {"NodeKey":"nodekey:%a","ReadOnly":true}
< 401 {"error":"NotLive"}
> GET /api/v1/node Bearer/secret
< 200 {"nodes":[{"addresses":["100.64.0.1","fd7a:115c:a1e0::1"],"advertised":[],"approved":[],"expiry":"2001-09-09T01:46:40Z","id":1,"live":false,"name":"node","online":false,"served":[],"tags":[],"user":"seed@"}]}
= names
> POST /machine/register mkey:%1 {"Auth":{"AuthKey":"k1"},"NodeKey":"nodekey:%a","Hostinfo":{"Hostname":"one"}}
< registered
> POST /machine/register mkey:%2 {"Auth":{"AuthKey":"k1"},"NodeKey":"nodekey:%b","Hostinfo":{"Hostname":"two"}}
< registered
> POST /api/v1/node/2/rename Bearer/secret {"name":"one"}
< 409 {"error":"NameTaken"}
> POST /api/v1/node/2/rename Bearer/secret {"name":"One"}
< 409 {"error":"BadName"}
> POST /api/v1/node/2/rename Bearer/secret {"name":"two"}
< 200 {"addresses":["100.64.0.2","fd7a:115c:a1e0::2"],"advertised":[],"approved":[],"expiry":"0001-01-01T00:00:00Z","id":2,"live":true,"name":"two","online":false,"served":[],"tags":[],"user":"seed@"}
> POST /api/v1/node/2/rename Bearer/secret {"name":"three"}
< 200 {"addresses":["100.64.0.2","fd7a:115c:a1e0::2"],"advertised":[],"approved":[],"expiry":"0001-01-01T00:00:00Z","id":2,"live":true,"name":"three","online":false,"served":[],"tags":[],"user":"seed@"}
> POST /machine/register mkey:%3 {"Auth":{"AuthKey":"k1"},"NodeKey":"nodekey:%c","Hostinfo":{"Hostname":"One"}}
< registered
> GET /api/v1/node Bearer/secret
< 200 {"nodes":[{"addresses":["100.64.0.1","fd7a:115c:a1e0::1"],"advertised":[],"approved":[],"expiry":"0001-01-01T00:00:00Z","id":1,"live":true,"name":"one","online":false,"served":[],"tags":[],"user":"seed@"},{"addresses":["100.64.0.2","fd7a:115c:a1e0::2"],"advertised":[],"approved":[],"expiry":"0001-01-01T00:00:00Z","id":2,"live":true,"name":"three","online":false,"served":[],"tags":[],"user":"seed@"},{"addresses":["100.64.0.3","fd7a:115c:a1e0::3"],"advertised":[],"approved":[],"expiry":"0001-01-01T00:00:00Z","id":3,"live":true,"name":"one-1","online":false,"served":[],"tags":[],"user":"seed@"}]}
= user-has-machines-and-then-none
> POST /machine/register mkey:%1 {"Auth":{"AuthKey":"k1"},"NodeKey":"nodekey:%a"}
< registered
> DELETE /api/v1/user/seed@ Bearer/secret
< 409 {"error":"UserHasMachines"}
> DELETE /api/v1/node/1 Bearer/secret
< 200 {}
> DELETE /api/v1/user/seed@ Bearer/secret
< 200 {}
> GET /api/v1/preauthkey Bearer/secret
< 200 {"keys":[]}
> GET /api/v1/user Bearer/secret
< 200 {"users":[]}
= addresses-of-both-families
: prefix_v6 = "fd7a:115c:a1e0::/126"
> POST /machine/register mkey:%1 {"Auth":{"AuthKey":"k1"},"NodeKey":"nodekey:%a"}
< registered
> POST /machine/register mkey:%2 {"Auth":{"AuthKey":"k1"},"NodeKey":"nodekey:%b"}
< registered
> POST /machine/register mkey:%3 {"Auth":{"AuthKey":"k1"},"NodeKey":"nodekey:%c"}
< 507 {"error":"AddressesSpent","family":6}
> POST /machine/register mkey:%1 {"Auth":{"AuthKey":"k1"},"NodeKey":"nodekey:%c"}
< registered
> POST /machine/register mkey:%3 {"NodeKey":"nodekey:%d"}
< 200 {"AuthURL":"http://tail.example/register/reg-1-00000000000000010000000000000002","Error":"","Login":{"ID":0,"LoginName":""},"MachineAuthorized":false,"NodeKeyExpired":false,"User":{"DisplayName":"","ID":0}}
> POST /api/v1/register Bearer/secret {"id":"reg-1-00000000000000010000000000000002","user":"seed@"}
< 507 {"error":"AddressesSpent","family":6}
> GET /api/v1/register Bearer/secret
< 200 {"pending":[{"host":"","id":"reg-1-00000000000000010000000000000002","machine":"mkey:%3","node":"nodekey:%d"}]}
> GET /api/v1/node Bearer/secret
< 200 {"nodes":[{"addresses":["100.64.0.1","fd7a:115c:a1e0::1"],"advertised":[],"approved":[],"expiry":"0001-01-01T00:00:00Z","id":1,"live":true,"name":"node","online":false,"served":[],"tags":[],"user":"seed@"},{"addresses":["100.64.0.2","fd7a:115c:a1e0::2"],"advertised":[],"approved":[],"expiry":"0001-01-01T00:00:00Z","id":2,"live":true,"name":"node-1","online":false,"served":[],"tags":[],"user":"seed@"}]}
= keeper-fault
! keep 4
> POST /api/v1/user Bearer/secret {"name":"ann"}
< 200 {"id":2,"login":"ann@"}
> POST /api/v1/user Bearer/secret {"name":"bob"}
< 500 {"error":"KeeperFault"}
> GET /api/v1/user Bearer/secret
< 200 {"users":[{"id":1,"login":"seed@"},{"id":2,"login":"ann@"}]}
> POST /api/v1/user Bearer/secret {"name":"bob"}
< 200 {"id":3,"login":"bob@"}
= entropy-fault-of-a-key
! word 2
> POST /api/v1/preauthkey Bearer/secret {"user":"bob@"}
< 404 {"error":"UnknownUser"}
> POST /api/v1/preauthkey Bearer/secret {"user":"seed@"}
< 500 {"error":"EntropyFault"}
> GET /api/v1/preauthkey Bearer/secret
< 200 {"keys":[{"ephemeral":false,"expiry":"0001-01-01T00:00:00Z","id":1,"key":"k1","reusable":true,"tags":[],"used":false,"user":"seed@"}]}
> POST /api/v1/preauthkey Bearer/secret {"user":"seed@"}
< 200 {"ephemeral":false,"expiry":"0001-01-01T00:00:00Z","id":2,"key":"tnkey-2-0000000000000001000000000000000200000000000000030000000000000004","reusable":false,"tags":[],"used":false,"user":"seed@"}
= entropy-fault-of-a-waiting-machine
! word 1
> POST /machine/register mkey:%1 {"NodeKey":"nodekey:%a"}
< 500 {"error":"EntropyFault"}
> GET /api/v1/register Bearer/secret
< 200 {"pending":[]}
> POST /machine/register mkey:%1 {"NodeKey":"nodekey:%a"}
< 200 {"AuthURL":"http://tail.example/register/reg-1-00000000000000010000000000000002","Error":"","Login":{"ID":0,"LoginName":""},"MachineAuthorized":false,"NodeKeyExpired":false,"User":{"DisplayName":"","ID":0}}
= path-then-method-then-token-then-body
> GET /api/v1/dns/ Bearer/secret
< 404 {"error":"NoPath"}
> POST /api/v1/node/1/route Bearer/secret {"routes":[]}
< 404 {"error":"NoPath"}
> PATCH /api/v1/node/0 Bearer/x
< 404 {"error":"NoPath"}
> DELETE /api/v1/node/2147483648 Bearer/secret
< 404 {"error":"NoPath"}
> PATCH /api/v1/node/1 Bearer/x
< 405 {"error":"BadMethod"}
> GET /machine/register -
< 405 {"error":"BadMethod"}
> post /api/v1/user Bearer/secret
< 405 {"error":"BadMethod"}
> POST /api/v1/user - {
< 401 {"error":"BadToken"}
> POST /api/v1/user bearer/secret {
< 401 {"error":"BadToken"}
> DELETE /api/v1/user/x? -
< 401 {"error":"BadToken"}
> GET /api/v1/user?x=1 Bearer/secret
< 200 {"users":[{"id":1,"login":"seed@"}]}
> POST /api/v1/user Bearer/secret {
< 400 {"error":"NotJson"}"#;

/// One body each, with its first fault.
pub const FAULTY_BODIES: &str = r#"= no-machine-key
> POST /machine/register - {
< 400 {"error":"Missing","field":"Ts-Machine-Key"}
= zero-machine-key
> POST /machine/map mkey:%0 {
< 400 {"error":"BadField","field":"Ts-Machine-Key"}
= short-machine-key
> POST /machine/map mkey:11 {
< 400 {"error":"BadField","field":"Ts-Machine-Key"}
= no-json
> POST /machine/map mkey:%1 {
< 400 {"error":"NotJson"}
= no-object
> POST /machine/register mkey:%1 []
< 400 {"error":"NotJson"}
= no-node-key
> POST /machine/register mkey:%1 {"OldNodeKey":1}
< 400 {"error":"Missing","field":"NodeKey"}
= null-node-key
> POST /machine/register mkey:%1 {"NodeKey":null}
< 400 {"error":"Missing","field":"NodeKey"}
= zero-node-key
> POST /machine/register mkey:%1 {"NodeKey":"nodekey:%0","OldNodeKey":1}
< 400 {"error":"BadField","field":"NodeKey"}
= old-node-key
> POST /machine/register mkey:%1 {"NodeKey":"nodekey:%a","OldNodeKey":1,"Auth":1}
< 400 {"error":"BadField","field":"OldNodeKey"}
= auth
> POST /machine/register mkey:%1 {"NodeKey":"nodekey:%a","Auth":1,"Expiry":1}
< 400 {"error":"BadField","field":"Auth"}
= auth-key
> POST /machine/register mkey:%1 {"NodeKey":"nodekey:%a","Auth":{"AuthKey":1},"Expiry":1}
< 400 {"error":"BadField","field":"AuthKey"}
= expiry
> POST /machine/register mkey:%1 {"NodeKey":"nodekey:%a","Expiry":"2001-09-09","Ephemeral":1}
< 400 {"error":"BadField","field":"Expiry"}
= ephemeral
> POST /machine/register mkey:%1 {"NodeKey":"nodekey:%a","Ephemeral":1,"Hostinfo":1}
< 400 {"error":"BadField","field":"Ephemeral"}
= hostinfo
> POST /machine/register mkey:%1 {"NodeKey":"nodekey:%a","Hostinfo":1}
< 400 {"error":"BadField","field":"Hostinfo"}
= host-name
> POST /machine/register mkey:%1 {"NodeKey":"nodekey:%a","Hostinfo":{"Hostname":"%h%h%h%h","RoutableIPs":1}}
< 400 {"error":"BadField","field":"Hostname"}
= routes
> POST /machine/register mkey:%1 {"NodeKey":"nodekey:%a","Hostinfo":{"RoutableIPs":["10.0.0.1/8"],"RequestTags":1}}
< 400 {"error":"BadField","field":"RoutableIPs"}
= request-tags
> POST /machine/register mkey:%1 {"NodeKey":"nodekey:%a","Hostinfo":{"RequestTags":["web"]}}
< 400 {"error":"BadField","field":"RequestTags"}
= compressed
> POST /machine/map mkey:%1 {"Compress":1}
< 400 {"error":"Compressed"}
= field-of-a-poll
> POST /machine/map mkey:%1 {"NodeKey":"nodekey:%a","Stream":true,"Hostinfo":{"NetInfo":{"PreferredDERP":65536}}}
< 400 {"error":"BadField","field":"PreferredDERP"}
= omit-peers
> POST /machine/map mkey:%1 {"NodeKey":"nodekey:%a","OmitPeers":0,"ReadOnly":0}
< 400 {"error":"BadField","field":"OmitPeers"}
= read-only
> POST /machine/map mkey:%1 {"NodeKey":"nodekey:%a","ReadOnly":0,"MapSessionHandle":0}
< 400 {"error":"BadField","field":"ReadOnly"}
= handle
> POST /machine/map mkey:%1 {"NodeKey":"nodekey:%a","MapSessionHandle":0,"MapSessionSeq":-1}
< 400 {"error":"BadField","field":"MapSessionHandle"}
= seq
> POST /machine/map mkey:%1 {"NodeKey":"nodekey:%a","MapSessionSeq":18446744073709551616,"Endpoints":0}
< 400 {"error":"BadField","field":"MapSessionSeq"}
= endpoints
> POST /machine/map mkey:%1 {"NodeKey":"nodekey:%a","Endpoints":0,"DiscoKey":0}
< 400 {"error":"BadField","field":"Endpoints"}
= disco-key
> POST /machine/map mkey:%1 {"NodeKey":"nodekey:%a","DiscoKey":0,"Hostinfo":0}
< 400 {"error":"BadField","field":"DiscoKey"}
= net-info
> POST /machine/map mkey:%1 {"NodeKey":"nodekey:%a","Hostinfo":{"NetInfo":0,"RoutableIPs":0}}
< 400 {"error":"BadField","field":"NetInfo"}
= derp
> POST /machine/map mkey:%1 {"NodeKey":"nodekey:%a","Hostinfo":{"NetInfo":{"PreferredDERP":65536},"RoutableIPs":0}}
< 400 {"error":"BadField","field":"PreferredDERP"}
= no-name
> POST /api/v1/user Bearer/secret {"Name":"ann"}
< 400 {"error":"Missing","field":"name"}
= name
> POST /api/v1/user Bearer/secret {"name":1}
< 400 {"error":"BadField","field":"name"}
= no-user
> POST /api/v1/preauthkey Bearer/secret {"reusable":1}
< 400 {"error":"Missing","field":"user"}
= reusable
> POST /api/v1/preauthkey Bearer/secret {"user":"x","reusable":1,"ephemeral":1}
< 400 {"error":"BadField","field":"reusable"}
= key-ephemeral
> POST /api/v1/preauthkey Bearer/secret {"user":"x","ephemeral":1,"expiry":1}
< 400 {"error":"BadField","field":"ephemeral"}
= key-expiry
> POST /api/v1/preauthkey Bearer/secret {"user":"x","expiry":1,"tags":1}
< 400 {"error":"BadField","field":"expiry"}
= key-tags
> POST /api/v1/preauthkey Bearer/secret {"user":"x","tags":["tag:1"]}
< 400 {"error":"BadField","field":"tags"}
= no-new-name
> POST /api/v1/node/9/rename Bearer/secret {}
< 400 {"error":"Missing","field":"name"}
= no-tags
> POST /api/v1/node/9/tags Bearer/secret {}
< 400 {"error":"Missing","field":"tags"}
= node-expiry
> POST /api/v1/node/9/expire Bearer/secret {"expiry":"now"}
< 400 {"error":"BadField","field":"expiry"}
= expire-empty-body
> POST /api/v1/node/9/expire Bearer/secret
< 400 {"error":"NotJson"}
= no-pending-id
> POST /api/v1/register Bearer/secret {"user":1}
< 400 {"error":"Missing","field":"id"}
= no-pending-user
> POST /api/v1/register Bearer/secret {"id":"reg-1-x"}
< 400 {"error":"Missing","field":"user"}
= sweep-empty-body
> POST /api/v1/sweep Bearer/secret
< 400 {"error":"NotJson"}
= sweep-list
> POST /api/v1/sweep Bearer/secret []
< 400 {"error":"NotJson"}
= empty-body
> POST /machine/register mkey:%1
< 400 {"error":"NotJson"}
= two-values
> POST /machine/register mkey:%1 {} {}
< 400 {"error":"NotJson"}
= number-too-large
> POST /machine/register mkey:%1 {"a":1e999}
< 400 {"error":"NotJson"}
= member-in-small-letters
> POST /machine/register mkey:%1 {"nodekey":"nodekey:%a"}
< 400 {"error":"Missing","field":"NodeKey"}
= short-node-key
> POST /machine/register mkey:%1 {"NodeKey":"nodekey:00"}
< 400 {"error":"BadField","field":"NodeKey"}
= node-key-as-a-number
> POST /machine/register mkey:%1 {"NodeKey":3}
< 400 {"error":"BadField","field":"NodeKey"}
= short-old-node-key
> POST /machine/register mkey:%1 {"NodeKey":"nodekey:%a","OldNodeKey":"nodekey:0","Auth":1}
< 400 {"error":"BadField","field":"OldNodeKey"}
= auth-as-a-list
> POST /machine/register mkey:%1 {"NodeKey":"nodekey:%a","Auth":[],"Expiry":1}
< 400 {"error":"BadField","field":"Auth"}
= no-leap-day
> POST /machine/register mkey:%1 {"NodeKey":"nodekey:%a","Expiry":"2001-02-29T00:00:00Z","Ephemeral":1}
< 400 {"error":"BadField","field":"Expiry"}
= hostinfo-as-a-list
> POST /machine/register mkey:%1 {"NodeKey":"nodekey:%a","Hostinfo":[]}
< 400 {"error":"BadField","field":"Hostinfo"}
= host-name-as-a-number
> POST /machine/register mkey:%1 {"NodeKey":"nodekey:%a","Hostinfo":{"Hostname":1,"RoutableIPs":1}}
< 400 {"error":"BadField","field":"Hostname"}
= routes-as-an-object
> POST /machine/register mkey:%1 {"NodeKey":"nodekey:%a","Hostinfo":{"RoutableIPs":{},"RequestTags":1}}
< 400 {"error":"BadField","field":"RoutableIPs"}
= null-route
> POST /machine/register mkey:%1 {"NodeKey":"nodekey:%a","Hostinfo":{"RoutableIPs":[null]}}
< 400 {"error":"BadField","field":"RoutableIPs"}
= no-time-in-another-zone
> POST /machine/register mkey:%1 {"NodeKey":"nodekey:%a","Auth":{},"Expiry":"0001-01-01T01:00:00+01:00","OldNodeKey":"nodekey:%0"}
< 200 {"AuthURL":"http://tail.example/register/reg-1-00000000000000010000000000000002","Error":"","Login":{"ID":0,"LoginName":""},"MachineAuthorized":false,"NodeKeyExpired":false,"User":{"DisplayName":"","ID":0}}
= routes-and-tags-are-read
> POST /machine/register mkey:%1 {"NodeKey":"nodekey:%a","Auth":{"AuthKey":"k"},"Hostinfo":{"RoutableIPs":["::/0"],"RequestTags":["tag:a"]}}
< 401 {"error":"KeyUnknown"}
= map-list
> POST /machine/map mkey:%1 []
< 400 {"error":"NotJson"}
= map-null-node-key
> POST /machine/map mkey:%1 {"NodeKey":null,"Stream":3}
< 400 {"error":"Missing","field":"NodeKey"}
= map-zero-node-key
> POST /machine/map mkey:%1 {"NodeKey":"nodekey:%0"}
< 400 {"error":"BadField","field":"NodeKey"}
= compressed-by-name
> POST /machine/map mkey:%1 {"Compress":"zstd"}
< 400 {"error":"Compressed"}
= stream-as-a-number
> POST /machine/map mkey:%1 {"NodeKey":"nodekey:%a","Stream":0,"OmitPeers":0}
< 400 {"error":"BadField","field":"Stream"}
= omit-peers-as-a-text
> POST /machine/map mkey:%1 {"NodeKey":"nodekey:%a","OmitPeers":"","ReadOnly":0}
< 400 {"error":"BadField","field":"OmitPeers"}
= read-only-as-a-list
> POST /machine/map mkey:%1 {"NodeKey":"nodekey:%a","ReadOnly":[],"MapSessionHandle":0}
< 400 {"error":"BadField","field":"ReadOnly"}
= seq-with-an-exponent
> POST /machine/map mkey:%1 {"NodeKey":"nodekey:%a","MapSessionSeq":1e0,"Endpoints":1}
< 400 {"error":"BadField","field":"MapSessionSeq"}
= seq-minus-zero
> POST /machine/map mkey:%1 {"NodeKey":"nodekey:%a","MapSessionSeq":-0}
< 400 {"error":"BadField","field":"MapSessionSeq"}
= endpoint-without-a-port
> POST /machine/map mkey:%1 {"NodeKey":"nodekey:%a","Endpoints":["1.2.3.4"],"DiscoKey":1}
< 400 {"error":"BadField","field":"Endpoints"}
= short-disco-key
> POST /machine/map mkey:%1 {"NodeKey":"nodekey:%a","DiscoKey":"discokey:0","Hostinfo":1}
< 400 {"error":"BadField","field":"DiscoKey"}
= map-hostinfo-as-a-flag
> POST /machine/map mkey:%1 {"NodeKey":"nodekey:%a","Hostinfo":true}
< 400 {"error":"BadField","field":"Hostinfo"}
= map-host-name-as-an-object
> POST /machine/map mkey:%1 {"NodeKey":"nodekey:%a","Hostinfo":{"Hostname":{},"NetInfo":1}}
< 400 {"error":"BadField","field":"Hostname"}
= route-of-129-bits
> POST /machine/map mkey:%1 {"NodeKey":"nodekey:%a","Hostinfo":{"RoutableIPs":["::/129"]}}
< 400 {"error":"BadField","field":"RoutableIPs"}
= largest-seq
> POST /machine/map mkey:%1 {"NodeKey":"nodekey:%a","Compress":"","MapSessionSeq":18446744073709551615,"MapSessionHandle":"s1-0"}
< 401 {"error":"UnknownMachine"}
= each-member-of-a-map-request
> POST /machine/map mkey:%1 {"NodeKey":"nodekey:%a","Endpoints":["[fd00::1]:5"],"DiscoKey":"discokey:%0","Hostinfo":{"Hostname":"","NetInfo":{}}}
< 401 {"error":"UnknownMachine"}
= key-form-list
> POST /api/v1/preauthkey Bearer/secret [{"user":"ann@"}]
< 400 {"error":"NotJson"}
= key-null-user
> POST /api/v1/preauthkey Bearer/secret {"user":null,"tags":3}
< 400 {"error":"Missing","field":"user"}
= key-tag-without-its-head
> POST /api/v1/preauthkey Bearer/secret {"user":"ann@","tags":["web"]}
< 400 {"error":"BadField","field":"tags"}
= last-of-doubled-members
> POST /api/v1/preauthkey Bearer/secret {"user":"bob@","user":"seed@","expiry":"0001-01-01T00:00:00Z"}
< 200 {"ephemeral":false,"expiry":"0001-01-01T00:00:00Z","id":2,"key":"tnkey-2-0000000000000001000000000000000200000000000000030000000000000004","reusable":false,"tags":[],"used":false,"user":"seed@"}
= quoted-host
> POST /machine/register mkey:%4 {"NodeKey":"nodekey:%d","Hostinfo":{"Hostname":"a \"quoted\" host"}}
< 200 {"AuthURL":"http://tail.example/register/reg-1-00000000000000010000000000000002","Error":"","Login":{"ID":0,"LoginName":""},"MachineAuthorized":false,"NodeKeyExpired":false,"User":{"DisplayName":"","ID":0}}
> GET /api/v1/register Bearer/secret
< 200 {"pending":[{"host":"a \"quoted\" host","id":"reg-1-00000000000000010000000000000002","machine":"mkey:%4","node":"nodekey:%d"}]}"#;
