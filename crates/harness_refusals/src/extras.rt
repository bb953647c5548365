//! Extra DNS records: what is put in place of what, and what is refused.

/// Lists that are put, each in place of the one before, and what machines are told of them.
pub const RECORDS: &str = r#"= extra-record
> POST /machine/register mkey:%1 {"Auth":{"AuthKey":"k1"},"NodeKey":"nodekey:%a"}
< registered
> POST /machine/map mkey:%1 {"MapSessionHandle":"","MapSessionSeq":0,"NodeKey":"nodekey:%a","OmitPeers":false,"Stream":true}
< stream
+ {"DNSConfig":{"Domains":["tail.example"],"ExtraRecords":[],"Proxied":true,"Resolvers":[],"Routes":{}},"Domain":"tail.example","MapSessionHandle":"s1-0000000000000001","Node":{"Addresses":["100.64.0.1/32","fd7a:115c:a1e0::1/128"],"AllowedIPs":["100.64.0.1/32","fd7a:115c:a1e0::1/128"],"Created":"2001-09-09T01:46:40Z","DiscoKey":"discokey:%0","Endpoints":[],"HomeDERP":0,"Hostinfo":{"Hostname":""},"ID":1,"Key":"nodekey:%a","KeyExpiry":"0001-01-01T00:00:00Z","Machine":"mkey:%1","MachineAuthorized":true,"Name":"node.tail.example.","Online":true,"StableID":"n1","Tags":[],"User":1},"PacketFilter":[{"DstPorts":[{"IP":"100.64.0.1","Ports":{"First":0,"Last":65535}},{"IP":"fd7a:115c:a1e0::1","Ports":{"First":0,"Last":65535}}],"IPProto":[1,6,17,58],"SrcIPs":["*"]}],"Seq":1,"UserProfiles":[{"DisplayName":"seed","ID":1,"LoginName":"seed@"}]}
.
> PUT /api/v1/dns Bearer/secret [{"Name":"nas.tail.example","Type":"A","Value":"192.168.5.9"}]
< 200 [{"Name":"nas.tail.example","Type":"A","Value":"192.168.5.9"}]
> POST /machine/map mkey:%1 {"MapSessionHandle":"s1-0000000000000001","MapSessionSeq":1,"NodeKey":"nodekey:%a","OmitPeers":false,"Stream":true}
< stream
+ {"MapSessionHandle":"s1-0000000000000001"}
+ {"DNSConfig":{"Domains":["tail.example"],"ExtraRecords":[{"Name":"nas.tail.example","Type":"A","Value":"192.168.5.9"}],"Proxied":true,"Resolvers":[],"Routes":{}},"Seq":2}
.
= records-that-stay-and-records-that-go
> POST /machine/register mkey:%1 {"Auth":{"AuthKey":"k1"},"NodeKey":"nodekey:%a"}
< registered
> PUT /api/v1/dns Bearer/secret [{"Name":"nas.tail.example","Type":"A","Value":"192.168.5.9"}]
< 200 [{"Name":"nas.tail.example","Type":"A","Value":"192.168.5.9"}]
> POST /machine/map mkey:%1 {"NodeKey":"nodekey:%a","Stream":true}
< stream
+ {"DNSConfig":{"Domains":["tail.example"],"ExtraRecords":[{"Name":"nas.tail.example","Type":"A","Value":"192.168.5.9"}],"Proxied":true,"Resolvers":[],"Routes":{}},"Domain":"tail.example","MapSessionHandle":"s1-0000000000000001","Node":{"Addresses":["100.64.0.1/32","fd7a:115c:a1e0::1/128"],"AllowedIPs":["100.64.0.1/32","fd7a:115c:a1e0::1/128"],"Created":"2001-09-09T01:46:40Z","DiscoKey":"discokey:%0","Endpoints":[],"HomeDERP":0,"Hostinfo":{"Hostname":""},"ID":1,"Key":"nodekey:%a","KeyExpiry":"0001-01-01T00:00:00Z","Machine":"mkey:%1","MachineAuthorized":true,"Name":"node.tail.example.","Online":true,"StableID":"n1","Tags":[],"User":1},"PacketFilter":[{"DstPorts":[{"IP":"100.64.0.1","Ports":{"First":0,"Last":65535}},{"IP":"fd7a:115c:a1e0::1","Ports":{"First":0,"Last":65535}}],"IPProto":[1,6,17,58],"SrcIPs":["*"]}],"Seq":1,"UserProfiles":[{"DisplayName":"seed","ID":1,"LoginName":"seed@"}]}
.
> PUT /api/v1/dns Bearer/secret [{"Name":"nas.tail.example","Value":"192.168.5.9"}]
< 200 [{"Name":"nas.tail.example","Type":"A","Value":"192.168.5.9"}]
> POST /machine/map mkey:%1 {"MapSessionHandle":"s1-0000000000000001","MapSessionSeq":1,"NodeKey":"nodekey:%a","Stream":true}
< stream
+ {"MapSessionHandle":"s1-0000000000000001"}
.
> PUT /api/v1/dns Bearer/secret []
< 200 []
> POST /machine/map mkey:%1 {"MapSessionHandle":"s1-0000000000000001","MapSessionSeq":1,"NodeKey":"nodekey:%a","Stream":true}
< stream
+ {"MapSessionHandle":"s1-0000000000000001"}
+ {"DNSConfig":{"Domains":["tail.example"],"ExtraRecords":[],"Proxied":true,"Resolvers":[],"Routes":{}},"Seq":2}
.
= records-in-a-map
> POST /machine/register mkey:%1 {"Auth":{"AuthKey":"k1"},"NodeKey":"nodekey:%a"}
< registered
> PUT /api/v1/dns Bearer/secret [{"Name":"six.tail.example","Type":"AAAA","Value":"2001:db8::9"},{"Name":"nas.tail.example","Type":"A","Value":"192.168.5.9"}]
< 200 [{"Name":"six.tail.example","Type":"AAAA","Value":"2001:db8::9"},{"Name":"nas.tail.example","Type":"A","Value":"192.168.5.9"}]
> POST /machine/map mkey:%1 {"NodeKey":"nodekey:%a","ReadOnly":true}
< 200 #{"DNSConfig":{"Domains":["tail.example"],"ExtraRecords":[{"Name":"six.tail.example","Type":"AAAA","Value":"2001:db8::9"},{"Name":"nas.tail.example","Type":"A","Value":"192.168.5.9"}],"Proxied":true,"Resolvers":[],"Routes":{}},"Domain":"tail.example","Node":{"Addresses":["100.64.0.1/32","fd7a:115c:a1e0::1/128"],"AllowedIPs":["100.64.0.1/32","fd7a:115c:a1e0::1/128"],"Created":"2001-09-09T01:46:40Z","DiscoKey":"discokey:%0","Endpoints":[],"HomeDERP":0,"Hostinfo":{"Hostname":""},"ID":1,"Key":"nodekey:%a","KeyExpiry":"0001-01-01T00:00:00Z","Machine":"mkey:%1","MachineAuthorized":true,"Name":"node.tail.example.","Online":false,"StableID":"n1","Tags":[],"User":1},"PacketFilter":[{"DstPorts":[{"IP":"100.64.0.1","Ports":{"First":0,"Last":65535}},{"IP":"fd7a:115c:a1e0::1","Ports":{"First":0,"Last":65535}}],"IPProto":[1,6,17,58],"SrcIPs":["*"]}],"UserProfiles":[{"DisplayName":"seed","ID":1,"LoginName":"seed@"}]}
= records-replace
> GET /api/v1/dns Bearer/secret
< 200 []
> PUT /api/v1/dns Bearer/secret [{"Name":"six.tail.example","Value":"2001:DB8:0:0:0:0:0:9"},{"Name":"nas.tail.example","Type":"","Value":"192.168.5.9"},{"Name":"six.tail.example","Type":"AAAA","Value":"2001:db8::9"}]
< 200 [{"Name":"six.tail.example","Type":"AAAA","Value":"2001:db8::9"},{"Name":"nas.tail.example","Type":"A","Value":"192.168.5.9"},{"Name":"six.tail.example","Type":"AAAA","Value":"2001:db8::9"}]
> GET /api/v1/dns Bearer/secret
< 200 [{"Name":"six.tail.example","Type":"AAAA","Value":"2001:db8::9"},{"Name":"nas.tail.example","Type":"A","Value":"192.168.5.9"},{"Name":"six.tail.example","Type":"AAAA","Value":"2001:db8::9"}]
> PUT /api/v1/dns Bearer/secret [{"TTL":60,"Value":"0.0.0.0","Name":"b","Name":"a","Type":null}]
< 200 [{"Name":"a","Type":"A","Value":"0.0.0.0"}]
> GET /api/v1/dns Bearer/secret
< 200 [{"Name":"a","Type":"A","Value":"0.0.0.0"}]
> PUT /api/v1/dns Bearer/secret []
< 200 []
> GET /api/v1/dns Bearer/secret
< 200 []
= longest-name
> PUT /api/v1/dns Bearer/secret [{"Name":"aaaaaaaaaaaaaaaaaaaaaaaaaaaaaaaaaaaaaaaaaaaaaaaaaaaaaaaaaaaaaaa.bbbbbbbbbbbbbbbbbbbbbbbbbbbbbbbbbbbbbbbbbbbbbbbbbbbbbbbbbbbbbbb.ccccccccccccccccccccccccccccccccccccccccccccccccccccccccccccccc.ddddddddddddddddddddddddddddddddddddddddddddddddddddddddddddd","Value":"::"}]
< 200 [{"Name":"aaaaaaaaaaaaaaaaaaaaaaaaaaaaaaaaaaaaaaaaaaaaaaaaaaaaaaaaaaaaaaa.bbbbbbbbbbbbbbbbbbbbbbbbbbbbbbbbbbbbbbbbbbbbbbbbbbbbbbbbbbbbbbb.ccccccccccccccccccccccccccccccccccccccccccccccccccccccccccccccc.ddddddddddddddddddddddddddddddddddddddddddddddddddddddddddddd","Type":"AAAA","Value":"::"}]
= same-records-are-not-kept-again
! keep 4
> PUT /api/v1/dns Bearer/secret [{"Name":"nas.tail.example","Type":"A","Value":"192.168.5.9"}]
< 200 [{"Name":"nas.tail.example","Type":"A","Value":"192.168.5.9"}]
> PUT /api/v1/dns Bearer/secret [{"Name":"nas.tail.example","Type":"A","Value":"192.168.5.9"}]
< 200 [{"Name":"nas.tail.example","Type":"A","Value":"192.168.5.9"}]
> PUT /api/v1/dns Bearer/secret [{"Name":"six.tail.example","Type":"AAAA","Value":"2001:db8::9"},{"Name":"nas.tail.example","Type":"A","Value":"192.168.5.9"}]
< 500 {"error":"KeeperFault"}
> GET /api/v1/dns Bearer/secret
< 200 [{"Name":"nas.tail.example","Type":"A","Value":"192.168.5.9"}]
> PUT /api/v1/dns Bearer/secret [{"Name":"six.tail.example","Type":"AAAA","Value":"2001:db8::9"},{"Name":"nas.tail.example","Type":"A","Value":"192.168.5.9"}]
< 200 [{"Name":"six.tail.example","Type":"AAAA","Value":"2001:db8::9"},{"Name":"nas.tail.example","Type":"A","Value":"192.168.5.9"}]
= operators-alone
> PUT /api/v1/dns mkey:%1 []
< 401 {"error":"BadToken"}
> GET /api/v1/dns -
< 401 {"error":"BadToken"}
> POST /api/v1/dns Bearer/secret []
< 405 {"error":"BadMethod"}
> DELETE /api/v1/dns Bearer/secret
< 405 {"error":"BadMethod"}"#;

/// One body each, with its first fault.
pub const FAULTY_RECORDS: &str = r#"= no-list
> PUT /api/v1/dns Bearer/secret {}
< 400 {"error":"NotJson"}
= null
> PUT /api/v1/dns Bearer/secret null
< 400 {"error":"NotJson"}
= no-json
> PUT /api/v1/dns Bearer/secret [
< 400 {"error":"NotJson"}
= empty-body
> PUT /api/v1/dns Bearer/secret
< 400 {"error":"NotJson"}
= element-as-a-text
> PUT /api/v1/dns Bearer/secret ["nas.tail.example"]
< 400 {"error":"BadField","field":"Name"}
= null-element
> PUT /api/v1/dns Bearer/secret [null]
< 400 {"error":"BadField","field":"Name"}
= element-as-a-list
> PUT /api/v1/dns Bearer/secret [[]]
< 400 {"error":"BadField","field":"Name"}
= no-record-name
> PUT /api/v1/dns Bearer/secret [{"name":"nas","Type":1}]
< 400 {"error":"Missing","field":"Name"}
= null-record-name
> PUT /api/v1/dns Bearer/secret [{"Name":null,"Type":1}]
< 400 {"error":"Missing","field":"Name"}
= record-name-as-a-number
> PUT /api/v1/dns Bearer/secret [{"Name":1,"Type":1}]
< 400 {"error":"BadField","field":"Name"}
= empty-record-name
> PUT /api/v1/dns Bearer/secret [{"Name":"","Type":1}]
< 400 {"error":"BadField","field":"Name"}
= capital-in-a-record-name
> PUT /api/v1/dns Bearer/secret [{"Name":"Nas","Type":1}]
< 400 {"error":"BadField","field":"Name"}
= dot-at-the-end
> PUT /api/v1/dns Bearer/secret [{"Name":"nas.tail.example.","Type":1}]
< 400 {"error":"BadField","field":"Name"}
= two-dots
> PUT /api/v1/dns Bearer/secret [{"Name":"nas..example","Type":1}]
< 400 {"error":"BadField","field":"Name"}
= underscore
> PUT /api/v1/dns Bearer/secret [{"Name":"_nas.example","Type":1}]
< 400 {"error":"BadField","field":"Name"}
= label-of-64-bytes
> PUT /api/v1/dns Bearer/secret [{"Name":"%a","Type":1}]
< 400 {"error":"BadField","field":"Name"}
= name-of-254-bytes
> PUT /api/v1/dns Bearer/secret [{"Name":"aaaaaaaaaaaaaaaaaaaaaaaaaaaaaaaaaaaaaaaaaaaaaaaaaaaaaaaaaaaaaaa.bbbbbbbbbbbbbbbbbbbbbbbbbbbbbbbbbbbbbbbbbbbbbbbbbbbbbbbbbbbbbbb.ccccccccccccccccccccccccccccccccccccccccccccccccccccccccccccccc.dddddddddddddddddddddddddddddddddddddddddddddddddddddddddddddd","Type":1}]
< 400 {"error":"BadField","field":"Name"}
= record-type-as-a-number
> PUT /api/v1/dns Bearer/secret [{"Name":"nas","Type":1}]
< 400 {"error":"BadField","field":"Type"}
= no-record-value
> PUT /api/v1/dns Bearer/secret [{"Name":"nas","Type":"MX"}]
< 400 {"error":"Missing","field":"Value"}
= null-record-value
> PUT /api/v1/dns Bearer/secret [{"Name":"nas","Type":"MX","Value":null}]
< 400 {"error":"Missing","field":"Value"}
= record-value-as-a-number
> PUT /api/v1/dns Bearer/secret [{"Name":"nas","Type":"MX","Value":1}]
< 400 {"error":"BadField","field":"Value"}
= record-value-as-a-prefix
> PUT /api/v1/dns Bearer/secret [{"Name":"nas","Type":"MX","Value":"192.168.5.9/32"}]
< 400 {"error":"BadField","field":"Value"}
= leading-zero
> PUT /api/v1/dns Bearer/secret [{"Name":"nas","Type":"MX","Value":"192.168.5.09"}]
< 400 {"error":"BadField","field":"Value"}
= record-value-as-a-name
> PUT /api/v1/dns Bearer/secret [{"Name":"nas","Type":"CNAME","Value":"nas.tail.example"}]
< 400 {"error":"BadField","field":"Value"}
= other-record-type
> PUT /api/v1/dns Bearer/secret [{"Name":"nas","Type":"MX","Value":"192.168.5.9"},1]
< 400 {"error":"BadField","field":"Type"}
= type-of-the-other-family
> PUT /api/v1/dns Bearer/secret [{"Name":"nas","Type":"AAAA","Value":"192.168.5.9"}]
< 400 {"error":"BadField","field":"Type"}
= type-in-small-letters
> PUT /api/v1/dns Bearer/secret [{"Name":"nas","Type":"a","Value":"192.168.5.9"}]
< 400 {"error":"BadField","field":"Type"}
= second-element
> PUT /api/v1/dns Bearer/secret [{"Name":"nas","Value":"192.168.5.9"},{}]
< 400 {"error":"Missing","field":"Name"}"#;
