//! Paths that lead nowhere.
use path_routes::Paths;
use std::test::Fail;

const NOWHERE: [&str; 15] = [
    "",
    "/machine",
    "/machine/map/",
    "/api/v1/user/",
    "/api/v1/user/ann@/x",
    "/api/v1/preauthkey/02",
    "/api/v1/preauthkey/x",
    "/api/v1/node/2147483648",
    "/api/v1/node/0",
    "/api/v1/node/12345678901",
    "/api/v1/node/7/route",
    "/api/v1/node/x/tags",
    "/api/v1/node//tags",
    "/api/v1/dns/1",
    "/api/v1/sweep/1",
];

#[test]
fn other_paths_lead_nowhere(rt: HostRuntime) -> Result<(), Fail> {
    let Ok(paths) = Paths::new(rt.alloc()) else {
        assert!(rt; false);
        return Ok(());
    };
    for path in NOWHERE {
        assert!(rt; paths.found(path.as_bytes()).is_none(), "{path}");
    }
    assert!(rt; paths.found(b"/api/v1/user/\xff").is_none());
    Ok(())
}
