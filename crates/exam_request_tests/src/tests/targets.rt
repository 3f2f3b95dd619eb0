//! Targets with and without a route.
use exam_request::{find, server_routes};
use std::alloc::Global;
use std::test::Fail;

/// A target, with the number and the reference that it has.
type Target<'a> = (&'a str, &'a [u8], &'a [u8]);

const FOUND: [Target<'static>; 3] = [
    ("/candidates/0000001/seats", b"0000001", b""),
    ("/candidates/0000001/appeals/HA1?x", b"0000001", b"HA1?x"),
    ("/candidates/%2F/appeals", b"%2F", b""),
];

const MISSED: [&str; 7] = [
    "",
    "/candidates//seats",
    "/candidates/1",
    "/candidates/1/seats?x=1",
    "/candidates/1/appeals/",
    "/candidates/1/appeals/a/b",
    "//candidates/1/seats",
];

fn has_route(alloc: Global, target: &str) -> Result<bool, Fail> {
    let router = server_routes(alloc).ok().ok_or("routes")?;
    Ok(find(&router, target).is_some())
}

fn reads(alloc: Global, target: Target<'_>) -> Result<bool, Fail> {
    let router = server_routes(alloc).ok().ok_or("routes")?;
    let found = find(&router, target.0).ok_or("a route")?;
    Ok(found.number == target.1 && found.reference == target.2)
}

#[test]
fn targets_are_read_as_they_are(rt: HostRuntime) -> Result<(), Fail> {
    for target in FOUND {
        assert!(rt; reads(rt.alloc(), target)?, "{}", target.0);
    }
    for target in MISSED {
        assert!(rt; !has_route(rt.alloc(), target)?, "{target}");
    }
    Ok(())
}
