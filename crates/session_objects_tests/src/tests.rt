use super::*;
use faaslet_meaning::Reply;
use grant_registry::Registry;
use session_objects::Closed;
use std::alloc::Global;
use std::test::*;

/// Two hosts with two workers each, and two keys.
fn two_hosts(alloc: Global) -> Option<Registry> {
    let mut registry = Registry::new(alloc, 2, 2).ok()?;
    registry.add_key("k", 4, b"ab").ok()?;
    registry.add_key("l", 2, b"").ok()?;
    Some(registry)
}

fn is_so(closed: &Closed) -> bool {
    closed.locals.len() == 2
        && closed.locals.iter().all(|host| {
            host.len() == 2
                && host
                    .iter()
                    .all(|(region, _)| !region.present() && region.used() == 0)
        })
        && closed.globals.len() == 2
        && closed.globals[0].0.bytes() == b"abcd".as_slice()
        && closed.globals[1].0.bytes() == b"\0\0".as_slice()
        && closed.table.0.calls() == 0
        && closed.table.0.hosts() == 2
}

#[test]
fn a_session_is_opened_used_and_closed(rt: HostRuntime) {
    let Some(registry) = two_hosts(rt.alloc()) else {
        panic!(rt; "no memory");
    };
    let Some((reply, closed)) = append_once(&rt, rt.alloc(), &registry, b"cd") else {
        panic!(rt; "no memory");
    };
    assert!(rt; reply == Reply::Number(2));
    assert!(rt; is_so(&closed));
}
