use faaslet_meaning::{Grant, Mode};
use grant_registry::Registry;
use session_meaning::RegFault;
use std::alloc::Global;
use std::test::Fail;

fn opens(alloc: Global, hosts: u32, workers: u32) -> bool {
    Registry::new(alloc, hosts, workers).is_ok()
}

/// A grant to the function of this name.
fn grant(registry: &mut Registry, f: &str, key: &str, mode: Mode) -> Option<Result<(), RegFault>> {
    let f = registry.function(f)?;
    if f >= registry.functions() {
        return None;
    }
    Some(registry.grant(f, key, mode))
}

fn allow(registry: &mut Registry, f: &str, callee: &str) -> Option<Result<(), RegFault>> {
    let f = registry.function(f)?;
    if f >= registry.functions() {
        return None;
    }
    Some(registry.allow(f, callee))
}

fn add_keys(registry: &mut Registry) -> bool {
    let rows: [(&str, u32, &[u8], Result<u32, RegFault>); 7] = [
        ("k", 2, b"ab", Ok(0)),
        ("k", 0, b"abc", Err(RegFault::Duplicate)),
        ("", 0, b"abc", Err(RegFault::Name)),
        ("a b", 1, b"", Err(RegFault::Name)),
        ("l", 16_777_217, b"", Err(RegFault::Range)),
        ("l", 1, b"ab", Err(RegFault::TooLong)),
        ("l", 16_777_216, b"", Ok(1)),
    ];
    for (name, size, init, want) in &rows {
        if registry.add_key(*name, *size, *init) != *want {
            return false;
        }
    }
    registry.keys() == 2 && registry.key("l") == Some(1) && registry.key("m").is_none()
}

fn add_functions(registry: &mut Registry) -> bool {
    let rows: [(&str, u32, u64, u32, Result<u32, RegFault>); 6] = [
        ("f", 64, 100_000_000, 1_024, Ok(0)),
        ("f", 0, 0, 0, Err(RegFault::Duplicate)),
        ("g", 1_025, 1, 0, Err(RegFault::Range)),
        ("g", 1, 1_099_511_627_777, 0, Err(RegFault::Range)),
        ("g", 1, 1, 65_537, Err(RegFault::Range)),
        ("k", 1_024, 1_099_511_627_776, 65_536, Ok(1)),
    ];
    for (name, quota, fuel, room, want) in &rows {
        if registry.add_function(*name, *quota, *fuel, *room) != *want {
            return false;
        }
    }
    registry.functions() == 2 && registry.function("k") == Some(1)
}

fn add_grants(registry: &mut Registry) -> bool {
    let rows: [(&str, Mode, Result<(), RegFault>); 3] = [
        ("l", Mode::Write, Ok(())),
        ("z", Mode::Read, Err(RegFault::UnknownName)),
        ("l", Mode::Read, Err(RegFault::Duplicate)),
    ];
    for (key, mode, want) in &rows {
        if grant(registry, "k", *key, *mode) != Some(*want) {
            return false;
        }
    }
    allow(registry, "k", "f") == Some(Ok(()))
        && allow(registry, "k", "f") == Some(Err(RegFault::Duplicate))
        && allow(registry, "k", "z") == Some(Err(RegFault::UnknownName))
}

fn add_requests(registry: &mut Registry) -> bool {
    let rows: [(&str, &str, u32, &[u8], Result<u32, RegFault>); 5] = [
        ("a", "k", 1, b"in", Ok(0)),
        ("a", "z", 2, b"", Err(RegFault::Duplicate)),
        ("b", "z", 2, b"", Err(RegFault::UnknownName)),
        ("b", "k", 2, b"", Err(RegFault::Range)),
        ("?", "k", 0, b"", Err(RegFault::Name)),
    ];
    for (label, function, host, input, want) in &rows {
        if registry.add_request(*label, *function, *host, *input) != *want {
            return false;
        }
    }
    registry.requests() == 1
}

fn reads_functions(registry: &Registry) -> bool {
    if registry.functions() < 2 {
        return false;
    }
    let plan = registry.function_plan(1);
    let wanted = Grant {
        key: 1,
        size: 16_777_216,
        mode: Mode::Write,
    };
    plan.name == "k"
        && (plan.quota, plan.fuel, plan.room) == (1_024, 1_099_511_627_776, 65_536)
        && registry.grants_of(1).as_slice() == [wanted].as_slice()
        && registry.callees_of(1) == [0].as_slice()
        && registry.callee(1, 0) == Some(0)
        && registry.callee(1, 1).is_none()
        && registry.may_call(1, 0)
        && !registry.may_call(0, 1)
}

fn reads_others(registry: &Registry) -> bool {
    if registry.keys() < 1 || registry.requests() < 1 {
        return false;
    }
    let key = registry.key_plan(0);
    let request = registry.request_plan(0);
    (key.name, key.size) == ("k", 2)
        && key.init == b"ab".as_slice()
        && request.label == "a"
        && (request.function, request.host) == (1, 1)
        && request.input == b"in".as_slice()
}

fn fills(registry: &mut Registry) -> bool {
    registry.hosts() == 2
        && registry.workers() == 1
        && add_keys(registry)
        && add_functions(registry)
        && add_grants(registry)
        && add_requests(registry)
        && reads_functions(registry)
        && reads_others(registry)
}

fn opens_and_fills(alloc: Global) -> bool {
    match Registry::new(alloc, 2, 1) {
        Ok(mut registry) => fills(&mut registry),
        Err(_) => false,
    }
}

#[test]
fn what_is_added_is_there(rt: HostRuntime) -> Result<(), Fail> {
    assert!(rt; opens_and_fills(rt.alloc()));
    Ok(())
}

#[test]
fn hosts_and_workers(rt: HostRuntime) -> Result<(), Fail> {
    let alloc = rt.alloc();
    assert!(rt; opens(alloc, 16, 8));
    assert!(rt; !opens(alloc, 17, 8) && !opens(alloc, 0, 8));
    assert!(rt; !opens(alloc, 16, 9) && !opens(alloc, 16, 0));
    Ok(())
}

/// What the budgets say of so many functions of one quota, and as many keys of one size.
fn check(registry: &mut Registry, count: usize, quota: u32, size: u32) -> Result<(), RegFault> {
    let names = ["a", "b", "c", "d"];
    for name in names.iter().take(count) {
        registry.add_function(*name, quota, 1, 0)?;
        registry.add_key(*name, size, b"")?;
    }
    registry.check_budget()
}

fn budget(
    alloc: Global,
    machines: (u32, u32),
    functions: (usize, u32),
    size: u32,
) -> Result<(), RegFault> {
    let mut registry = Registry::new(alloc, machines.0, machines.1)?;
    check(&mut registry, functions.0, functions.1, size)
}

#[test]
fn budgets(rt: HostRuntime) -> Result<(), Fail> {
    let alloc = rt.alloc();
    // 16 * (8 * 8 * 1,024 + 1,024) pages, and 4 * (8 * 2 * 64 + 128)
    assert!(rt; budget(alloc, (16, 8), (1, 1_024), 1) == Err(RegFault::PageBudget));
    assert!(rt; budget(alloc, (4, 2), (2, 64), 1) == Ok(()));
    // (15 + 1) * 2 * 256 pages are as many as there may be, (16 + 1) * 2 * 256 too many
    assert!(rt; budget(alloc, (15, 1), (2, 1), 16_777_216) == Ok(()));
    assert!(rt; budget(alloc, (16, 8), (2, 1_024), 16_777_216) == Err(RegFault::StateBudget));
    Ok(())
}
