//! What an accepted session gives.

use faaslet_meaning::{Grant, Mode};
use grant_registry::Registry;
use session_file::{SessionPlan, read_session};
use std::alloc::Global;
use std::test::Fail;

const TEXT: &str = r#"{
  "hosts": 4,
  "workers": 2,
  "keys": [{ "name": "k", "size": 3, "init": "0aFF" }, { "name": "l", "size": 1 }],
  "functions": [
    { "name": "f", "module": "first.wasm" },
    {
      "name": "g", "module": "dir/second.wasm", "quota": 1, "fuel": 2, "output": 3,
      "grants": [{ "key": "l", "mode": "read" }, { "key": "k", "mode": "write" }],
      "calls": ["g", "f"]
    }
  ],
  "requests": [
    { "label": "a", "function": "g", "host": 3, "input": "01" },
    { "label": "b", "function": "f" }
  ]
}"#;

fn has_keys(registry: &Registry) -> bool {
    if registry.keys() != 2 {
        return false;
    }
    let first = registry.key_plan(0);
    let second = registry.key_plan(1);
    first.name == "k"
        && first.size == 3
        && first.init == [10, 255].as_slice()
        && second.name == "l"
        && second.size == 1
        && second.init.is_empty()
}

fn has_functions(registry: &Registry) -> bool {
    if registry.functions() != 2 {
        return false;
    }
    let first = registry.function_plan(0);
    let second = registry.function_plan(1);
    first.name == "f"
        && (first.quota, first.fuel, first.room) == (64, 100_000_000, 1_024)
        && second.name == "g"
        && (second.quota, second.fuel, second.room) == (1, 2, 3)
}

fn has_rights(registry: &Registry) -> bool {
    if registry.functions() != 2 {
        return false;
    }
    let read = Grant {
        key: 1,
        size: 1,
        mode: Mode::Read,
    };
    let write = Grant {
        key: 0,
        size: 3,
        mode: Mode::Write,
    };
    registry.grants_of(0).as_slice().is_empty()
        && registry.grants_of(1).as_slice() == [read, write].as_slice()
        && registry.callees_of(0).is_empty()
        && registry.callees_of(1) == [1, 0].as_slice()
}

fn has_requests(registry: &Registry) -> bool {
    if registry.requests() != 2 {
        return false;
    }
    let first = registry.request_plan(0);
    let second = registry.request_plan(1);
    first.label == "a"
        && (first.function, first.host) == (1, 3)
        && first.input == [1].as_slice()
        && second.label == "b"
        && (second.function, second.host) == (0, 0)
        && second.input.is_empty()
}

fn is_as_written(plan: &SessionPlan) -> bool {
    let registry = &plan.registry;
    let paths = plan.paths.as_slice();
    registry.hosts() == 4
        && registry.workers() == 2
        && has_keys(registry)
        && has_functions(registry)
        && has_rights(registry)
        && has_requests(registry)
        && paths.len() == 2
        && paths[0].as_str() == "first.wasm"
        && paths[1].as_str() == "dir/second.wasm"
}

fn reads(alloc: Global) -> bool {
    match read_session(alloc, TEXT.as_bytes()) {
        Ok(plan) => is_as_written(&plan),
        Err(_) => false,
    }
}

#[test]
fn all_that_is_written(rt: HostRuntime) -> Result<(), Fail> {
    assert!(rt; reads(rt.alloc()));
    Ok(())
}
