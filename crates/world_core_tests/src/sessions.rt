//! The sessions of the tests, and what they are made of.

ghost use Rattle.std.specs.Prelude.{◌≡◌, None, IfSome};
ghost use Rattle.faaslet_meaning.specs.Decoding.{first_passed};

use crate::modules::*;
use faaslet_meaning::Mode;
use grant_registry::Registry;
use std::alloc::Global;
use wasm_decode::decode;
use wasm_validate::{ValidModule, validate};

/// A function with the sections of its module, the keys that it is granted, and the functions that it may call.
#[derive(Clone, Copy)]
pub struct Function<'s> {
    pub name: &'s str,
    pub sections: &'s [&'s str],
    pub grants: &'s [(&'s str, Mode)],
    pub callees: &'s [&'s str],
}

/// Hosts and workers, the names of the keys, each of one byte, the functions, and the label and the function of each request,
/// which is at host 0 and without input.
#[derive(Clone, Copy)]
pub struct Session<'s> {
    pub hosts: u32,
    pub workers: u32,
    pub keys: &'s [&'s str],
    pub functions: &'s [Function<'s>],
    pub requests: &'s [(&'s str, &'s str)],
}

const WRITES_K: &[(&str, Mode)] = &[("k", Mode::Write)];

/// Two calls without a question.
pub const TWINS: Session<'static> = Session {
    hosts: 1,
    workers: 1,
    keys: &[],
    functions: &[Function {
        name: "kid",
        sections: KID,
        grants: &[],
        callees: &[],
    }],
    requests: &[("a", "kid"), ("b", "kid")],
};

/// A call that awaits two children.
pub const FAMILY: Session<'static> = Session {
    hosts: 1,
    workers: 1,
    keys: &[],
    functions: &[
        Function {
            name: "par",
            sections: PAR,
            grants: &[],
            callees: &["kid"],
        },
        Function {
            name: "kid",
            sections: KID,
            grants: &[],
            callees: &[],
        },
    ],
    requests: &[("p", "par")],
};

/// A call that traps with a lock, and one that wants the lock.
pub const HOLDERS: Session<'static> = Session {
    hosts: 1,
    workers: 1,
    keys: &["k"],
    functions: &[
        Function {
            name: "hold",
            sections: HOLD,
            grants: WRITES_K,
            callees: &[],
        },
        Function {
            name: "lock",
            sections: LOCK,
            grants: WRITES_K,
            callees: &[],
        },
    ],
    requests: &[("a", "hold"), ("b", "lock")],
};

/// A key that is written at one host, read at another, pushed from the first and pulled at the second.
pub const PAIR: Session<'static> = Session {
    hosts: 2,
    workers: 1,
    keys: &["k"],
    functions: &[
        Function {
            name: "wr",
            sections: WRITES,
            grants: WRITES_K,
            callees: &[],
        },
        Function {
            name: "rd",
            sections: READS,
            grants: WRITES_K,
            callees: &[],
        },
        Function {
            name: "pu",
            sections: PUSHES,
            grants: WRITES_K,
            callees: &[],
        },
        Function {
            name: "pl",
            sections: PULLS,
            grants: WRITES_K,
            callees: &[],
        },
    ],
    requests: &[("a", "wr"), ("b", "rd"), ("c", "pu"), ("d", "pl")],
};

/// A call that awaits a child, which waits for the lock that the call holds.
pub const MOTHER: Session<'static> = Session {
    hosts: 1,
    workers: 1,
    keys: &["k"],
    functions: &[
        Function {
            name: "mom",
            sections: MOM,
            grants: WRITES_K,
            callees: &["lock"],
        },
        Function {
            name: "lock",
            sections: LOCK,
            grants: WRITES_K,
            callees: &[],
        },
    ],
    requests: &[("r", "mom")],
};

/// Two calls that take two locks, each in another order.
pub const CROSSWISE: Session<'static> = Session {
    hosts: 1,
    workers: 2,
    keys: &["k", "l"],
    functions: &[
        Function {
            name: "f",
            sections: CROSS,
            grants: &[("k", Mode::Write), ("l", Mode::Write)],
            callees: &[],
        },
        Function {
            name: "g",
            sections: CROSS,
            grants: &[("l", Mode::Write), ("k", Mode::Write)],
            callees: &[],
        },
    ],
    requests: &[("a", "f"), ("b", "g")],
};

/// The header of a module.
const HEADER: [u8; 8] = [0x00, 0x61, 0x73, 0x6D, 0x01, 0x00, 0x00, 0x00];

/// The pages of its own, the fuel and the bytes of output that a call may have.
const QUOTA: u32 = 64;

const FUEL: u64 = 1_000;

const ROOM: u32 = 16;

/// The module of these sections.
fn module(alloc: Global, sections: &[&str]) -> Option<ValidModule>
    ensures { IfSome result (λ m. first_passed m ≡ None) }
{
    let mut bytes = Vec::from_slice(alloc, &HEADER).ok()?;
    for section in sections {
        let section = hex::decode(alloc, *section).ok()?;
        bytes.extend_from_slice(&section).ok()?;
    }
    let Ok(module) = decode(alloc, &bytes) else {
        return None;
    };
    validate(alloc, module).ok()
}

/// Grants a function a key.
fn grant(registry: &mut Registry, f: u32, key: &str, mode: Mode) -> Option<()> {
    if registry.functions() <= f {
        return None;
    }
    registry.grant(f, key, mode).ok()
}

/// Gives a function its module.
fn set_module(alloc: Global, registry: &mut Registry, f: u32, sections: &[&str]) -> Option<()> {
    if registry.functions() <= f {
        return None;
    }
    registry.set_module(f, module(alloc, sections)?).ok()
}

/// Adds a function with its module and its grants.
fn add_function(alloc: Global, registry: &mut Registry, function: &Function<'_>) -> Option<()> {
    let f = registry
        .add_function(function.name, QUOTA, FUEL, ROOM)
        .ok()?;
    for (key, mode) in function.grants {
        grant(registry, f, key, *mode)?;
    }
    set_module(alloc, registry, f, function.sections)
}

/// Lets a function call another.
fn allow(registry: &mut Registry, f: u32, callee: &str) -> Option<()> {
    if registry.functions() <= f {
        return None;
    }
    registry.allow(f, callee).ok()
}

/// Lets a function call others.
fn allow_callees(registry: &mut Registry, function: &Function<'_>) -> Option<()> {
    let f = registry.function(function.name)?;
    for callee in function.callees {
        allow(registry, f, callee)?;
    }
    Some(())
}

/// The registry of a session.
pub fn registry_of(alloc: Global, session: &Session<'_>) -> Option<Registry> {
    let mut registry = Registry::new(alloc, session.hosts, session.workers).ok()?;
    for key in session.keys {
        registry.add_key(key, 1, &[]).ok()?;
    }
    for function in session.functions {
        add_function(alloc, &mut registry, function)?;
    }
    for function in session.functions {
        allow_callees(&mut registry, function)?;
    }
    for (label, function) in session.requests {
        registry.add_request(label, function, 0, &[]).ok()?;
    }
    Some(registry)
}
