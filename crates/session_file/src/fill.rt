//! The registry is filled in the order of the file's lists.

ghost use Rattle.std.specs.Prelude.{◌≡◌, ◌<◌, ◌+◌, length, map, Ok, IfErr, OnOk};
ghost use Rattle.session_meaning.specs.SessionFile as file;
ghost use Rattle.session_file.specs.Grown.{Grown};
ghost use Rattle.session_file.specs.Texts.{key_text_of, grant_text_of, function_text_of, request_text_of};
ghost use Rattle.session_file.specs.Told.{Tells};

use crate::entries::{FunctionText, GrantText, KeyText, RequestText};
use crate::faults::{at_entry, hex_bytes};
use grant_registry::Registry;
use session_meaning::{SessionFault, SessionList};
use std::alloc::Global;

/// A number as a field of 32 bits takes it: past its greatest number the registry refuses that one.
pub(crate) fn capped(n: u64) -> u32
    ensures { result ≡ file.capped n }
{
    n.min(4_294_967_295) as u32
}

fn add_key(alloc: Global, registry: &mut Registry, key: &KeyText<'_>) -> Result<(), SessionFault>
    ensures ok { OnOk result
        (file.add_key (length registry.old.keys) registry.old (key_text_of key.now) ≡ Ok registry.new) }
    ensures refused { IfErr result
        (λ e. Tells e (file.add_key (length registry.old.keys) registry.old (key_text_of key.now))) }
    ensures sizes { OnOk result (Grown 1 0 0 registry.old registry.new) }
{
    let place = registry.keys();
    let init = hex_bytes(alloc, SessionList::Keys, place, key.init)?;
    match registry.add_key(key.name, capped(key.size), &init) {
        Ok(_) => Ok(()),
        Err(fault) => Err(at_entry(SessionList::Keys, place, fault)),
    }
}

pub(crate) fn add_keys(
    alloc: Global,
    registry: &mut Registry,
    keys: &[KeyText<'_>],
) -> Result<(), SessionFault>
    requires { length registry.old.keys ≡ 0 }
    ensures ok { OnOk result
        (file.in_turn 0 file.add_key registry.old (map key_text_of keys.now) ≡ Ok registry.new) }
    ensures refused { IfErr result
        (λ e. Tells e (file.in_turn 0 file.add_key registry.old (map key_text_of keys.now))) }
    ensures sizes { OnOk result (Grown (length keys.now) 0 0 registry.old registry.new) }
{
    for key in keys {
        add_key(alloc, registry, key)?;
    }
    Ok(())
}

fn add_function(registry: &mut Registry, function: &FunctionText<'_>) -> Result<(), SessionFault>
    ensures ok { OnOk result (file.add_function (length registry.old.functions) registry.old
        (function_text_of function.now) ≡ Ok registry.new) }
    ensures refused { IfErr result (λ e. Tells e (file.add_function (length registry.old.functions)
        registry.old (function_text_of function.now))) }
    ensures sizes { OnOk result (Grown 0 1 0 registry.old registry.new) }
{
    let place = registry.functions();
    let head = &function.head;
    match registry.add_function(head.name, capped(head.quota), head.fuel, capped(head.room)) {
        Ok(_) => Ok(()),
        Err(fault) => Err(at_entry(SessionList::Functions, place, fault)),
    }
}

pub(crate) fn add_functions(
    registry: &mut Registry,
    functions: &[FunctionText<'_>],
) -> Result<(), SessionFault>
    requires { length registry.old.functions ≡ 0 }
    ensures ok { OnOk result
        (file.in_turn 0 file.add_function registry.old (map function_text_of functions.now) ≡ Ok registry.new) }
    ensures refused { IfErr result
        (λ e. Tells e (file.in_turn 0 file.add_function registry.old (map function_text_of functions.now))) }
    ensures sizes { OnOk result (Grown 0 (length functions.now) 0 registry.old registry.new) }
{
    for function in functions {
        add_function(registry, function)?;
    }
    Ok(())
}

fn grant(registry: &mut Registry, f: u32, grant: &GrantText<'_>) -> Result<(), SessionFault>
    requires { f < length registry.old.functions }
    ensures ok { OnOk result
        (file.grant f 0 registry.old (grant_text_of grant.now) ≡ Ok registry.new) }
    ensures refused { IfErr result
        (λ e. Tells e (file.grant f 0 registry.old (grant_text_of grant.now))) }
    ensures sizes { OnOk result (Grown 0 0 0 registry.old registry.new) }
{
    match registry.grant(f, grant.key, grant.mode) {
        Ok(()) => Ok(()),
        Err(fault) => Err(at_entry(SessionList::Functions, f, fault)),
    }
}

fn grant_all(registry: &mut Registry, f: u32, grants: &[GrantText<'_>]) -> Result<(), SessionFault>
    requires { f < length registry.old.functions }
    ensures ok { OnOk result
        (file.in_turn 0 (file.grant f) registry.old (map grant_text_of grants.now) ≡ Ok registry.new) }
    ensures refused { IfErr result
        (λ e. Tells e (file.in_turn 0 (file.grant f) registry.old (map grant_text_of grants.now))) }
    ensures sizes { OnOk result (Grown 0 0 0 registry.old registry.new) }
{
    for one in grants {
        grant(registry, f, one)?;
    }
    Ok(())
}

fn allow(registry: &mut Registry, f: u32, callee: &str) -> Result<(), SessionFault>
    requires { f < length registry.old.functions }
    ensures ok { OnOk result (file.allow f 0 registry.old callee.now ≡ Ok registry.new) }
    ensures refused { IfErr result (λ e. Tells e (file.allow f 0 registry.old callee.now)) }
    ensures sizes { OnOk result (Grown 0 0 0 registry.old registry.new) }
{
    match registry.allow(f, callee) {
        Ok(()) => Ok(()),
        Err(fault) => Err(at_entry(SessionList::Functions, f, fault)),
    }
}

fn allow_all(registry: &mut Registry, f: u32, calls: &[&str]) -> Result<(), SessionFault>
    requires { f < length registry.old.functions }
    ensures ok { OnOk result
        (file.in_turn 0 (file.allow f) registry.old (map (λ s. s.now) calls.now) ≡ Ok registry.new) }
    ensures refused { IfErr result
        (λ e. Tells e (file.in_turn 0 (file.allow f) registry.old (map (λ s. s.now) calls.now))) }
    ensures sizes { OnOk result (Grown 0 0 0 registry.old registry.new) }
{
    for callee in calls {
        allow(registry, f, *callee)?;
    }
    Ok(())
}

/// A function's grants, and then what it may call.
fn entitle(registry: &mut Registry, f: u32, function: &FunctionText<'_>) -> Result<(), SessionFault>
    requires { f < length registry.old.functions }
    ensures ok { OnOk result
        (file.entitle f registry.old (function_text_of function.now) ≡ Ok registry.new) }
    ensures refused { IfErr result
        (λ e. Tells e (file.entitle f registry.old (function_text_of function.now))) }
    ensures sizes { OnOk result (Grown 0 0 0 registry.old registry.new) }
{
    grant_all(registry, f, &function.grants)?;
    allow_all(registry, f, &function.calls)
}

pub(crate) fn entitle_all(
    registry: &mut Registry,
    functions: &[FunctionText<'_>],
) -> Result<(), SessionFault>
    requires { length registry.old.functions ≡ length functions.now }
    ensures ok { OnOk result
        (file.in_turn 0 file.entitle registry.old (map function_text_of functions.now) ≡ Ok registry.new) }
    ensures refused { IfErr result
        (λ e. Tells e (file.in_turn 0 file.entitle registry.old (map function_text_of functions.now))) }
    ensures sizes { OnOk result (Grown 0 0 0 registry.old registry.new) }
{
    for f in 0..registry.functions() {
        entitle(registry, f, &functions[f as usize])?;
    }
    Ok(())
}

fn add_request(
    alloc: Global,
    registry: &mut Registry,
    request: &RequestText<'_>,
) -> Result<(), SessionFault>
    ensures ok { OnOk result (file.add_request (length registry.old.requests) registry.old
        (request_text_of request.now) ≡ Ok registry.new) }
    ensures refused { IfErr result (λ e. Tells e (file.add_request (length registry.old.requests)
        registry.old (request_text_of request.now))) }
    ensures sizes { OnOk result (Grown 0 0 1 registry.old registry.new) }
{
    let place = registry.requests();
    let input = hex_bytes(alloc, SessionList::Requests, place, request.input)?;
    match registry.add_request(
        request.label,
        request.function,
        capped(request.host),
        &input,
    ) {
        Ok(_) => Ok(()),
        Err(fault) => Err(at_entry(SessionList::Requests, place, fault)),
    }
}

pub(crate) fn add_requests(
    alloc: Global,
    registry: &mut Registry,
    requests: &[RequestText<'_>],
) -> Result<(), SessionFault>
    requires { length registry.old.requests ≡ 0 }
    ensures ok { OnOk result
        (file.in_turn 0 file.add_request registry.old (map request_text_of requests.now) ≡ Ok registry.new) }
    ensures refused { IfErr result
        (λ e. Tells e (file.in_turn 0 file.add_request registry.old (map request_text_of requests.now))) }
{
    for request in requests {
        add_request(alloc, registry, request)?;
    }
    Ok(())
}
