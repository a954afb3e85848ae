//! The entries of a session file as they stand there, borrowed from its tree.

ghost use Rattle.std.specs.Prelude.{◌≡◌, ℕ, List, option_map, option_and_then, IfOk};
ghost use Rattle.serde_json.specs.Find.{as_str};
ghost use Rattle.serde_json.specs.View.{view};
ghost use Rattle.session_meaning.specs.SessionText as text;
ghost use Rattle.session_file.specs.Texts.{key_text_of, grant_text_of, head_then, function_text_of, request_text_of, session_text_of};

use crate::lists::{Item, items_at, items_or_none};
use crate::members::{has_only, mode_at, number_at, number_or, text_at, text_or_empty};
use faaslet_meaning::Mode;
use serde_json::Value;
use std::alloc::{AllocError, Global};

#[derive(Drop)]
pub(crate) struct KeyText<'v> {
    pub name: &'v str,
    pub size: u64,
    pub init: &'v str,
}

fn key_text(value: &Value) -> Option<KeyText<'_>>
    ensures { option_map key_text_of result ≡ text.key_text (view value.now) }
{
    if !has_only(value, &["name", "size", "init"]) {
        return None;
    }
    let name = text_at(value, "name")?;
    let size = number_at(value, "size")?;
    let init = text_or_empty(value, "init")?;
    Some(KeyText { name, size, init })
}

impl<'v> Item<'v> for KeyText<'v> {
    ghost Text = { text.KeyText };

    ghost text_of = { key_text_of };

    ghost read_of = { text.key_text };

    fn read(_alloc: Global, value: &'v Value) -> Result<Option<KeyText<'v>>, AllocError> {
        Ok(key_text(value))
    }
}

#[derive(Drop)]
pub(crate) struct GrantText<'v> {
    pub key: &'v str,
    pub mode: Mode,
}

fn grant_text(value: &Value) -> Option<GrantText<'_>>
    ensures { option_map grant_text_of result ≡ text.grant_text (view value.now) }
{
    if !has_only(value, &["key", "mode"]) {
        return None;
    }
    let key = text_at(value, "key")?;
    let mode = mode_at(value, "mode")?;
    Some(GrantText { key, mode })
}

impl<'v> Item<'v> for GrantText<'v> {
    ghost Text = { text.GrantText };

    ghost text_of = { grant_text_of };

    ghost read_of = { text.grant_text };

    fn read(_alloc: Global, value: &'v Value) -> Result<Option<GrantText<'v>>, AllocError> {
        Ok(grant_text(value))
    }
}

// The name of a function that may be called.
impl<'v> Item<'v> for &'v str {
    ghost Text = { List ℕ };

    ghost text_of = { λ s. s.now };

    ghost read_of = { as_str };

    fn read(_alloc: Global, value: &'v Value) -> Result<Option<&'v str>, AllocError> {
        Ok(value.as_str())
    }
}

/// A function but for its lists.
#[derive(Clone, Copy)]
pub(crate) struct FunctionHead<'v> {
    pub name: &'v str,
    pub path: &'v str,
    pub quota: u64,
    pub fuel: u64,
    pub room: u64,
}

fn function_head(value: &Value) -> Option<FunctionHead<'_>>
    ensures { text.function_text (view value.now) ≡ option_and_then (head_then (view value.now)) result }
{
    if !has_only(
        value,
        &[
            "name", "module", "quota", "fuel", "output", "grants", "calls",
        ],
    ) {
        return None;
    }
    let name = text_at(value, "name")?;
    let path = text_at(value, "module")?;
    let quota = number_or(value, "quota", 64)?;
    let fuel = number_or(value, "fuel", 100_000_000)?;
    let room = number_or(value, "output", 1_024)?;
    Some(FunctionHead {
        name,
        path,
        quota,
        fuel,
        room,
    })
}

#[derive(Drop)]
pub(crate) struct FunctionText<'v> {
    pub head: FunctionHead<'v>,
    pub grants: Vec<GrantText<'v>>,
    pub calls: Vec<&'v str>,
}

fn function_text(alloc: Global, value: &Value) -> Result<Option<FunctionText<'_>>, AllocError>
    ensures { IfOk result (λ o. option_map function_text_of o ≡ text.function_text (view value.now)) }
{
    let Some(head) = function_head(value) else {
        return Ok(None);
    };
    let Some(grants) = items_or_none(alloc, value, "grants")? else {
        return Ok(None);
    };
    let Some(calls) = items_or_none(alloc, value, "calls")? else {
        return Ok(None);
    };
    Ok(Some(FunctionText {
        head,
        grants,
        calls,
    }))
}

impl<'v> Item<'v> for FunctionText<'v> {
    ghost Text = { text.FunctionText };

    ghost text_of = { function_text_of };

    ghost read_of = { text.function_text };

    fn read(alloc: Global, value: &'v Value) -> Result<Option<FunctionText<'v>>, AllocError> {
        function_text(alloc, value)
    }
}

#[derive(Drop)]
pub(crate) struct RequestText<'v> {
    pub label: &'v str,
    pub function: &'v str,
    pub host: u64,
    pub input: &'v str,
}

fn request_text(value: &Value) -> Option<RequestText<'_>>
    ensures { option_map request_text_of result ≡ text.request_text (view value.now) }
{
    if !has_only(value, &["label", "function", "host", "input"]) {
        return None;
    }
    let label = text_at(value, "label")?;
    let function = text_at(value, "function")?;
    let host = number_or(value, "host", 0)?;
    let input = text_or_empty(value, "input")?;
    Some(RequestText {
        label,
        function,
        host,
        input,
    })
}

impl<'v> Item<'v> for RequestText<'v> {
    ghost Text = { text.RequestText };

    ghost text_of = { request_text_of };

    ghost read_of = { text.request_text };

    fn read(_alloc: Global, value: &'v Value) -> Result<Option<RequestText<'v>>, AllocError> {
        Ok(request_text(value))
    }
}

#[derive(Drop)]
pub(crate) struct SessionText<'v> {
    pub hosts: u64,
    pub workers: u64,
    pub keys: Vec<KeyText<'v>>,
    pub functions: Vec<FunctionText<'v>>,
    pub requests: Vec<RequestText<'v>>,
}

/// The whole file, where it has its shape.
pub(crate) fn session_text(
    alloc: Global,
    value: &Value,
) -> Result<Option<SessionText<'_>>, AllocError>
    ensures { IfOk result (λ o. option_map session_text_of o ≡ text.session_text (view value.now)) }
{
    if !has_only(
        value,
        &["hosts", "workers", "keys", "functions", "requests"],
    ) {
        return Ok(None);
    }
    let Some(hosts) = number_at(value, "hosts") else {
        return Ok(None);
    };
    let Some(workers) = number_at(value, "workers") else {
        return Ok(None);
    };
    let Some(keys) = items_at(alloc, value, "keys")? else {
        return Ok(None);
    };
    let Some(functions) = items_at(alloc, value, "functions")? else {
        return Ok(None);
    };
    let Some(requests) = items_at(alloc, value, "requests")? else {
        return Ok(None);
    };
    Ok(Some(SessionText {
        hosts,
        workers,
        keys,
        functions,
        requests,
    }))
}
