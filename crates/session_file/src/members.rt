//! The members of objects in a tree.

ghost use Rattle.std.specs.Prelude.{◌≡◌, [], map, option_map};
ghost use Rattle.std.specs.List.{list_any};
ghost use Rattle.std.specs.Str.{bytes_eq};
ghost use Rattle.serde_json.specs.Data.{no_items};
ghost use Rattle.serde_json.specs.Find.{as_array, as_str};
ghost use Rattle.serde_json.specs.View.{view, items_view, members_view};
ghost use Rattle.session_meaning.specs.SessionText as text;

use faaslet_meaning::Mode;
use serde_json::{Map, Value};

fn is_listed(name: &str, names: &[&str]) -> bool
    ensures { result ≡ list_any (bytes_eq name.now) (map (λ n. n.now) names.now) }
{
    for other in names {
        if name == *other {
            return true;
        }
    }
    false
}

#[tactic(auto, using(crate::proofs::MemberNames::no_others_keys))]
fn no_others(members: &Map<String, Value>, names: &[&str]) -> bool
    ensures { result ≡ text.no_others (map (λ n. n.now) names.now) (members_view members.now.entries) }
{
    for name in members.keys() {
        if !is_listed(name.as_str(), names) {
            return false;
        }
    }
    true
}

/// Whether this is an object without other members.
pub(crate) fn has_only(value: &Value, names: &[&str]) -> bool
    ensures { result ≡ text.has_only (map (λ n. n.now) names.now) (view value.now) }
{
    match value.as_object() {
        Some(members) => no_others(members, names),
        None => false,
    }
}

pub(crate) fn text_at<'v>(value: &'v Value, name: &str) -> Option<&'v str>
    ensures { option_map (λ s. s.now) result ≡ text.needed as_str name.now (view value.now) }
{
    value.get(name).and_then(Value::as_str)
}

pub(crate) fn text_or_empty<'v>(value: &'v Value, name: &str) -> Option<&'v str>
    ensures { option_map (λ s. s.now) result ≡ text.given_or [] as_str name.now (view value.now) }
{
    match value.get(name) {
        Some(member) => member.as_str(),
        None => Some(""),
    }
}

pub(crate) fn number_at(value: &Value, name: &str) -> Option<u64>
    ensures { result ≡ text.needed text.whole name.now (view value.now) }
{
    value.get(name).and_then(Value::as_u64)
}

pub(crate) fn number_or(value: &Value, name: &str, default: u64) -> Option<u64>
    ensures { result ≡ text.given_or default text.whole name.now (view value.now) }
{
    match value.get(name) {
        Some(member) => member.as_u64(),
        None => Some(default),
    }
}

fn mode_named(name: &str) -> Option<Mode>
    ensures { result ≡ text.mode_named name.now }
{
    if name == "read" {
        return Some(Mode::Read);
    }
    if name == "write" {
        return Some(Mode::Write);
    }
    None
}

pub(crate) fn mode_at(value: &Value, name: &str) -> Option<Mode>
    ensures { result ≡ text.needed text.mode_text name.now (view value.now) }
{
    match text_at(value, name) {
        Some(mode) => mode_named(mode),
        None => None,
    }
}

fn values_of(value: &Value) -> Option<&[Value]>
    ensures { option_map (λ v. items_view v.now) result ≡ as_array (view value.now) }
{
    match value.as_array() {
        Some(values) => Some(values.as_slice()),
        None => None,
    }
}

pub(crate) fn list_at<'v>(value: &'v Value, name: &str) -> Option<&'v [Value]>
    ensures { option_map (λ v. items_view v.now) result ≡ text.needed as_array name.now (view value.now) }
{
    match value.get(name) {
        Some(member) => values_of(member),
        None => None,
    }
}

pub(crate) fn list_or_empty<'v>(value: &'v Value, name: &str) -> Option<&'v [Value]>
    ensures { option_map (λ v. items_view v.now) result
        ≡ text.given_or no_items as_array name.now (view value.now) }
{
    match value.get(name) {
        Some(member) => values_of(member),
        None => Some(&[]),
    }
}
