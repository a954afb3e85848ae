//! The lists of a session file: each item has its shape, or there is no list.

ghost use Rattle.std.specs.Prelude.{◌≡◌, Option, map, option_map, IfOk};
ghost use Rattle.serde_json.specs.Data.{Data};
ghost use Rattle.serde_json.specs.View.{view, items_view};
ghost use Rattle.session_meaning.specs.SessionText as text;

use crate::members::{list_at, list_or_empty};
use serde_json::Value;
use std::alloc::{AllocError, Global};

/// An item of a list as it stands in the file, borrowed from its tree.
pub(crate) trait Item<'v>: Drop {
    // What it stands for.
    ghost Text: { Type 0 };

    ghost text_of: { Self → Self.Text };

    // How its definition reads a value.
    ghost read_of: { Data → Option Self.Text };

    /// The item that this value is, if it has its shape.
    fn read(alloc: Global, value: &'v Value) -> Result<Option<Self>, AllocError>
        ensures { IfOk result (λ o. option_map Self.text_of o ≡ Self.read_of (view value.now)) };
}

fn read_items<'v, T: Item<'v>>(
    alloc: Global,
    values: &'v [Value],
) -> Result<Option<Vec<T>>, AllocError>
    ensures { IfOk result (λ o. option_map (λ v. map T.text_of v.items) o
        ≡ text.all_items T.read_of (items_view values.now)) }
{
    let mut items = Vec::new(alloc);
    for value in values {
        match T::read(alloc, value)? {
            Some(item) => items.push(item)?,
            None => return Ok(None),
        }
    }
    Ok(Some(items))
}

/// The items of a member that must be there.
pub(crate) fn items_at<'v, T: Item<'v>>(
    alloc: Global,
    value: &'v Value,
    name: &str,
) -> Result<Option<Vec<T>>, AllocError>
    ensures { IfOk result (λ o. option_map (λ v. map T.text_of v.items) o
        ≡ text.needed_list T.read_of name.now (view value.now)) }
{
    match list_at(value, name) {
        Some(values) => read_items(alloc, values),
        None => Ok(None),
    }
}

/// The items of a member that may be left out.
pub(crate) fn items_or_none<'v, T: Item<'v>>(
    alloc: Global,
    value: &'v Value,
    name: &str,
) -> Result<Option<Vec<T>>, AllocError>
    ensures { IfOk result (λ o. option_map (λ v. map T.text_of v.items) o
        ≡ text.given_list T.read_of name.now (view value.now)) }
{
    match list_or_empty(value, name) {
        Some(values) => read_items(alloc, values),
        None => Ok(None),
    }
}
