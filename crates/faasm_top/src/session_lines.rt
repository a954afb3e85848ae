//! The lines of sessions that are refused.

ghost use Rattle.std.specs.Prelude.{◌≡◌, IfOk};
ghost use Rattle.std.specs.String.{string_bytes};
ghost use Rattle.session_meaning.specs.RefusalLines as lines;
ghost use Rattle.session_meaning.specs.SessionFile as answers;

use session_meaning::{Kind, SessionList};
use std::alloc::{AllocError, Global};

fn kind_text(kind: Kind) -> &'static str
    ensures { result.now ≡ lines.kind_text kind }
{
    match kind {
        Kind::Long => "long",
        Kind::Json => "json",
        Kind::Shape => "shape",
        Kind::Many => "many",
        Kind::Name => "name",
        Kind::Duplicate => "duplicate",
        Kind::Range => "range",
        Kind::Unknown => "unknown",
        Kind::StateBudget => "state-budget",
        Kind::PageBudget => "page-budget",
        Kind::Hex => "hex",
    }
}

fn list_text(list: SessionList) -> &'static str
    ensures { result.now ≡ lines.list_text list }
{
    match list {
        SessionList::Keys => "keys",
        SessionList::Functions => "functions",
        SessionList::Requests => "requests",
        SessionList::Session => "session",
    }
}

/// A session file that is refused, for its entry at a place of a list.
pub fn refused_line(
    alloc: Global,
    kind: Kind,
    list: SessionList,
    place: u32,
) -> Result<String, AllocError>
    ensures { IfOk result (λ l. string_bytes l ≡ lines.refused_line (answers.refused kind list place)) }
{
    let kind = kind_text(kind);
    let list = list_text(list);
    format!(in alloc; "session {kind} {list} {place}\n")
}

/// A function whose module is refused by this line.
pub fn function_line(alloc: Global, name: &str, refusal: &str) -> Result<String, AllocError>
    ensures { IfOk result (λ l. string_bytes l ≡ lines.function_line name.now refusal.now) }
{
    Ok(format!(in alloc; "function {name} {refusal}")?)
}

/// The function at whose module the modules have too many bytes together.
pub fn modules_line(alloc: Global, place: u32) -> Result<String, AllocError>
    ensures { IfOk result (λ l. string_bytes l ≡ lines.modules_line place) }
{
    format!(in alloc; "session module-budget functions {place}\n")
}
