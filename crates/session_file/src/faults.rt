//! Why a session file gives no plan.

ghost use Rattle.std.specs.Prelude.{◌≡◌, ◌≢◌, Ok, IfOk, IfErr, IsErr, Some};
ghost use Rattle.std.specs.Option.{ForSome};
ghost use Rattle.hex.specs.Hex.{decode_of};
ghost use Rattle.serde_json.specs.Errors.{IsMemory};
ghost use Rattle.grant_registry.specs.Refuses.{Refuses};
ghost use Rattle.session_meaning.specs.declared.fault.SessionList.TheVariants.{Session};
ghost use Rattle.session_meaning.specs.declared.fault.Kind.TheVariants.{Hex, Json};
ghost use Rattle.session_meaning.specs.declared.fault.SessionFault.TheVariants.{Want};
ghost use Rattle.session_meaning.specs.Registry as registry;
ghost use Rattle.session_meaning.specs.SessionFile as file;
ghost use Rattle.session_file.specs.Told.{refusal, Tells};

use hex::FromHexError;
use serde_json::{Category, Error};
use session_meaning::{Kind, RegFault, SessionFault, SessionList};
use std::alloc::Global;

/// What a refusal of the registry is at an entry of a list.
pub(crate) fn at_entry(list: SessionList, place: u32, fault: RegFault) -> SessionFault
    ensures { (a : registry.Answer) → Refuses fault a → Tells result (file.on list place a) }
{
    let kind = match fault {
        RegFault::Limit => Kind::Many,
        RegFault::Name => Kind::Name,
        RegFault::Duplicate => Kind::Duplicate,
        RegFault::Range => Kind::Range,
        RegFault::TooLong => Kind::Long,
        RegFault::UnknownName => Kind::Unknown,
        RegFault::StateBudget => Kind::StateBudget,
        RegFault::PageBudget => Kind::PageBudget,
        _ => return SessionFault::Want,
    };
    SessionFault::Refused { kind, list, place }
}

/// A refusal of the file as a whole.
pub(crate) fn of_file(kind: Kind) -> SessionFault
    ensures { refusal result ≡ Some (file.refused kind Session 0) }
{
    SessionFault::Refused {
        kind,
        list: SessionList::Session,
        place: 0,
    }
}

/// Why a text was not read.
pub(crate) fn unread(e: &Error) -> SessionFault
    ensures memory { IsMemory e.now → result ≡ Want }
    ensures json { result ≢ Want → (refusal result ≡ Some (file.refused Json Session 0)) × (¬ IsMemory e.now) }
{
    match e.classify() {
        Category::Memory => SessionFault::Want,
        _ => of_file(Kind::Json),
    }
}

/// The bytes that an entry gives in digits.
pub(crate) fn hex_bytes(
    alloc: Global,
    list: SessionList,
    place: u32,
    text: &str,
) -> Result<Vec<u8>, SessionFault>
    ensures ok { IfOk result (λ bytes. decode_of text.now ≡ Ok bytes.items) }
    ensures refused { IfErr result (λ e. ForSome (refusal e)
        (λ r. (r ≡ file.refused Hex list place) × IsErr (decode_of text.now))) }
{
    match hex::decode(alloc, text) {
        Ok(bytes) => Ok(bytes),
        Err(FromHexError::OutOfMemory) => Err(SessionFault::Want),
        Err(_) => Err(SessionFault::Refused {
            kind: Kind::Hex,
            list,
            place,
        }),
    }
}
