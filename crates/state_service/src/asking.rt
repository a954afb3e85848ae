//! One operation on the region of a key.
ghost use Rattle.std.specs.Prelude.{◌≡◌, length};
ghost use Rattle.shared_region.specs.Operations.{operation_of};
ghost use Rattle.turn_cell.specs.Cell.{pass_list, pass_number, start_of};
ghost use Rattle.region_tier.specs.Answered.{Told};
ghost use Rattle.region_tier.specs.Tiers.{Goes, cells_of, slots_of};
ghost use Rattle.state_service.specs.Asked.{asked_operation, is_carrying};
ghost use Rattle.state_service.specs.May.{Carries, MayAsk};

use faaslet_meaning::{AskOp, RegionOp, Reply};
use region_tier::{Passes, Tier};
use std::sync::Wait;

/// The operation is made in a turn of the key. What it carries is read from the scratch, and what it reads is written there.
pub(crate) fn ask_region<R: Wait>(
    rt: &R,
    tier: &Tier,
    passes: &mut Passes,
    key: u32,
    op: AskOp,
    scratch: &mut [u8],
) -> Reply
    requires { MayAsk (cells_of tier.now) (slots_of passes.old) key op scratch.old }
    ensures { Goes (cells_of tier.now) (slots_of passes.old) (slots_of passes.new) key (λ t p q.
        Told (start_of t) (pass_number p) (asked_operation op scratch.old) (pass_list p) (pass_list q) result scratch.old scratch.new) }
{
    if carries(op) {
        let carried = operation(op, scratch);
        tier.access(rt, passes, key, &carried, &mut [])
    } else {
        let plain = operation(op, &[]);
        tier.access(rt, passes, key, &plain, scratch)
    }
}

// Whether bytes go along.
fn carries(op: AskOp) -> bool
    ensures { result ≡ is_carrying op }
{
    matches!(op, AskOp::Write { .. } | AskOp::Append { .. })
}

// The operation with the bytes that go along, which are the first of these.
fn operation(op: AskOp, bytes: &[u8]) -> RegionOp<'_>
    requires { Carries op (length bytes.now) }
    ensures { operation_of result ≡ asked_operation op bytes.now }
{
    match op {
        AskOp::Probe => RegionOp::Probe,
        AskOp::Read { off, len } => RegionOp::Read { off, len },
        AskOp::Write { off, len } => RegionOp::Write {
            off,
            bytes: &bytes[..len as usize],
        },
        AskOp::Append { len } => RegionOp::Append {
            bytes: &bytes[..len as usize],
        },
        AskOp::Size => RegionOp::Size,
        AskOp::LockRead => RegionOp::LockRead,
        AskOp::LockWrite => RegionOp::LockWrite,
        AskOp::Unlock => RegionOp::Unlock,
    }
}
