ghost use Rattle.std.specs.Prelude.{◌≡◌, IfOk};

use crate::{HostLoads, place};
use faaslet_meaning::{Counts, Pairs};
use std::alloc::{AllocError, Global};
use std::test::Fail;

/// Calls queued at three hosts.
fn loads(alloc: Global, queued: [u64; 3], warm: [(u32, u32); 3]) -> Result<HostLoads, AllocError>
    ensures { IfOk result (λ l. (l.queued ≡ queued) × (l.warm ≡ warm)) }
{
    Ok(HostLoads {
        queued: Counts::of(Vec::from_array(alloc, queued)?),
        warm: Pairs::of(Vec::from_array(alloc, warm)?),
    })
}

#[test]
fn rows(rt: HostRuntime) -> Result<(), Fail> {
    let everywhere = [(4, 0), (4, 1), (4, 2)];
    let nowhere = [(5, 0), (3, 1), (2, 2)];
    let ties = loads(rt.alloc(), [8, 3, 3], everywhere)?;
    let cold = loads(rt.alloc(), [8, 3, 3], nowhere)?;
    let short = loads(rt.alloc(), [7, 0, 0], everywhere)?;
    assert!(rt; place(&ties, 4, 0) == 1);
    assert!(rt; place(&cold, 4, 2) == 2);
    assert!(rt; place(&short, 4, 0) == 0);
    Ok(())
}
