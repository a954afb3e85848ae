//! Who blocks whom, by hand from the table of operations.

use state_locks::{Blocked, LockKind, LockState};
use std::test::Fail;

/// Whether each maker is blocked by this holder at this kind.
fn blocks(locks: &LockState, cases: &[(u32, LockKind, Option<u32>)]) -> bool {
    cases
        .iter()
        .all(|case| locks.blocked_by(case.0, case.1) == case.2)
}

#[test]
fn the_least_other_holder_blocks(rt: HostRuntime) -> Result<(), Fail> {
    let mut locks = LockState::new(rt.alloc(), 2)?;
    assert!(rt;
        blocks(
            &locks,
            &[(1, LockKind::Reads, None), (1, LockKind::Writes, None)]
        )
    );
    assert!(rt; locks.lock_read(5).is_ok());
    assert!(rt; locks.lock_read(3).is_ok());
    assert!(rt;
        blocks(
            &locks,
            &[
                (1, LockKind::Reads, None),
                (1, LockKind::Writes, Some(3)),
                (3, LockKind::Writes, Some(5)),
                (5, LockKind::Writes, Some(3)),
            ]
        )
    );
    assert!(rt; locks.lock_write(4) == Err(Blocked { holder: 3 }));
    locks.unlock(3);
    locks.unlock(5);
    assert!(rt; locks.lock_write(4).is_ok());
    locks.reserve(9)?;
    assert!(rt;
        blocks(
            &locks,
            &[
                (1, LockKind::Reads, Some(4)),
                (1, LockKind::Writes, Some(4)),
                (4, LockKind::Reads, None),
                (4, LockKind::Writes, None),
            ]
        )
    );
    assert!(rt; locks.lock_read(1) == Err(Blocked { holder: 4 }));
    Ok(())
}
