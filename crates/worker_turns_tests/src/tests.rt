use super::*;
use faaslet_meaning::{Outcome, Reply};
use std::test::*;

#[test]
fn two_requests_are_served(rt: HostRuntime) -> Result<(), Fail> {
    let mut input = vec![in rt.alloc(); 0; 65_536]?;
    let Some((came, table)) = run(&rt, rt.alloc(), &mut input) else {
        panic!(rt; "no memory");
    };
    let expected = Came {
        requested: (0, 1),
        taken: (0, 1),
        unfinished: 0,
    };
    assert!(rt; came == expected);
    assert!(rt; input.starts_with(&[8, 9]));
    if table.calls() < 2 || input.len() < 65_536 {
        panic!(rt; "a call is missing");
    }
    let second = Reply::Finished {
        outcome: Outcome::Done(5),
        len: 2,
    };
    assert!(rt; table.look(1, &mut input) == Ok(second));
    assert!(rt; input.starts_with(&[3, 4]));
    Ok(())
}
