use super::*;
use call_service::Service;
use faaslet_meaning::{Ask, AskOp, Channel, Outcome, Reply};
use std::test::*;

#[test]
fn each_ask_is_answered(rt: HostRuntime) -> Result<(), Fail> {
    let mut scratch = vec![in rt.alloc(); 7; 65_536]?;
    let asks = [
        Ask::Look { child: 0 },
        Ask::Look { child: 1 },
        Ask::Submit {
            function: 0,
            len: 1,
        },
        Ask::Region {
            channel: Channel::Local(0),
            op: AskOp::Probe,
        },
        Ask::Look { child: 0 },
    ];
    let Some(table) = parent(rt.alloc()) else {
        panic!(rt; "no memory");
    };
    let Some(told) = ask_all(&rt, rt.alloc(), table, &asks, &mut scratch) else {
        panic!(rt; "no memory");
    };
    let finished = Service::Replied(Reply::Finished {
        outcome: Outcome::Done(5),
        len: 2,
    });
    assert!(rt;
        told.as_slice()
            == [
                finished,
                Service::Awaits(2),
                Service::Replied(Reply::Child(2)),
                finished
            ]
            .as_slice()
    );
    assert!(rt; scratch.starts_with(&[8, 9, 7]));
    Ok(())
}
