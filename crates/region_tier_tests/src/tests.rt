use super::*;
use faaslet_meaning::Reply;
use std::test::*;

#[test]
fn one_maker_appends(rt: HostRuntime) {
    let found = append_alone(&rt, rt.alloc(), [7, 8].as_slice());
    let right = found.map(|(reply, region)| {
        reply == Reply::Number(0)
            && region.used() == 2
            && region.bytes()[0] == 7
            && region.bytes()[1] == 8
    });
    assert!(rt; right == Some(true));
}

#[test]
fn one_maker_looks(rt: HostRuntime) {
    let found = look_alone(&rt, rt.alloc());
    let right = found.map(|(present, region)| !present && region.size() == 4 && region.used() == 0);
    assert!(rt; right == Some(true));
}

#[test]
fn the_first_maker_is_told_what_the_second_read(rt: HostRuntime) {
    let Some(
        Told {
            tier,
            room,
            passes,
            read,
        },
    ) = write_read_tell(&rt, rt.alloc())
    else {
        panic!(rt; "no memory");
    };
    shared(&tier);
    let mut ends = tier.close(room, passes);
    let found = ends
        .pop()
        .and_then(|(region, _list)| region.bytes().first().copied());
    assert!(rt; read == 7 && found == Some(7));
}
