use super::*;
use std::test::*;

#[test]
fn two_threads_add(rt: HostRuntime) {
    let found = add_in_two(&rt, rt.alloc(), 5, (7, 8), 3);
    let sum = found.map(|(tally, _seen)| tally.count);
    assert!(rt; sum == Some(50));
}

#[test]
fn four_threads_take_ten_thousand_turns(rt: HostRuntime) {
    let sum = add_in_four(&rt, rt.alloc(), 3, 2_500).map(|tally| tally.count);
    assert!(rt; sum == Some(30_000));
}

#[test]
fn two_threads_look(rt: HostRuntime) {
    let count = look_in_two(&rt, rt.alloc(), 9).map(|tally| tally.count);
    assert!(rt; count == Some(9));
}

#[test]
fn one_pass_call_by_call(rt: HostRuntime) {
    let found = alone(&rt, rt.alloc(), 30, 12);
    let parts = found.map(|f| (f.number, f.at_turn, f.last.count));
    assert!(rt; parts == Some((0, 42, 42)));
}

#[test]
fn a_line_is_written(rt: HostRuntime) {
    let found = one_line(&rt, rt.alloc(), 6);
    let written = found.map(|(journal, done)| done && journal.lines() == [6].as_slice());
    assert!(rt; written == Some(true));
}
