//! Whole texts: members, numbers, hosts, budgets, and what is no text.

use crate::sessions::{answer, of_file};
use session_meaning::{Kind, SessionFault};
use std::alloc::{AllocError, Global};
use std::test::Fail;

type Row = (&'static [u8], Option<SessionFault>);

#[test]
fn members(rt: HostRuntime) -> Result<(), Fail> {
    let rows: [Row; 11] = [
        (
            b"{\"hosts\":1,\"workers\":1,\"keys\":[],\"functions\":[],\"requests\":[]}",
            None,
        ),
        (
            b"{\"requests\":[],\"functions\":[],\"keys\":[],\"workers\":1,\"hosts\":1}",
            None,
        ),
        (
            b"{\"hosts\":1,\"workers\":1,\"keys\":[],\"functions\":[]}",
            of_file(Kind::Shape),
        ),
        (
            b"{\"hosts\":1,\"workers\":1,\"keys\":[],\"functions\":[],\"requests\":[],\"note\":1}",
            of_file(Kind::Shape),
        ),
        (
            b"{\"hosts\":17,\"workers\":1,\"keys\":[],\"functions\":[],\"requests\":{}}",
            of_file(Kind::Shape),
        ),
        // of a member that stands twice the last one counts
        (
            b"{\"hosts\":\"a\",\"hosts\":1,\"workers\":1,\"keys\":[],\"functions\":[],\"requests\":[]}",
            None,
        ),
        (
            b"{\"hosts\":1,\"hosts\":17,\"workers\":1,\"keys\":[],\"functions\":[],\"requests\":[]}",
            of_file(Kind::Range),
        ),
        (
            b"{\"ho\\u0073ts\":1,\"workers\":1,\"keys\":[],\"functions\":[],\"requests\":[]}",
            None,
        ),
        (b"[]", of_file(Kind::Shape)),
        (
            b"{\"hosts\":17,\"workers\":9,\"keys\":[{\"name\":\"!\",\"size\":1}],\"functions\":[],\"requests\":[]}",
            of_file(Kind::Range),
        ),
        (
            b"{\"hosts\":1,\"workers\":0,\"keys\":[],\"functions\":[],\"requests\":[]}",
            of_file(Kind::Range),
        ),
    ];
    for (text, expected) in &rows {
        assert!(rt; answer(rt.alloc(), *text) == *expected);
    }
    Ok(())
}

/// No other member than the number of hosts.
fn hosts(alloc: Global, number: &str) -> Result<Option<SessionFault>, AllocError> {
    let text = format!(in alloc;
        "{{\"hosts\":{number},\"workers\":1,\"keys\":[],\"functions\":[],\"requests\":[]}}"
    )?;
    Ok(answer(alloc, text.as_bytes()))
}

#[test]
fn numbers(rt: HostRuntime) -> Result<(), Fail> {
    let rows: [(&str, Option<SessionFault>); 11] = [
        ("16", None),
        ("17", of_file(Kind::Range)),
        ("0", of_file(Kind::Range)),
        ("4294967297", of_file(Kind::Range)),
        ("18446744073709551615", of_file(Kind::Range)),
        ("18446744073709551616", of_file(Kind::Shape)),
        ("-1", of_file(Kind::Shape)),
        ("-0", of_file(Kind::Shape)),
        ("1.0", of_file(Kind::Shape)),
        ("1e0", of_file(Kind::Shape)),
        ("1e999", of_file(Kind::Json)),
    ];
    for (number, expected) in &rows {
        assert!(rt; hosts(rt.alloc(), *number)? == *expected);
    }
    Ok(())
}

#[test]
fn budgets(rt: HostRuntime) -> Result<(), Fail> {
    let rows: [Row; 4] = [
        // 16 * (8 * 8 * 1,024 + 1,024) pages, and 4 * (8 * 2 * 64 + 128)
        (
            b"{\"hosts\":16,\"workers\":8,\"keys\":[],\"functions\":[{\"name\":\"f\",\"module\":\"m\",\"quota\":1024}],\"requests\":[]}",
            of_file(Kind::PageBudget),
        ),
        (
            b"{\"hosts\":4,\"workers\":2,\"keys\":[],\"functions\":[{\"name\":\"f\",\"module\":\"m\"},{\"name\":\"g\",\"module\":\"m\"}],\"requests\":[]}",
            None,
        ),
        // (15 + 1) * 2 * 256 pages, and (16 + 1) * 2 * 256
        (
            b"{\"hosts\":15,\"workers\":1,\"keys\":[{\"name\":\"a\",\"size\":16777216},{\"name\":\"b\",\"size\":16777216}],\"functions\":[],\"requests\":[]}",
            None,
        ),
        (
            b"{\"hosts\":16,\"workers\":8,\"keys\":[{\"name\":\"a\",\"size\":16777216},{\"name\":\"b\",\"size\":16777216}],\"functions\":[{\"name\":\"f\",\"module\":\"m\",\"quota\":1024}],\"requests\":[]}",
            of_file(Kind::StateBudget),
        ),
    ];
    for (text, expected) in &rows {
        assert!(rt; answer(rt.alloc(), *text) == *expected);
    }
    Ok(())
}

#[test]
fn no_texts(rt: HostRuntime) -> Result<(), Fail> {
    let rows: [Row; 5] = [
        (b"", of_file(Kind::Json)),
        (
            b"{\"hosts\":1,\"workers\":1,\"keys\":[],\"functions\":[],\"requests\":[]",
            of_file(Kind::Json),
        ),
        (
            b"\xEF\xBB\xBF{\"hosts\":1,\"workers\":1,\"keys\":[],\"functions\":[],\"requests\":[]}",
            of_file(Kind::Json),
        ),
        (
            b"{\"hosts\":1,\"workers\":1,\"keys\":[],\"functions\":[],\"requests\":[],\"\xFF\":1}",
            of_file(Kind::Json),
        ),
        (
            b"{\"hosts\":\"\\ud800\",\"hosts\":1,\"workers\":1,\"keys\":[],\"functions\":[],\"requests\":[]}",
            of_file(Kind::Json),
        ),
    ];
    for (text, expected) in &rows {
        assert!(rt; answer(rt.alloc(), *text) == *expected);
    }
    Ok(())
}

/// So many spaces, where nothing else stands.
fn spaces(alloc: Global, count: usize) -> Result<Option<SessionFault>, AllocError> {
    let text = vec![in alloc; b' '; count]?;
    Ok(answer(alloc, &text))
}

#[test]
fn longest(rt: HostRuntime) -> Result<(), Fail> {
    assert!(rt; spaces(rt.alloc(), 8_388_608)? == of_file(Kind::Json));
    assert!(rt; spaces(rt.alloc(), 8_388_609)? == of_file(Kind::Long));
    Ok(())
}
