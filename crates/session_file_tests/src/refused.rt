//! Refusals of entries: each kind, at its place, and which of two comes first.

use crate::sessions::{answer, at, of_file, session};
use session_meaning::SessionList::{Functions, Keys, Requests};
use session_meaning::{Kind, SessionFault};
use std::alloc::{AllocError, Global};
use std::test::Fail;

const K: &str = r#"{"name":"k","size":1}"#;

const F: &str = r#"{"name":"f","module":"m"}"#;

const TWO_GRANTS: &str =
    r#"{"name":"f","module":"m","grants":[{"key":"k","mode":"read"},{"key":"k","mode":"write"}]}"#;

type Row = (
    &'static str,
    &'static str,
    &'static str,
    Option<SessionFault>,
);

fn holds(alloc: Global, row: &Row) -> Result<bool, AllocError> {
    let text = session(alloc, row.0, row.1, row.2)?;
    Ok(answer(alloc, text.as_bytes()) == row.3)
}

#[test]
fn keys(rt: HostRuntime) -> Result<(), Fail> {
    let rows: [Row; 12] = [
        (K, "", "", None),
        (
            r#"{"name":"k","size":1},{"name":"k","size":0,"init":"00"}"#,
            "",
            "",
            at(Kind::Duplicate, Keys, 1),
        ),
        (r#"{"name":"!","size":0}"#, "", "", at(Kind::Name, Keys, 0)),
        (
            r#"{"name":"k","size":0,"init":"00"}"#,
            "",
            "",
            at(Kind::Range, Keys, 0),
        ),
        (
            r#"{"name":"k","size":16777217}"#,
            "",
            "",
            at(Kind::Range, Keys, 0),
        ),
        (
            r#"{"name":"k","size":4294967297}"#,
            "",
            "",
            at(Kind::Range, Keys, 0),
        ),
        (
            r#"{"name":"k","size":18446744073709551615}"#,
            "",
            "",
            at(Kind::Range, Keys, 0),
        ),
        (
            r#"{"name":"k","size":1,"init":"aBCd"}"#,
            "",
            "",
            at(Kind::Long, Keys, 0),
        ),
        (
            r#"{"name":"!","size":1,"init":"0g"}"#,
            "",
            "",
            at(Kind::Hex, Keys, 0),
        ),
        (
            r#"{"name":"k","size":1,"init":"0"}"#,
            "",
            "",
            at(Kind::Hex, Keys, 0),
        ),
        (
            r#"{"name":"k","size":1},{"name":"l","size":0}"#,
            r#"{"name":"!","module":"m"}"#,
            "",
            at(Kind::Range, Keys, 1),
        ),
        (
            r#"{"name":"k","size":1,"more":1}"#,
            "",
            "",
            of_file(Kind::Shape),
        ),
    ];
    for row in &rows {
        assert!(rt; holds(rt.alloc(), row)?);
    }
    Ok(())
}

#[test]
fn functions(rt: HostRuntime) -> Result<(), Fail> {
    let rows: [Row; 17] = [
        ("", F, "", None),
        (
            "",
            r#"{"name":"","module":"m","quota":0}"#,
            "",
            at(Kind::Name, Functions, 0),
        ),
        (
            "",
            r#"{"name":"f","module":"m","quota":0}"#,
            "",
            at(Kind::Range, Functions, 0),
        ),
        (
            "",
            r#"{"name":"f","module":"m","quota":4294967360}"#,
            "",
            at(Kind::Range, Functions, 0),
        ),
        (
            "",
            r#"{"name":"f","module":"m","fuel":1099511627776}"#,
            "",
            None,
        ),
        (
            "",
            r#"{"name":"f","module":"m","fuel":1099511627777}"#,
            "",
            at(Kind::Range, Functions, 0),
        ),
        (
            "",
            r#"{"name":"f","module":"m","output":65537}"#,
            "",
            at(Kind::Range, Functions, 0),
        ),
        (
            "",
            r#"{"name":"f","module":"m","output":4294967296}"#,
            "",
            at(Kind::Range, Functions, 0),
        ),
        (K, TWO_GRANTS, "", at(Kind::Duplicate, Functions, 0)),
        ("", TWO_GRANTS, "", at(Kind::Unknown, Functions, 0)),
        (
            "",
            r#"{"name":"f","module":"m"},{"name":"g","module":"m","calls":["h"]}"#,
            "",
            at(Kind::Unknown, Functions, 1),
        ),
        (
            "",
            r#"{"name":"f","module":"m","calls":["g","f","g"]},{"name":"g","module":"m"}"#,
            "",
            at(Kind::Duplicate, Functions, 0),
        ),
        (
            "",
            r#"{"name":"f","module":"m","grants":[{"key":"k","mode":"read"}]},{"name":"f","module":"m"}"#,
            "",
            at(Kind::Duplicate, Functions, 1),
        ),
        (
            K,
            r#"{"name":"f","module":"m","grants":[{"key":"k","mode":"Read"}]}"#,
            "",
            of_file(Kind::Shape),
        ),
        (
            K,
            r#"{"name":"f","module":"m","grants":[{"key":"k"}]}"#,
            "",
            of_file(Kind::Shape),
        ),
        (
            "",
            r#"{"name":"f","module":"m","calls":[1]}"#,
            "",
            of_file(Kind::Shape),
        ),
        ("", r#"{"name":"f"}"#, "", of_file(Kind::Shape)),
    ];
    for row in &rows {
        assert!(rt; holds(rt.alloc(), row)?);
    }
    Ok(())
}

#[test]
fn requests(rt: HostRuntime) -> Result<(), Fail> {
    let rows: [Row; 10] = [
        ("", F, r#"{"label":"a","function":"f"}"#, None),
        (
            "",
            F,
            r#"{"label":"a","function":"f","input":"0g"}"#,
            at(Kind::Hex, Requests, 0),
        ),
        (
            "",
            F,
            r#"{"label":"a","function":"f"},{"label":"b","function":"f","input":"000"}"#,
            at(Kind::Hex, Requests, 1),
        ),
        (
            "",
            F,
            r#"{"label":"a b","function":"g"}"#,
            at(Kind::Name, Requests, 0),
        ),
        (
            "",
            F,
            r#"{"label":"a","function":"f"},{"label":"a","function":"g"}"#,
            at(Kind::Duplicate, Requests, 1),
        ),
        (
            "",
            F,
            r#"{"label":"a","function":"g","host":1}"#,
            at(Kind::Unknown, Requests, 0),
        ),
        (
            "",
            F,
            r#"{"label":"a","function":"f","host":1}"#,
            at(Kind::Range, Requests, 0),
        ),
        (
            "",
            F,
            r#"{"label":"a","function":"f","host":4294967296}"#,
            at(Kind::Range, Requests, 0),
        ),
        (
            "",
            r#"{"name":"f","module":"m","calls":["z"]}"#,
            r#"{"label":"a","function":"z"}"#,
            at(Kind::Unknown, Functions, 0),
        ),
        (
            "",
            F,
            r#"{"label":"a","function":"f","host":"0"}"#,
            of_file(Kind::Shape),
        ),
    ];
    for row in &rows {
        assert!(rt; holds(rt.alloc(), row)?);
    }
    Ok(())
}

/// So many entries, each with its number in its name.
fn keys_of(alloc: Global, count: u32) -> Result<String, AllocError> {
    let mut keys = String::new(alloc);
    for k in 0..count {
        if k > 0 {
            keys.push(',')?;
        }
        let key = format!(in alloc; "{{\"name\":\"k{k}\",\"size\":1}}")?;
        keys.push_str(&key)?;
    }
    Ok(keys)
}

fn with_keys(alloc: Global, count: u32) -> Result<Option<SessionFault>, AllocError> {
    let text = session(alloc, &keys_of(alloc, count)?, "", "")?;
    Ok(answer(alloc, text.as_bytes()))
}

#[test]
fn too_many_keys(rt: HostRuntime) -> Result<(), Fail> {
    assert!(rt; with_keys(rt.alloc(), 64)? == None);
    assert!(rt; with_keys(rt.alloc(), 66)? == at(Kind::Many, Keys, 64));
    Ok(())
}
