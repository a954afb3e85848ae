//! Sessions that `trace` refuses, and some that it runs.

use crate::tests::{ANSWER, TYPES, owned};
use fa_outside::{FailShelf, MemShelf, MemSink};
use faasm_top::answer;
use std::alloc::{AllocError, Global};
use std::test::Fail;

const EMPTY: &str = r#"{"hosts":1,"workers":1,"keys":[],"functions":[],"requests":[]}"#;

const FAULT: &str = "read fault\n";

/// A session, and the text and the status that are due to `trace`.
const ROWS: [(&str, &str, &str, u8); 24] = [
    ("nothing", EMPTY, "", 0),
    (
        "a brace is missing",
        r#"{"hosts":1,"workers":1,"keys":[],"functions":[],"requests":[]"#,
        "session json session 0\n",
        3,
    ),
    (
        "another member",
        r#"{"hosts":1,"workers":1,"keys":[],"functions":[],"requests":[],"x":1}"#,
        "session shape session 0\n",
        3,
    ),
    (
        "17 hosts",
        r#"{"hosts":17,"workers":1,"keys":[],"functions":[],"requests":[]}"#,
        "session range session 0\n",
        3,
    ),
    (
        "two keys of one name",
        r#"{"hosts":1,"workers":1,"keys":[{"name":"k","size":1},{"name":"k","size":1}],"functions":[],"requests":[]}"#,
        "session duplicate keys 1\n",
        3,
    ),
    (
        "a key without a name",
        r#"{"hosts":1,"workers":1,"keys":[{"name":"","size":1}],"functions":[],"requests":[]}"#,
        "session name keys 0\n",
        3,
    ),
    (
        "two bytes in a key of one",
        r#"{"hosts":1,"workers":1,"keys":[{"name":"k","size":1,"init":"0102"}],"functions":[],"requests":[]}"#,
        "session long keys 0\n",
        3,
    ),
    (
        "two large keys at 16 hosts",
        r#"{"hosts":16,"workers":1,"keys":[{"name":"a","size":16777216},{"name":"b","size":16777216}],"functions":[],"requests":[]}"#,
        "session state-budget session 0\n",
        3,
    ),
    (
        "a grant of a key that is not there",
        r#"{"hosts":1,"workers":1,"keys":[],"functions":[{"name":"f","module":"answer","grants":[{"key":"z","mode":"read"}]}],"requests":[]}"#,
        "session unknown functions 0\n",
        3,
    ),
    (
        "a key granted twice",
        r#"{"hosts":1,"workers":1,"keys":[{"name":"k","size":1}],"functions":[{"name":"f","module":"absent","grants":[{"key":"k","mode":"read"},{"key":"k","mode":"write"}]}],"requests":[]}"#,
        "session duplicate functions 0\n",
        3,
    ),
    (
        "no hexadecimal digits",
        r#"{"hosts":1,"workers":1,"keys":[],"functions":[{"name":"f","module":"answer"}],"requests":[{"label":"r","function":"f","input":"0g"}]}"#,
        "session hex requests 0\n",
        3,
    ),
    (
        "pages of 128 workers",
        r#"{"hosts":16,"workers":8,"keys":[],"functions":[{"name":"f","module":"answer","quota":1024}],"requests":[]}"#,
        "session page-budget session 0\n",
        3,
    ),
    (
        "two functions with the usual quota",
        r#"{"hosts":4,"workers":2,"keys":[],"functions":[{"name":"f","module":"answer"},{"name":"g","module":"answer"}],"requests":[{"label":"r","function":"g","host":3}]}"#,
        "r done 42 used 1 output \n",
        0,
    ),
    (
        "grants, calls and input",
        r#"{"hosts":1,"workers":1,"keys":[{"name":"k","size":2,"init":"0102"}],"functions":[{"name":"f","module":"answer","fuel":9,"output":0,"grants":[{"key":"k","mode":"write"}],"calls":["f"]}],"requests":[{"label":"r","function":"f","input":"0a"}]}"#,
        "r done 42 used 1 output \nstate k 0102\n",
        0,
    ),
    (
        "a module that is not there",
        r#"{"hosts":1,"workers":1,"keys":[],"functions":[{"name":"f","module":"absent"}],"requests":[]}"#,
        FAULT,
        4,
    ),
    (
        "no module",
        r#"{"hosts":1,"workers":1,"keys":[],"functions":[{"name":"f","module":"session"}],"requests":[]}"#,
        "function f malformed\n",
        3,
    ),
    (
        "a module without exports",
        r#"{"hosts":1,"workers":1,"keys":[],"functions":[{"name":"f","module":"bare"}],"requests":[]}"#,
        "function f no main\n",
        3,
    ),
    (
        "a module that imports from elsewhere",
        r#"{"hosts":1,"workers":1,"keys":[],"functions":[{"name":"f","module":"elsewhere"}],"requests":[]}"#,
        "function f bad import 0\n",
        3,
    ),
    (
        "a body that is untyped",
        r#"{"hosts":1,"workers":1,"keys":[],"functions":[{"name":"f","module":"untyped"}],"requests":[]}"#,
        "function f invalid function 0\n",
        3,
    ),
    (
        "the second of two modules",
        r#"{"hosts":1,"workers":1,"keys":[],"functions":[{"name":"f","module":"answer"},{"name":"g-2","module":"bare"}],"requests":[]}"#,
        "function g-2 no main\n",
        3,
    ),
    (
        "two modules, the first is told",
        r#"{"hosts":1,"workers":1,"keys":[],"functions":[{"name":"f","module":"bare"},{"name":"g","module":"session"}],"requests":[]}"#,
        "function f no main\n",
        3,
    ),
    (
        "a refusal before a module that is not there",
        r#"{"hosts":1,"workers":1,"keys":[],"functions":[{"name":"f","module":"bare"},{"name":"g","module":"absent"}],"requests":[]}"#,
        "function f no main\n",
        3,
    ),
    (
        "a module that is not there before a refusal",
        r#"{"hosts":1,"workers":1,"keys":[],"functions":[{"name":"f","module":"absent"},{"name":"g","module":"bare"}],"requests":[]}"#,
        FAULT,
        4,
    ),
    (
        "the file before the modules",
        r#"{"hosts":1,"workers":1,"keys":[],"functions":[{"name":"f","module":"absent"}],"requests":[{"label":"r","function":"g"}]}"#,
        "session unknown requests 0\n",
        3,
    ),
];

/// The module of 42 with other sections behind its types.
fn module(alloc: Global, sections: &str) -> Result<Vec<u8>, AllocError> {
    let mut bytes = Vec::from_slice(alloc, &ANSWER[..TYPES])?;
    match hex::decode(alloc, sections) {
        Ok(sections) => bytes.extend_from_slice(&sections)?,
        Err(_) => return Err(AllocError),
    }
    Ok(bytes)
}

/// The module of 42 with a section behind it, so that it has as many bytes as a module may have.
fn largest(alloc: Global) -> Result<Vec<u8>, AllocError> {
    let mut bytes = Vec::from_slice(alloc, &ANSWER)?;
    bytes.extend_from_slice(&[0x00, 0xD6, 0xFF, 0xFF, 0x01])?;
    bytes.extend_from_slice(&vec![in alloc; 0; 4_194_262]?)?;
    Ok(bytes)
}

/// A session file and the modules that the rows name.
fn shelf_files(alloc: Global, session: &[u8]) -> Result<Vec<(String, Vec<u8>)>, AllocError> {
    let mut files = Vec::new(alloc);
    let modules = [
        ("session", Vec::from_slice(alloc, session)?),
        ("answer", Vec::from_slice(alloc, &ANSWER)?),
        (
            "bare",
            module(alloc, "0105016000017f030201000a06010400412a0b")?,
        ),
        (
            "elsewhere",
            module(alloc, "0105016000017f02090103656e7601660000")?,
        ),
        (
            "untyped",
            module(alloc, "0105016000017f030201000a050103006a0b")?,
        ),
    ];
    for (name, bytes) in modules {
        files.push((String::from_str(alloc, name)?, bytes))?;
    }
    Ok(files)
}

#[test]
fn sessions_are_refused(rt: HostRuntime) -> Result<(), Fail> {
    let alloc = rt.alloc();
    let words = owned(alloc, &["trace", "session", "1"])?;
    for (name, session, line, status) in ROWS {
        let mut shelf = MemShelf::new(shelf_files(alloc, session.as_bytes())?);
        let mut out = MemSink::with_room(alloc, 100)?;
        assert_eq!(rt;
            answer(alloc, &words, &mut shelf, &mut out),
            status,
            "{name}"
        );
        assert_eq!(rt; out.bytes(), line.as_bytes(), "{name}");
    }
    Ok(())
}

#[test]
fn files_of_a_session_are_long(rt: HostRuntime) -> Result<(), Fail> {
    let alloc = rt.alloc();
    let words = owned(alloc, &["trace", "session", "1"])?;
    let most = largest(alloc)?;
    let over = vec![in alloc; 0; 4_194_305]?;
    let four =
        r#"{"hosts":1,"workers":1,"keys":[],"functions":[{"name":"a","module":"most"},{"name":"b","module":"most"},{"name":"c","module":"most"},{"name":"d","module":"most"}],"requests":[]}"#;
    let five =
        r#"{"hosts":1,"workers":1,"keys":[],"functions":[{"name":"a","module":"most"},{"name":"b","module":"most"},{"name":"c","module":"most"},{"name":"d","module":"most"},{"name":"e","module":"bare"}],"requests":[]}"#;
    let long =
        r#"{"hosts":1,"workers":1,"keys":[],"functions":[{"name":"a","module":"over"}],"requests":[]}"#;
    let spaces = vec![in alloc; b' '; 8_388_608]?;
    let more = vec![in alloc; b' '; 8_388_609]?;
    let rows: [(&[u8], &str, u8); 5] = [
        (four.as_bytes(), "", 0),
        (five.as_bytes(), "session module-budget functions 4\n", 3),
        (long.as_bytes(), "function a too long\n", 3),
        (&spaces, "session json session 0\n", 3),
        (&more, "session long session 0\n", 3),
    ];
    for (session, line, status) in rows {
        let mut files = shelf_files(alloc, session)?;
        files.push((
            String::from_str(alloc, "most")?,
            Vec::from_slice(alloc, &most)?,
        ))?;
        files.push((
            String::from_str(alloc, "over")?,
            Vec::from_slice(alloc, &over)?,
        ))?;
        let mut shelf = MemShelf::new(files);
        let mut out = MemSink::with_room(alloc, 100)?;
        assert_eq!(rt;
            answer(alloc, &words, &mut shelf, &mut out),
            status,
            "{line}"
        );
        assert_eq!(rt; out.bytes(), line.as_bytes());
    }
    Ok(())
}

#[test]
fn the_shelf_fails_in_the_midst(rt: HostRuntime) -> Result<(), Fail> {
    let alloc = rt.alloc();
    let words = owned(alloc, &["trace", "session", "1"])?;
    let session =
        r#"{"hosts":1,"workers":1,"keys":[],"functions":[{"name":"f","module":"answer"},{"name":"g","module":"answer"}],"requests":[]}"#;
    // Each of the three files is opened, read, and read to its end.
    for call in 0..10u32 {
        let inner = MemShelf::new(shelf_files(alloc, session.as_bytes())?);
        let mut shelf = FailShelf::new(inner, Vec::from_slice(alloc, &[call])?);
        let mut out = MemSink::with_room(alloc, 100)?;
        let (line, status) = if call < 9 { (FAULT, 4) } else { ("", 0) };
        assert_eq!(rt;
            answer(alloc, &words, &mut shelf, &mut out),
            status,
            "{call}"
        );
        assert_eq!(rt; out.bytes(), line.as_bytes(), "{call}");
    }
    Ok(())
}
