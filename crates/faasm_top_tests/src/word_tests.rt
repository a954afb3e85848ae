use crate::tests::{ANSWER, DONE, NOT_BUILT, answered, owned};
use faaslet_meaning::Items;
use faasm_top::*;
use std::test::Fail;

const USAGE: &str =
    "usage: faasm check FILE | call FILE INPUTHEX FUEL | trace SESSION SEED | run SESSION | load N\n";

#[test]
fn words_give_line_and_status(rt: HostRuntime) -> Result<(), Fail> {
    let rows: [(&[&str], usize, u8, &str); 31] = [
        (&["call", "m.wasm", "0aFf", "1"], 100, 0, DONE),
        (&["call", "m.wasm", "", "1099511627776"], 100, 0, DONE),
        (&["call", "absent", "", "10"], 100, 4, "read fault\n"),
        (&["call", "m.wasm", "0aF", "10"], 100, 2, USAGE),
        (&["call", "m.wasm", "0g", "10"], 100, 2, USAGE),
        (&["call", "m.wasm", "", "0"], 100, 2, USAGE),
        (&["call", "m.wasm", "", "010"], 100, 2, USAGE),
        (&["call", "m.wasm", "", "+10"], 100, 2, USAGE),
        (&["call", "m.wasm", "", "1099511627777"], 100, 2, USAGE),
        (&["call", "m.wasm", ""], 100, 2, USAGE),
        (&["Call", "m.wasm", "", "10"], 100, 2, USAGE),
        (&[], 100, 2, USAGE),
        (&["--help"], 100, 2, USAGE),
        (&["--version"], 100, 2, USAGE),
        (&["call", "m.wasm", "", "10", ""], 100, 2, USAGE),
        (&["check", "m.wasm"], 100, 0, "valid\n"),
        (&["check", "absent"], 100, 4, "read fault\n"),
        (&["check"], 100, 2, USAGE),
        (&["trace", "absent", "0"], 100, 4, "read fault\n"),
        (
            &["trace", "m.wasm", "18446744073709551615"],
            100,
            3,
            "session json session 0\n",
        ),
        (&["trace", "absent", "18446744073709551616"], 100, 2, USAGE),
        (&["trace", "absent", "00"], 100, 2, USAGE),
        (&["run", "absent"], 100, 3, NOT_BUILT),
        (&["load", "1"], 100, 3, NOT_BUILT),
        (&["load", "1024"], 100, 3, NOT_BUILT),
        (&["load", "1025"], 100, 2, USAGE),
        (&["load", "0"], 100, 2, USAGE),
        (&["call", "m.wasm", "", "10"], 9, 5, "call done"),
        (&["call", "absent", "", "10"], 0, 5, ""),
        (&["check", "m.wasm"], 3, 5, "val"),
        (&["help", "m.wasm"], 5, 5, "usage"),
    ];
    for (words, room, status, line) in rows {
        let (answer, written) = answered(rt.alloc(), words, &ANSWER, room)?;
        assert_eq!(rt; written.as_slice(), line.as_bytes(), "{words:?}");
        assert_eq!(rt; answer, status, "{words:?}");
    }
    Ok(())
}

#[test]
fn reads_commands(rt: HostRuntime) -> Result<(), Fail> {
    let alloc = rt.alloc();
    let words = owned(alloc, &["call", "m.wasm", "0aFf", "7"])?;
    let input = Items::of(Vec::from_slice(alloc, &[0x0A, 0xFF])?);
    assert_eq!(rt;
        read_words(alloc, &words)?,
        Command::Call {
            file: "m.wasm",
            input,
            fuel: 7
        }
    );
    let words = owned(alloc, &["trace", "s", "0"])?;
    assert_eq!(rt;
        read_words(alloc, &words)?,
        Command::Trace { file: "s", seed: 0 }
    );
    let words = owned(alloc, &["load", "1000"])?;
    assert_eq!(rt; read_words(alloc, &words)?, Command::Load { count: 1000 });
    let words = owned(alloc, &["check", ""])?;
    assert_eq!(rt; read_words(alloc, &words)?, Command::Check { file: "" });
    let words = owned(alloc, &["run", "s"])?;
    assert_eq!(rt; read_words(alloc, &words)?, Command::Run { file: "s" });
    Ok(())
}
