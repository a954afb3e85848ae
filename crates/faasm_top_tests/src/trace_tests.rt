//! Sessions that `trace` runs, each under several seeds.

use crate::tests::owned;
use fa_outside::{FailSink, MemShelf, MemSink};
use faasm_top::answer;
use std::alloc::{AllocError, Global};
use std::test::Fail;

/// The modules that the sessions name, behind their first eight bytes.
const MODULES: [(&str, &str); 9] = [
    (
        "span",
        "010a0260017f017f6000017f02130105666161736d096765745f73746174650000030201010503010001070801046d61696e00010a14011200410010001a41fcff03290000422088a70b",
    ),
    (
        "grow",
        "0105016000017f030201000503010001070801046d61696e00000a1201100041024000410140006a410040006a0b",
    ),
    (
        "write",
        "010a0260017f017f6000017f02130105666161736d096765745f73746174650000030201010503010001070801046d61696e00010a0f010d004100100041013a000041000b",
    ),
    (
        "append",
        "010c0260037f7f7f017f6000017f02160105666161736d0c617070656e645f73746174650000030201010503010001070801046d61696e00010a1501130041004100410410001a41004100410110000b0b0a010041000b0461626364",
    ),
    (
        "hold",
        "01090260017f006000017f021b0105666161736d116c6f636b5f676c6f62616c5f77726974650000030201010503010001070801046d61696e00010a0901070041001000000b",
    ),
    (
        "lock",
        "01090260017f006000017f02310205666161736d116c6f636b5f676c6f62616c5f7772697465000005666161736d0d756e6c6f636b5f676c6f62616c0000030201010503010001070801046d61696e00020a0e010c00410010004100100141000b",
    ),
    (
        "mother",
        "01150460017f0060037f7f7f017f60017f017e6000017f02410305666161736d116c6f636b5f676c6f62616c5f7772697465000005666161736d0a636861696e5f63616c6c000105666161736d0a61776169745f63616c6c0002030201030503010001070801046d61696e00030a130111004100100041004100410010011002a70b",
    ),
    (
        "pair",
        "01110360037f7f7f017f60017f017e6000017f02270205666161736d0a636861696e5f63616c6c000005666161736d0a61776169745f63616c6c0001030201020503010001070801046d61696e00020a21011f0041004100410010001a41004100410010001a41001001a741011001a76a0b",
    ),
    (
        "child",
        "0105016000017f030201000503010001070801046d61696e00000a0601040041150b",
    ),
];

/// A session, and the text and the status that are due to `trace` under any seed.
const ROWS: [(&str, &str, &str, u8); 9] = [
    (
        "private and mapped bytes in one load",
        r#"{"hosts":1,"workers":1,"keys":[{"name":"k","size":8,"init":"0807060504030201"}],"functions":[{"name":"f","module":"span","grants":[{"key":"k","mode":"read"}]}],"requests":[{"label":"s","function":"f"}]}"#,
        "s done 84281096 used 8 output \nstate k 0807060504030201\n",
        0,
    ),
    (
        "a quota of three pages",
        r#"{"hosts":1,"workers":1,"keys":[],"functions":[{"name":"f","module":"grow","quota":3}],"requests":[{"label":"g","function":"f"}]}"#,
        "g done 3 used 8 output \n",
        0,
    ),
    (
        "a store where reading is granted",
        r#"{"hosts":1,"workers":1,"keys":[{"name":"k","size":1,"init":"00"}],"functions":[{"name":"f","module":"write","grants":[{"key":"k","mode":"read"}]}],"requests":[{"label":"w","function":"f"}]}"#,
        "w trap denied used 4\nstate k 00\n",
        1,
    ),
    (
        "a full log",
        r#"{"hosts":1,"workers":1,"keys":[{"name":"log","size":4}],"functions":[{"name":"f","module":"append","grants":[{"key":"log","mode":"write"}]}],"requests":[{"label":"p","function":"f"}]}"#,
        "p trap append full used 9\nstate log 61626364\n",
        1,
    ),
    (
        "a lock that ends with its call",
        r#"{"hosts":1,"workers":2,"keys":[{"name":"k","size":1}],"functions":[{"name":"f","module":"hold","grants":[{"key":"k","mode":"write"}]},{"name":"g","module":"lock","grants":[{"key":"k","mode":"write"}]}],"requests":[{"label":"a","function":"f"},{"label":"b","function":"g"}]}"#,
        "a trap unreachable used 3\nb done 0 used 5 output \nstate k 00\n",
        1,
    ),
    (
        "a child that waits for its parent's lock",
        r#"{"hosts":1,"workers":1,"keys":[{"name":"k","size":1}],"functions":[{"name":"f","module":"mother","grants":[{"key":"k","mode":"write"}],"calls":["g"]},{"name":"g","module":"lock","grants":[{"key":"k","mode":"write"}]}],"requests":[{"label":"r","function":"f"}]}"#,
        "r stuck\nblocked r child r.0\nblocked r.0 global k holder r\nstate k 00\n",
        1,
    ),
    (
        "the same beside another",
        r#"{"hosts":1,"workers":3,"keys":[{"name":"k","size":8,"init":"0807060504030201"},{"name":"m","size":1}],"functions":[{"name":"s","module":"span","grants":[{"key":"k","mode":"read"}]},{"name":"mother","module":"mother","grants":[{"key":"m","mode":"write"}],"calls":["lock"]},{"name":"lock","module":"lock","grants":[{"key":"m","mode":"write"}]}],"requests":[{"label":"s","function":"s"},{"label":"r","function":"mother"}]}"#,
        "s done 84281096 used 8 output \nr stuck\nblocked r child r.0\nblocked r.0 global m holder r\nstate k 0807060504030201\nstate m 00\n",
        1,
    ),
    (
        "two children",
        r#"{"hosts":2,"workers":2,"keys":[],"functions":[{"name":"g","module":"pair","calls":["c"]},{"name":"c","module":"child"}],"requests":[{"label":"p","function":"g"}]}"#,
        "p done 42 used 17 output \n",
        0,
    ),
    (
        "children that trap",
        r#"{"hosts":1,"workers":1,"keys":[],"functions":[{"name":"p","module":"pair","calls":["s"]},{"name":"s","module":"span"}],"requests":[{"label":"p","function":"p"}]}"#,
        "p done 0 used 17 output \n",
        0,
    ),
];

const SEEDS: [&str; 3] = ["0", "1", "18446744073709551615"];

/// A session file and all modules.
fn shelf(alloc: Global, session: &str) -> Result<MemShelf, AllocError> {
    let mut files = Vec::new(alloc);
    for (name, sections) in MODULES {
        let mut bytes = Vec::from_slice(alloc, b"\0asm\x01\0\0\0")?;
        match hex::decode(alloc, sections) {
            Ok(sections) => bytes.extend_from_slice(&sections)?,
            Err(_) => return Err(AllocError),
        }
        files.push((String::from_str(alloc, name)?, bytes))?;
    }
    let bytes = Vec::from_slice(alloc, session.as_bytes())?;
    files.push((String::from_str(alloc, "session")?, bytes))?;
    Ok(MemShelf::new(files))
}

#[test]
fn sessions_run_under_seeds(rt: HostRuntime) -> Result<(), Fail> {
    let alloc = rt.alloc();
    for (name, session, text, status) in ROWS {
        for seed in SEEDS {
            let words = owned(alloc, &["trace", "session", seed])?;
            let mut shelf = shelf(alloc, session)?;
            let mut out = MemSink::with_room(alloc, 1_000)?;
            assert_eq!(rt;
                answer(alloc, &words, &mut shelf, &mut out),
                status,
                "{name}"
            );
            assert_eq!(rt; out.bytes(), text.as_bytes(), "{name}");
        }
    }
    Ok(())
}

#[test]
fn the_sink_fails_in_a_report(rt: HostRuntime) -> Result<(), Fail> {
    let alloc = rt.alloc();
    let words = owned(alloc, &["trace", "session", "1"])?;
    let (_, session, _, _) = ROWS[4];
    let fronts = [
        "",
        "a trap unreachable used 3\n",
        "a trap unreachable used 3\nb done 0 used 5 output \n",
    ];
    for call in 0..3u32 {
        let fails = Vec::from_slice(alloc, &[call])?;
        let mut shelf = shelf(alloc, session)?;
        let mut out = FailSink::new(MemSink::with_room(alloc, 1_000)?, fails);
        assert_eq!(rt; answer(alloc, &words, &mut shelf, &mut out), 5, "{call}");
        assert_eq!(rt;
            out.inner().bytes(),
            fronts[call as usize].as_bytes(),
            "{call}"
        );
    }
    Ok(())
}
