//! Calls of modules with host calls: input and output, and what is refused where nothing is granted and nothing may be called.

use crate::call_tests::{ONE_FUNCTION, ONE_PAGE, module};
use crate::tests::answered;
use std::test::Fail;

/// The sections of a module, the input, the fuel, and the line and the status that are due to a call.
type Case = (
    &'static str,
    &'static [&'static str],
    &'static str,
    &'static str,
    &'static str,
    u8,
);

/// `input_size`, `read_input` and `write_output`; `main` puts out its input.
const ECHO: &[&str] = &[
    "0110036000017f60037f7f7f0060027f7f00",
    "023c0305666161736d0a696e7075745f73697a65000005666161736d0a726561645f696e707574000105666161736d0c77726974655f6f75747075740002",
    ONE_FUNCTION,
    ONE_PAGE,
    "070801046d61696e0003",
    "0a14011200410041001000100141001000100241000b",
];

const ZEROS: &str =
    "00000000000000000000000000000000000000000000000000000000000000000000000000000000000000000000000000000000000000000000000000000000";

/// Input and output.
const ON_BYTES: [Case; 13] = [
    (
        "the input put out",
        ECHO,
        "68656c6c6f",
        "100",
        "call done 0 used 8 output 68656c6c6f\n",
        0,
    ),
    (
        "an empty input",
        ECHO,
        "",
        "100",
        "call done 0 used 8 output \n",
        0,
    ),
    (
        "a buffer of 64 bytes costs one more",
        ECHO,
        ZEROS,
        "100",
        "call done 0 used 10 output 00000000000000000000000000000000000000000000000000000000000000000000000000000000000000000000000000000000000000000000000000000000\n",
        0,
    ),
    (
        "the length of the input",
        &[
            "0105016000017f",
            "02140105666161736d0a696e7075745f73697a650000",
            ONE_FUNCTION,
            ONE_PAGE,
            "070801046d61696e0001",
            "0a0601040010000b",
        ],
        "abcd",
        "10",
        "call done 2 used 1 output \n",
        0,
    ),
    (
        "a part of the input, behind other bytes",
        &[
            "0110036000017f60037f7f7f0060027f7f00",
            "02290205666161736d0a726561645f696e707574000105666161736d0c77726974655f6f75747075740002",
            ONE_FUNCTION,
            ONE_PAGE,
            "070801046d61696e0002",
            "0a14011200410141014102100041004104100141000b",
            "0b0a010041000b0411223344",
        ],
        "abcdef",
        "100",
        "call done 0 used 8 output 11cdef44\n",
        0,
    ),
    (
        "output is appended",
        &[
            "010a026000017f60027f7f00",
            "02160105666161736d0c77726974655f6f75747075740001",
            ONE_FUNCTION,
            ONE_PAGE,
            "070801046d61696e0001",
            "0a1201100041024101100041004102100041070b",
            "0b09010041000b03112233",
        ],
        "",
        "100",
        "call done 7 used 7 output 331122\n",
        0,
    ),
    (
        "over the end of the input",
        &[
            "010b026000017f60037f7f7f00",
            "02140105666161736d0a726561645f696e7075740001",
            ONE_FUNCTION,
            ONE_PAGE,
            "070801046d61696e0001",
            "0a0e010c00410041004103100041000b",
        ],
        "abcd",
        "100",
        "call trap call range used 4\n",
        1,
    ),
    (
        "into no memory",
        &[
            "010b026000017f60037f7f7f00",
            "02140105666161736d0a726561645f696e7075740001",
            ONE_FUNCTION,
            ONE_PAGE,
            "070801046d61696e0001",
            "0a10010e00410041ffff034102100041000b",
        ],
        "abcd",
        "100",
        "call trap out of bounds memory access used 4\n",
        1,
    ),
    (
        "out of no memory",
        &[
            "010a026000017f60027f7f00",
            "02160105666161736d0c77726974655f6f75747075740001",
            ONE_FUNCTION,
            ONE_PAGE,
            "070801046d61696e0001",
            "0a0e010c0041ffff034102100041000b",
        ],
        "",
        "100",
        "call trap out of bounds memory access used 3\n",
        1,
    ),
    (
        "a buffer that is too long",
        &[
            "010a026000017f60027f7f00",
            "02160105666161736d0c77726974655f6f75747075740001",
            ONE_FUNCTION,
            ONE_PAGE,
            "070801046d61696e0001",
            "0a0e010c00410041818004100041000b",
        ],
        "",
        "100",
        "call trap buffer too long used 3\n",
        1,
    ),
    (
        "the room for output, and a byte more",
        &[
            "010a026000017f60027f7f00",
            "02160105666161736d0c77726974655f6f75747075740001",
            ONE_FUNCTION,
            ONE_PAGE,
            "070801046d61696e0001",
            "0a14011200410041808004100041004101100041000b",
        ],
        "",
        "2000",
        "call trap output full used 1030\n",
        1,
    ),
    (
        "a trap doesn't tell the output before it",
        &[
            "010a026000017f60027f7f00",
            "02160105666161736d0c77726974655f6f75747075740001",
            ONE_FUNCTION,
            ONE_PAGE,
            "070801046d61696e0001",
            "0a0d010b004100410110000041000b",
        ],
        "",
        "100",
        "call trap unreachable used 4\n",
        1,
    ),
    (
        "no fuel for a buffer",
        &[
            "010a026000017f60027f7f00",
            "02160105666161736d0c77726974655f6f75747075740001",
            ONE_FUNCTION,
            ONE_PAGE,
            "070801046d61696e0001",
            "0a0d010b00410041c000100041000b",
        ],
        "",
        "3",
        "call fuel\n",
        1,
    ),
];

/// Without grants and callable functions.
const REFUSED: [Case; 10] = [
    (
        "no callable function",
        &[
            "010c026000017f60037f7f7f017f",
            "02140105666161736d0a636861696e5f63616c6c0001",
            ONE_FUNCTION,
            ONE_PAGE,
            "070801046d61696e0001",
            "0a0c010a0041004100410010000b",
        ],
        "",
        "100",
        "call trap bad function used 4\n",
        1,
    ),
    (
        "no child to await",
        &[
            "010a026000017f60017f017e",
            "02140105666161736d0a61776169745f63616c6c0001",
            ONE_FUNCTION,
            ONE_PAGE,
            "070801046d61696e0001",
            "0a0901070041001000a70b",
        ],
        "",
        "100",
        "call trap bad child used 2\n",
        1,
    ),
    (
        "no child with an output",
        &[
            "010a026000017f60017f017f",
            "02150105666161736d0b6f75747075745f73697a650001",
            ONE_FUNCTION,
            ONE_PAGE,
            "070801046d61696e0001",
            "0a08010600410010000b",
        ],
        "",
        "100",
        "call trap bad child used 2\n",
        1,
    ),
    (
        "no output of a child",
        &[
            "010c026000017f60047f7f7f7f00",
            "02150105666161736d0b726561645f6f75747075740001",
            ONE_FUNCTION,
            ONE_PAGE,
            "070801046d61696e0001",
            "0a10010e004100410041004100100041000b",
        ],
        "",
        "100",
        "call trap bad child used 5\n",
        1,
    ),
    (
        "no key with a size",
        &[
            "010a026000017f60017f017f",
            "02140105666161736d0a73746174655f73697a650001",
            ONE_FUNCTION,
            ONE_PAGE,
            "070801046d61696e0001",
            "0a08010600410010000b",
        ],
        "",
        "100",
        "call trap bad key used 2\n",
        1,
    ),
    (
        "no key to map",
        &[
            "010a026000017f60017f017f",
            "02130105666161736d096765745f73746174650001",
            ONE_FUNCTION,
            ONE_PAGE,
            "070801046d61696e0001",
            "0a08010600410010000b",
        ],
        "",
        "100",
        "call trap bad key used 2\n",
        1,
    ),
    (
        "no key to write",
        &[
            "010c026000017f60047f7f7f7f00",
            "02130105666161736d097365745f73746174650001",
            ONE_FUNCTION,
            ONE_PAGE,
            "070801046d61696e0001",
            "0a10010e004100410041004101100041000b",
        ],
        "",
        "100",
        "call trap bad key used 5\n",
        1,
    ),
    (
        "no key to append to",
        &[
            "010c026000017f60037f7f7f017f",
            "02160105666161736d0c617070656e645f73746174650001",
            ONE_FUNCTION,
            ONE_PAGE,
            "070801046d61696e0001",
            "0a0d010b004100410041c00010000b",
        ],
        "",
        "100",
        "call trap bad key used 5\n",
        1,
    ),
    (
        "no key to lock",
        &[
            "0109026000017f60017f00",
            "021a0105666161736d106c6f636b5f73746174655f77726974650001",
            ONE_FUNCTION,
            ONE_PAGE,
            "070801046d61696e0001",
            "0a0a0108004100100041000b",
        ],
        "",
        "100",
        "call trap bad key used 2\n",
        1,
    ),
    (
        "no key to unlock",
        &[
            "0109026000017f60017f00",
            "02170105666161736d0d756e6c6f636b5f676c6f62616c0001",
            ONE_FUNCTION,
            ONE_PAGE,
            "070801046d61696e0001",
            "0a0a0108004100100041000b",
        ],
        "",
        "100",
        "call trap bad key used 2\n",
        1,
    ),
];

#[test]
fn input_and_output(rt: HostRuntime) -> Result<(), Fail> {
    let alloc = rt.alloc();
    for (name, sections, input, fuel, line, status) in ON_BYTES {
        let file = module(alloc, sections)?;
        let (answer, written) = answered(alloc, &["call", "m.wasm", input, fuel], &file, 200)?;
        assert_eq!(rt; written.as_slice(), line.as_bytes(), "{name}");
        assert_eq!(rt; answer, status, "{name}");
    }
    Ok(())
}

#[test]
fn host_calls_that_are_refused(rt: HostRuntime) -> Result<(), Fail> {
    let alloc = rt.alloc();
    for (name, sections, input, fuel, line, status) in REFUSED {
        let file = module(alloc, sections)?;
        let (answer, written) = answered(alloc, &["call", "m.wasm", input, fuel], &file, 200)?;
        assert_eq!(rt; written.as_slice(), line.as_bytes(), "{name}");
        assert_eq!(rt; answer, status, "{name}");
    }
    Ok(())
}
