//! The numbers of seeds, worked out from the rule: x times 6364136223846793005 plus 1442695040888963407 modulo 2^64, of
//! which all but the lowest 33 bits are the number.

use std::test::Fail;
use world_core::Generator;

/// A seed, its first numbers, and the places that it picks among five.
const ROWS: [(u64, [u32; 4], [u32; 4]); 5] = [
    (
        0,
        [167_951_807, 218_396_424, 1_299_921_937, 861_605_236],
        [2, 4, 2, 1],
    ),
    (
        1,
        [908_834_774, 1_093_944_153, 1_392_341_196, 822_192_870],
        [4, 3, 1, 0],
    ),
    (
        7,
        [1_059_165_278, 2_052_263_231, 1_946_856_753, 585_718_673],
        [3, 1, 3, 3],
    ),
    (
        123_456_789,
        [2_117_897_364, 1_935_529_271, 1_683_438_352, 34_418_411],
        [4, 1, 2, 1],
    ),
    (
        18_446_744_073_709_551_615,
        [1_574_552_488, 1_490_332_343, 1_207_502_677, 901_017_602],
        [3, 3, 2, 2],
    ),
];

#[test]
fn each_seed_has_its_numbers(rt: HostRuntime) -> Result<(), Fail> {
    for (seed, numbers, places) in ROWS {
        let mut numbering = Generator::new(seed);
        for number in numbers {
            assert_eq!(rt; numbering.next_number(), number);
        }
        let mut picking = Generator::new(seed);
        for place in places {
            assert_eq!(rt; picking.pick(5), place);
        }
    }
    Ok(())
}
