//! Counters of children at the greatest count, that of an `i32` in lol_html: a count that ends one below, with its definition, fails.

use lol_instructions::ChildCounter;

#[test]
fn count_to_the_greatest(rt: HostRuntime) {
    let mut counter = ChildCounter::at(2_147_483_646);
    assert!(rt; !counter.is_full());
    counter.inc();
    assert!(rt; counter.is_full());
}
