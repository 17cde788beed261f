//! Both routers send each window the same.

use crate::sides::run;
use std::test::Fail;

#[test]
fn both_routers_send_the_same(rt: HostRuntime) -> Result<(), Fail> {
    let mut actions = 0;
    for seed in 1..11 {
        let (differs_at, outgoing) = run(rt.alloc(), seed, 60)?;
        assert_eq!(rt; differs_at, None, "with seed {seed}");
        actions |= outgoing;
    }
    // Each of the seven actions was sent.
    assert_eq!(rt; actions, 0b111_1111);
    Ok(())
}
