//! Steps of ranks that no run has, since it has at most 65,536 actors.
use sg_collectives::{Collective, Rank, Step};

// The last rank of 2^32 - 1 hangs below the one before it; and it has 4 steps with each other.
#[test]
fn far_ranks(rt: HostRuntime) {
    let last = Rank {
        number: u32::MAX - 1,
        members: u32::MAX,
    };
    let first = Collective::Bcast { bytes: 1 }.step(last, 0);
    assert!(rt; matches!(first, Some(Step::Recv(4_294_967_292))));
    let steps = Collective::Alltoall { bytes: 1 }.steps(last);
    assert_eq!(rt; steps, 17_179_869_176);
}
