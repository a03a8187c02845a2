//! Arrays after steps, as numpy gives them for `numpy.arange(1, 25).reshape(2, 3, 4)`.

use crate::npy::steps::step_checks::{NUMBERED, Row, become_arrays};

const TURNED: [Row<'static, u16>; 20] = [
    // a[:, ::-1, :][:, :, 1:4:2]
    (
        b"invert 1 cut 2 1 4 2",
        &[2, 3, 2],
        &[10, 12, 6, 8, 2, 4, 22, 24, 18, 20, 14, 16],
    ),
    // a.transpose(2, 0, 1)[1]
    (
        b"permute 3 2 0 1 index 0 1",
        &[2, 3],
        &[2, 6, 10, 14, 18, 22],
    ),
    // a[1, 0:2, None, ::-2]
    (
        b"slice 4 i 1 s 0 2 1 n s 0 _ -2",
        &[2, 1, 2],
        &[16, 14, 20, 18],
    ),
    // numpy.swapaxes(a, 0, 2)[3:4]
    (
        b"swapaxes 0 2 collapse 0 3",
        &[1, 3, 2],
        &[4, 16, 8, 20, 12, 24],
    ),
    // numpy.broadcast_to(a[0, 0][None], (2, 4))
    (
        b"remove 0 remove 0 insert 0 broadcast 2 2 4",
        &[2, 4],
        &[1, 2, 3, 4, 1, 2, 3, 4],
    ),
    // numpy.array([a[i, i, i] for i in range(2)])
    (b"diag", &[2], &[1, 18]),
    // a.T[-1]
    (b"reverse index 0 3", &[3, 2], &[4, 16, 8, 20, 12, 24]),
    // a[:1].squeeze()
    (
        b"cut 0 0 1 1 squeeze",
        &[3, 4],
        &[1, 2, 3, 4, 5, 6, 7, 8, 9, 10, 11, 12],
    ),
    // a[1:1]
    (b"cut 0 1 1 1", &[0, 3, 4], &[]),
    // a[1, 2, 3]
    (b"index 0 1 index 0 2 index 0 3", &[], &[24]),
    // a[1, 2][-3:-1]
    (b"index 0 1 index 0 2 cut 0 -3 -1 1", &[2], &[22, 23]),
    // a[0, 0]
    (b"  index\t0 0\r index 0 00 ", &[4], &[1, 2, 3, 4]),
    // numpy.take(a, [3, 0, 3], 2)[1]
    (
        b"select 2 3 3 0 3 index 0 1",
        &[3, 3],
        &[16, 13, 16, 20, 17, 20, 24, 21, 24],
    ),
    // numpy.take(a[:, ::-1], [], 1)
    (b"invert 1 select 1 0", &[2, 0, 4], &[]),
    // a.reshape(4, 6)[:, ::5]
    (
        b"reshape 2 4 6 cut 1 0 _ 5",
        &[4, 2],
        &[1, 6, 7, 12, 13, 18, 19, 24],
    ),
    // a.T[:2].reshape(3, 4)
    (
        b"reverse cut 0 0 2 1 reshape 2 3 4",
        &[3, 4],
        &[1, 13, 5, 17, 9, 21, 2, 14, 6, 18, 10, 22],
    ),
    // numpy.broadcast_to(a[1, 2], (2, 4)).reshape(8)
    (
        b"index 0 1 index 0 2 broadcast 2 2 4 reshape 1 8",
        &[8],
        &[21, 22, 23, 24, 21, 22, 23, 24],
    ),
    // numpy.take(a[0], [1, 1], 0).reshape(2, 2, 2).T
    (
        b"index 0 0 select 0 2 1 1 reshape 3 2 2 2 reverse",
        &[2, 2, 2],
        &[5, 5, 7, 7, 6, 6, 8, 8],
    ),
    // a[0, 0, 0].reshape(1, 1)
    (
        b"index 0 0 index 0 0 index 0 0 reshape 2 1 1",
        &[1, 1],
        &[1],
    ),
    // a[0, 0, 0:1]
    (b"index 0 0 index 0 0 cut 0 0 1 1", &[1], &[1]),
];

#[test]
fn arrays_after_steps(rt: HostRuntime) {
    assert!(rt; become_arrays(rt.alloc(), NUMBERED, &TURNED));
}
