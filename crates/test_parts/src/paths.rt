// Arcs, a best path, and a flow with its paths, on three places.
use sig_graph::{arc_count, arc_index, best_path, is_flow, path_ballot, split_flow};
use std::test::Fail;

/// On the arcs (0, 1), (0, 2), (0, 3), (1, 2), (1, 3), (2, 3).
#[test]
fn one_flow(rt: HostRuntime) -> Result<(), Fail> {
    let flow = [2, 0, 1, 0, 1, 0];
    assert!(rt; is_flow(3, &flow, 4));
    assert!(rt; !is_flow(3, &flow, 2));
    assert!(rt; !is_flow(3, &[1, 0, 0, 1, 1, 0], 4));
    let paths = split_flow(rt.alloc(), 3, &flow, 4)?;
    let expected: [&[u8]; 4] = [&[1, 3], &[1], &[3], &[]];
    assert_eq!(rt; paths.len(), 4);
    for (path, whole) in paths.as_slice().iter().zip(expected) {
        assert_eq!(rt; path.as_slice(), whole);
    }
    Ok(())
}

#[test]
fn one_best_path(rt: HostRuntime) -> Result<(), Fail> {
    let mut best = [7, 7, 7, 7];
    assert_eq!(rt; best_path(3, &[1, -2, 3, 5, -1, 4], &mut best), 10);
    assert_eq!(rt; best.as_slice(), [10, 9, 4, 0].as_slice());
    assert_eq!(rt; (arc_count(3), arc_index(3, 1, 3)), (6, 4));
    let ballot = path_ballot(rt.alloc(), &[1, 3], &[1, 0, 2])?;
    assert_eq!(rt; ballot.as_slice(), [1, 2].as_slice());
    Ok(())
}
