use tv_kleene::K3;

/// A pair with its conjunction, disjunction, join, and whether the first lies under the second.
type Row = (K3, K3, K3, K3, K3, bool);

const PAIRS: [Row; 9] = [
    (K3::No, K3::No, K3::No, K3::No, K3::No, true),
    (K3::No, K3::Half, K3::No, K3::Half, K3::Half, true),
    (K3::No, K3::Yes, K3::No, K3::Yes, K3::Half, false),
    (K3::Half, K3::No, K3::No, K3::Half, K3::Half, false),
    (K3::Half, K3::Half, K3::Half, K3::Half, K3::Half, true),
    (K3::Half, K3::Yes, K3::Half, K3::Yes, K3::Half, false),
    (K3::Yes, K3::No, K3::No, K3::Yes, K3::Half, false),
    (K3::Yes, K3::Half, K3::Half, K3::Yes, K3::Half, true),
    (K3::Yes, K3::Yes, K3::Yes, K3::Yes, K3::Yes, true),
];

fn is_met(row: Row) -> bool {
    let (left, right, both, either, joined, is_under) = row;
    left.and(right) == both
        && left.or(right) == either
        && left.join(right) == joined
        && left.under(right) == is_under
}

#[test]
fn operations_meet_their_tables(rt: HostRuntime) {
    for row in PAIRS {
        assert!(rt; is_met(row), "{row:?}");
    }
    assert!(rt; K3::No < K3::Half && K3::Half < K3::Yes);
    assert!(rt; K3::No.not() == K3::Yes && K3::Half.not() == K3::Half && K3::Yes.not() == K3::No);
}
