// Counts at their upper end.
use super::Counts;

// Counts with room for one step more.
pub(crate) fn one_left() -> Counts {
    Counts {
        steps: 4_294_967_294,
        outside: 4_294_967_294,
        unmarked: 1,
    }
}

fn told(counts: &Counts) -> (u32, u32, u32, bool) {
    (
        counts.steps(),
        counts.outside(),
        counts.unmarked(),
        counts.is_full(),
    )
}

#[test]
fn full_counts_stay(rt: HostRuntime) {
    let mut counts = one_left();
    assert_eq!(rt; told(&counts), (4_294_967_294, 4_294_967_294, 1, false));
    counts.count(true, true);
    assert_eq!(rt; told(&counts), (4_294_967_295, 4_294_967_295, 2, true));
    counts.count(true, true);
    assert_eq!(rt; told(&counts), (4_294_967_295, 4_294_967_295, 2, true));
}
