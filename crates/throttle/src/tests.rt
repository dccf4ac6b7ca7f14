use super::{DEFAULT_INTERVAL, Due, MAX_INTERVAL, MAX_MOMENT, MIN_INTERVAL, Throttle};

/// Whether a pull is due at a moment, by an interval and the moment of an earlier pull; None outside the limits.
fn due_after(interval: i64, last: Option<u64>, moment: u64) -> Option<Due> {
    if interval < MIN_INTERVAL || interval > MAX_INTERVAL || moment > MAX_MOMENT {
        return None;
    }
    let mut throttle = Throttle::new();
    throttle.set(interval);
    if let Some(last) = last {
        if last > MAX_MOMENT {
            return None;
        }
        throttle.pulled(last);
    }
    Some(throttle.due(moment))
}

#[test]
fn a_pull_is_due_as_the_rows_say(rt: HostRuntime) {
    // The interval, the moment of an earlier pull, the moment that is asked about, and whether a pull is due then.
    for (interval, last, moment, due) in [
        (DEFAULT_INTERVAL, None, 0, Due::Now),
        (DEFAULT_INTERVAL, Some(0), 0, Due::Early(2_000)),
        (DEFAULT_INTERVAL, Some(0), 1_000, Due::Early(1_000)),
        (DEFAULT_INTERVAL, Some(0), 1_999, Due::Early(1)),
        (DEFAULT_INTERVAL, Some(0), 2_000, Due::Now),
        (DEFAULT_INTERVAL, Some(500), 100, Due::Early(2_400)),
        (MIN_INTERVAL, None, 0, Due::Manual),
        (MIN_INTERVAL, Some(0), MAX_MOMENT, Due::Manual),
        (0, Some(900), 100, Due::Now),
        (1, Some(900), 900, Due::Early(1)),
        (
            MAX_INTERVAL,
            Some(MAX_MOMENT),
            MAX_MOMENT,
            Due::Early(2_147_483_647),
        ),
    ] {
        assert_eq!(rt; due_after(interval, last, moment), Some(due));
    }
}

#[test]
fn an_interval_that_is_set_later_counts_from_the_same_pull(rt: HostRuntime) {
    let mut throttle = Throttle::new();
    assert_eq!(rt; throttle.due(0), Due::Now);
    throttle.pulled(0);
    assert_eq!(rt; throttle.due(1_500), Due::Early(500));
    throttle.set(1_000);
    assert_eq!(rt; throttle.due(500), Due::Early(500));
    assert_eq!(rt; throttle.due(1_500), Due::Now);
}
