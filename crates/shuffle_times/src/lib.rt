// Document 02, S-11: when the k-th shuffle is due, at the earliest and at the latest, where the start is known to a range.
#![tactic(auto)]

ghost use Rattle.std.specs.Prelude.{◌≡◌, ◌≤◌};
ghost use Rattle.base_timing.specs.Timing.{longest_time, delay};
ghost use Rattle.shuffle_times.specs.Times.{lowest_draw, highest_draw, latest_start, most_shuffles, first_interval, next_interval};
ghost use Rattle.shuffle_times.specs.Times.{both_ends, has_times, shuffle_times};

use base_timing::{Config, Timing};

// Both ends, in milliseconds; both 0 where there is no such time.
#[repr(C)]
#[derive(Clone, Copy, Default)]
pub struct ShuffleTimes {
    pub earliest: u64,
    pub latest: u64,
}

impl ShuffleTimes {
    // Most shuffles ahead.
    pub const MOST_SHUFFLES: u32 = 1000;

    // The latest start, 2^63.
    pub const LATEST_START: u64 = 9223372036854775808;
}

// The interval of a station's first shuffle.
fn initial_interval(top: u32) -> u32
    ensures { result ≡ first_interval top }
{
    base_timing::shorter(Timing::INITIAL_SHUFFLE_INTERVAL, top)
}

// The interval doubles up to the setting.
fn next_interval(top: u32, interval: u32) -> u32
    requires { interval ≤ longest_time }
    ensures { result ≡ next_interval top interval }
{
    base_timing::shorter(2 * interval, top)
}

// Three quarters of the interval: the delay of the lowest draw.
fn least_delay(interval: u32) -> u64
    requires { interval ≤ longest_time }
    ensures { result ≡ delay interval lowest_draw }
{
    (3 * interval / 4) as u64
}

// Five quarters of the interval, rounded up, less one: the delay of the highest draw.
fn most_delay(interval: u32) -> u64
    requires le_interval { 1 ≤ interval }
    requires interval_le_longest_time { interval ≤ longest_time }
    ensures { result ≡ delay interval highest_draw }
{
    ((5 * interval + 3) / 4 - 1) as u64
}

// Both ends after k shuffles, from both ends of the start.
fn ends(earliest: u64, latest: u64, top: u32, k: u32) -> ShuffleTimes
    requires earliest_le_latest_start { earliest ≤ latest_start }
    requires latest_le_latest_start { latest ≤ latest_start }
    requires le_top { 1 ≤ top }
    requires top_le_longest_time { top ≤ longest_time }
    requires k_le_most_shuffles { k ≤ most_shuffles }
    ensures { result ≡ both_ends top earliest latest k }
{
    let mut low = earliest;
    let mut high = latest;
    let mut interval = initial_interval(top);
    for _ in 0..k {
        low += least_delay(interval);
        high += most_delay(interval);
        interval = next_interval(top, interval);
    }
    ShuffleTimes {
        earliest: low,
        latest: high,
    }
}

// Whether there is such a shuffle: starts in order and not above 2^63, k from 1 to 1,000, settings in range.
fn has_times(earliest: u64, latest: u64, config: Config, k: u32) -> bool
    ensures { result ≡ has_times earliest latest config k }
{
    let settings = config.in_range();
    (earliest <= latest)
        & ((latest <= ShuffleTimes::LATEST_START)
            & ((1 <= k) & ((k <= ShuffleTimes::MOST_SHUFFLES) & settings)))
}

// The earliest and the latest due time of the k-th shuffle of a station whose first event comes from `earliest` to `latest`, if each
// shuffle timer fires when due; both 0 where the arguments are out of range.
pub fn hyparview_shuffle_times(earliest: u64, latest: u64, config: Config, k: u32) -> ShuffleTimes
    ensures { result ≡ shuffle_times earliest latest config k }
{
    if has_times(earliest, latest, config, k) {
        return ends(earliest, latest, config.shuffle_interval, k);
    }
    ShuffleTimes::default()
}
