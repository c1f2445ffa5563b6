// What C calls of `shuffle_times`, in libshuffle_times.a: each function calls the one of its name, under the same clauses.
#![tactic(auto)]

ghost use Rattle.std.specs.Prelude.{◌≡◌};
ghost use Rattle.shuffle_times.specs.Times.{shuffle_times};

use base_timing::Config;
use shuffle_times::ShuffleTimes;

// The earliest and the latest due time of the k-th shuffle of a station whose first event comes from `earliest` to `latest`, if each
// shuffle timer fires when due; both 0 where the arguments are out of range.
#[unsafe(no_mangle)]
pub extern "C" fn hyparview_shuffle_times(
    earliest: u64,
    latest: u64,
    config: Config,
    k: u32,
) -> ShuffleTimes
    ensures { result ≡ shuffle_times earliest latest config k }
{
    shuffle_times::hyparview_shuffle_times(earliest, latest, config, k)
}
