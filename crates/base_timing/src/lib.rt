// Part 1 of document 01: walk lengths, the settings with their defaults and ranges, the backoff and the delay.
#![tactic(auto)]

ghost use Rattle.std.specs.Prelude.{◌≡◌, ◌≤◌, min};
ghost use Rattle.base_timing.specs.Timing.{longest_time, expired, next, within, in_range, default, backoff_due, delay};

// A walk length: how many hops a message has left.
#[derive(Clone, Copy)]
pub struct Ttl(pub u16);

impl Ttl {
    // Whether the walk ends here: a message that has taken its last hop is not forwarded.
    pub fn expired(self) -> bool
        ensures { result ≡ expired self.0 }
    {
        self.0 == 0
    }

    // The walk length one hop on, which stops at 0.
    pub fn next(self) -> Ttl
        ensures { result.0 ≡ next self.0 }
    {
        Ttl(self.0.saturating_sub(1))
    }
}

// The settings, in the order of the Rust's `Config`; intervals and timeouts in milliseconds.
#[repr(C)]
#[derive(Clone, Copy)]
pub struct Config {
    pub active_view_capacity: u32,
    pub passive_view_capacity: u32,
    pub active_random_walk_length: u32,
    pub passive_random_walk_length: u32,
    pub shuffle_random_walk_length: u32,
    pub shuffle_active_view_count: u32,
    pub shuffle_passive_view_count: u32,
    pub shuffle_interval: u32,
    pub neighbor_request_timeout: u32,
}

impl Config {
    // The top of each range (document 01): of the capacities, the walk lengths, what a shuffle takes of either view, and the times (an hour).
    // The two parts of a shuffle, 8 and 23, and the station itself are the 32 nodes that one record holds.
    pub const MOST_ACTIVE: u32 = 8;

    pub const MOST_PASSIVE: u32 = 32;

    pub const LONGEST_WALK: u32 = 65535;

    pub const MOST_SHUFFLE_ACTIVE: u32 = 8;

    pub const MOST_SHUFFLE_PASSIVE: u32 = 23;

    pub const LONGEST_TIME: u32 = 3600000;

    // Whether every setting is within its range.
    pub fn in_range(self) -> bool
        ensures { result ≡ in_range self }
    {
        let active = within(1, Config::MOST_ACTIVE, self.active_view_capacity);
        let passive = within(1, Config::MOST_PASSIVE, self.passive_view_capacity);
        let active_walk = within(0, Config::LONGEST_WALK, self.active_random_walk_length);
        let passive_walk = within(0, Config::LONGEST_WALK, self.passive_random_walk_length);
        let shuffle_walk = within(0, Config::LONGEST_WALK, self.shuffle_random_walk_length);
        let shuffle_active = within(
            0,
            Config::MOST_SHUFFLE_ACTIVE,
            self.shuffle_active_view_count,
        );
        let shuffle_passive = within(
            0,
            Config::MOST_SHUFFLE_PASSIVE,
            self.shuffle_passive_view_count,
        );
        let interval = within(1, Config::LONGEST_TIME, self.shuffle_interval);
        let timeout = within(1, Config::LONGEST_TIME, self.neighbor_request_timeout);
        active
            & (passive
                & (active_walk
                    & (passive_walk
                        & (shuffle_walk
                            & (shuffle_active & (shuffle_passive & (interval & timeout)))))))
    }
}

// From low to high, both included.
fn within(low: u32, high: u32, x: u32) -> bool
    ensures { result ≡ within low high x }
{
    (low <= x) & (x <= high)
}

// The protocol's fixed times, in milliseconds, and limits.
#[derive(Clone, Copy)]
pub struct Timing {}

impl Timing {
    // Short, as a join leaves a small and one-sided passive view, which the first shuffles fill; each wait is twice the last, up to the setting.
    pub const INITIAL_SHUFFLE_INTERVAL: u32 = 1000;

    // From one maintenance pass to the next: the paper has none, and Partisan makes the same test every 5 s.
    pub const MAINTENANCE_INTERVAL: u32 = 5000;

    // How long a requested Join waits before it is sent once more: the peer must have had time to be dialled and to answer, even by a relay.
    pub const JOIN_RETRY_DELAY: u32 = 10000;

    // Passes 1, 2, 4 and 8 count, and then every twelfth: first after 5 s, later once a minute.
    pub const MAX_BACKOFF_PASSES: u32 = 12;

    // How many a short station asks in one refill: a refusal leads to the next at once, so among full peers all would be dialled every time.
    pub const MAX_REQUESTS_PER_REFILL: u32 = 3;

    // Most contacts that are remembered for a rejoin, the latest ones: a station left alone tries them all.
    pub const MAX_BOOTSTRAP_PEERS: usize = 8;

    // Most former neighbors that are remembered for a rejoin, where the contacts may be gone.
    pub const MAX_RECENT_NEIGHBORS: usize = 8;

    // The Rust's default settings: counts and walks are the paper's (its page 9). The shuffle interval is a guess of the Rust's;
    // the timeout is a dial and an answer on a slow network, and no longer, since a dead peer holds a place of the refill until then.
    pub fn default_settings() -> Config
        ensures { result ≡ default }
    {
        Config {
            active_view_capacity: 5,
            passive_view_capacity: 30,
            active_random_walk_length: 6,
            passive_random_walk_length: 3,
            shuffle_random_walk_length: 6,
            shuffle_active_view_count: 3,
            shuffle_passive_view_count: 4,
            shuffle_interval: 60000,
            neighbor_request_timeout: 3000,
        }
    }
}

// An interval that starts at a second or doubles is no longer than the setting.
pub fn shorter(a: u32, b: u32) -> u32
    ensures { result ≡ min a b }
{
    a.min(b)
}

// Whether something is done at the nth pass in a row that wants it: soon at first, then seldom, as what failed is likely to fail again.
pub fn backoff_due(n: u32) -> bool
    ensures { result ≡ backoff_due n }
{
    if n < Timing::MAX_BACKOFF_PASSES {
        u32::count_ones(n) == 1
    } else {
        n % Timing::MAX_BACKOFF_PASSES == 0
    }
}

// The jittered delay of an interval for the draw d: from three quarters of it to just under five quarters, so that stations drift apart;
// the two numbers are 3 * 2^31 and 2^33, as no float is used (document 01).
pub fn delay(interval: u32, d: u32) -> u32
    requires { interval ≤ longest_time }
    ensures { result ≡ delay interval d }
{
    let scaled = interval as u64 * (6442450944 + d as u64);
    (scaled / 8589934592) as u32
}
