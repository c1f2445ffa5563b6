// The run program's input (document 01, "The run program"): its check as a whole, its settings, and the cutting of its events and draws.
#![tactic(auto)]

ghost use Rattle.std.specs.Prelude.{◌≡◌, ◌≤◌, length};
ghost use Rattle.run_input.specs.Input.{number, numbers, from_halves, setting_count, settings_of, event_length, are_events, input_of};

use base_peer::PeerId;
use base_timing::Config;

// The most bytes of an input.
pub const MOST_BYTES: usize = 65536;

// The draws of four bytes that would fill one, more than any has.
pub const DRAWS_ROOM: usize = MOST_BYTES / record::U32_BYTES;

// What the head of an input says: self, the settings, how many events there are, the place where they end and the draws begin, and how many draws there are.
#[derive(Clone, Copy)]
pub struct Head {
    pub me: PeerId,
    pub config: Config,
    pub events: usize,
    pub draws_at: usize,
    pub draws: usize,
}

impl Head {
    // The bytes of a head, right after which the events stand.
    pub const BYTES: usize = 60;

    // How many numbers of four bytes they are.
    const NUMBERS: usize = Self::BYTES / record::U32_BYTES;
}

// The i-th number of four bytes; 0 where there are not so many bytes.
pub fn number(b: &[u8], i: usize) -> u32
    ensures { result ≡ number b.now i }
{
    if i < b.len() / record::U32_BYTES {
        return record::read_number(b, record::U32_BYTES * i, record::U32_BYTES) as u32;
    }
    0
}

// The numbers of `b` in order, as many as `to` has places; 0 in the places after the last.
pub fn read_numbers(b: &[u8], to: &mut [u32])
    ensures { to.new ≡ numbers (length to.old) 0 b.now }
{
    for (i, x) in to.iter_mut().enumerate() {
        *x = number(b, i);
    }
}

// A number of eight bytes from its halves.
pub fn from_halves(low: u32, high: u32) -> u64
    ensures { result ≡ from_halves low high }
{
    u64::from(low) + record::FOUR_BYTES_END * u64::from(high)
}

// How long the event at the front is by its whole length; 0 where that is less than a header's or runs over the end. 0 and no Option, since the run gives such an event to `handle` as no bytes.
pub fn event_length(b: &[u8]) -> usize
    ensures { (result ≡ event_length b.now) × (result ≤ length b.now) }
{
    if record::HEADER <= b.len() {
        let h = record::read_header(b);
        let size = h.size as usize;
        if (record::HEADER <= size) & (size <= b.len()) {
            return size;
        }
    }
    0
}

// Whether these bytes are exactly so many events.
fn are_events(events: &[u8], count: usize) -> bool
    ensures { result ≡ are_events count events.now }
{
    let mut rest = events;
    for _ in 0..count {
        let size = event_length(rest);
        if size == 0 {
            return false;
        }
        rest = &rest[size..];
    }
    rest.is_empty()
}

// The settings of the first nine numbers.
pub fn settings_of(numbers: &[u32]) -> Config
    requires { setting_count ≤ length numbers.now }
    ensures { result ≡ settings_of numbers.now }
{
    Config {
        active_view_capacity: numbers[0],
        passive_view_capacity: numbers[1],
        active_random_walk_length: numbers[2],
        passive_random_walk_length: numbers[3],
        shuffle_random_walk_length: numbers[4],
        shuffle_active_view_count: numbers[5],
        shuffle_passive_view_count: numbers[6],
        shuffle_interval: numbers[7],
        neighbor_request_timeout: numbers[8],
    }
}

// The whole input: its head, or None where it is refused.
pub fn read_input(b: &[u8]) -> Option<Head>
    ensures { result ≡ input_of b.now }
{
    let mut numbers = [0u32; Head::NUMBERS];
    read_numbers(b, &mut numbers);
    let [low, high, .., events, start, draws, draws_at] = numbers;
    let size = b.len();
    let draws = draws as usize;
    let draws_at = draws_at as usize;
    // Whether the events are said to stand right after the head, and the draws to end the input.
    let placed = (Head::BYTES <= size)
        & ((size <= MOST_BYTES)
            & ((start as usize == Head::BYTES)
                & ((Head::BYTES <= draws_at) & (draws_at + record::U32_BYTES * draws == size))));
    if !placed {
        return None;
    }
    let events = events as usize;
    if !are_events(&b[Head::BYTES..draws_at], events) {
        return None;
    }
    Some(Head {
        me: from_halves(low, high),
        // They stand behind the two halves of self.
        config: settings_of(&numbers[2..]),
        events,
        draws_at,
        draws,
    })
}
