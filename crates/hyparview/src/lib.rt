// `handle`: one event, whatever it is, to the whole result or one numbered refusal, over the words of a state.
#![tactic(auto)]

ghost use Rattle.std.specs.Prelude.{◌≡◌, ◌&&◌, ◌≤◌, length, get_or};
ghost use Rattle.spec_hyparview.specs.Handle.{new_station};
ghost use Rattle.spec_hyparview.specs.Sides.{radio as radio_side, side_of, too_many};
ghost use Rattle.hyparview_rules.specs.Ok.{state_ok};
ghost use Rattle.hyparview.specs.Made.{Starts, StartsState};
ghost use Rattle.hyparview.specs.Handled.{cleared, Refuses, Handles, HandlesState, HandlesFrom, HandlesStateFrom};
ghost use Rattle.base_peer.specs.Data.{bytes_of};
ghost use Rattle.base_peer.specs.Held.{data_in};
ghost use Rattle.base_columns.specs.Columns.{low_word, high_word};
ghost use Rattle.hyparview_rules.specs.Pack.{present_word, front};
ghost use Rattle.hyparview.specs.Queries.{wants_connection_in, is_neighbor_in, neighbors_in, spare_addresses_in};

use base_peer::{PeerData, PeerId};
use base_timing::{Config, Timing};
use hyparview_state::{Layout, Words};
use record::Refusal;
use work::Work;

// The bytes of output that suffice for every event (document 01).
pub const OUTPUT: usize = 8192;

// The draws that suffice for every event (document 01) if they are below 2^32 - 32, where none is passed over (02, S-6).
pub const DRAWS: usize = 512;

// The most nodes that an event from the radio side may have, and the draws that are read for it (02, S-12).
pub const RADIO_NODES: u8 = 8;

pub const RADIO_DRAWS: usize = 64;

// Own data as words: whether there is any, how many bytes, and the bytes in two words; zeroes where there is none.
fn own_words(own: Option<PeerData>) -> (u64, u64, u64, u64)
    ensures present { result.0 ≡ present_word (data_in own) }
    ensures len { result.1 ≡ length (bytes_of (data_in own)) }
    ensures low { result.2 ≡ low_word (bytes_of (data_in own)) }
    ensures high { result.3 ≡ high_word (bytes_of (data_in own)) }
{
    match own {
        Some(d) => {
            let low = base_columns::word_at(d.bytes, 0);
            let high = base_columns::word_at(d.bytes, base_columns::WORD);
            (1, d.len as u64, low, high)
        }
        None => (0, 0, 0, 0),
    }
}

// The numbers of a station that has met no event, in the order of `Layout`, where the active view follows them.
fn first_numbers(me: PeerId, own: Option<PeerData>, config: Config) -> [u64; Layout::NUMBERS_END]
    ensures { result ≡ front (new_station me (data_in own) config) }
{
    let (present, len, low, high) = own_words(own);
    // The delay before the first shuffle is no longer than the interval.
    let interval = base_timing::shorter(Timing::INITIAL_SHUFFLE_INTERVAL, config.shuffle_interval);
    [
        me,
        present,
        len,
        config.active_view_capacity as u64,
        config.passive_view_capacity as u64,
        config.active_random_walk_length as u64,
        config.passive_random_walk_length as u64,
        config.shuffle_random_walk_length as u64,
        config.shuffle_active_view_count as u64,
        config.shuffle_passive_view_count as u64,
        config.shuffle_interval as u64,
        config.neighbor_request_timeout as u64,
        // No timers are scheduled.
        0,
        interval as u64,
        // The passes alone and short, the automatic limit on refills in two words, the next request and the next join.
        0,
        0,
        0,
        0,
        0,
        0,
        low,
        high,
    ]
}

// State::new: self, own data lent as bytes or absent, and the settings. Code 1, and zeroes, where a setting is out of range or own data is
// over 16 bytes; code 2, and nothing touched, where the words are too few or too many. Own data is a flag and bytes, as C lends it and as
// `Starts` says of it.
pub fn new(st: &mut [u64], me: PeerId, present: bool, own: &[u8], config: Config) -> u32
    ensures { Starts result st me present own config }
{
    if st.len() != Layout::LENGTH {
        return Refusal::State.into();
    }
    base_util::clear_from(st, 0);
    let data = if present {
        PeerData::from_slice(own)
    } else {
        None
    };
    if config.in_range() & (data.is_some() | !present) {
        let numbers = first_numbers(me, data, config);
        st[..Layout::NUMBERS_END].copy_from_slice(&numbers);
        return 0;
    }
    Refusal::Settings.into()
}

// ---- what a supervisor asks

// Whether a connection to the peer is wanted: it is a neighbor, or its reply to a Neighbor or a Join is awaited, which a close would lose.
// Not by words that break a station rule.
pub fn wants_connection(st: &[u64], p: PeerId) -> bool
    ensures { result ≡ wants_connection_in p st.now }
{
    let Some(words) = hyparview_rules::checked(st) else {
        return false;
    };
    hyparview_state::in_active(words, p)
        | hyparview_state::is_requested(words, p)
        | base_columns::contains_number(
            &words[Layout::JOINS..Layout::JOINS_END],
            Layout::JOINS_PLACES,
            p,
        )
}

// No peer is one by words that break a station rule, as `handle` refuses them.
pub fn is_neighbor(st: &[u64], p: PeerId) -> bool
    ensures { result ≡ is_neighbor_in p st.now }
{
    let Some(words) = hyparview_rules::checked(st) else {
        return false;
    };
    hyparview_state::in_active(words, p)
}

// How many neighbors there are.
pub fn neighbor_count(st: &[u64]) -> usize
    ensures { result ≡ length (neighbors_in st.now) }
{
    let Some(words) = hyparview_rules::checked(st) else {
        return 0;
    };
    base_util::count(
        &words[Layout::ACTIVE..Layout::ACTIVE_END],
        Layout::ACTIVE_PLACES,
    )
}

// The neighbor at place i, in order, and 0 past the last, since C has no Option.
pub fn neighbor(st: &[u64], i: usize) -> PeerId
    ensures { result ≡ get_or (neighbors_in st.now) i 0 }
{
    let Some(words) = hyparview_rules::checked(st) else {
        return 0;
    };
    let active = &words[Layout::ACTIVE..Layout::ACTIVE_END];
    if i < base_util::count(active, Layout::ACTIVE_PLACES) {
        return base_util::get_index(active, Layout::ACTIVE_PLACES, i);
    }
    0
}

// How many spare addresses there are, that is passive peers, to fall back on when neighbors fail.
pub fn spare_addresses(st: &[u64]) -> usize
    ensures { result ≡ spare_addresses_in st.now }
{
    let Some(words) = hyparview_rules::checked(st) else {
        return 0;
    };
    base_util::count(
        &words[Layout::PASSIVE..Layout::PASSIVE_END],
        Layout::PASSIVE_PLACES,
    )
}

// ---- one event

// What a call hands back beside the words: its code, and how many draws are used.
#[repr(C)]
#[derive(Clone, Copy)]
pub struct Done {
    pub code: u32,
    pub draws: usize,
}

// Zeroes only, and no draw; the words stay as they are.
fn refuse(st: &[u64], out: &mut [u8], code: u32) -> Done
    ensures { Refuses code result st out }
{
    out.fill(0);
    Done { code, draws: 0 }
}

// One event: the whole result, or one numbered refusal that leaves every word as it was.
pub fn handle(st: &mut [u64], b: &[u8], draws: &[u32], out: &mut [u8]) -> Done
    ensures { Handles result st b draws out }
{
    let Some(kept) = hyparview_rules::checked(st) else {
        return refuse(st, out, Refusal::State.into());
    };
    match record::read_event(b) {
        Err(r) => refuse(st, out, r.into()),
        Ok(h) => {
            // The words are kept aside for a refusal, which leaves them as they were.
            let old = *kept;
            let Some(words) = st.as_mut_array() else {
                unreachable!()
            };
            let a = step_dispatch::steps(Work::default(), words, draws, out, b, h);
            let code = a.code;
            if code != 0 {
                st.copy_from_slice(&old);
                return refuse(st, out, code);
            }
            let at = a.written;
            out[at..].fill(0);
            Done {
                code: 0,
                draws: a.drawn,
            }
        }
    }
}

// Whether the event has more nodes than the radio side may bring, though not so many that the reader refuses it from either side.
fn has_too_many(b: &[u8]) -> bool
    ensures { result ≡ too_many b.now }
{
    if b.len() < record::HEADER {
        return false;
    }
    let n = b[3];
    (RADIO_NODES < n) & (n <= record::MOST_NODES)
}

// Words that break a station rule are answered with their own code, also for such an event.
fn is_barred(st: &[u64], b: &[u8]) -> bool
    ensures { result ≡ (too_many b.now && state_ok st.now) }
{
    if has_too_many(b) {
        return hyparview_rules::is_ok(st);
    }
    false
}

// One event from the radio side, which brings few nodes and reads few draws.
fn handle_radio(st: &mut [u64], b: &[u8], draws: &[u32], out: &mut [u8]) -> Done
    ensures { HandlesFrom radio_side result st b draws out }
{
    if is_barred(st, b) {
        return refuse(st, out, Refusal::RadioNodes.into());
    }
    if draws.len() < RADIO_DRAWS {
        return handle(st, b, draws, out);
    }
    handle(st, b, &draws[..RADIO_DRAWS], out)
}

// One event from the side that is named: the whole result, or one numbered refusal that leaves every word as it was.
pub fn handle_from(st: &mut [u64], radio: bool, b: &[u8], draws: &[u32], out: &mut [u8]) -> Done
    ensures { HandlesFrom (side_of radio) result st b draws out }
{
    if radio {
        return handle_radio(st, b, draws, out);
    }
    handle(st, b, draws, out)
}

// The state by value.
#[derive(Clone, Copy)]
pub struct State {
    pub words: Words,
}

// What a call by value hands back: its code, the state, and how many draws are used. No Result, since a refusal hands the state back too.
#[derive(Clone, Copy)]
pub struct HandledState {
    pub code: u32,
    pub state: State,
    pub draws: usize,
}

// What `new` by value hands back: code 0 and the state, or code 1 and a state of zeroes, which a Result would not hold.
#[derive(Clone, Copy)]
pub struct MadeState {
    pub code: u32,
    pub state: State,
}

impl State {
    // The state of a station that has met no event.
    pub fn new(me: PeerId, present: bool, own: &[u8], config: Config) -> MadeState
        ensures { StartsState result me present own config }
    {
        let mut words = [0u64; Layout::LENGTH];
        let code = new(&mut words, me, present, own, config);
        MadeState {
            code,
            state: State { words },
        }
    }

    // The form that 01 names: `handle` takes self by value.
    pub fn handle(self, b: &[u8], draws: &[u32], out: &mut [u8]) -> HandledState
        ensures { HandlesState result self b draws out }
    {
        self.handle_from(false, b, draws, out)
    }

    // The same of a call that names its side.
    pub fn handle_from(
        mut self,
        radio: bool,
        b: &[u8],
        draws: &[u32],
        out: &mut [u8],
    ) -> HandledState
        ensures { HandlesStateFrom (side_of radio) result self b draws out }
    {
        let d = handle_from(&mut self.words, radio, b, draws, out);
        HandledState {
            code: d.code,
            state: self,
            draws: d.draws,
        }
    }
}
