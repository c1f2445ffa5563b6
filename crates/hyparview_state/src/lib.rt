// The state of a station as one lent list of words: its layout, the queries, and the open requests and joins of a peer.
#![tactic(auto)]

ghost use Rattle.std.specs.Prelude.{◌≡◌};
ghost use Rattle.base_peer.specs.Held.{data_in};
ghost use Rattle.spec_hyparview.specs.Run.{on};
ghost use Rattle.spec_hyparview.specs.Setters.{set_refill};
ghost use Rattle.spec_hyparview.specs.Messages.{drop_join, drop_request, drop_pending};
ghost use Rattle.spec_hyparview.specs.Station.{is_me, in_active, in_passive, is_alone, active_is_full, is_short, is_last_hop};
ghost use Rattle.spec_hyparview.specs.Station.{is_recovery, is_requested};
ghost use Rattle.spec_hyparview.specs.Refill.{few_requests, unless_recovery};
ghost use Rattle.hyparview_state.specs.Unpack.{unpack, limit_at, refill_in, PackedState, Becomes};
ghost use Rattle.hyparview_state.specs.Work.{Alters};

use base_peer::{PeerData, PeerId};
use base_timing::Timing;
use work::Work;

// The layout of the state: the place of each number, and where each section begins and ends. A set is its places and then their count;
// a map has more columns of as many places before the count. Every name is a whole constant, since a sum in the body of a function would
// be one more thing to prove. A function is lent a section as words and places, since a const parameter would compile it for each size, and
// the code has a limit.
#[derive(Clone, Copy)]
pub struct Layout {}

impl Layout {
    // The places, by tools/make/layout.py
    pub const ME: usize = 0;

    // Own data: 1 present, 0 absent; the bytes stand in two words, `OWN_LOW` and `OWN_HIGH`.
    pub const OWN_PRESENT: usize = 1;

    pub const OWN_LEN: usize = 2;

    // The settings, in the order of `Config`.
    pub const ACTIVE_VIEW_CAPACITY: usize = 3;

    pub const PASSIVE_VIEW_CAPACITY: usize = 4;

    pub const ACTIVE_RANDOM_WALK_LENGTH: usize = 5;

    pub const PASSIVE_RANDOM_WALK_LENGTH: usize = 6;

    pub const SHUFFLE_RANDOM_WALK_LENGTH: usize = 7;

    pub const SHUFFLE_ACTIVE_VIEW_COUNT: usize = 8;

    pub const SHUFFLE_PASSIVE_VIEW_COUNT: usize = 9;

    pub const SHUFFLE_INTERVAL: usize = 10;

    pub const NEIGHBOR_REQUEST_TIMEOUT: usize = 11;

    pub const TIMERS_SCHEDULED: usize = 12;

    pub const NEXT_SHUFFLE_INTERVAL: usize = 13;

    pub const PASSES_ALONE: usize = 14;

    pub const PASSES_SHORT: usize = 15;

    // The limit on refills: kind 0 Automatic, 1 Requests, 2 Recovery; the requests are 0 but in kind 1.
    pub const REFILL_KIND: usize = 16;

    pub const REFILL_REQUESTS: usize = 17;

    pub const NEXT_NEIGHBOR_REQUEST: usize = 18;

    pub const NEXT_JOIN: usize = 19;

    pub const OWN_LOW: usize = 20;

    pub const OWN_HIGH: usize = 21;

    // The sections: where each begins, its places, where its count stands and where it ends.
    pub const ACTIVE: usize = 22;

    pub const ACTIVE_PLACES: usize = base_columns::ACTIVE_PLACES;

    pub const ACTIVE_COUNT: usize = 30;

    pub const ACTIVE_END: usize = 31;

    pub const PASSIVE: usize = 31;

    pub const PASSIVE_PLACES: usize = 32;

    pub const PASSIVE_COUNT: usize = 63;

    pub const PASSIVE_END: usize = 64;

    pub const ALIVE: usize = 64;

    pub const ALIVE_PLACES: usize = 32;

    pub const ALIVE_COUNT: usize = 96;

    pub const ALIVE_END: usize = 97;

    pub const REFUSED: usize = 97;

    pub const REFUSED_PLACES: usize = 32;

    pub const REFUSED_COUNT: usize = 129;

    pub const REFUSED_END: usize = 130;

    pub const REQUESTS: usize = 130;

    pub const REQUESTS_PLACES: usize = 32;

    pub const REQUESTS_COUNT: usize = 194;

    pub const REQUESTS_END: usize = 195;

    pub const BOOTSTRAP: usize = 195;

    pub const BOOTSTRAP_PLACES: usize = 8;

    pub const BOOTSTRAP_COUNT: usize = 203;

    pub const BOOTSTRAP_END: usize = 204;

    pub const RECENT: usize = 204;

    pub const RECENT_PLACES: usize = 8;

    pub const RECENT_COUNT: usize = 212;

    pub const RECENT_END: usize = 213;

    pub const JOINS: usize = 213;

    pub const JOINS_PLACES: usize = 8;

    pub const JOINS_COUNT: usize = 229;

    pub const JOINS_END: usize = 230;

    pub const PEER_DATA: usize = 230;

    pub const PEER_DATA_PLACES: usize = 80;

    pub const PEER_DATA_COUNT: usize = 550;

    pub const PEER_DATA_END: usize = 551;

    pub const PINS: usize = 551;

    pub const PINS_PLACES: usize = 7;

    pub const PINS_COUNT: usize = 558;

    pub const PINS_END: usize = 559;

    // The words of a state, and where its numbers end.
    pub const LENGTH: usize = 559;

    pub const NUMBERS_END: usize = 22;
    // end
}

// The words of a state.
pub type Words = [u64; Layout::LENGTH];

// The last number of a request or a join (the Rust's `u64::MAX`), and the most passes that are counted (`u32::MAX`): past them is code 10.
pub const TOP_COUNTER: u64 = 18446744073709551615;

pub const TOP_PASSES: u64 = 4294967295;

// What bounds a refill; spec_hyparview/Station says of `Refill` why there are three cases.
#[derive(Clone, Copy)]
pub enum RefillLimit {
    Automatic,
    Requests(u64),
    Recovery,
}

// ---- own data and the limit on refills

// Own data as Join, Neighbor and Shuffle carry it.
pub fn own_data(st: &Words) -> Option<PeerData>
    requires packed_state { PackedState st.now }
    ensures { data_in result ≡ (unpack st.now).own_data }
{
    if st[Layout::OWN_PRESENT] == 0 {
        return None;
    }
    let len = st[Layout::OWN_LEN] as u8;
    let bytes = base_columns::bytes_of(st[Layout::OWN_LOW], st[Layout::OWN_HIGH]);
    Some(PeerData { len, bytes })
}

// The limit out of its two words, as a case to be matched.
pub fn limit_of(st: &Words) -> RefillLimit
    ensures { result ≡ limit_at st.now }
{
    match st[Layout::REFILL_KIND] {
        RefillLimit::AUTOMATIC => RefillLimit::Automatic,
        RefillLimit::REQUESTS_LEFT => RefillLimit::Requests(st[Layout::REFILL_REQUESTS]),
        _ => RefillLimit::Recovery,
    }
}

// The word of the requests is 0 but in its own case, so that one limit has one form in words.
pub fn keep_limit(st: &mut Words, l: RefillLimit)
    requires packed_state { PackedState st.old }
    ensures { Becomes st.new (set_refill (refill_in l) (unpack st.old)) }
{
    let (kind, requests) = match l {
        RefillLimit::Automatic => (RefillLimit::AUTOMATIC, 0),
        RefillLimit::Requests(n) => (RefillLimit::REQUESTS_LEFT, n),
        RefillLimit::Recovery => (RefillLimit::RECOVERY, 0),
    };
    st[Layout::REFILL_KIND] = kind;
    st[Layout::REFILL_REQUESTS] = requests;
}

impl RefillLimit {
    // The numbers of the cases, as the word of the limit's kind has them.
    pub const AUTOMATIC: u64 = 0;

    pub const REQUESTS_LEFT: u64 = 1;

    pub const RECOVERY: u64 = 2;

    // Steps test for this case alone: no limit replaces it, and no short pass counts while it runs.
    pub fn is_recovery(self) -> bool
        ensures { result ≡ is_recovery (refill_in self) }
    {
        matches!(self, RefillLimit::Recovery)
    }

    // A limit of `MAX_REQUESTS_PER_REFILL`, for a short station, which has probably full peers to ask.
    pub fn few_requests() -> RefillLimit
        ensures { refill_in result ≡ few_requests }
    {
        RefillLimit::Requests(Timing::MAX_REQUESTS_PER_REFILL as u64)
    }

    // No limit changes a recovery that runs, since it has to ask until somebody accepts.
    pub fn unless_recovery(self, new: RefillLimit) -> RefillLimit
        ensures { refill_in result ≡ unless_recovery (refill_in self) (refill_in new) }
    {
        if self.is_recovery() {
            return RefillLimit::Recovery;
        }
        new
    }
}

// ---- what several steps ask of the state

// The station is no peer of its own: it is in no view, and no data is held under it.
pub fn is_me(st: &Words, p: PeerId) -> bool
    ensures { result ≡ is_me p (unpack st.now) }
{
    p == st[Layout::ME]
}

// Whether p is a neighbor, that is, connected.
pub fn in_active(st: &Words, p: PeerId) -> bool
    requires packed_state { PackedState st.now }
    ensures { result ≡ in_active p (unpack st.now) }
{
    base_util::contains(
        &st[Layout::ACTIVE..Layout::ACTIVE_END],
        Layout::ACTIVE_PLACES,
        p,
    )
}

// Whether p is a spare peer, known but not connected.
pub fn in_passive(st: &Words, p: PeerId) -> bool
    requires packed_state { PackedState st.now }
    ensures { result ≡ in_passive p (unpack st.now) }
{
    base_util::contains(
        &st[Layout::PASSIVE..Layout::PASSIVE_END],
        Layout::PASSIVE_PLACES,
        p,
    )
}

// Whether a request to p is open: a Neighbor from p is then its answer, and a ShuffleReply from p comes before a refusal.
pub fn is_requested(st: &Words, p: PeerId) -> bool
    requires packed_state { PackedState st.now }
    ensures { result ≡ is_requested p (unpack st.now) }
{
    base_columns::contains_number(
        &st[Layout::REQUESTS..Layout::REQUESTS_END],
        Layout::REQUESTS_PLACES,
        p,
    )
}

// Whether there is no neighbor: requests then have high priority, and no shuffle can be sent.
pub fn is_alone(st: &Words) -> bool
    requires packed_state { PackedState st.now }
    ensures { result ≡ is_alone (unpack st.now) }
{
    st[Layout::ACTIVE_COUNT] == 0
}

// A full view refuses low priority, and gives up a neighbor for high priority.
pub fn active_is_full(st: &Words) -> bool
    requires packed_state { PackedState st.now }
    ensures { result ≡ active_is_full (unpack st.now) }
{
    st[Layout::ACTIVE_VIEW_CAPACITY] <= st[Layout::ACTIVE_COUNT]
}

// Fewer neighbors than half the capacity, rounded up: one place free is usual, since whoever could fill it is mostly full itself.
pub fn is_short(st: &Words) -> bool
    requires packed_state { PackedState st.now }
    ensures { result ≡ is_short (unpack st.now) }
{
    st[Layout::ACTIVE_COUNT] < (st[Layout::ACTIVE_VIEW_CAPACITY] + 1) / 2
}

// Whether a walk ends here for want of neighbors: the one that there is may have sent it.
pub fn is_last_hop(st: &Words) -> bool
    requires packed_state { PackedState st.now }
    ensures { result ≡ is_last_hop (unpack st.now) }
{
    st[Layout::ACTIVE_COUNT] <= 1
}

// ---- the open requests and the open joins of a peer: two functions of one line each, since one would be given the section, its places and
// the definition's step

// p was heard from, or its retry is sent now, so that no further Join goes to it.
pub fn drop_join(w: Work, st: &mut Words, p: PeerId) -> Work
    requires packed_state { PackedState st.old }
    ensures { Alters (on (drop_join p)) w result st }
{
    if w.code != 0 {
        return w;
    }
    base_columns::remove_number(
        &mut st[Layout::JOINS..Layout::JOINS_END],
        Layout::JOINS_PLACES,
        p,
    );
    w
}

// The request to p was answered, has failed or is void, and its timer is to do nothing any more.
pub fn drop_request(w: Work, st: &mut Words, p: PeerId) -> Work
    requires packed_state { PackedState st.old }
    ensures { Alters (on (drop_request p)) w result st }
{
    if w.code != 0 {
        return w;
    }
    base_columns::remove_number(
        &mut st[Layout::REQUESTS..Layout::REQUESTS_END],
        Layout::REQUESTS_PLACES,
        p,
    );
    w
}

// p joins or answers. Where it joins it knows nothing of an open request, which would keep its Join from being answered
// (spec_hyparview/Messages `drop_pending`).
pub fn drop_pending(w: Work, st: &mut Words, p: PeerId) -> Work
    requires packed_state { PackedState st.old }
    ensures { Alters (drop_pending p) w result st }
{
    let a = drop_join(w, st, p);
    drop_request(a, st, p)
}
