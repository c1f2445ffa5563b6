// The test of every station rule of document 01 on the words of a state.
#![tactic(auto)]

ghost use Rattle.std.specs.Prelude.{◌≡◌, true, false, MatchOption};
ghost use Rattle.base_peer.specs.Maps.{numbers_under};
ghost use Rattle.base_columns.specs.Columns.{numbers_at, ValidNumbers};
ghost use Rattle.spec_hyparview.specs.Rules.{settings_rule, repeats_rule, order_rule, joins_rule, numbers_rule, pins_rule};
ghost use Rattle.hyparview_state.specs.Unpack.{unpack};
ghost use Rattle.hyparview_rules.specs.Ok.{sections_ok, packed_ok, view_rules, state_ok, Keeps};

use base_timing::{Config, Timing};
use hyparview_state::{Layout, RefillLimit, Words};

// ---- a test of the numbers of a map

// Whether every number of the map is below `end`: one that is not would be given out again, and an old timer taken for a new one.
fn numbers_under(m: &[u64], cap: usize, end: u64) -> bool
    requires { ValidNumbers cap m.now }
    ensures { result ≡ numbers_under end (numbers_at cap m.now) }
{
    let last = cap + m[cap + cap] as usize;
    m[cap..last].iter().all(|&x| x < end)
}

// ---- whether words are a state's at all

// Whether every set and map is well formed, by tools/make/layout.py
fn sections_valid(st: &Words) -> bool
    ensures { result ≡ sections_ok st.now }
{
    base_util::is_section(
        &st[Layout::ACTIVE..Layout::ACTIVE_END],
        Layout::ACTIVE_PLACES,
    ) & base_util::is_section(
        &st[Layout::PASSIVE..Layout::PASSIVE_END],
        Layout::PASSIVE_PLACES,
    ) & base_util::is_section(&st[Layout::ALIVE..Layout::ALIVE_END], Layout::ALIVE_PLACES)
        & base_util::is_section(
            &st[Layout::REFUSED..Layout::REFUSED_END],
            Layout::REFUSED_PLACES,
        )
        & base_columns::numbers_valid(
            &st[Layout::REQUESTS..Layout::REQUESTS_END],
            Layout::REQUESTS_PLACES,
        )
        & base_util::is_section(
            &st[Layout::BOOTSTRAP..Layout::BOOTSTRAP_END],
            Layout::BOOTSTRAP_PLACES,
        )
        & base_util::is_section(
            &st[Layout::RECENT..Layout::RECENT_END],
            Layout::RECENT_PLACES,
        )
        & base_columns::numbers_valid(&st[Layout::JOINS..Layout::JOINS_END], Layout::JOINS_PLACES)
        & base_columns::data_valid(
            &st[Layout::PEER_DATA..Layout::PEER_DATA_END],
            Layout::PEER_DATA_PLACES,
        )
        & base_util::is_section(&st[Layout::PINS..Layout::PINS_END], Layout::PINS_PLACES)
}
// end

// Whether every part is well formed, with zeroes in the unused places, so that a station has one form in words; of any words. Tests are joined
// by `&` here and in the rules: to stop at the first that fails is no faster, and each stop would be a case of the proof.
fn is_packed(st: &Words) -> bool
    ensures { result ≡ packed_ok st.now }
{
    // A word that stands for a bool or a limit has one of its values. That every word has 64 bits is its type.
    (st[Layout::OWN_PRESENT] <= 1)
        & (st[Layout::TIMERS_SCHEDULED] <= 1)
        & (st[Layout::REFILL_KIND] <= RefillLimit::RECOVERY)
        & ((st[Layout::REFILL_KIND] == RefillLimit::REQUESTS_LEFT)
            | (st[Layout::REFILL_REQUESTS] == 0))
        // Own data is data: zeroes past its bytes, and no bytes where it is absent.
        & base_columns::row_valid(
            st[Layout::OWN_LEN],
            st[Layout::OWN_LOW],
            st[Layout::OWN_HIGH],
        )
        & ((st[Layout::OWN_PRESENT] == 1) | (st[Layout::OWN_LEN] == 0))
        & sections_valid(st)
}

// ---- the station rules

// The tops of the settings' ranges, as words.
const ACTIVE_TOP: u64 = Config::MOST_ACTIVE as u64;

const PASSIVE_TOP: u64 = Config::MOST_PASSIVE as u64;

const WALK_TOP: u64 = Config::LONGEST_WALK as u64;

const SHUFFLE_ACTIVE_TOP: u64 = Config::MOST_SHUFFLE_ACTIVE as u64;

const SHUFFLE_PASSIVE_TOP: u64 = Config::MOST_SHUFFLE_PASSIVE as u64;

const TIME_TOP: u64 = Config::LONGEST_TIME as u64;

// "settings in range"
fn settings_rule(st: &Words) -> bool
    ensures { result ≡ settings_rule (unpack st.now) }
{
    (1 <= st[Layout::ACTIVE_VIEW_CAPACITY])
        & (st[Layout::ACTIVE_VIEW_CAPACITY] <= ACTIVE_TOP)
        & (1 <= st[Layout::PASSIVE_VIEW_CAPACITY])
        & (st[Layout::PASSIVE_VIEW_CAPACITY] <= PASSIVE_TOP)
        & (st[Layout::ACTIVE_RANDOM_WALK_LENGTH] <= WALK_TOP)
        & (st[Layout::PASSIVE_RANDOM_WALK_LENGTH] <= WALK_TOP)
        & (st[Layout::SHUFFLE_RANDOM_WALK_LENGTH] <= WALK_TOP)
        & (st[Layout::SHUFFLE_ACTIVE_VIEW_COUNT] <= SHUFFLE_ACTIVE_TOP)
        & (st[Layout::SHUFFLE_PASSIVE_VIEW_COUNT] <= SHUFFLE_PASSIVE_TOP)
        & (1 <= st[Layout::SHUFFLE_INTERVAL])
        & (st[Layout::SHUFFLE_INTERVAL] <= TIME_TOP)
        & (1 <= st[Layout::NEIGHBOR_REQUEST_TIMEOUT])
        & (st[Layout::NEIGHBOR_REQUEST_TIMEOUT] <= TIME_TOP)
}

// "every list free of repeats"; maps and sets are, where they rise.
fn repeats_rule(st: &Words) -> bool
    requires { packed_ok st.now ≡ true }
    ensures { result ≡ repeats_rule (unpack st.now) }
{
    base_util::is_distinct(
        &st[Layout::ACTIVE..Layout::ACTIVE_END],
        Layout::ACTIVE_PLACES,
    ) & base_util::is_distinct(
        &st[Layout::PASSIVE..Layout::PASSIVE_END],
        Layout::PASSIVE_PLACES,
    ) & base_util::is_distinct(
        &st[Layout::BOOTSTRAP..Layout::BOOTSTRAP_END],
        Layout::BOOTSTRAP_PLACES,
    ) & base_util::is_distinct(
        &st[Layout::RECENT..Layout::RECENT_END],
        Layout::RECENT_PLACES,
    )
}

// "those for maps and sets in rising peer order"; a well formed map rises.
fn order_rule(st: &Words) -> bool
    requires { packed_ok st.now ≡ true }
    ensures { result ≡ order_rule (unpack st.now) }
{
    base_util::is_rising(&st[Layout::ALIVE..Layout::ALIVE_END], Layout::ALIVE_PLACES)
        & base_util::is_rising(
            &st[Layout::REFUSED..Layout::REFUSED_END],
            Layout::REFUSED_PLACES,
        )
        & base_util::is_rising(&st[Layout::PINS..Layout::PINS_END], Layout::PINS_PLACES)
}

// "views as in demand 3": disjoint and without the station itself; and the rules that hold other lists against the views.
fn views_rule(st: &Words) -> bool
    requires { packed_ok st.now ≡ true }
    ensures { result ≡ view_rules (unpack st.now) }
{
    let me = st[Layout::ME];
    let active = Layout::ACTIVE + st[Layout::ACTIVE_COUNT] as usize;
    let passive = Layout::PASSIVE + st[Layout::PASSIVE_COUNT] as usize;
    let alive = Layout::ALIVE + st[Layout::ALIVE_COUNT] as usize;
    base_scan::disjoint(&st[Layout::ACTIVE..active], &st[Layout::PASSIVE..passive])
        & !base_scan::is_in(&st[Layout::ACTIVE..active], me)
        & !base_scan::is_in(&st[Layout::PASSIVE..passive], me)
        // "alive marks passive"
        & base_scan::subset(&st[Layout::ALIVE..alive], &st[Layout::PASSIVE..passive])
        // 02, S-5: no data is held of a peer in neither view and without an open request.
        & base_columns::data_known(
            &st[Layout::PEER_DATA..Layout::PEER_DATA_END],
            Layout::PEER_DATA_PLACES,
            &st[Layout::ACTIVE..Layout::ACTIVE_END],
            &st[Layout::PASSIVE..Layout::PASSIVE_END],
            &st[Layout::REQUESTS..Layout::REQUESTS_END],
        )
}

// "pending joins bootstrap, not active, not self"
fn joins_rule(st: &Words) -> bool
    requires { packed_ok st.now ≡ true }
    ensures { result ≡ joins_rule (unpack st.now) }
{
    let n = st[Layout::JOINS_COUNT] as usize;
    if n == 0 {
        return true;
    }
    let joins = Layout::JOINS + n;
    let bootstrap = Layout::BOOTSTRAP + st[Layout::BOOTSTRAP_COUNT] as usize;
    let active = Layout::ACTIVE + st[Layout::ACTIVE_COUNT] as usize;
    base_scan::subset(&st[Layout::JOINS..joins], &st[Layout::BOOTSTRAP..bootstrap])
        & base_scan::disjoint(&st[Layout::JOINS..joins], &st[Layout::ACTIVE..active])
        & !base_scan::is_in(&st[Layout::JOINS..joins], st[Layout::ME])
}

// "open numbers below their counters"
fn numbers_rule(st: &Words) -> bool
    requires { packed_ok st.now ≡ true }
    ensures { result ≡ numbers_rule (unpack st.now) }
{
    let next_request = st[Layout::NEXT_NEIGHBOR_REQUEST];
    let next_join = st[Layout::NEXT_JOIN];
    numbers_under(
        &st[Layout::REQUESTS..Layout::REQUESTS_END],
        Layout::REQUESTS_PLACES,
        next_request,
    ) & numbers_under(
        &st[Layout::JOINS..Layout::JOINS_END],
        Layout::JOINS_PLACES,
        next_join,
    )
}

// 02, S-14: "pins on active peers only, within that limit", the active capacity less one.
fn pins_rule(st: &Words) -> bool
    requires { packed_ok st.now ≡ true }
    ensures { result ≡ pins_rule (unpack st.now) }
{
    let n = st[Layout::PINS_COUNT];
    let pins = Layout::PINS + n as usize;
    let active = Layout::ACTIVE + st[Layout::ACTIVE_COUNT] as usize;
    base_scan::subset(&st[Layout::PINS..pins], &st[Layout::ACTIVE..active])
        & ((n == 0) | (n < st[Layout::ACTIVE_VIEW_CAPACITY]))
}

// Whether well formed words keep every station rule. That sets and maps have room, bootstrap and recent peers are few and data are short is
// so of all of them.
fn keeps_rules(st: &Words) -> bool
    requires { packed_ok st.now ≡ true }
    ensures { result ≡ state_ok st.now }
{
    let me = st[Layout::ME];
    settings_rule(st)
        & repeats_rule(st)
        & order_rule(st)
        // "views as in demand 3": within capacity.
        & (st[Layout::ACTIVE_COUNT] <= st[Layout::ACTIVE_VIEW_CAPACITY])
        & (st[Layout::PASSIVE_COUNT] <= st[Layout::PASSIVE_VIEW_CAPACITY])
        & joins_rule(st)
        & numbers_rule(st)
        // "no data held under self"
        & !base_columns::contains_data(
            &st[Layout::PEER_DATA..Layout::PEER_DATA_END],
            Layout::PEER_DATA_PLACES,
            me,
        )
        // "`Requests` at most 3"; the requests are 0 in every other limit.
        & (st[Layout::REFILL_REQUESTS] <= Timing::MAX_REQUESTS_PER_REFILL as u64)
        // "next interval from 1 to the shuffle interval"
        & (1 <= st[Layout::NEXT_SHUFFLE_INTERVAL])
        & (st[Layout::NEXT_SHUFFLE_INTERVAL] <= st[Layout::SHUFFLE_INTERVAL])
        // "the two pass counts 32" bits. Peers and counters have 64 bits, and data is bytes, whatever the words are.
        & (st[Layout::PASSES_ALONE] <= hyparview_state::TOP_PASSES)
        & (st[Layout::PASSES_SHORT] <= hyparview_state::TOP_PASSES)
        & views_rule(st)
        & pins_rule(st)
}

// The words as a state's, where they keep every station rule, unused places included; of any words, however many.
pub fn checked(st: &[u64]) -> Option<&Words>
    ensures { MatchOption result (state_ok st.now ≡ false) (λ w. Keeps st.now w.now) }
{
    let Some(words) = st.as_array() else {
        return None;
    };
    if !is_packed(words) {
        return None;
    }
    keeps_rules(words).then_some(words)
}

// Whether the words are a state's and keep every station rule.
pub fn is_ok(st: &[u64]) -> bool
    ensures { result ≡ state_ok st.now }
{
    checked(st).is_some()
}
