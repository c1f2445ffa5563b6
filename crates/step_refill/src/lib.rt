// How the active view is refilled from the passive view (the definition's `Refill`).
#![tactic(auto)]

ghost use Rattle.std.specs.Prelude.{◌≡◌, length};
ghost use Rattle.base_util.specs.Section.{working_words, BecomesSet};
ghost use Rattle.spec_hyparview.specs.Station.{asked_outside, is_spent};
ghost use Rattle.spec_hyparview.specs.Run.{on};
ghost use Rattle.spec_hyparview.specs.Refill.{end_recovery, use_request, limit_short, begin_refill, candidates, refill_limited, refill_active_from_passive, start_refill};
ghost use Rattle.spec_hyparview.specs.Active.{clear_refused};
ghost use Rattle.hyparview_state.specs.Unpack.{unpack, refill_in, PackedState};
ghost use Rattle.hyparview_state.specs.Work.{Given, Alters, Makes};

use base_peer::PeerId;
use hyparview_state::{Layout, RefillLimit, Words};
use work::Work;

// The peers asked that are not neighbors: a Neighbor open to a neighbor is an answer, and that peer counts once, in the active view.
fn asked_outside(st: &Words, t: &mut [u64; base_util::WORKING_WORDS])
    requires packed_state { PackedState st.now }
    ensures { BecomesSet t (asked_outside (unpack st.now)) }
{
    base_columns::keys_into(
        &st[Layout::REQUESTS..Layout::REQUESTS_END],
        Layout::REQUESTS_PLACES,
        t,
    );
    base_util::without_all(
        t,
        base_util::WORKING_PLACES,
        &st[Layout::ACTIVE..Layout::ACTIVE_END],
        Layout::ACTIVE_PLACES,
    );
}

// A recovery that has no request in flight is over: until then an answer may still bring new peers to ask.
pub fn end_recovery(w: Work, st: &mut Words) -> Work
    requires packed_state { PackedState st.old }
    ensures { Alters (on end_recovery) w result st }
{
    let mut t = [0u64; base_util::WORKING_WORDS];
    asked_outside(st, &mut t);
    let limit = hyparview_state::limit_of(st);
    if (w.code == 0) & (limit.is_recovery() & (t[base_util::WORKING_PLACES] == 0)) {
        hyparview_state::keep_limit(st, RefillLimit::Automatic);
    }
    w
}

// The passive peers to ask, as a working set, without who refused, else the same full ones would be asked again and again;
// at high priority nobody refuses.
fn candidates(st: &Words, skip: &[PeerId], t: &mut [u64; base_util::WORKING_WORDS])
    requires packed_state { PackedState st.now }
    ensures { BecomesSet t (candidates skip.now (unpack st.now)) }
{
    // Not those in `skip`.
    base_util::copy_into(
        &st[Layout::PASSIVE..Layout::PASSIVE_END],
        Layout::PASSIVE_PLACES,
        t,
    );
    let n = t[base_util::WORKING_PLACES] as usize;
    let m = base_util::without_all_in(&mut t[..base_util::WORKING_PLACES], n, skip);
    t[base_util::WORKING_PLACES] = m as u64;
    // Nor those that a request is open to.
    let mut asked = [0u64; base_util::WORKING_WORDS];
    base_columns::keys_into(
        &st[Layout::REQUESTS..Layout::REQUESTS_END],
        Layout::REQUESTS_PLACES,
        &mut asked,
    );
    base_util::without_all(
        t,
        base_util::WORKING_PLACES,
        &asked,
        base_util::WORKING_PLACES,
    );
    // Those that refused are asked again where there is no neighbor.
    if hyparview_state::is_alone(st) {
        return;
    }
    base_util::without_all(
        t,
        base_util::WORKING_PLACES,
        &st[Layout::REFUSED..Layout::REFUSED_END],
        Layout::REFUSED_PLACES,
    );
}

// A limit that has no request left: no peer is asked until another limit takes its place.
pub fn is_spent(limit: RefillLimit) -> bool
    ensures { result ≡ is_spent (refill_in limit) }
{
    match limit {
        RefillLimit::Requests(left) => left == 0,
        _ => false,
    }
}

// One request of the limit is used, where it counts requests.
fn use_request(w: Work, st: &mut Words) -> Work
    requires packed_state { PackedState st.old }
    ensures { Alters (on use_request) w result st }
{
    if w.code != 0 {
        return w;
    }
    let RefillLimit::Requests(left) = hyparview_state::limit_of(st) else {
        return w;
    };
    hyparview_state::keep_limit(st, RefillLimit::Requests(left.saturating_sub(1)));
    w
}

// A refill for which no limit is set gets one at a short station with neighbors.
fn limit_short(w: Work, st: &mut Words) -> Work
    requires packed_state { PackedState st.old }
    ensures { Alters (on limit_short) w result st }
{
    if w.code != 0 {
        return w;
    }
    if hyparview_state::is_alone(st) | !hyparview_state::is_short(st) {
        return w;
    }
    if let RefillLimit::Automatic = hyparview_state::limit_of(st) {
        hyparview_state::keep_limit(st, RefillLimit::few_requests());
    }
    w
}

// One passive peer is asked at a time, with high priority, which nobody may refuse, only where there is no neighbor at all;
// where none is left to ask, a recovery may be over.
fn refill_limited(w: Work, st: &mut Words, draws: &[u32], out: &mut [u8], skip: &[PeerId]) -> Work
    requires given { Given w st draws out }
    ensures { Makes (refill_limited skip.now) w result st draws out }
{
    let mut from = [0u64; base_util::WORKING_WORDS];
    candidates(st, skip, &mut from);
    let n = from[base_util::WORKING_PLACES] as usize;
    if n == 0 {
        return end_recovery(w, st);
    }
    let high = hyparview_state::is_alone(st);
    let t = work::draw_one_of(w, draws, n);
    let i = t.index;
    let p = from[i];
    let a = step_sending::send_neighbor(t.work, st, out, p, high);
    use_request(a, st)
}

// A place left by a neighbor goes to a random passive peer, as in the paper; `skip` has the one just lost, which is not asked.
pub fn refill_active_from_passive(
    w: Work,
    st: &mut Words,
    draws: &[u32],
    out: &mut [u8],
    skip: &[PeerId],
) -> Work
    requires given { Given w st draws out }
    ensures { Makes (refill_active_from_passive skip.now) w result st draws out }
{
    // None where neighbors and requests fill the active view, or the limit is spent.
    let mut t = [0u64; base_util::WORKING_WORDS];
    asked_outside(st, &mut t);
    if (st[Layout::ACTIVE_VIEW_CAPACITY] <= st[Layout::ACTIVE_COUNT] + t[base_util::WORKING_PLACES])
        | is_spent(hyparview_state::limit_of(st))
    {
        return w;
    }
    let a = limit_short(w, st);
    refill_limited(a, st, draws, out, skip)
}

// A recovery that is under way keeps its freedom to ask until somebody accepts (spec_hyparview/Station `Refill`).
fn begin_refill(w: Work, st: &mut Words, limit: RefillLimit) -> Work
    requires packed_state { PackedState st.old }
    ensures { Alters (on (begin_refill (refill_in limit))) w result st }
{
    if w.code != 0 {
        return w;
    }
    let old = hyparview_state::limit_of(st);
    hyparview_state::keep_limit(st, old.unless_recovery(limit));
    w
}

// A refill with this limit, which replaces any other but a recovery.
pub fn start_refill(
    w: Work,
    st: &mut Words,
    draws: &[u32],
    out: &mut [u8],
    limit: RefillLimit,
    skip: &[PeerId],
) -> Work
    requires given { Given w st draws out }
    ensures { Makes (start_refill (refill_in limit) skip.now) w result st draws out }
{
    let a = begin_refill(w, st, limit);
    refill_active_from_passive(a, st, draws, out, skip)
}

// Who refused was full then, and may have room by now.
pub fn clear_refused(w: Work, st: &mut Words) -> Work
    requires packed_state { PackedState st.old }
    ensures { Alters (on clear_refused) w result st }
{
    if w.code != 0 {
        return w;
    }
    base_util::clear(
        &mut st[Layout::REFUSED..Layout::REFUSED_END],
        Layout::REFUSED_PLACES,
    );
    w
}
