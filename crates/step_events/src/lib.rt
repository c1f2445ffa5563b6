// What comes from the station's own side: a request to join, new data of its own, a closed connection, and Quit (the definition's `Events`).
#![tactic(auto)]

ghost use Rattle.base_peer.specs.Held.{data_in};
ghost use Rattle.spec_hyparview.specs.Budgets.{leaving};
ghost use Rattle.spec_hyparview.specs.Run.{on};
ghost use Rattle.spec_hyparview.specs.Events.{push_bootstrap, handle_join, lose_passive, handle_connection_closed, update_own_data, handle_pin, clear_all, handle_quit};
ghost use Rattle.hyparview_state.specs.Unpack.{unpack, PackedState, Becomes};
ghost use Rattle.hyparview_state.specs.Work.{GivenRoom, Given, Meets, Alters, Says, Makes};
ghost use Rattle.step_active.specs.Sane.{Calm};
ghost use Rattle.step_events.specs.Free.{KnownJoins};

use base_peer::{PeerData, PeerId};
use base_timing::Timing;
use hyparview_state::{Layout, Words};
use record::{Kind, Refusal};
use step_active::Loss;
use work::Work;

// The latest contacts are kept for a rejoin; a ninth evicts the oldest and its open join, since joins are open to these alone.
fn push_bootstrap(w: Work, st: &mut Words, p: PeerId) -> Work
    requires packed_state { PackedState st.old }
    ensures { Alters (on (push_bootstrap p)) w result st }
{
    if w.code != 0 {
        return w;
    }
    // p is taken out: how many are left, and the oldest of them.
    base_util::without(
        &mut st[Layout::BOOTSTRAP..Layout::BOOTSTRAP_END],
        Layout::BOOTSTRAP_PLACES,
        p,
    );
    let n = st[Layout::BOOTSTRAP_COUNT];
    let old = st[Layout::BOOTSTRAP];
    base_util::renew(
        &mut st[Layout::BOOTSTRAP..Layout::BOOTSTRAP_END],
        Layout::BOOTSTRAP_PLACES,
        Timing::MAX_BOOTSTRAP_PEERS,
        p,
    );
    // A ninth: the oldest has left, and its open join goes with it.
    if n < Timing::MAX_BOOTSTRAP_PEERS as u64 {
        return w;
    }
    base_columns::remove_number(
        &mut st[Layout::JOINS..Layout::JOINS_END],
        Layout::JOINS_PLACES,
        old,
    );
    w
}

// A neighbor gets no Join: it would tell all its neighbors, and views would change for nothing.
// A Join may be lost without a sign, so it is sent once more later (spec_hyparview/Events `await_join`).
pub fn handle_join(w: Work, st: &mut Words, out: &mut [u8], p: PeerId) -> Work
    requires given_room { GivenRoom w st out }
    requires known_joins { KnownJoins w.code (unpack st.old) }
    ensures { Says (handle_join p) w result st out }
{
    let a = push_bootstrap(w, st, p);
    if hyparview_state::in_active(st, p) {
        return a;
    }
    // The station itself gets a Join too, but no retry.
    let b = step_sending::join(a, st, out, p);
    if hyparview_state::is_me(st, p) {
        return b;
    }
    // Code 10 where no number is left for a join.
    let id = st[Layout::NEXT_JOIN];
    let d = b.require(Refusal::Counter, id < hyparview_state::TOP_COUNTER);
    if d.code != 0 {
        return d;
    }
    base_columns::insert_number(
        &mut st[Layout::JOINS..Layout::JOINS_END],
        Layout::JOINS_PLACES,
        p,
        id,
    );
    st[Layout::NEXT_JOIN] = id + 1;
    let delay = Timing::JOIN_RETRY_DELAY as u64;
    work::schedule(d, out, Kind::RETRY_JOIN, p, delay, id)
}

// A mark saves a passive peer once: this may be the close that its alive Disconnect announced.
fn lose_passive(w: Work, st: &mut Words, p: PeerId) -> Work
    requires packed_state { PackedState st.old }
    ensures { Alters (lose_passive p) w result st }
{
    if step_peers::is_marked(st, p) {
        return step_peers::drop_mark(w, st, p);
    }
    let a = step_peers::remove_passive(w, st, p);
    step_peers::drop_data(a, st, p)
}

// No answer to an open request can come any more, so another peer is asked at once, without waiting for the request's timer.
pub fn handle_connection_closed(
    w: Work,
    st: &mut Words,
    draws: &[u32],
    out: &mut [u8],
    p: PeerId,
) -> Work
    requires given { Given w st draws out }
    requires meets { Meets (Calm 0 leaving 1) w st draws out }
    ensures { Makes (handle_connection_closed p) w result st draws out }
{
    let requested = hyparview_state::is_requested(st, p);
    let a = hyparview_state::drop_request(w, st, p);
    if hyparview_state::in_active(st, p) {
        return step_active::remove_active(a, st, draws, out, p, Loss::ConnectionClosed);
    }
    // No neighbor; where it was asked, another one is.
    let b = lose_passive(a, st, p);
    if requested {
        return step_refill::refill_active_from_passive(b, st, draws, out, &[p]);
    }
    b
}

// Nothing is sent now: others hear of it by the next Join, Neighbor or Shuffle.
pub fn update_own_data(w: Work, st: &mut Words, d: Option<PeerData>) -> Work
    requires packed_state { PackedState st.old }
    ensures { Alters (on (update_own_data (data_in d))) w result st }
{
    if w.code != 0 {
        return w;
    }
    match d {
        Some(d) => {
            st[Layout::OWN_PRESENT] = 1;
            st[Layout::OWN_LEN] = d.len as u64;
            st[Layout::OWN_LOW] = base_columns::word_at(d.bytes, 0);
            st[Layout::OWN_HIGH] = base_columns::word_at(d.bytes, base_columns::WORD);
            w
        }
        None => {
            st[Layout::OWN_PRESENT] = 0;
            st[Layout::OWN_LEN] = 0;
            st[Layout::OWN_LOW] = 0;
            st[Layout::OWN_HIGH] = 0;
            w
        }
    }
}

// 02, S-14: the neighbor p gets a pin, so that no arrival costs it its place. Code 17 where it is none, 18 where no more may have one.
pub fn handle_pin(w: Work, st: &mut Words, p: PeerId) -> Work
    requires packed_state { PackedState st.old }
    ensures { Alters (handle_pin p) w result st }
{
    let active = hyparview_state::in_active(st, p);
    let a = w.require(Refusal::PinStranger, active);
    let pinned = base_util::contains(&st[Layout::PINS..Layout::PINS_END], Layout::PINS_PLACES, p);
    let more = st[Layout::PINS_COUNT] + 1;
    let b = a.require(
        Refusal::PinLimit,
        pinned | (more < st[Layout::ACTIVE_VIEW_CAPACITY]),
    );
    if b.code != 0 {
        return b;
    }
    base_util::insert_sorted(
        &mut st[Layout::PINS..Layout::PINS_END],
        Layout::PINS_PLACES,
        p,
    );
    b
}

// Nothing is held of other peers any more; contacts, recent neighbors, open joins and counts stay, as in the Rust.
fn clear_all(st: &mut Words)
    requires packed_state { PackedState st.old }
    ensures { Becomes st.new (clear_all (unpack st.old)) }
{
    base_util::clear(
        &mut st[Layout::REFUSED..Layout::REFUSED_END],
        Layout::REFUSED_PLACES,
    );
    base_util::clear(
        &mut st[Layout::ALIVE..Layout::ALIVE_END],
        Layout::ALIVE_PLACES,
    );
    base_util::clear_from(&mut st[Layout::PEER_DATA..Layout::PEER_DATA_END], 0);
    base_util::clear(
        &mut st[Layout::PASSIVE..Layout::PASSIVE_END],
        Layout::PASSIVE_PLACES,
    );
    base_util::clear_from(&mut st[Layout::REQUESTS..Layout::REQUESTS_END], 0);
}

// Each neighbor is told that the station leaves for good, so that it forgets it; no NeighborDown, since the user asked for it.
pub fn handle_quit(w: Work, st: &mut Words, draws: &[u32], out: &mut [u8]) -> Work
    requires given { Given w st draws out }
    ensures { Makes handle_quit w result st draws out }
{
    if w.code != 0 {
        return w;
    }
    let mut v = [0u64; base_util::WORKING_WORDS];
    base_util::copy_into(
        &st[Layout::ACTIVE..Layout::ACTIVE_END],
        Layout::ACTIVE_PLACES,
        &mut v,
    );
    let n = base_util::count(&v, base_util::WORKING_PLACES);
    let mut r = w;
    for &p in &v[..n] {
        // It leaves the active view.
        step_active::remove_neighbor(st, p);
        r = step_sending::send_disconnect(r, st, draws, out, p, false);
        if r.code != 0 {
            return r;
        }
    }
    clear_all(st);
    r
}
