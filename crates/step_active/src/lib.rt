// The active view: peers that leave it and peers that enter it (the definition's `Active`).
#![tactic(auto)]

ghost use Rattle.std.specs.Prelude.{◌≡◌, true, ◌<◌, length, get_or};
ghost use Rattle.base_lists.specs.Lists.{choose};
ghost use Rattle.base_peer.specs.Held.{data_in};
ghost use Rattle.spec_hyparview.specs.Run.{on};
ghost use Rattle.spec_hyparview.specs.Budgets.{adding, leaving, freeing, arriving};
ghost use Rattle.base_util.specs.Section.{working_places, working_words, HoldsSet};
ghost use Rattle.spec_hyparview.specs.Station.{without_pin};
ghost use Rattle.spec_hyparview.specs.Active.{drop_pin, drop_active, demote, mark_alive, demote_alive, remove_active_by_index, remove_active, free_random_slot_in_active_view};
ghost use Rattle.spec_hyparview.specs.Active.{move_in, add_active_unchecked, add_active};
ghost use Rattle.spec_hyparview.specs.Events.{remove_neighbor};
ghost use Rattle.hyparview_state.specs.Unpack.{unpack, PackedState, Becomes};
ghost use Rattle.hyparview_state.specs.Work.{GivenRoom, Given, Meets, Alters, Says, Makes};
ghost use Rattle.step_active.specs.Sane.{reason_in, FreeActive, FreeMark, Calm, Loose};

use base_peer::{PeerData, PeerId};
use base_timing::Timing;
use hyparview_state::{Layout, RefillLimit, Words};
use record::Kind;
use work::Work;

// Why a neighbor is gone that knows it already: the Rust's `RemovalReason` but for the random one.
#[derive(Clone, Copy)]
pub enum Loss {
    ConnectionClosed,
    DisconnectReceived(bool),
}

// ---- peers that leave

// 02, S-14: the pin of p, which is about to leave the active view, ends.
fn drop_pin(st: &mut Words, p: PeerId)
    requires packed_state { PackedState st.old }
    ensures { Becomes st.new (drop_pin p (unpack st.old)) }
{
    base_util::without(
        &mut st[Layout::PINS..Layout::PINS_END],
        Layout::PINS_PLACES,
        p,
    );
}

// p leaves the active view, and its pin ends: for Quit.
pub fn remove_neighbor(st: &mut Words, p: PeerId)
    requires packed_state { PackedState st.old }
    ensures { Becomes st.new (remove_neighbor p (unpack st.old)) }
{
    drop_pin(st, p);
    base_util::remove(
        &mut st[Layout::ACTIVE..Layout::ACTIVE_END],
        Layout::ACTIVE_PLACES,
        p,
    );
}

// p, the peer at place i, leaves with its notice, so that a listener's neighbors are always those of the view.
fn drop_active(w: Work, st: &mut Words, out: &mut [u8], i: usize, p: PeerId) -> Work
    requires given_room { GivenRoom w st out }
    requires i_in_bounds { i < length (unpack st.old).active }
    requires p_value { p ≡ get_or (unpack st.old).active i 0 }
    ensures { Says (drop_active i) w result st out }
{
    if w.code != 0 {
        return w;
    }
    drop_pin(st, p);
    base_util::remove_index(
        &mut st[Layout::ACTIVE..Layout::ACTIVE_END],
        Layout::ACTIVE_PLACES,
        i,
    );
    work::notify(w, out, Kind::NEIGHBOR_DOWN, p)
}

// p disconnected but stays alive: the mark keeps it as a passive peer when its connection is closed next.
pub fn mark_alive(w: Work, st: &mut Words, p: PeerId) -> Work
    requires packed_state { PackedState st.old }
    requires free_mark { FreeMark p w.code (unpack st.old) }
    ensures { Alters (on (mark_alive p)) w result st }
{
    if w.code != 0 {
        return w;
    }
    base_util::insert_sorted(
        &mut st[Layout::ALIVE..Layout::ALIVE_END],
        Layout::ALIVE_PLACES,
        p,
    );
    w
}

// A neighbor that goes but stays on the topic is a spare peer, with a mark where `alive`; its data is taken out and put in again,
// so it is told again, as in the Rust.
fn demote(w: Work, st: &mut Words, draws: &[u32], out: &mut [u8], p: PeerId, alive: bool) -> Work
    requires given { Given w st draws out }
    requires meets { alive ≡ true → Meets (Loose p 0 adding 1) w st draws out }
    ensures { Makes (choose alive (demote_alive p) (demote p)) w result st draws out }
{
    let d = base_columns::get_data(
        &st[Layout::PEER_DATA..Layout::PEER_DATA_END],
        Layout::PEER_DATA_PLACES,
        p,
    );
    let a = step_peers::drop_data(w, st, p);
    let t = step_peers::add_passive(a, st, draws, out, p, d);
    if alive {
        return mark_alive(t.work, st, p);
    }
    t.work
}

// A neighbor that failed or left the topic is forgotten; one that only dropped the link stays as a passive peer.
fn remove_active_by_index(
    w: Work,
    st: &mut Words,
    draws: &[u32],
    out: &mut [u8],
    i: usize,
    why: Loss,
) -> Work
    requires given { Given w st draws out }
    requires i_in_bounds { i < length (unpack st.old).active }
    requires meets { Meets (Calm 0 leaving 1) w st draws out }
    ensures { Makes (remove_active_by_index i (reason_in why)) w result st draws out }
{
    let p = base_util::get_index(
        &st[Layout::ACTIVE..Layout::ACTIVE_END],
        Layout::ACTIVE_PLACES,
        i,
    );
    let a = drop_active(w, st, out, i, p);
    match why {
        // An earlier mark keeps it as a passive peer.
        Loss::ConnectionClosed if step_peers::is_marked(st, p) => {
            let b = step_peers::drop_mark(a, st, p);
            demote(b, st, draws, out, p, false)
        }
        Loss::ConnectionClosed => step_peers::forget_peer(a, st, p),
        Loss::DisconnectReceived(true) => demote(a, st, draws, out, p, true),
        Loss::DisconnectReceived(false) => step_peers::forget_peer(a, st, p),
    }
}

// A lost neighbor starts a recovery, which asks until somebody accepts: others may have lost the same one and have room.
pub fn remove_active(
    w: Work,
    st: &mut Words,
    draws: &[u32],
    out: &mut [u8],
    p: PeerId,
    why: Loss,
) -> Work
    requires given { Given w st draws out }
    requires meets { Meets (Calm 0 leaving 1) w st draws out }
    ensures { Makes (remove_active p (reason_in why)) w result st draws out }
{
    if hyparview_state::in_active(st, p) {
        let i = base_util::position(
            &st[Layout::ACTIVE..Layout::ACTIVE_END],
            Layout::ACTIVE_PLACES,
            p,
        );
        let a = remove_active_by_index(w, st, draws, out, i, why);
        // Peers that refused may have room now, and the neighbor p is missing.
        let b = step_refill::clear_refused(a, st);
        return step_refill::start_refill(b, st, draws, out, RefillLimit::Recovery, &[p]);
    }
    w
}

// 02, S-14: the neighbors that may have to make room, as a working set.
fn without_pin(st: &Words, t: &mut [u64; base_util::WORKING_WORDS])
    requires packed_state { PackedState st.now }
    ensures { HoldsSet working_places t.new (without_pin (unpack st.now)) }
{
    base_util::copy_into(
        &st[Layout::ACTIVE..Layout::ACTIVE_END],
        Layout::ACTIVE_PLACES,
        t,
    );
    base_util::without_all(
        t,
        base_util::WORKING_PLACES,
        &st[Layout::PINS..Layout::PINS_END],
        Layout::PINS_PLACES,
    );
}

// High priority is never refused (the paper), so a random neighbor without a pin makes room; it is told, and stays as a passive peer.
fn free_random_slot_in_active_view(w: Work, st: &mut Words, draws: &[u32], out: &mut [u8]) -> Work
    requires given { Given w st draws out }
    requires meets { Meets (Calm 0 freeing 40) w st draws out }
    ensures { Makes free_random_slot_in_active_view w result st draws out }
{
    let mut from = [0u64; base_util::WORKING_WORDS];
    without_pin(st, &mut from);
    let n = from[base_util::WORKING_PLACES] as usize;
    if n == 0 {
        return w;
    }
    let t = work::draw_one_of(w, draws, n);
    let k = t.index;
    let p = from[k];
    let i = base_util::position(
        &st[Layout::ACTIVE..Layout::ACTIVE_END],
        Layout::ACTIVE_PLACES,
        p,
    );
    let a = drop_active(t.work, st, out, i, p);
    // p, which was picked to make room, is told and becomes a passive peer.
    let b = step_sending::send_disconnect(a, st, draws, out, p, true);
    demote(b, st, draws, out, p, true)
}

// ---- peers that enter

// p leaves the passive view, with its mark, as no peer is in both; it is noted as recent for the day when both views are empty.
fn move_in(w: Work, st: &mut Words, p: PeerId) -> Work
    requires packed_state { PackedState st.old }
    requires free_active { FreeActive w.code (unpack st.old) }
    ensures { Alters (on (move_in p)) w result st }
{
    let a = step_peers::remove_passive(w, st, p);
    let b = step_peers::drop_mark(a, st, p);
    if b.code != 0 {
        return b;
    }
    base_util::push(
        &mut st[Layout::ACTIVE..Layout::ACTIVE_END],
        Layout::ACTIVE_PLACES,
        p,
    );
    base_util::renew(
        &mut st[Layout::RECENT..Layout::RECENT_END],
        Layout::RECENT_PLACES,
        Timing::MAX_RECENT_NEIGHBORS,
        p,
    );
    b
}

// A gained neighbor ends the limit and the count of short passes, but not a recovery: one may not make up for all that were lost.
fn add_active_unchecked(
    w: Work,
    st: &mut Words,
    out: &mut [u8],
    p: PeerId,
    high: bool,
    reply: bool,
) -> Work
    requires given_room { GivenRoom w st out }
    requires free_active { FreeActive w.code (unpack st.old) }
    ensures { Says (add_active_unchecked p high reply) w result st out }
{
    // p enters the active view, with its notice.
    let a = move_in(w, st, p);
    let b = work::notify(a, out, Kind::NEIGHBOR_UP, p);
    if b.code != 0 {
        return b;
    }
    // A recovery goes on, any other limit is lifted, and the short passes are counted anew.
    let old = hyparview_state::limit_of(st);
    let limit = old.unless_recovery(RefillLimit::Automatic);
    hyparview_state::keep_limit(st, limit);
    st[Layout::PASSES_SHORT] = 0;
    step_sending::reply_neighbor(b, st, out, reply, p, high)
}

// A full view makes room for high priority, whose sender may have nobody else, and refuses low priority.
pub fn add_active(
    w: Work,
    st: &mut Words,
    draws: &[u32],
    out: &mut [u8],
    p: PeerId,
    d: Option<PeerData>,
    high: bool,
    reply: bool,
) -> Work
    requires given { Given w st draws out }
    requires meets { Meets (Calm 0 arriving 40) w st draws out }
    ensures { Makes (add_active p (data_in d) high reply) w result st draws out }
{
    if hyparview_state::is_me(st, p) {
        return w;
    }
    let a = step_peers::insert_peer_info(w, st, out, p, d);
    if hyparview_state::in_active(st, p) {
        return step_sending::reply_neighbor(a, st, out, reply, p, high);
    }
    match (hyparview_state::active_is_full(st), high) {
        (false, _) => add_active_unchecked(a, st, out, p, high, reply),
        // At a full view a peer of high priority takes the place of a random neighbor.
        (true, true) => {
            let b = free_random_slot_in_active_view(a, st, draws, out);
            add_active_unchecked(b, st, out, p, high, reply)
        }
        (true, false) => a,
    }
}
