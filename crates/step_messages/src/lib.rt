// The messages received but for the two of a shuffle (the definition's `Messages`).
#![tactic(auto)]

ghost use Rattle.std.specs.Prelude.{◌≤◌, length};
ghost use Rattle.base_lists.specs.Lists.{without};
ghost use Rattle.base_peer.specs.Held.{data_in, node_in};
ghost use Rattle.base_util.specs.Section.{BecomesSet};
ghost use Rattle.spec_hyparview.specs.Budgets.{leaving, arriving};
ghost use Rattle.spec_hyparview.specs.Run.{emit};
ghost use Rattle.spec_hyparview.specs.Messages.{forward_join_to, learn_joiner, on_forward_join};
ghost use Rattle.spec_hyparview.specs.Messages.{on_join, on_neighbor};
ghost use Rattle.spec_hyparview.specs.Messages.{note_refusal};
ghost use Rattle.spec_hyparview.specs.Messages.{on_disconnect};
ghost use Rattle.hyparview_state.specs.Unpack.{unpack, PackedState};
ghost use Rattle.hyparview_state.specs.Work.{Given, Meets, Alters, Makes, Emits};
ghost use Rattle.step_messages.specs.Between.{Between};

use base_peer::{PeerData, PeerId, PeerInfo};
use base_timing::Ttl;
use hyparview_state::{Layout, Words};
use record::{Message, Refusal};
use step_active::Loss;
use work::Work;

// The neighbors but p, as a working set: a walk does not turn back to its sender, and who joins need not hear of itself.
fn other_active(st: &Words, p: PeerId, t: &mut [u64; base_util::WORKING_WORDS])
    requires packed_state { PackedState st.now }
    ensures { BecomesSet t (without p (unpack st.now).active) }
{
    base_util::copy_into(
        &st[Layout::ACTIVE..Layout::ACTIVE_END],
        Layout::ACTIVE_PLACES,
        t,
    );
    base_util::without(t, base_util::WORKING_PLACES, p);
}

// ---- ForwardJoin

// Where the walk has the passive length left (the paper's PRWL), the one who joins goes to the passive view.
fn learn_joiner(
    w: Work,
    st: &mut Words,
    draws: &[u32],
    out: &mut [u8],
    n: PeerInfo,
    ttl: u16,
) -> Work
    requires given { Given w st draws out }
    ensures { Makes (learn_joiner (node_in n) ttl) w result st draws out }
{
    if ttl as u64 == st[Layout::PASSIVE_RANDOM_WALK_LENGTH] {
        let t = step_peers::add_passive(w, st, draws, out, n.id, n.data);
        return t.work;
    }
    w
}

// The data is that of the message, also where other data of the peer is held.
fn forward_join_to(w: Work, out: &mut [u8], n: PeerInfo, ttl: u16, q: PeerId) -> Work
    requires { w.written ≤ length out.old }
    ensures { Emits (emit (forward_join_to (node_in n) ttl q)) w result out }
{
    work::send_node(w, out, Message::FORWARD_JOIN, q, 0, ttl, n)
}

// Where the walk ends, the one who joins is asked and enters when it answers: a peer out of reach takes no place.
pub fn on_forward_join(
    w: Work,
    st: &mut Words,
    draws: &[u32],
    out: &mut [u8],
    from: PeerId,
    n: PeerInfo,
    ttl: u16,
) -> Work
    requires given { Given w st draws out }
    ensures { Makes (on_forward_join from (node_in n) ttl) w result st draws out }
{
    let t = Ttl(ttl);
    if hyparview_state::in_active(st, n.id) | (t.expired() | hyparview_state::is_last_hop(st)) {
        // The walk ends here. Neighbor to the one who joins; it enters the active view once it answers.
        let told = step_peers::insert_peer_info(w, st, out, n.id, n.data);
        return step_sending::send_neighbor(told, st, out, n.id, true);
    }
    let learned = learn_joiner(w, st, draws, out, n, ttl);
    if hyparview_state::is_requested(st, n.id) {
        return learned;
    }
    // It goes on to one of the other neighbors. There is one (`never_unreachable`): of none the definition picks 0.
    let mut v = [0u64; base_util::WORKING_WORDS];
    other_active(st, from, &mut v);
    let k = base_util::count(&v, base_util::WORKING_PLACES);
    let left = t.next();
    if k == 0 {
        return forward_join_to(learned, out, n, left.0, 0);
    }
    let chosen = work::draw_one_of(learned, draws, k);
    let q = base_util::get_index(&v, base_util::WORKING_PLACES, chosen.index);
    forward_join_to(chosen.work, out, n, left.0, q)
}

// ---- Disconnect

// p refused a request, where one was open, so that low priority skips it from now on; code 7 where a 33rd would be needed.
fn note_refusal(w: Work, st: &mut Words, p: PeerId, requested: bool) -> Work
    requires packed_state { PackedState st.old }
    ensures { Alters (note_refusal p requested) w result st }
{
    if requested {
        let n = base_util::count(
            &st[Layout::REFUSED..Layout::REFUSED_END],
            Layout::REFUSED_PLACES,
        );
        let fits = base_util::contains(
            &st[Layout::REFUSED..Layout::REFUSED_END],
            Layout::REFUSED_PLACES,
            p,
        ) | (n < Layout::REFUSED_PLACES);
        let a = w.require(Refusal::RefusedPeers, fits);
        if a.code != 0 {
            return a;
        }
        base_util::insert_sorted(
            &mut st[Layout::REFUSED..Layout::REFUSED_END],
            Layout::REFUSED_PLACES,
            p,
        );
        return a;
    }
    w
}

// Alive says that only the link goes, so its sender stays a spare peer; else it is not on the topic, and is asked no more.
pub fn on_disconnect(
    w: Work,
    st: &mut Words,
    draws: &[u32],
    out: &mut [u8],
    p: PeerId,
    alive: bool,
) -> Work
    requires given { Given w st draws out }
    requires meets { Meets (Between 0 leaving 1) w st draws out }
    ensures { Makes (on_disconnect p alive) w result st draws out }
{
    let requested = hyparview_state::is_requested(st, p);
    // Neither a join nor a request to p is open; and whoever went away for good cannot let the station in again, so it is not kept for a rejoin.
    let closed = hyparview_state::drop_join(w, st, p);
    if !alive & (closed.code == 0) {
        base_util::without(
            &mut st[Layout::RECENT..Layout::RECENT_END],
            Layout::RECENT_PLACES,
            p,
        );
    }
    let ended = hyparview_state::drop_request(closed, st, p);
    if hyparview_state::in_active(st, p) {
        let loss = Loss::DisconnectReceived(alive);
        return step_active::remove_active(ended, st, draws, out, p, loss);
    }
    if alive {
        let noted = note_refusal(ended, st, p, requested);
        // A passive peer that disconnected alive is marked.
        if hyparview_state::in_passive(st, p) {
            return step_active::mark_alive(noted, st, p);
        }
        return noted;
    }
    // p left the topic, so it is no longer asked; another is asked in its place where a request to it was open.
    let dropped = step_peers::drop_passive(ended, st, p);
    if requested {
        return step_refill::refill_active_from_passive(dropped, st, draws, out, &[p]);
    }
    dropped
}

// ---- Join and Neighbor

// Who joins may know nobody else: it enters even if a random neighbor must go, and ForwardJoins make it known further off (the paper).
// Why an open request to it is dropped first, the definition says (spec_hyparview/Messages `drop_pending`).
pub fn on_join(
    w: Work,
    st: &mut Words,
    draws: &[u32],
    out: &mut [u8],
    p: PeerId,
    d: Option<PeerData>,
) -> Work
    requires given { Given w st draws out }
    requires meets { Meets (Between 0 arriving 40) w st draws out }
    ensures { Makes (on_join p (data_in d)) w result st draws out }
{
    let a = hyparview_state::drop_pending(w, st, p);
    let mut b = step_active::add_active(a, st, draws, out, p, d, true, true);
    // ForwardJoin to all neighbors but the one who joins.
    let mut v = [0u64; base_util::WORKING_WORDS];
    other_active(st, p, &mut v);
    let k = base_util::count(&v, base_util::WORKING_PLACES);
    let ttl = st[Layout::ACTIVE_RANDOM_WALK_LENGTH] as u16;
    let n = PeerInfo { id: p, data: d };
    for &q in &v[..k] {
        b = forward_join_to(b, out, n, ttl, q);
    }
    b
}

// Neighbor from a peer with an open request is its reply, and is not answered (spec_hyparview/Sending `send_neighbor` says why).
pub fn on_neighbor(
    w: Work,
    st: &mut Words,
    draws: &[u32],
    out: &mut [u8],
    p: PeerId,
    d: Option<PeerData>,
    high: bool,
) -> Work
    requires given { Given w st draws out }
    requires meets { Meets (Between 0 arriving 40) w st draws out }
    ensures { Makes (on_neighbor p (data_in d) high) w result st draws out }
{
    let requested = hyparview_state::is_requested(st, p);
    let a = hyparview_state::drop_pending(w, st, p);
    // Whether p is in the active view after it was to enter it.
    let accepted = !hyparview_state::is_me(st, p)
        & (hyparview_state::in_active(st, p) | (high | !hyparview_state::active_is_full(st)));
    let b = step_active::add_active(a, st, draws, out, p, d, high, !requested);
    if accepted {
        return b;
    }
    // A peer that is not taken in is told so, and forgotten again.
    let e = step_sending::send_disconnect(b, st, draws, out, p, true);
    step_peers::forget_peer(e, st, p)
}
