// The two messages of a shuffle (the definition's `Messages`).
#![tactic(auto)]

ghost use Rattle.std.specs.Prelude.{◌≡◌, true};
ghost use Rattle.record.specs.Read.{well_formed, header_of, nodes_of};
ghost use Rattle.record_writer.specs.Nodes.{nodes_in};
ghost use Rattle.spec_hyparview.specs.Peers.{add_nodes, any_new};
ghost use Rattle.spec_hyparview.specs.Messages.{on_shuffle, on_shuffle_reply};
ghost use Rattle.hyparview_state.specs.Work.{Given, run_met, Makes, GivenSeen, MakesSeen};
ghost use Rattle.step_shuffling.specs.Passing.{pass_shuffle};

use base_peer::PeerId;
use base_timing::Ttl;
use hyparview_state::{Layout, RefillLimit, Words};
use record::Message;
use record_writer::Nodes;
use work::Work;

// The work after an event's nodes were learned, and whether one of them was new.
#[derive(Clone, Copy)]
struct Learned {
    work: Work,
    fresh: bool,
}

// The n nodes of the event b become passive peers: shuffles keep that view a fresh sample of the swarm, for when neighbors fail.
fn add_nodes(w: Work, st: &mut Words, draws: &[u32], out: &mut [u8], b: &[u8], n: usize) -> Learned
    requires given { Given w st draws out }
    requires b_value { well_formed b.now ≡ true }
    requires n_value { n ≡ (header_of b.now).nodes }
    ensures makes { Makes (add_nodes (nodes_of b.now 0 n)) w result.work st draws out }
    ensures fresh_value { result.fresh ≡ any_new (nodes_of b.now 0 n) (run_met w st draws out) }
{
    let mut a = w;
    let mut fresh = false;
    for i in 0..n {
        let x = record::peer_info_at(b, i);
        fresh |= step_peers::is_newcomer(st, x.id);
        let t = step_peers::add_passive(a, st, draws, out, x.id, x.data);
        a = t.work;
    }
    Learned { work: a, fresh }
}

// The n nodes of the event b, to be written again: on its walk a Shuffle keeps the nodes of its origin.
fn event_nodes(b: &[u8], n: usize) -> Nodes
    requires b_value { well_formed b.now ≡ true }
    requires n_value { n ≡ (header_of b.now).nodes }
    ensures { nodes_in result ≡ nodes_of b.now 0 n }
{
    let mut t = Nodes::new();
    for i in 0..n {
        t.push(record::peer_info_at(b, i));
    }
    t
}

// Not back to the sender, nor to the origin, which would shuffle with itself; where nobody else is left the Shuffle ends unanswered.
fn pass_shuffle(
    w: Work,
    st: &Words,
    draws: &[u32],
    out: &mut [u8],
    from: PeerId,
    origin: PeerId,
    b: &[u8],
    n: usize,
    ttl: u16,
) -> Work
    requires given { GivenSeen w st draws out }
    requires b_value { well_formed b.now ≡ true }
    requires n_value { n ≡ (header_of b.now).nodes }
    ensures { MakesSeen (pass_shuffle from origin (nodes_of b.now 0 n) ttl st) w result st draws out }
{
    let mut v = [0u64; base_util::WORKING_WORDS];
    base_util::copy_into(
        &st[Layout::ACTIVE..Layout::ACTIVE_END],
        Layout::ACTIVE_PLACES,
        &mut v,
    );
    // A set of two places, which are both in use.
    base_util::without_all(&mut v, base_util::WORKING_PLACES, &[origin, from, 2], 2);
    if base_util::is_empty(&v, base_util::WORKING_PLACES) {
        return w;
    }
    let t = work::draw_one_of(w, draws, base_util::count(&v, base_util::WORKING_PLACES));
    let q = base_util::get_index(&v, base_util::WORKING_PLACES, t.index);
    let hops = Ttl(ttl);
    let left = hops.next();
    work::send_nodes(
        t.work,
        out,
        Message::SHUFFLE,
        q,
        origin,
        left.0,
        &event_nodes(b, n),
    )
}

// A walk ends where its hops are used up, or where too few neighbors are left to go on; there it is answered.
pub fn on_shuffle(
    w: Work,
    st: &mut Words,
    draws: &[u32],
    out: &mut [u8],
    from: PeerId,
    origin: PeerId,
    b: &[u8],
    n: usize,
    ttl: u16,
) -> Work
    requires given { Given w st draws out }
    requires b_value { well_formed b.now ≡ true }
    requires n_value { n ≡ (header_of b.now).nodes }
    ensures { Makes (on_shuffle from origin (nodes_of b.now 0 n) ttl) w result st draws out }
{
    let hops = Ttl(ttl);
    if hops.expired() | hyparview_state::is_last_hop(st) {
        // The nodes are learned, and as many others go to the Shuffle's origin.
        let t = add_nodes(w, st, draws, out, b, n);
        return step_sending::send_shuffle_reply(t.work, st, draws, out, origin, n);
    }
    pass_shuffle(w, st, draws, out, from, origin, b, n, ttl)
}

// New peers let a station with a free place ask one; what comes before a refusal does so only where it is short
// (spec_hyparview/Messages `stops_at_refusal`, `renews_limit`).
pub fn on_shuffle_reply(
    w: Work,
    st: &mut Words,
    draws: &[u32],
    out: &mut [u8],
    from: PeerId,
    b: &[u8],
    n: usize,
) -> Work
    requires given { Given w st draws out }
    requires b_value { well_formed b.now ≡ true }
    requires n_value { n ≡ (header_of b.now).nodes }
    ensures { Makes (on_shuffle_reply from (nodes_of b.now 0 n)) w result st draws out }
{
    let t = add_nodes(w, st, draws, out, b, n);
    let requested = hyparview_state::is_requested(st, from);
    // A refusal after which no other peer is asked, since the node is not short.
    if requested & !hyparview_state::is_short(st) {
        return t.work;
    }
    // The limit on requests, which is spent, begins anew: the reply named a new peer and is not a refusal.
    if !requested & (t.fresh & step_refill::is_spent(hyparview_state::limit_of(st))) {
        let few = RefillLimit::few_requests();
        return step_refill::start_refill(t.work, st, draws, out, few, &[]);
    }
    step_refill::refill_active_from_passive(t.work, st, draws, out, &[])
}
