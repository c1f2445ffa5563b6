// The timers of a request, of a join and of the shuffle (the definition's `Timers`).
#![tactic(auto)]

ghost use Rattle.spec_hyparview.specs.Timers.{handle_pending_neighbor_timer, retry_join, schedule_shuffle, shuffle_any, handle_shuffle_timer};
ghost use Rattle.hyparview_state.specs.Work.{GivenRoom, Given, Says, Makes, GivenSeen, MakesSeen};

use base_peer::{PeerId, PeerInfo};
use hyparview_state::{Layout, Words};
use record::{Kind, Message};
use work::Work;

// A peer that did not answer in time is taken as failed; a timer of another number was set for an earlier Neighbor, and is void.
// What it means for an answer, which nobody answers, stands at the definition (spec_hyparview/Timers `request_failed`).
pub fn handle_pending_neighbor_timer(
    w: Work,
    st: &mut Words,
    draws: &[u32],
    out: &mut [u8],
    p: PeerId,
    id: u64,
) -> Work
    requires given { Given w st draws out }
    ensures { Makes (handle_pending_neighbor_timer p id) w result st draws out }
{
    let m = base_columns::get_number(
        &st[Layout::REQUESTS..Layout::REQUESTS_END],
        Layout::REQUESTS_PLACES,
        p,
    );
    if m == Some(id) {
        // It got no answer: p is dropped and another peer is asked.
        let a = hyparview_state::drop_request(w, st, p);
        let b = step_peers::drop_passive(a, st, p);
        return step_refill::refill_active_from_passive(b, st, draws, out, &[]);
    }
    w
}

// The timer of a join: one more Join where nothing was heard from p, as the first may have been lost without a sign.
pub fn retry_join(w: Work, st: &mut Words, out: &mut [u8], p: PeerId, id: u64) -> Work
    requires given_room { GivenRoom w st out }
    ensures { Says (retry_join p id) w result st out }
{
    let m = base_columns::get_number(
        &st[Layout::JOINS..Layout::JOINS_END],
        Layout::JOINS_PLACES,
        p,
    );
    if m == Some(id) {
        let a = hyparview_state::drop_join(w, st, p);
        return step_sending::join(a, st, out, p);
    }
    w
}

// The wait doubles since the first shuffles must fill a young passive view; it is jittered, else stations that started together
// would go on shuffling all at once (spec_hyparview/Timers `schedule_shuffle`).
pub fn schedule_shuffle(w: Work, st: &mut Words, draws: &[u32], out: &mut [u8]) -> Work
    requires given { Given w st draws out }
    ensures { Makes schedule_shuffle w result st draws out }
{
    if w.code != 0 {
        return w;
    }
    // The interval doubles up to its setting.
    let x = st[Layout::NEXT_SHUFFLE_INTERVAL] as u32;
    let next = base_timing::shorter(2 * x, st[Layout::SHUFFLE_INTERVAL] as u32);
    st[Layout::NEXT_SHUFFLE_INTERVAL] = next as u64;
    let d = work::draw(w, draws);
    let delay = base_timing::delay(x, d.value) as u64;
    work::schedule(d.work, out, Kind::DO_SHUFFLE, 0, delay, 0)
}

// Shuffle names some peers of each view, but not its receiver, which knows itself, and the station last, so that others learn of it.
fn shuffle_any(w: Work, st: &Words, draws: &[u32], out: &mut [u8]) -> Work
    requires given { GivenSeen w st draws out }
    ensures { MakesSeen shuffle_any w result st draws out }
{
    let active = &st[Layout::ACTIVE..Layout::ACTIVE_END];
    let neighbors = base_util::count(active, Layout::ACTIVE_PLACES);
    if neighbors == 0 {
        return w;
    }
    let chosen = work::draw_one_of(w, draws, neighbors);
    let to = base_util::get_index(active, Layout::ACTIVE_PLACES, chosen.index);
    let mut named_peers = [0u64; base_util::WORKING_WORDS];
    base_util::copy_into(active, Layout::ACTIVE_PLACES, &mut named_peers);
    base_util::without(&mut named_peers, base_util::WORKING_PLACES, to);
    let few = st[Layout::SHUFFLE_ACTIVE_VIEW_COUNT] as usize;
    let a = step_sending::shuffle_and_cap(chosen.work, draws, few, &mut named_peers);
    let passive = &st[Layout::PASSIVE..Layout::PASSIVE_END];
    let mut more = [0u64; base_util::WORKING_WORDS];
    base_util::copy_into(passive, Layout::PASSIVE_PLACES, &mut more);
    base_util::without(&mut more, base_util::WORKING_PLACES, to);
    let many = st[Layout::SHUFFLE_PASSIVE_VIEW_COUNT] as usize;
    let b = step_sending::shuffle_and_cap(a, draws, many, &mut more);
    base_util::append(
        &mut named_peers,
        base_util::WORKING_PLACES,
        &more,
        base_util::WORKING_PLACES,
    );
    let n = base_util::count(&named_peers, base_util::WORKING_PLACES);
    let mut named = step_sending::peer_infos(st, &named_peers[..n]);
    let me = st[Layout::ME];
    let own = hyparview_state::own_data(st);
    named.push(PeerInfo { id: me, data: own });
    let ttl = st[Layout::SHUFFLE_RANDOM_WALK_LENGTH] as u16;
    work::send_nodes(b, out, Message::SHUFFLE, to, me, ttl, &named)
}

// The next shuffle is set even where there is nobody to shuffle with, or the station would never shuffle again.
pub fn handle_shuffle_timer(w: Work, st: &mut Words, draws: &[u32], out: &mut [u8]) -> Work
    requires given { Given w st draws out }
    ensures { Makes handle_shuffle_timer w result st draws out }
{
    let a = shuffle_any(w, st, draws, out);
    schedule_shuffle(a, st, draws, out)
}
