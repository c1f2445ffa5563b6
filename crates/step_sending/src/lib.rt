// What the station sends: Join, Neighbor, ShuffleReply and Disconnect (the definition's `Sending`).
#![tactic(auto)]

ghost use Rattle.std.specs.Prelude.{◌≡◌, ◌≤◌, length, take, drop};
ghost use Rattle.base_lists.specs.Lists.{choose};
ghost use Rattle.base_util.specs.Chances.{shuffle};
ghost use Rattle.base_util.specs.Section.{working_places, items_at, ValidSet, ChangesSet};
ghost use Rattle.record_writer.specs.Nodes.{nodes_in};
ghost use Rattle.spec_hyparview.specs.Run.{peer_infos, draw_shuffle};
ghost use Rattle.spec_hyparview.specs.Sending.{join, send_shuffle_reply, send_disconnect, send_neighbor, reply_neighbor};
ghost use Rattle.record.specs.Format.{most_nodes};
ghost use Rattle.hyparview_state.specs.Unpack.{unpack, PackedState};
ghost use Rattle.hyparview_state.specs.Work.{GivenRoom, Given, Says, Makes, DrawsAny, GivenRoomSeen, GivenSeen, MakesSeen, SaysSeen};

use base_peer::{PeerId, PeerInfo};
use hyparview_state::{Layout, Words};
use record::{Flags, Kind, Message, Refusal};
use record_writer::Nodes;
use work::Work;

// The most requests that are open at once (document 01, code 6), since a state has fixed room.
const MOST_REQUESTS: u64 = Layout::REQUESTS_PLACES as u64;

// Neighbor and Disconnect each set one flag or none.
#[tactic(auto, unfolding(base_lists::specs::Lists::choose))]
fn flag_if(set: bool, flag: u8) -> u8
    ensures { result ≡ choose set flag 0 }
{
    if set { flag } else { 0 }
}

// Peers with the data that is held of them, in order, so that who learns of a peer can reach it.
pub fn peer_infos(st: &Words, ids: &[PeerId]) -> Nodes
    requires packed_state { PackedState st.now }
    requires ids_len_bound { length ids.now ≤ most_nodes }
    ensures { nodes_in result ≡ peer_infos (unpack st.now) ids.now }
{
    let mut t = Nodes::new();
    for &p in ids {
        let data = base_columns::get_data(
            &st[Layout::PEER_DATA..Layout::PEER_DATA_END],
            Layout::PEER_DATA_PLACES,
            p,
        );
        t.push(PeerInfo { id: p, data });
    }
    t
}

// Join has the station's own data, which the ForwardJoins that it sets off take further.
pub fn join(w: Work, st: &Words, out: &mut [u8], p: PeerId) -> Work
    requires given_room { GivenRoomSeen w st out }
    ensures { SaysSeen (join p) w result st out }
{
    let data = hyparview_state::own_data(st);
    work::send_node(w, out, Message::JOIN, p, 0, 0, PeerInfo { id: 0, data })
}

// A working set, shuffled whole and then cut to `most`, as in the Rust: each peer has the same chance, and as many draws are used.
pub fn shuffle_and_cap(w: Work, draws: &[u32], most: usize, v: &mut [u64]) -> Work
    requires drawn_in_bounds { w.drawn ≤ length draws.now }
    requires valid_set { ValidSet working_places v.old }
    ensures draws_any { DrawsAny (draw_shuffle (items_at working_places v.old)) w result draws.now }
    ensures changes_set { ChangesSet working_places (λ l. take most (shuffle (drop w.drawn draws.now) l)) v }
{
    let r = work::shuffle_by_draws(w, draws, v);
    let n = v[base_util::WORKING_PLACES] as usize;
    if n <= most {
        return r;
    }
    // The first `most` of them stay.
    base_util::clear_from(&mut v[..base_util::WORKING_PLACES], most);
    v[base_util::WORKING_PLACES] = most as u64;
    r
}

// ShuffleReply with `len` peers: passive ones, and since a young station has few of them, neighbors to make up the number.
pub fn send_shuffle_reply(
    w: Work,
    st: &Words,
    draws: &[u32],
    out: &mut [u8],
    to: PeerId,
    len: usize,
) -> Work
    requires given { GivenSeen w st draws out }
    requires len_le_most_nodes { len ≤ most_nodes }
    ensures { MakesSeen (send_shuffle_reply to len) w result st draws out }
{
    let mut v = [0u64; base_util::WORKING_WORDS];
    let passive = &st[Layout::PASSIVE..Layout::PASSIVE_END];
    base_util::copy_into(passive, Layout::PASSIVE_PLACES, &mut v);
    let mut a = shuffle_and_cap(w, draws, len, &mut v);
    let n = base_util::count(&v, base_util::WORKING_PLACES);
    if n < len {
        // Too few passive peers: the shuffled active view makes up the number.
        let mut more = [0u64; base_util::WORKING_WORDS];
        let active = &st[Layout::ACTIVE..Layout::ACTIVE_END];
        base_util::copy_into(active, Layout::ACTIVE_PLACES, &mut more);
        a = shuffle_and_cap(a, draws, len - n, &mut more);
        base_util::append(
            &mut v,
            base_util::WORKING_PLACES,
            &more,
            base_util::WORKING_PLACES,
        );
    }
    let named = base_util::count(&v, base_util::WORKING_PLACES);
    work::send_nodes(
        a,
        out,
        Message::SHUFFLE_REPLY,
        to,
        0,
        0,
        &peer_infos(st, &v[..named]),
    )
}

// The ShuffleReply before a Disconnect leaves the other one with peers to ask: it may have joined just now and know nobody else.
pub fn send_disconnect(
    w: Work,
    st: &Words,
    draws: &[u32],
    out: &mut [u8],
    p: PeerId,
    alive: bool,
) -> Work
    requires given { GivenSeen w st draws out }
    ensures { MakesSeen (send_disconnect p alive) w result st draws out }
{
    // How many peers the ShuffleReply names.
    let n = st[Layout::SHUFFLE_ACTIVE_VIEW_COUNT] as usize;
    let len = n + st[Layout::SHUFFLE_PASSIVE_VIEW_COUNT] as usize;
    let a = send_shuffle_reply(w, st, draws, out, p, len);
    let flags = flag_if(alive, Flags::ALIVE);
    work::send(a, out, Message::DISCONNECT, p, flags)
}

// Nothing while a Neighbor to p is open, else two stations could answer each other for ever (spec_hyparview/Sending `send_neighbor`).
// Code 10 where no number is left for it, code 6 where a 33rd would be open; its timer ends the wait for an answer.
pub fn send_neighbor(w: Work, st: &mut Words, out: &mut [u8], p: PeerId, high: bool) -> Work
    requires given_room { GivenRoom w st out }
    ensures { Says (send_neighbor p high) w result st out }
{
    if hyparview_state::is_requested(st, p) {
        return w;
    }
    let id = st[Layout::NEXT_NEIGHBOR_REQUEST];
    let a = w.require(Refusal::Counter, id < hyparview_state::TOP_COUNTER);
    let b = a.require(
        Refusal::Requests,
        st[Layout::REQUESTS_COUNT] < MOST_REQUESTS,
    );
    if b.code != 0 {
        return b;
    }
    let asked = &mut st[Layout::REQUESTS..Layout::REQUESTS_END];
    base_columns::insert_number(asked, Layout::REQUESTS_PLACES, p, id);
    st[Layout::NEXT_NEIGHBOR_REQUEST] = id + 1;
    let flags = flag_if(high, Flags::HIGH);
    let data = hyparview_state::own_data(st);
    let c = work::send_node(
        b,
        out,
        Message::NEIGHBOR,
        p,
        flags,
        0,
        PeerInfo { id: 0, data },
    );
    let timeout = st[Layout::NEIGHBOR_REQUEST_TIMEOUT];
    work::schedule(c, out, Kind::PENDING_NEIGHBOR_REQUEST, p, timeout, id)
}

// A Neighbor answers a Neighbor; an answer is not answered again, and then `reply` is false.
pub fn reply_neighbor(
    w: Work,
    st: &mut Words,
    out: &mut [u8],
    reply: bool,
    p: PeerId,
    high: bool,
) -> Work
    requires given_room { GivenRoom w st out }
    ensures { Says (reply_neighbor reply p high) w result st out }
{
    if reply {
        return send_neighbor(w, st, out, p, high);
    }
    w
}
