// What the station holds of other peers: their data, and the passive view (the definition's `Peers`, and `forget_declined` of its `Handle`).
#![tactic(auto)]

ghost use Rattle.std.specs.Prelude.{◌≡◌};
ghost use Rattle.spec_hyparview.specs.Run.{on};
ghost use Rattle.base_peer.specs.Held.{data_in};
ghost use Rattle.spec_hyparview.specs.Peers.{is_newcomer, is_marked};
ghost use Rattle.spec_hyparview.specs.Peers.{insert_peer_info, forget_peer, evicted, make_room, add_passive, evicted_by, drop_passive};
ghost use Rattle.spec_hyparview.specs.Peers.{drop_data, drop_mark, remove_passive};
ghost use Rattle.spec_hyparview.specs.Handle.{forget_declined};
ghost use Rattle.hyparview_state.specs.Unpack.{unpack, PackedState};
ghost use Rattle.hyparview_state.specs.Work.{GivenRoom, Given, Alters, Says};
ghost use Rattle.step_peers.specs.Answer.{Evicts};

use base_peer::{PeerData, PeerId, PeerInfo};
use hyparview_state::{Layout, Words};
use record::{Kind, Refusal};
use work::Work;

// What adding to the passive view answers: the work, and who left the view before another entered it, if anyone (document 02, S-2).
#[derive(Clone, Copy)]
pub struct Added {
    pub work: Work,
    pub evicted: Option<PeerId>,
}

// Whether p is neither the station itself nor in a view: no peer is in both views, and a station is in none of its own.
pub fn is_newcomer(st: &Words, p: PeerId) -> bool
    requires packed_state { PackedState st.now }
    ensures { result ≡ is_newcomer p (unpack st.now) }
{
    !((p == st[Layout::ME])
        | (hyparview_state::in_active(st, p) | hyparview_state::in_passive(st, p)))
}

// A mark stands for an alive Disconnect, after which the close of the connection is no failure (spec_hyparview/Peers `is_marked`).
pub fn is_marked(st: &Words, p: PeerId) -> bool
    requires packed_state { PackedState st.now }
    ensures { result ≡ is_marked p (unpack st.now) }
{
    base_util::contains(
        &st[Layout::ALIVE..Layout::ALIVE_END],
        Layout::ALIVE_PLACES,
        p,
    )
}

// The data stays: a peer that becomes a neighbor takes it along, and a caller that loses the peer drops it itself.
pub fn remove_passive(w: Work, st: &mut Words, p: PeerId) -> Work
    requires packed_state { PackedState st.old }
    ensures { Alters (on (remove_passive p)) w result st }
{
    if w.code != 0 {
        return w;
    }
    base_util::remove(
        &mut st[Layout::PASSIVE..Layout::PASSIVE_END],
        Layout::PASSIVE_PLACES,
        p,
    );
    w
}

// Data is of peers in a view or asked: each way out drops it, else entries of strangers would fill the 80 places.
pub fn drop_data(w: Work, st: &mut Words, p: PeerId) -> Work
    requires packed_state { PackedState st.old }
    ensures { Alters (on (drop_data p)) w result st }
{
    if w.code != 0 {
        return w;
    }
    base_columns::remove_data(
        &mut st[Layout::PEER_DATA..Layout::PEER_DATA_END],
        Layout::PEER_DATA_PLACES,
        p,
    );
    w
}

// A mark is of a passive peer: it ends where the peer leaves the passive view, or where a closed connection has used it.
pub fn drop_mark(w: Work, st: &mut Words, p: PeerId) -> Work
    requires packed_state { PackedState st.old }
    ensures { Alters (on (drop_mark p)) w result st }
{
    if w.code != 0 {
        return w;
    }
    base_util::without(
        &mut st[Layout::ALIVE..Layout::ALIVE_END],
        Layout::ALIVE_PLACES,
        p,
    );
    w
}

// What is held of a peer goes with its last place in a view; why that is asked here, the definition says (spec_hyparview/Peers `forget_peer`).
pub fn forget_peer(w: Work, st: &mut Words, p: PeerId) -> Work
    requires packed_state { PackedState st.old }
    ensures { Alters (forget_peer p) w result st }
{
    if hyparview_state::in_active(st, p) | hyparview_state::in_passive(st, p) {
        return w;
    }
    let a = drop_data(w, st, p);
    drop_mark(a, st, p)
}

// For a peer that left the topic or did not answer in time: it would be asked in vain again.
pub fn drop_passive(w: Work, st: &mut Words, p: PeerId) -> Work
    requires packed_state { PackedState st.old }
    ensures { Alters (drop_passive p) w result st }
{
    let a = remove_passive(w, st, p);
    forget_peer(a, st, p)
}

// What comes with a peer, such as its address, is kept so that it can be passed on, and told to the supervisor where it is news.
pub fn insert_peer_info(
    w: Work,
    st: &mut Words,
    out: &mut [u8],
    p: PeerId,
    d: Option<PeerData>,
) -> Work
    requires given_room { GivenRoom w st out }
    ensures { Says (insert_peer_info p (data_in d)) w result st out }
{
    let Some(data) = d else {
        return w;
    };
    // The station's own data, and data that is held already, are not stored.
    if (p == st[Layout::ME])
        | base_columns::holds_data(
            &st[Layout::PEER_DATA..Layout::PEER_DATA_END],
            Layout::PEER_DATA_PLACES,
            p,
            data,
        )
    {
        return w;
    }
    // Data that is not empty is announced.
    let a = if data.len != 0 {
        work::notify_node(
            w,
            out,
            Kind::PEER_DATA,
            p,
            PeerInfo {
                id: 0,
                data: Some(data),
            },
        )
    } else {
        w
    };
    // Code 8 where an 81st entry would be needed.
    let fits = base_columns::contains_data(
        &st[Layout::PEER_DATA..Layout::PEER_DATA_END],
        Layout::PEER_DATA_PLACES,
        p,
    ) | (st[Layout::PEER_DATA_COUNT] < Layout::PEER_DATA_PLACES as u64);
    let b = a.require(Refusal::Data, fits);
    if b.code == 0 {
        let m = &mut st[Layout::PEER_DATA..Layout::PEER_DATA_END];
        base_columns::insert_data(m, Layout::PEER_DATA_PLACES, p, data);
    }
    b
}

// A full passive view gives up a random peer: those sent in a shuffle, which the paper gives up first, are not remembered.
// Its record follows (document 02, S-2).
fn make_room(w: Work, st: &mut Words, draws: &[u32], out: &mut [u8]) -> Added
    requires given { Given w st draws out }
    ensures { Evicts make_room evicted w result st draws out }
{
    let n = st[Layout::PASSIVE_COUNT];
    if (st[Layout::PASSIVE_VIEW_CAPACITY] <= n) & (n != 0) {
        let t = work::draw_one_of(w, draws, n as usize);
        let i = t.index;
        let p = base_util::get_index(
            &st[Layout::PASSIVE..Layout::PASSIVE_END],
            Layout::PASSIVE_PLACES,
            i,
        );
        let a = t.work;
        if a.code == 0 {
            let v = &mut st[Layout::PASSIVE..Layout::PASSIVE_END];
            base_util::shift_remove_index(v, Layout::PASSIVE_PLACES, i);
        }
        let b = forget_peer(a, st, p);
        // Document 02, S-2: the record of p, which the passive view evicted.
        return Added {
            work: work::notify(b, out, Kind::EVICTED, p),
            evicted: Some(p),
        };
    }
    Added {
        work: w,
        evicted: None,
    }
}

// Passive peers are spare ones, known but not connected. Data comes first, since that of a known peer may be newer.
pub fn add_passive(
    w: Work,
    st: &mut Words,
    draws: &[u32],
    out: &mut [u8],
    p: PeerId,
    d: Option<PeerData>,
) -> Added
    requires given { Given w st draws out }
    ensures { Evicts (add_passive p (data_in d)) (evicted_by p (data_in d)) w result st draws out }
{
    let a = insert_peer_info(w, st, out, p, d);
    // p enters the passive view, unless it is in a view or the station itself.
    if is_newcomer(st, p) {
        let t = make_room(a, st, draws, out);
        if t.work.code != 0 {
            return t;
        }
        base_util::push(
            &mut st[Layout::PASSIVE..Layout::PASSIVE_END],
            Layout::PASSIVE_PLACES,
            p,
        );
        return t;
    }
    Added {
        work: a,
        evicted: None,
    }
}

// 02, S-5: the data of a peer in neither view and without an open request goes, where the event is accepted.
pub fn forget_declined(w: Work, st: &mut Words) -> Work
    requires packed_state { PackedState st.old }
    ensures { Alters (on forget_declined) w result st }
{
    if w.code != 0 {
        return w;
    }
    let words: &mut [u64] = st;
    let active = &words[Layout::ACTIVE..Layout::ACTIVE_END];
    let passive = &words[Layout::PASSIVE..Layout::PASSIVE_END];
    let requests = &words[Layout::REQUESTS..Layout::REQUESTS_END];
    let data = &words[Layout::PEER_DATA..Layout::PEER_DATA_END];
    if base_columns::data_known(data, Layout::PEER_DATA_PLACES, active, passive, requests) {
        return w;
    }
    let mut known = [0u64; base_columns::KNOWN + 1];
    base_columns::data_peers(active, passive, requests, &mut known);
    base_columns::retain_data(
        &mut words[Layout::PEER_DATA..Layout::PEER_DATA_END],
        Layout::PEER_DATA_PLACES,
        &known,
        base_columns::KNOWN,
    );
    w
}
