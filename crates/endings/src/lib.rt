// Document 02, S-13: every history of at most four of sixteen events, and how many of them end with each size of the two views.
#![tactic(auto)]

ghost use Rattle.std.specs.Prelude.{◌≡◌, [], ◌+◌, ◌≤◌, ◌<◌, length, get_or, take};
ghost use Rattle.base_lists.specs.Lists.{choose};
ghost use Rattle.spec_stories.specs.Histories.{of_length};
ghost use Rattle.record.specs.Format.{header_length, node_length, encode};
ghost use Rattle.record_writer.specs.Write.{Wrote};
ghost use Rattle.endings.specs.Events.{no_data_node, event, message_event, of_peer, quit, event_at, event_records};
ghost use Rattle.endings.specs.Ends.{events_of_peer, events_in_all, digest_end, next_number, all_ends};
ghost use Rattle.endings.specs.Steps.{first_state, played, sizes_in, one_more, counted_on, CountRoom};

use base_peer::{PeerId, PeerInfo};
use base_timing::Timing;
use hyparview::State;
use record::{Flags, Kind, Message};
use record_writer::Fields;

// How many events are of one peer, of both peers, and there are with maintenance and Quit.
const EVENTS_OF_PEER: usize = 7;

const EVENTS_OF_PEERS: usize = 2 * EVENTS_OF_PEER;

const EVENTS_IN_ALL: usize = EVENTS_OF_PEERS + 2;

// The most events of a history, and how many lengths a history can have, from 0 on.
const LONGEST_HISTORY: usize = 4;

const HISTORY_LENGTHS: usize = LONGEST_HISTORY + 1;

// A history's number is made of the bytes of its records, the digest of a list of histories of their numbers: in two bases, so that a byte does not count as a history does.
const NUMBER_BASE: u64 = 257;

const DIGEST_BASE: u64 = 65537;

// What both are taken modulo: the prime 2^44 - 17, so that a product with either base fits.
const DIGEST_END: u64 = 17592186044399;

// How many histories end so: with no peer in a view, with one in the passive view alone, in the active view alone, in both.
// The digest is made of their numbers in turn: it tells which records were played, and in which order.
#[derive(Clone, Copy, Default)]
pub struct Ends {
    pub neither: u32,
    pub passive: u32,
    pub active: u32,
    pub both: u32,
    pub digest: u64,
}

// An event of a peer without nodes.
fn put_bare(out: &mut [u8], kind: u8, message: u8, flags: u8, p: PeerId) -> Option<usize>
    ensures { Wrote (event kind message flags p []) 0 out.old result out.new }
{
    let f = Fields {
        kind,
        message,
        flags,
        peer: p,
        second: 0,
        ttl: 0,
        number: 0,
    };
    record_writer::write_bare(out, 0, f)
}

// A message of a peer with one node, without data.
fn put_one(out: &mut [u8], message: u8, flags: u8, p: PeerId) -> Option<usize>
    ensures { Wrote (message_event message flags p no_data_node) 0 out.old result out.new }
{
    let f = Fields {
        kind: Kind::MESSAGE,
        message,
        flags,
        peer: p,
        second: 0,
        ttl: 0,
        number: 0,
    };
    let n = PeerInfo { id: 0, data: None };
    record_writer::write_one(out, 0, f, n)
}

// The seven events of a peer, in the order of the request.
fn put_of_peer(out: &mut [u8], i: usize, p: PeerId) -> Option<usize>
    requires { i < events_of_peer }
    ensures { Wrote (get_or (of_peer p) i quit) 0 out.old result out.new }
{
    match i {
        0 => put_bare(out, Kind::REQUEST_JOIN, 0, 0, p),
        1 => put_one(out, Message::JOIN, 0, p),
        2 => put_one(out, Message::NEIGHBOR, Flags::HIGH, p),
        3 => put_one(out, Message::NEIGHBOR, 0, p),
        4 => put_bare(out, Kind::MESSAGE, Message::DISCONNECT, Flags::ALIVE, p),
        5 => put_bare(out, Kind::MESSAGE, Message::DISCONNECT, 0, p),
        _ => put_bare(out, Kind::PEER_DISCONNECTED, 0, 0, p),
    }
}

// The event at place i of the sixteen.
fn put_event_at(out: &mut [u8], i: usize) -> Option<usize>
    requires { i < events_in_all }
    ensures { Wrote (event_at i) 0 out.old result out.new }
{
    if i < EVENTS_OF_PEER {
        return put_of_peer(out, i, 2);
    }
    if i < EVENTS_OF_PEERS {
        return put_of_peer(out, i - EVENTS_OF_PEER, 3);
    }
    if i == EVENTS_OF_PEERS {
        return put_bare(out, Kind::DO_MAINTENANCE, 0, 0, 0);
    }
    put_bare(out, Kind::QUIT, 0, 0, 0)
}

// The new station: self 1, no data, capacities of 1 and other settings default.
fn first_station() -> State
    ensures { result ≡ first_state }
{
    let mut config = Timing::default_settings();
    config.active_view_capacity = 1;
    config.passive_view_capacity = 1;
    State::new(1, false, b"", config).state
}

// How many bytes the event at place i has, which stand at the front of the lent ones; it has a node at most.
fn event_bytes(out: &mut [u8], i: usize) -> usize
    requires i_lt_events_in_all { i < events_in_all }
    requires out_len { length out.old ≡ header_length + node_length }
    ensures { (result ≤ header_length + node_length) × (take result out.new ≡ encode (event_at i)) }
{
    put_event_at(out, i).unwrap_or(0)
}

// The number of a history that goes on with this record.
fn next_number(number: u64, event: &[u8]) -> u64
    requires { number < digest_end }
    ensures { (result ≡ next_number number event.now) × (result < digest_end) }
{
    let mut k = number;
    for &b in event {
        k = (k * NUMBER_BASE + b as u64 + 1) % DIGEST_END;
    }
    k
}

// The state after a history, and the history's number.
#[derive(Clone, Copy)]
struct Played {
    state: State,
    number: u64,
    ghost low: { number < digest_end },
}

// The event at place i, with draws of 0: the number goes on with the bytes that `handle` is given.
fn play(p: Played, i: usize) -> Played
    requires { i < events_in_all }
    ensures state_value { result.state ≡ played (encode (event_at i)) p.state }
    ensures number_value { result.number ≡ next_number p.number (encode (event_at i)) }
{
    let mut event = [0u8; record::HEADER + record::NODE];
    let draws = [0u32; hyparview::DRAWS];
    let mut out = [0u8; hyparview::OUTPUT];
    let n = event_bytes(&mut event, i);
    let number = next_number(p.number, &event[..n]);
    let a = p.state.handle(&event[..n], &draws, &mut out);
    Played {
        state: a.state,
        number,
    }
}

// One more history, which ended so.
fn count_end(p: Played, c: Ends) -> Ends
    requires { CountRoom c 1 }
    ensures { result ≡ one_more (sizes_in p.state []) p.number c }
{
    let active = hyparview::neighbor_count(&p.state.words);
    let passive = hyparview::spare_addresses(&p.state.words);
    Ends {
        neither: c.neither + u32::from((active == 0) & (passive == 0)),
        passive: c.passive + u32::from((active == 0) & (passive == 1)),
        active: c.active + u32::from((active == 1) & (passive == 0)),
        both: c.both + u32::from((active == 1) & (passive == 1)),
        digest: (c.digest * DIGEST_BASE + p.number) % DIGEST_END,
    }
}

// Every history that goes on with `left` more events after this one, by the order of events.
fn extend(p: Played, left: usize, c: Ends) -> Ends
    requires { CountRoom c (length (of_length event_records left)) }
    ensures { result ≡ counted_on p.state p.number c (of_length event_records left) }
{
    if left == 0 {
        return count_end(p, c);
    }
    let mut sum = c;
    for i in 0..EVENTS_IN_ALL {
        sum = extend(play(p, i), left - 1, sum);
    }
    sum
}

// How many of all histories of at most four events end so, shorter ones first.
pub fn count_ends() -> Ends
    ensures { result ≡ all_ends }
{
    let first = first_station();
    let mut sum = Ends::default();
    for n in 0..HISTORY_LENGTHS {
        let none = Played {
            state: first,
            number: 0,
        };
        sum = extend(none, n, sum);
    }
    sum
}
