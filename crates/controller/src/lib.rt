// The library for a controller: what C or Rust calls, over memory that the caller owns.
#![tactic(auto)]

ghost use Rattle.std.specs.Prelude.{◌≡◌, length, get_or};
ghost use Rattle.spec_hyparview.specs.Sides.{side_of};
ghost use Rattle.hyparview.specs.Queries.{wants_connection_in, is_neighbor_in, neighbors_in, spare_addresses_in};
ghost use Rattle.controller.specs.Calls.{version, CallsNew, CallsHandle};
ghost use Rattle.controller.specs.Reader.{no_header, reading, no_entry, node_reading};

use base_peer::PeerId;
use base_timing::Config;
use hyparview::Done;
use record::{Entry, Header, Refusal};
use tally::Tally;

// The code of `new`, and the tally after it.
#[derive(Clone, Copy)]
pub struct Start {
    pub code: u32,
    pub tally: Tally,
}

// A record's header, or not ok and zeroes, since C has no Option.
#[repr(C)]
#[derive(Clone, Copy)]
pub struct HeaderReading {
    pub ok: bool,
    pub header: Header,
}

// A record's node: the peer, and where its data stands in the record; or not ok and zeroes.
#[repr(C)]
#[derive(Clone, Copy)]
pub struct NodeReading {
    pub ok: bool,
    pub node: Entry,
}

// Raised where records, words, codes or functions become other than a caller's header says.
pub const VERSION: u32 = 3;

// Which header the library goes with.
pub fn hyparview_version() -> u32
    ensures { result ≡ version }
{
    VERSION
}

// One event from the side that is named: the whole result, or one numbered refusal that leaves every word and count as it was.
pub fn hyparview_handle(
    st: &mut [u64],
    t: &mut Tally,
    radio: bool,
    event: &[u8],
    draws: &[u32],
    out: &mut [u8],
) -> Done
    ensures { CallsHandle (side_of radio) result st t event draws out }
{
    let r = hyparview::handle_from(st, radio, event, draws, out);
    tally::raise(t, r.code, out);
    r
}

// A new station in the lent words, its tally by value; own data is absent where `present` is 0.
fn begun(st: &mut [u64], t: Tally, me: PeerId, present: u8, own: &[u8], config: Config) -> Start
    ensures { CallsNew result.code result.tally st t me present own config }
{
    let code = hyparview::new(st, me, present != 0, own, config);
    if code == u32::from(Refusal::State) {
        return Start { code, tally: t };
    }
    Start {
        code,
        tally: Tally::default(),
    }
}

// The lent words become a new station's and the tally zeroes; words of zeroes where `new` refuses, and all as it was where the words are too few or too many.
pub fn hyparview_new(
    st: &mut [u64],
    t: &mut Tally,
    me: PeerId,
    present: u8,
    own: &[u8],
    config: Config,
) -> u32
    ensures { CallsNew result t.new st t.old me present own config }
{
    let r = begun(st, *t, me, present, own, config);
    *t = r.tally;
    r.code
}

// Whether a connection to the peer is wanted.
pub fn hyparview_wants_connection(st: &[u64], p: PeerId) -> bool
    ensures { result ≡ wants_connection_in p st.now }
{
    hyparview::wants_connection(st, p)
}

// Whether the peer is a neighbor.
pub fn hyparview_is_neighbor(st: &[u64], p: PeerId) -> bool
    ensures { result ≡ is_neighbor_in p st.now }
{
    hyparview::is_neighbor(st, p)
}

// How many neighbors there are.
pub fn hyparview_neighbor_count(st: &[u64]) -> usize
    ensures { result ≡ length (neighbors_in st.now) }
{
    hyparview::neighbor_count(st)
}

// The neighbor at place i, in order, and 0 past the last.
pub fn hyparview_neighbor(st: &[u64], i: usize) -> PeerId
    ensures { result ≡ get_or (neighbors_in st.now) i 0 }
{
    hyparview::neighbor(st, i)
}

// How many spare addresses there are.
pub fn hyparview_spare_addresses(st: &[u64]) -> usize
    ensures { result ≡ spare_addresses_in st.now }
{
    hyparview::spare_addresses(st)
}

// Written out, and no Default: a header of zeroes is that of a Join.
fn no_header() -> Header
    ensures { result ≡ no_header }
{
    Header {
        kind: 0,
        message: 0,
        flags: 0,
        nodes: 0,
        peer: 0,
        second: 0,
        ttl: 0,
        size: 0,
        number: 0,
    }
}

// The one reader for all kinds.
pub fn hyparview_read(b: &[u8]) -> HeaderReading
    ensures { result ≡ reading b.now }
{
    match record::read(b) {
        Some(header) => HeaderReading { ok: true, header },
        None => HeaderReading {
            ok: false,
            header: no_header(),
        },
    }
}

// Written out, and no Default: an entry of zeroes is that of peer 0 without data.
fn no_node() -> NodeReading
    ensures { result ≡ no_entry }
{
    NodeReading {
        ok: false,
        node: Entry {
            id: 0,
            offset: 0,
            len: 0,
            present: 0,
        },
    }
}

// The i-th node of a record; its data is a part of the record's own bytes.
pub fn hyparview_node(b: &[u8], i: usize) -> NodeReading
    ensures { result ≡ node_reading b.now i }
{
    match record::read(b) {
        Some(h) if i < h.nodes as usize => NodeReading {
            ok: true,
            node: record::node(b, i),
        },
        _ => no_node(),
    }
}
