// What C calls of `controller`, in libcontroller.a: each function calls the one of its name, under the same clauses.
#![tactic(auto)]

ghost use Rattle.std.specs.Prelude.{◌≡◌, length, get_or};
ghost use Rattle.spec_hyparview.specs.Sides.{side_of};
ghost use Rattle.hyparview.specs.Queries.{wants_connection_in, is_neighbor_in, neighbors_in, spare_addresses_in};
ghost use Rattle.controller.specs.Calls.{version, CallsNew, CallsHandle};
ghost use Rattle.controller.specs.Reader.{reading, node_reading};

use base_peer::PeerId;
use base_timing::Config;
use controller::{HeaderReading, NodeReading};
use hyparview::Done;
use tally::Tally;

// Which header the library goes with.
#[unsafe(no_mangle)]
pub extern "C" fn hyparview_version() -> u32
    ensures { result ≡ version }
{
    controller::hyparview_version()
}

// One event from the side that is named: the whole result, or one numbered refusal that leaves every word and count as it was.
#[unsafe(no_mangle)]
pub extern "C" fn hyparview_handle(
    st: &mut [u64],
    t: &mut Tally,
    radio: bool,
    event: &[u8],
    draws: &[u32],
    out: &mut [u8],
) -> Done
    ensures { CallsHandle (side_of radio) result st t event draws out }
{
    controller::hyparview_handle(st, t, radio, event, draws, out)
}

// The lent words become a new station's and the tally zeroes; words of zeroes where `new` refuses, and all as it was where the words are too few or too many.
#[unsafe(no_mangle)]
pub extern "C" fn hyparview_new(
    st: &mut [u64],
    t: &mut Tally,
    me: PeerId,
    present: u8,
    own: &[u8],
    config: Config,
) -> u32
    ensures { CallsNew result t.new st t.old me present own config }
{
    controller::hyparview_new(st, t, me, present, own, config)
}

// Whether a connection to the peer is wanted.
#[unsafe(no_mangle)]
pub extern "C" fn hyparview_wants_connection(st: &[u64], p: PeerId) -> bool
    ensures { result ≡ wants_connection_in p st.now }
{
    controller::hyparview_wants_connection(st, p)
}

// Whether the peer is a neighbor.
#[unsafe(no_mangle)]
pub extern "C" fn hyparview_is_neighbor(st: &[u64], p: PeerId) -> bool
    ensures { result ≡ is_neighbor_in p st.now }
{
    controller::hyparview_is_neighbor(st, p)
}

// How many neighbors there are.
#[unsafe(no_mangle)]
pub extern "C" fn hyparview_neighbor_count(st: &[u64]) -> usize
    ensures { result ≡ length (neighbors_in st.now) }
{
    controller::hyparview_neighbor_count(st)
}

// The neighbor at place i, in order, and 0 past the last.
#[unsafe(no_mangle)]
pub extern "C" fn hyparview_neighbor(st: &[u64], i: usize) -> PeerId
    ensures { result ≡ get_or (neighbors_in st.now) i 0 }
{
    controller::hyparview_neighbor(st, i)
}

// How many spare addresses there are.
#[unsafe(no_mangle)]
pub extern "C" fn hyparview_spare_addresses(st: &[u64]) -> usize
    ensures { result ≡ spare_addresses_in st.now }
{
    controller::hyparview_spare_addresses(st)
}

// The one reader for all kinds.
#[unsafe(no_mangle)]
pub extern "C" fn hyparview_read(b: &[u8]) -> HeaderReading
    ensures { result ≡ reading b.now }
{
    controller::hyparview_read(b)
}

// The i-th node of a record; its data is a part of the record's own bytes.
#[unsafe(no_mangle)]
pub extern "C" fn hyparview_node(b: &[u8], i: usize) -> NodeReading
    ensures { result ≡ node_reading b.now i }
{
    controller::hyparview_node(b, i)
}
