// Part 3 of document 01: the records, their fixed sizes, and one reader.
#![tactic(auto)]

ghost use Rattle.std.specs.Prelude.{◌≡◌, true, ◌+◌, ◌*◌, ◌^◌, ◌≤◌, ◌<◌, length};
ghost use Rattle.std.proofs.Math.Seq.{slice};
ghost use Rattle.base_lists.specs.Bytes.{read_le};
ghost use Rattle.base_peer.specs.Held.{node_in};
ghost use Rattle.record.specs.Kinds.{is_event_kind, is_output_kind};
ghost use Rattle.record.specs.Format.{header_length, header_length_by, node_length, node_length_by, place_by};
ghost use Rattle.record.specs.Forms.{form_width};
ghost use Rattle.record.specs.Refusals.{refusal_code};
ghost use Rattle.record.specs.Read.{fixed_size, header_of, header_of_by, entry_from, entry_at, entry_at_by, is_message, is_timer, is_data, kind_ok, flags_ok, count_ok, peer_ok, fields_ok, header_ok, entry_ok, well_formed, well_formed_by, node_at};
ghost use Rattle.record.specs.Answers.{answer, EventIs};

use base_peer::{PeerData, PeerId, PeerInfo};

mod records;

pub use records::Records;

// The bytes of a peer's number, in this form and in the old one.
pub const PEER: usize = 8;

pub const OLD_PEER: usize = 4;

// The first number that has more than four bytes.
pub const FOUR_BYTES_END: u64 = 4294967296;

// The bytes of a number of 16 bits: a ttl, a record's length, a data's offset; and of a header's ttl and length together.
pub const SHORT: usize = 2;

pub const BOTH_SHORT: usize = 2 * SHORT;

// The bytes of a number of 32 bits: in the input of the run program, and in those of the tests.
pub const U32_BYTES: usize = 4;

// The bytes of a header's number.
pub const NUMBER_BYTES: usize = 8;

// Where a header's first peer stands, in both forms.
pub const PEER_FROM: usize = 4;

// The bytes of a header and of a node entry.
pub const HEADER: usize = 32;

pub const NODE: usize = 12;

// The most nodes of a record, and the most bytes of a node's data.
pub const MOST_NODES: u8 = 32;

const MOST_DATA: u8 = PeerData::BYTES as u8;

// The fixed sizes: of a header, and of a header with a node.
const BARE: u8 = HEADER as u8;

const WITH_NODE: u8 = (HEADER + NODE) as u8;

// The header that every record starts with, as numbers.
#[repr(C)]
#[derive(Clone, Copy)]
pub struct Header {
    pub kind: u8,
    pub message: u8,
    pub flags: u8,
    pub nodes: u8,
    pub peer: PeerId,
    pub second: u64,
    pub ttl: u16,
    pub size: u16,
    pub number: u64,
}

// A node entry: the peer, and where its data stands in the record.
#[repr(C)]
#[derive(Clone, Copy)]
pub struct Entry {
    pub id: PeerId,
    pub offset: u16,
    pub len: u8,
    pub present: u8,
}

// The kinds of a record, byte 0; those from NEIGHBOR_UP on stand in outputs alone. They stay numbers: a byte that C reads may be any, and a match over so many
// kinds is compiled to a table in read-only memory (02, S-4), which leaves comparisons.
#[derive(Clone, Copy)]
pub struct Kind {}

impl Kind {
    pub const MESSAGE: u8 = 0;

    pub const DO_SHUFFLE: u8 = 1;

    pub const DO_MAINTENANCE: u8 = 2;

    pub const PENDING_NEIGHBOR_REQUEST: u8 = 3;

    pub const RETRY_JOIN: u8 = 4;

    pub const PEER_DISCONNECTED: u8 = 5;

    pub const REQUEST_JOIN: u8 = 6;

    pub const UPDATE_PEER_DATA: u8 = 7;

    pub const QUIT: u8 = 8;

    pub const NEIGHBOR_UP: u8 = 9;

    pub const NEIGHBOR_DOWN: u8 = 10;

    pub const PEER_DATA: u8 = 11;

    pub const EVICTED: u8 = 12;
    // An event again: a neighbor gets a pin.
    pub const PIN: u8 = 13;
}

// The messages, byte 1 of kind 0; numbers for the reasons of `Kind`.
#[derive(Clone, Copy)]
pub struct Message {}

impl Message {
    pub const JOIN: u8 = 0;

    pub const FORWARD_JOIN: u8 = 1;

    pub const SHUFFLE: u8 = 2;

    pub const SHUFFLE_REPLY: u8 = 3;

    pub const NEIGHBOR: u8 = 4;

    pub const DISCONNECT: u8 = 5;
}

// The flags, byte 2, each a bit: the priority of a Neighbor; whether the sender of a Disconnect is alive, and whether it awaits an answer.
#[derive(Clone, Copy)]
pub struct Flags {}

impl Flags {
    pub const HIGH: u8 = 1;

    pub const ALIVE: u8 = 1;

    pub const RESPOND: u8 = 2;

    // Both flags of a Disconnect.
    pub const BOTH: u8 = 3;
}

// The refusals, by the condition that is met, in the order of their codes.
#[derive(Clone, Copy, PartialEq, Eq)]
pub enum Refusal {
    Settings = 1,
    State,
    Malformed,
    Nodes,
    Draws,
    Requests,
    RefusedPeers,
    Data,
    Output,
    Counter,
    // Of an event from the radio side (02, S-12).
    RadioNodes,
    PinStranger,
    PinLimit,
    NoOtherForm,
}

impl From<Refusal> for u32 {
    ghost from_gives = { λ r n. n ≡ refusal_code r };

    // The codes are 1 to 10 and 16 to 19. By a comparison, since variants with those numbers are compiled to a table in read-only memory (02, S-4).
    fn from(r: Refusal) -> u32 {
        let n = r as u32;
        if n <= Refusal::Counter as u32 {
            n
        } else {
            n + 5
        }
    }
}

// The two forms of a record.
#[derive(Clone, Copy, PartialEq, Eq)]
pub enum Form {
    Old,
    This,
}

impl Form {
    // The bytes of a peer's number.
    pub fn width(self) -> usize
        ensures { result ≡ form_width self }
    {
        match self {
            Form::Old => OLD_PEER,
            Form::This => PEER,
        }
    }
}

// The kinds of events, and those that stand in outputs alone. By comparisons, since a match over the kinds is compiled to a table in
// read-only memory.
fn is_event_kind(kind: u8) -> bool
    ensures { result ≡ is_event_kind kind }
{
    (kind <= Kind::QUIT) | (kind == Kind::PIN)
}

fn is_output_kind(kind: u8) -> bool
    ensures { result ≡ is_output_kind kind }
{
    (Kind::NEIGHBOR_UP <= kind) & (kind <= Kind::EVICTED)
}

// The fixed size of a record by its kind byte; 0 where no kind has that number, as document 02, S-8, has it.
fn fixed_size(kind: u8) -> u8
    ensures { result ≡ fixed_size kind }
{
    if (kind == Kind::UPDATE_PEER_DATA) | (kind == Kind::PEER_DATA) {
        return WITH_NODE;
    }
    if is_event_kind(kind) | is_output_kind(kind) {
        return BARE;
    }
    0
}

// The number that stands in k bytes from place `at` on, lowest first.
pub fn read_number(b: &[u8], at: usize, k: usize) -> u64
    requires k_bound { k ≤ 8 }
    requires k_in_bounds { at + k ≤ length b.now }
    ensures { (result ≡ read_le k b.now at) × (result < 256 ^ k) }
{
    let mut r: u64 = 0;
    for i in (at..at + k).rev() {
        r = b[i] as u64 + 256 * r;
    }
    r
}

// The header's fields, as they stand in a form.
pub fn read_header_by(b: &[u8], form: Form) -> Header
    requires { header_length_by (form_width form) ≤ length b.now }
    ensures { result ≡ header_of_by (form_width form) b.now }
{
    let w = form.width();
    let ttl_from = PEER_FROM + 2 * w;
    Header {
        kind: b[0],
        message: b[1],
        flags: b[2],
        nodes: b[3],
        peer: read_number(b, PEER_FROM, w),
        second: read_number(b, PEER_FROM + w, w),
        ttl: read_number(b, ttl_from, SHORT) as u16,
        size: read_number(b, ttl_from + SHORT, SHORT) as u16,
        number: read_number(b, ttl_from + BOTH_SHORT, NUMBER_BYTES),
    }
}

// The same in this form.
pub fn read_header(b: &[u8]) -> Header
    requires { header_length ≤ length b.now }
    ensures { result ≡ header_of b.now }
{
    read_header_by(b, Form::This)
}

// The fields of the node entry at a place, as they stand in a form.
fn read_entry(b: &[u8], at: usize, form: Form) -> Entry
    requires { at + node_length_by (form_width form) ≤ length b.now }
    ensures { result ≡ entry_from (form_width form) b.now at }
{
    let w = form.width();
    Entry {
        id: read_number(b, at, w),
        offset: read_number(b, at + w, SHORT) as u16,
        len: b[at + (w + SHORT)],
        present: b[at + (w + SHORT + 1)],
    }
}

// Where the i-th node entry stands; the data stand from the place of the entry after the last on.
pub fn place(i: usize, form: Form) -> usize
    requires { i ≤ 255 }
    ensures { (result ≡ place_by (form_width form) i) × (result ≤ 3092) }
{
    let w = form.width();
    16 + 2 * w + (4 + w) * i
}

// The i-th node entry's fields, in a form.
pub fn node_by(b: &[u8], i: usize, form: Form) -> Entry
    requires i_bound { i ≤ 255 }
    requires in_bounds { place_by (form_width form) i + node_length_by (form_width form) ≤ length b.now }
    ensures { result ≡ entry_at_by (form_width form) b.now i }
{
    read_entry(b, place(i, form), form)
}

// The i-th node entry's fields.
pub fn node(b: &[u8], i: usize) -> Entry
    requires { header_length + node_length * i + node_length ≤ length b.now }
    ensures { result ≡ entry_at b.now i }
{
    read_entry(b, HEADER + NODE * i, Form::This)
}

impl Header {
    // Message m of kind 0.
    fn is_message(self, m: u8) -> bool
        ensures { result ≡ is_message m self }
    {
        (self.kind == Kind::MESSAGE) & (self.message == m)
    }

    // DoShuffle, DoMaintenance, PendingNeighborRequest, RetryJoin.
    fn is_timer(self) -> bool
        ensures { result ≡ is_timer self }
    {
        (Kind::DO_SHUFFLE <= self.kind) & (self.kind <= Kind::RETRY_JOIN)
    }

    // UpdatePeerData and peer data, whose one node has data.
    fn is_data(self) -> bool
        ensures { result ≡ is_data self }
    {
        (self.kind == Kind::UPDATE_PEER_DATA) | (self.kind == Kind::PEER_DATA)
    }

    // A known kind, and a message only in kind 0.
    fn kind_ok(self) -> bool
        ensures { result ≡ kind_ok self }
    {
        let last = if self.kind == Kind::MESSAGE {
            Message::DISCONNECT
        } else {
            0
        };
        (fixed_size(self.kind) != 0) & (self.message <= last)
    }

    // Neighbor has one flag, Disconnect two.
    fn flags_ok(self) -> bool
        ensures { result ≡ flags_ok self }
    {
        let most = if self.is_message(Message::NEIGHBOR) {
            Flags::HIGH
        } else if self.is_message(Message::DISCONNECT) {
            Flags::BOTH
        } else {
            0
        };
        self.flags <= most
    }

    // How many nodes the kind or message has: one, up to the most, or none.
    fn count_ok(self) -> bool
        ensures { result ≡ count_ok self }
    {
        let one = self.is_message(Message::JOIN)
            | self.is_message(Message::FORWARD_JOIN)
            | self.is_message(Message::NEIGHBOR)
            | self.is_data();
        let some = self.is_message(Message::SHUFFLE) | self.is_message(Message::SHUFFLE_REPLY);
        if one {
            self.nodes == 1
        } else if some {
            self.nodes <= MOST_NODES
        } else {
            self.nodes == 0
        }
    }

    // Peer is 0 in kinds 1, 2, 7, 8.
    fn peer_ok(self) -> bool
        ensures { result ≡ peer_ok self }
    {
        let no_peer = (self.kind == Kind::DO_SHUFFLE)
            | (self.kind == Kind::DO_MAINTENANCE)
            | (self.kind == Kind::UPDATE_PEER_DATA)
            | (self.kind == Kind::QUIT);
        !no_peer | (self.peer == 0)
    }

    // Fields not named for a kind are 0.
    fn fields_ok(self) -> bool
        ensures { result ≡ fields_ok self }
    {
        let forward = self.is_message(Message::FORWARD_JOIN);
        let shuffle = self.is_message(Message::SHUFFLE);
        let numbered = (self.kind == Kind::PENDING_NEIGHBOR_REQUEST)
            | (self.kind == Kind::RETRY_JOIN);
        let second = shuffle | self.is_timer() | (self.second == 0);
        let ttl = forward | shuffle | (self.ttl == 0);
        let number = numbered | (self.number == 0);
        second & ttl & number
    }

    // What the header alone must meet.
    fn is_ok(self) -> bool
        ensures { result ≡ header_ok self }
    {
        self.kind_ok() & self.flags_ok() & self.count_ok() & self.peer_ok() & self.fields_ok()
    }
}

// A node's entry in a record with header h, where the data have reached the place `at`.
fn entry_ok(h: Header, e: Entry, at: usize) -> bool
    ensures { result ≡ entry_ok h e at }
{
    // Absent data has offset and length 0; data present stand at the place reached.
    let data = if e.present == 0 {
        (e.offset == 0) & (e.len == 0)
    } else {
        (e.present == 1) & (e.offset as usize == at) & (e.len <= MOST_DATA)
    };
    let known = h.is_data();
    let unnamed = h.is_message(Message::JOIN) | h.is_message(Message::NEIGHBOR) | known;
    data & (!unnamed | (e.id == 0)) & (!known | (e.present == 1))
}

// The bytes are a record of the form.
pub fn well_formed(b: &[u8], form: Form) -> bool
    ensures { result ≡ well_formed_by (form_width form) b.now }
{
    if b.len() < place(0, form) {
        return false;
    }
    let h = read_header_by(b, form);
    let n = h.nodes as usize;
    let mut at = place(n, form);
    if !(h.is_ok() & (h.size as usize == b.len()) & (at <= b.len())) {
        return false;
    }
    // Every entry is sound, and the data reach the whole length.
    for i in 0..n {
        let e = read_entry(b, place(i, form), form);
        if !entry_ok(h, e, at) {
            return false;
        }
        at += e.len as usize;
    }
    at == b.len()
}

// The one reader for all kinds: a record's header, or `None` where the bytes are no record.
pub fn read(b: &[u8]) -> Option<Header>
    ensures { result ≡ answer b.now }
{
    if well_formed(b, Form::This) {
        Some(read_header(b))
    } else {
        None
    }
}

// The reading of an event, with the refusals in 01's order.
pub fn read_event(b: &[u8]) -> Result<Header, Refusal>
    ensures { EventIs b.now result }
{
    if b.len() < HEADER {
        return Err(Refusal::Malformed);
    }
    if MOST_NODES < b[3] {
        return Err(Refusal::Nodes);
    }
    let h = read_header(b);
    // The kinds of outputs and a timer's nonzero delay are malformed as events.
    let event = is_event_kind(h.kind) & (!h.is_timer() | (h.second == 0));
    if well_formed(b, Form::This) & event {
        return Ok(h);
    }
    Err(Refusal::Malformed)
}

// A node's data, as a part of the record's own bytes.
pub fn node_data<'a>(b: &'a [u8], e: Entry) -> &'a [u8]
    requires { e.offset + e.len ≤ length b.now }
    ensures { result.now ≡ slice e.offset (e.offset + e.len) b.now }
{
    let at = e.offset as usize;
    let end = at + e.len as usize;
    &b[at..end]
}

// The i-th node of a record by value.
pub fn peer_info_at(b: &[u8], i: usize) -> PeerInfo
    requires b_value { well_formed b.now ≡ true }
    requires i_bound { i < (header_of b.now).nodes }
    ensures { node_in result ≡ node_at b.now i }
{
    let e = node(b, i);
    let held = if e.present == 0 {
        None
    } else {
        PeerData::from_slice(node_data(b, e))
    };
    PeerInfo {
        id: e.id,
        data: held,
    }
}
