// Part 3 of document 01: the writers of records.
#![tactic(auto)]

ghost use Rattle.std.specs.Prelude.{◌≡◌, [], ◌∷◌, ◌+◌, ◌*◌, ◌≤◌, ◌<◌, length};
ghost use Rattle.base_lists.specs.Bytes.{le};
ghost use Rattle.base_lists.specs.Lent.{Overwrites};
ghost use Rattle.base_peer.specs.Data.{bytes_of};
ghost use Rattle.base_peer.specs.Held.{data_in, node_in};
ghost use Rattle.record.specs.Format.{most_nodes, header_length, node_length};
ghost use Rattle.record_writer.specs.Nodes.{nodes_in};
ghost use Rattle.record_writer.specs.Write.{rec_in, node_put, Wrote, HeaderPut};

mod nodes;

use base_peer::{PeerId, PeerInfo};
pub use nodes::Nodes;
use record::{HEADER, NODE, NUMBER_BYTES, PEER, PEER_FROM, SHORT};

// Where a header's numbers stand in it.
const SECOND_FROM: usize = PEER_FROM + PEER;

const TTL_FROM: usize = SECOND_FROM + PEER;

const SIZE_FROM: usize = TTL_FROM + SHORT;

const NUMBER_FROM: usize = SIZE_FROM + SHORT;

// Where an entry has the length of the data.
const LENGTH_FROM: usize = PEER + SHORT;

// The bytes of an entry after its peer.
const AFTER_PEER: usize = NODE - PEER;

// A record's fields but its nodes; their number and the whole length follow from the nodes.
#[derive(Clone, Copy)]
pub struct Fields {
    pub kind: u8,
    pub message: u8,
    pub flags: u8,
    pub peer: PeerId,
    pub second: u64,
    pub ttl: u16,
    pub number: u64,
}

// The bytes bs, from place `at` on. Here and below the place stays beside the bytes: each call has another, so a struct of both would be made for each.
pub fn write_bytes(out: &mut [u8], at: usize, bs: &[u8])
    requires { at + length bs.now ≤ length out.old }
    ensures { Overwrites out at bs.now }
{
    out[at..at + bs.len()].copy_from_slice(bs);
}

// x in k bytes, lowest first, from place `at` on.
pub fn put_number(out: &mut [u8], at: usize, x: u64, k: usize)
    requires { at + k ≤ length out.old }
    ensures { Overwrites out at (le k x) }
{
    let mut rest = x;
    for i in at..at + k {
        out[i] = (rest % 256) as u8;
        rest /= 256;
    }
}

// The bytes of a node's data, none where it is absent.
fn data_len(p: &PeerInfo) -> usize
    ensures { (result ≡ length (bytes_of (data_in p.now.data))) × (result ≤ 16) }
{
    match p.data {
        Some(d) => d.len as usize,
        None => 0,
    }
}

// The i-th node of the record at place `at`: its entry, and its data at the place `reached` of the record.
fn put_node(out: &mut [u8], at: usize, i: usize, p: &PeerInfo, reached: usize)
    requires i_lt_most_nodes { i < most_nodes }
    requires entry_in_bounds { at + (header_length + node_length * i + node_length) ≤ length out.old }
    requires data_in_bounds { at + reached + length (bytes_of (data_in p.now.data)) ≤ length out.old }
    ensures { out.new ≡ node_put at i p.now reached out.old }
{
    let place = at + (HEADER + NODE * i);
    put_number(out, place, p.id, PEER);
    match p.data {
        Some(d) => {
            put_number(out, place + PEER, reached as u64, SHORT);
            write_bytes(out, place + LENGTH_FROM, &[d.len, 1]);
            write_bytes(out, at + reached, &d.bytes[..d.len as usize]);
        }
        // Absent data: offset, length and mark are 0.
        None => put_number(out, place + PEER, 0, AFTER_PEER),
    }
}

// The header of a record of so many nodes and so many bytes, from place `at` on, and the place after the record; nothing is touched where it does not fit.
fn put_header(out: &mut [u8], at: usize, f: Fields, nodes: u8, size: u16) -> Option<usize>
    requires { header_length ≤ size }
    ensures { HeaderPut f nodes size at out.old result out.new }
{
    let whole = size as usize;
    let room = out.len().checked_sub(at)?;
    if room < whole {
        return None;
    }
    write_bytes(out, at, &[f.kind, f.message, f.flags, nodes]);
    put_number(out, at + PEER_FROM, f.peer, PEER);
    put_number(out, at + SECOND_FROM, f.second, PEER);
    put_number(out, at + TTL_FROM, f.ttl as u64, SHORT);
    put_number(out, at + SIZE_FROM, size as u64, SHORT);
    put_number(out, at + NUMBER_FROM, f.number, NUMBER_BYTES);
    Some(at + whole)
}

// The record from place `at` on, and the place reached; nothing is touched where it does not fit.
pub fn write(out: &mut [u8], at: usize, f: Fields, ns: &Nodes) -> Option<usize>
    ensures { Wrote (rec_in f (nodes_in ns.now)) at out.old result out.new }
{
    let n = ns.len;
    let nodes = &ns.items[..n];
    let fixed = HEADER + NODE * n;
    // The whole length: at most 928, which two bytes hold.
    let mut size = fixed;
    for p in nodes {
        size += data_len(p);
    }
    let end = put_header(out, at, f, n as u8, size as u16)?;
    let mut reached = fixed;
    for (k, p) in nodes.iter().enumerate() {
        put_node(out, at, k, p, reached);
        reached += data_len(p);
    }
    Some(end)
}

// A record without nodes.
pub fn write_bare(out: &mut [u8], at: usize, f: Fields) -> Option<usize>
    ensures { Wrote (rec_in f []) at out.old result out.new }
{
    put_header(out, at, f, 0, HEADER as u16)
}

// A record with one node.
pub fn write_one(out: &mut [u8], at: usize, f: Fields, p: PeerInfo) -> Option<usize>
    ensures { Wrote (rec_in f (node_in p ∷ [])) at out.old result out.new }
{
    let fixed = HEADER + NODE;
    let whole = fixed + data_len(&p);
    let end = put_header(out, at, f, 1, whole as u16)?;
    put_node(out, at, 0, &p, fixed);
    Some(end)
}
