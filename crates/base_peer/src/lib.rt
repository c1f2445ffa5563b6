// Part 3 of document 01: a peer's data, and a peer with its data.
#![tactic(auto)]

ghost use Rattle.std.specs.Prelude.{◌≡◌, ◌≤◌, take};
ghost use Rattle.base_lists.specs.Array.{pad};

// A peer, by its number.
pub type PeerId = u64;

// Data of a peer that has some: 0 to 16 bytes, and zeroes past them. Absent data is `None`. The bytes stand in the value, since the project has no heap.
#[derive(Clone, Copy, PartialEq, Eq)]
pub struct PeerData {
    pub len: u8,
    pub bytes: [u8; PeerData::BYTES],
    pub ghost fits: { len ≤ 16 },
    pub ghost packed: { bytes ≡ pad 0 16 (take len bytes) },
}

// A peer with its data.
#[derive(Clone, Copy, PartialEq, Eq)]
pub struct PeerInfo {
    pub id: PeerId,
    pub data: Option<PeerData>,
}

impl PeerData {
    ghost use Rattle.base_peer.specs.Held.{data_in, taken};

    // The bytes that data has room for.
    pub const BYTES: usize = 16;

    // The lent bytes as data, or `None` where there are more than 16.
    pub fn from_slice(bytes: &[u8]) -> Option<PeerData>
        ensures { data_in result ≡ taken bytes.now }
    {
        let n = bytes.len();
        if n > PeerData::BYTES {
            return None;
        }
        let mut b = [0u8; PeerData::BYTES];
        b[..n].copy_from_slice(bytes);
        Some(PeerData {
            len: n as u8,
            bytes: b,
        })
    }
}
