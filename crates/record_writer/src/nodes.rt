// The nodes that a record is written with.
ghost use Rattle.std.specs.Prelude.{◌≡◌, [], ◌∷◌, ◌++◌, ◌≤◌, ◌<◌, take};
ghost use Rattle.base_lists.specs.Array.{pad};
ghost use Rattle.base_peer.specs.Held.{node_in};
ghost use Rattle.record.specs.Format.{most_nodes};
ghost use Rattle.record_writer.specs.Blank.{blank};

use base_peer::PeerInfo;

// At most 32 nodes; unused places are blank. They stand in the value, since the project has no heap.
#[derive(Clone, Copy)]
pub struct Nodes {
    pub items: [PeerInfo; record::MOST_NODES as usize],
    pub len: usize,
    pub ghost fits: { len ≤ most_nodes },
    pub ghost packed: { items ≡ pad blank most_nodes (take len items) },
}

impl Nodes {
    ghost use Rattle.record_writer.specs.Nodes.{nodes_in};

    pub fn new() -> Nodes
        ensures { nodes_in result ≡ [] }
    {
        let blank = PeerInfo { id: 0, data: None };
        Nodes {
            items: [blank; record::MOST_NODES as usize],
            len: 0,
        }
    }

    // One more node, at the end.
    pub fn push(&mut self, n: PeerInfo)
        requires { self.old.len < most_nodes }
        ensures { nodes_in self.new ≡ nodes_in self.old ++ (node_in n ∷ []) }
    {
        self.items[self.len] = n;
        self.len += 1;
    }
}
