// BLAKE3 of one chunk, in the mode `hash`, by the names of its paper (specs/Blake3). Callers use `hash` and `is_hash`.
#![tactic(auto)]

ghost use Rattle.std.specs.Prelude.{◌≡◌, [], ◌∷◌, ◌+◌, ◌≤◌, ◌<◌, length, drop};
ghost use Rattle.base_lists.specs.Array.{pad};
ghost use Rattle.base_lists.specs.Bytes.{read_le};
ghost use Rattle.base_lists.specs.Lists.{same};
ghost use Rattle.blake3.specs.Blake3 as B;

// The constants IV, one by one, since an array would be a table in read-only memory (document 02, S-4).
const IV_0: u32 = 0x6A09E667;

const IV_1: u32 = 0xBB67AE85;

const IV_2: u32 = 0x3C6EF372;

const IV_3: u32 = 0xA54FF53A;

const IV_4: u32 = 0x510E527F;

const IV_5: u32 = 0x9B05688C;

const IV_6: u32 = 0x1F83D9AB;

const IV_7: u32 = 0x5BE0CD19;

// The bytes of a block and of a hash.
const BLOCK_LEN: usize = 64;

const OUT_LEN: usize = 32;

// The rounds of a compression.
const ROUNDS: usize = 7;

// The flags of a chunk's first block, of its last block, and of the root, the last block of all.
const CHUNK_START: u32 = 1;

const CHUNK_END: u32 = 2;

const ROOT: u32 = 8;

// Four words of the state: a column or a diagonal.
#[derive(Clone, Copy)]
struct Quad {
    a: u32,
    b: u32,
    c: u32,
    d: u32,
}

// ---- the compression function

impl Quad {
    // Half of the function G, with the rotations j and k.
    fn half(self, x: u32, j: u32, k: u32) -> Quad
        requires j_nonzero { (0 < j) × (j < 32) }
        requires k_nonzero { (0 < k) × (k < 32) }
        ensures { result ≡ B.half j k x self }
    {
        let a = self.a.wrapping_add(self.b).wrapping_add(x);
        let d = (self.d ^ a).rotate_right(j);
        let c = self.c.wrapping_add(d);
        let b = (self.b ^ c).rotate_right(k);
        Quad { a, b, c, d }
    }

    // The function G.
    fn g(self, x: u32, y: u32) -> Quad
        ensures { result ≡ B.g self x y }
    {
        self.half(x, 16, 12).half(y, 8, 7)
    }
}

// G of the words at four places of the state, with the message words at i and after it.
fn g_at(v: [u32; 16], m: [u32; 16], a: usize, b: usize, c: usize, d: usize, i: usize) -> Quad
    requires a_bound { (a < 16) × (b < 16) }
    requires c_bound { (c < 16) × (d < 16) }
    requires i_bound { i < 15 }
    ensures { result ≡ B.g_at v m a b c d i }
{
    let q = Quad {
        a: v[a],
        b: v[b],
        c: v[c],
        d: v[d],
    };
    q.g(m[i], m[i + 1])
}

// G of each column.
fn columns(v: [u32; 16], m: [u32; 16]) -> [u32; 16]
    ensures { result ≡ B.columns m v }
{
    let p = g_at(v, m, 0, 4, 8, 12, 0);
    let q = g_at(v, m, 1, 5, 9, 13, 2);
    let r = g_at(v, m, 2, 6, 10, 14, 4);
    let s = g_at(v, m, 3, 7, 11, 15, 6);
    [
        p.a, q.a, r.a, s.a, p.b, q.b, r.b, s.b, p.c, q.c, r.c, s.c, p.d, q.d, r.d, s.d,
    ]
}

// G of each diagonal.
fn diagonals(v: [u32; 16], m: [u32; 16]) -> [u32; 16]
    ensures { result ≡ B.diagonals m v }
{
    let p = g_at(v, m, 0, 5, 10, 15, 8);
    let q = g_at(v, m, 1, 6, 11, 12, 10);
    let r = g_at(v, m, 2, 7, 8, 13, 12);
    let s = g_at(v, m, 3, 4, 9, 14, 14);
    [
        p.a, q.a, r.a, s.a, s.b, p.b, q.b, r.b, r.c, s.c, p.c, q.c, q.d, r.d, s.d, p.d,
    ]
}

fn round(v: [u32; 16], m: [u32; 16]) -> [u32; 16]
    ensures { result ≡ B.round m v }
{
    diagonals(columns(v, m), m)
}

// The message words in the next round's order.
fn permute(m: [u32; 16]) -> [u32; 16]
    ensures { result ≡ B.permute m }
{
    [
        m[2], m[6], m[3], m[10], m[7], m[0], m[4], m[13], m[1], m[11], m[12], m[5], m[9], m[14],
        m[15], m[8],
    ]
}

fn rounds(state: [u32; 16], message: [u32; 16]) -> [u32; 16]
    ensures { result ≡ B.rounds 7 message state }
{
    let mut v = state;
    let mut m = message;
    for _turn in 0..ROUNDS {
        // By variables, since a call whose result is laid in an array that is there gets no proof.
        let w = round(v, m);
        let n = permute(m);
        v = w;
        m = n;
    }
    v
}

// The state that a compression starts from.
fn initial(cv: [u32; 8], len: u32, flags: u32) -> [u32; 16]
    ensures { result ≡ B.initial cv len flags }
{
    [
        cv[0], cv[1], cv[2], cv[3], cv[4], cv[5], cv[6], cv[7], IV_0, IV_1, IV_2, IV_3, 0, 0, len,
        flags,
    ]
}

// The first half of the state xored with the second.
fn truncated(v: [u32; 16]) -> [u32; 8]
    ensures { result ≡ B.truncated v }
{
    [
        v[0] ^ v[8],
        v[1] ^ v[9],
        v[2] ^ v[10],
        v[3] ^ v[11],
        v[4] ^ v[12],
        v[5] ^ v[13],
        v[6] ^ v[14],
        v[7] ^ v[15],
    ]
}

// The next chaining value: the compression function, of chunk 0.
fn compress(cv: [u32; 8], m: [u32; 16], len: u32, flags: u32) -> [u32; 8]
    ensures { result ≡ B.compress cv m len flags }
{
    truncated(rounds(initial(cv, len, flags), m))
}

// ---- bytes

// The word whose four bytes start at a place.
fn message_word(s: &[u8], at: usize) -> u32
    requires { at + 4 ≤ length s.now }
    ensures { result ≡ read_le 4 s.now at }
{
    record::read_number(s, at, record::U32_BYTES) as u32
}

// The four words whose bytes start at a place.
fn quad_at(s: &[u8], at: usize) -> Quad
    requires { at + 16 ≤ length s.now }
    ensures { result ≡ B.quad_at s.now at }
{
    Quad {
        a: message_word(s, at),
        b: message_word(s, at + 4),
        c: message_word(s, at + 8),
        d: message_word(s, at + 12),
    }
}

// The sixteen words of a block.
fn message_words(block: &[u8]) -> [u32; 16]
    requires { B.block_length ≤ length block.now }
    ensures { result ≡ B.message_words block.now 0 }
{
    let p = quad_at(block, 0);
    let q = quad_at(block, 16);
    let r = quad_at(block, 32);
    let s = quad_at(block, 48);
    [
        p.a, p.b, p.c, p.d, q.a, q.b, q.c, q.d, r.a, r.b, r.c, r.d, s.a, s.b, s.c, s.d,
    ]
}

// The bytes, filled up with zeroes to a block.
fn padded(s: &[u8]) -> [u8; BLOCK_LEN]
    requires { length s.now ≤ B.block_length }
    ensures { result ≡ pad 0 B.block_length s.now }
{
    let mut b = [0u8; BLOCK_LEN];
    b[..s.len()].copy_from_slice(s);
    b
}

// ---- the chunk

// The chaining value after a block that is not the last one.
fn inner_block(cv: [u32; 8], block: &[u8], start: u32) -> [u32; 8]
    requires { B.block_length ≤ length block.now }
    ensures { result ≡ B.compress cv (B.block_words block.now) B.block_length start }
{
    compress(cv, message_words(block), BLOCK_LEN as u32, start)
}

// What the last block gives.
fn last_block(cv: [u32; 8], block: &[u8], start: u32) -> [u32; 8]
    requires block_len_bound { length block.now ≤ B.block_length }
    requires start_bound { start ≤ B.chunk_start }
    ensures { result ≡ B.chunk cv start block.now }
{
    let m = message_words(&padded(block));
    compress(cv, m, block.len() as u32, start + CHUNK_END + ROOT)
}

// The hash as eight words.
fn chunk(body: &[u8]) -> [u32; 8]
    ensures { result ≡ B.chunk B.iv B.chunk_start body.now }
{
    let mut cv = [IV_0, IV_1, IV_2, IV_3, IV_4, IV_5, IV_6, IV_7];
    let mut start = CHUNK_START;
    let mut rest = body;
    // Over what is left, since `chunks` gives the last block, which is another's, with the rest.
    while BLOCK_LEN < rest.len() {
        let (block, after) = rest.split_at(BLOCK_LEN);
        // By a variable, as in `rounds`.
        let next = inner_block(cv, block, start);
        cv = next;
        start = 0;
        rest = after;
    }
    last_block(cv, rest, start)
}

// Two words as one number of eight bytes.
fn pair(low: u32, high: u32) -> u64
    ensures { result ≡ read_le 8 (B.bytes_of_words (low ∷ high ∷ [])) 0 }
{
    low as u64 + record::FOUR_BYTES_END * (high as u64)
}

// Eight words as four numbers of eight bytes.
fn quarters(h: [u32; 8]) -> [u64; 4]
    ensures { result ≡ B.quarters (B.bytes_of_words h) }
{
    [
        pair(h[0], h[1]),
        pair(h[2], h[3]),
        pair(h[4], h[5]),
        pair(h[6], h[7]),
    ]
}

// `MessageId::from_content`: the hash of the body, as four numbers of eight bytes, lowest byte first. Any body is taken; to 1,024 bytes the hash is BLAKE3's.
pub fn hash(body: &[u8]) -> [u64; 4]
    ensures { result ≡ B.quarters (B.hash body.now) }
{
    quarters(chunk(body))
}

// ---- a hash as bytes

// The four numbers of eight bytes that stand in 32 bytes.
fn read_quarters(s: &[u8]) -> [u64; 4]
    requires { B.out_length ≤ length s.now }
    ensures { result ≡ B.quarters s.now }
{
    [
        record::read_number(s, 0, record::NUMBER_BYTES),
        record::read_number(s, 8, record::NUMBER_BYTES),
        record::read_number(s, 16, record::NUMBER_BYTES),
        record::read_number(s, 24, record::NUMBER_BYTES),
    ]
}

// `Gossip::validate`: whether the bytes are the hash of the body.
pub fn is_hash(body: &[u8], id: &[u8]) -> bool
    ensures { result ≡ same id.now (B.hash body.now) }
{
    if id.len() == OUT_LEN {
        return read_quarters(id) == hash(body);
    }
    false
}
