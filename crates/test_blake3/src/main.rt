// Writes the hash of the bytes 0, 1, .., 250, 0, 1, .. for each of the lengths: a line with the length and the 32 bytes, and a mark where `is_hash` takes the hash of no bytes for it.
// What it must write is not ours: BLAKE3's own program b3sum 1.2.0 prints the same 32 bytes for each; 256 is the longest body, and 1,024 bytes are one chunk.
#![tactic(auto)]

use std::array;

const CASES: usize = 18;

const LENGTHS: [usize; CASES] = [
    0, 1, 2, 3, 4, 5, 6, 7, 8, 63, 64, 65, 127, 128, 129, 256, 1023, 1024,
];

// The most bytes of one chunk.
const CHUNK_LEN: usize = 1024;

// 0, 1, .., 250, 0, 1, ..
fn input() -> [u8; CHUNK_LEN] {
    array::from_fn(|i| (i % 251) as u8)
}

// The eight bytes of a number, lowest first.
fn show_quarter(q: u64) {
    for x in q.to_le_bytes() {
        io::print_hex(1, x as u64, 2);
    }
}

// A mark where the hash of the body is that of no bytes.
fn show_test(body: &[u8]) {
    if blake3::is_hash(
        body,
        b"\xaf\x13\x49\xb9\xf5\xf9\xa1\xa6\xa0\x40\x4d\xea\x36\xdc\xc9\x49\x9b\xcb\x25\xc9\xad\xc1\x12\xb7\xcc\x9a\x93\xca\xe4\x1f\x32\x62",
    ) {
        io::write_all(1, b" of no bytes");
    }
}

fn show_hash(body: &[u8]) {
    io::print_decimal(1, body.len() as u64);
    io::write_all(1, b" ");
    for q in blake3::hash(body) {
        show_quarter(q);
    }
    show_test(body);
    io::write_all(1, b"\n");
}

fn main() {
    let body = input();
    for n in LENGTHS {
        if n <= CHUNK_LEN {
            show_hash(&body[..n]);
        }
    }
}
