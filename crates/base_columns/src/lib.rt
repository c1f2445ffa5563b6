// Maps by peer as sections of one lent list of 64-bit words: columns of `cap` places in rising order of the peers, and then the count of those in use.
// The columns are apart, and no list of pairs, as the layout that the documents fix for C has them.
#![tactic(auto)]

ghost use Rattle.std.specs.Prelude.{◌≡◌, true, ◌||◌, ◌+◌, ◌≤◌, ◌<◌, length, take, drop, get_or, ltb, Some};
ghost use Rattle.base_lists.specs.Lists.{mem, shift_remove, insert_at, subset};
ghost use Rattle.base_lists.specs.Maps.{keys, has, lookup, cut, retain, put};
ghost use Rattle.base_lists.specs.Bytes.{le};
ghost use Rattle.base_peer.specs.Data.{bytes_of, holds};
ghost use Rattle.base_peer.specs.Held.{data_in};
ghost use Rattle.base_peer.specs.Maps.{number_in, valid_entry};
ghost use Rattle.base_util.specs.Section.{part, working_places, Filled, items_at, ValidSet, HoldsSet, BecomesSet};
ghost use Rattle.base_columns.specs.Columns.{active_places, known_places, known_peers};
ghost use Rattle.base_columns.specs.Columns.{numbers_at, ValidNumbers, valid_numbers, ChangesNumbers, ChangesTwo};
ghost use Rattle.base_columns.specs.Columns.{words_end, word_length, word_bytes, row, data_map_at, ValidDataWords};
ghost use Rattle.base_columns.specs.Columns.{valid_data_words, ChangesData};

use base_peer::{PeerData, PeerId};

// ---- two columns of cap places

// Without the items at i.
fn out_two(s: &mut [u64], cap: usize, n: usize, i: usize)
    requires s_len { length s.old ≡ cap + cap }
    requires filled { Filled (part 0 cap s.old) n }
    requires filled_2 { Filled (part cap cap s.old) n }
    requires i_lt_n { i < n }
    ensures { ChangesTwo cap n (shift_remove i) (shift_remove i) s }
{
    let end = cap + cap;
    base_util::take_out(&mut s[..cap], n, i);
    base_util::take_out(&mut s[cap..end], n, i);
}

// With x and y at place i.
fn in_two(s: &mut [u64], cap: usize, n: usize, i: usize, x: u64, y: u64)
    requires s_len { length s.old ≡ cap + cap }
    requires filled { Filled (part 0 cap s.old) n }
    requires filled_2 { Filled (part cap cap s.old) n }
    requires n_lt_cap { n < cap }
    requires i_le_n { i ≤ n }
    ensures { ChangesTwo cap n (insert_at i x) (insert_at i y) s }
{
    let end = cap + cap;
    base_util::put_in(&mut s[..cap], n, i, x);
    base_util::put_in(&mut s[cap..end], n, i, y);
}

// ---- 16 bytes in two words

// The bytes of a word.
pub const WORD: usize = 8;

// The greatest lengths whose bytes stand in the first word, and in both.
const IN_ONE: u64 = WORD as u64;

const IN_BOTH: u64 = PeerData::BYTES as u64;

// The eight bytes from `at` on, lowest first.
pub fn word_at(b: [u8; PeerData::BYTES], at: usize) -> u64
    requires { at ≤ word_length }
    ensures { (le word_length result ≡ take word_length (drop at b)) × (result < words_end) }
{
    u64::from_le_bytes(*b[at..].first_chunk().unwrap())
}

// The bytes of two words, the lowest first.
pub fn bytes_of(w: u64, x: u64) -> [u8; PeerData::BYTES]
    ensures { result ≡ word_bytes w x }
{
    let mut bytes = [0u8; PeerData::BYTES];
    bytes[..WORD].copy_from_slice(&w.to_le_bytes());
    bytes[WORD..].copy_from_slice(&x.to_le_bytes());
    bytes
}

// Whether p is among the peers of a map whose count stands at `end`.
fn has_key(m: &[u64], end: usize, p: PeerId) -> bool
    requires end_in_bounds { end < length m.now }
    requires count_in_bounds { get_or m.now end 0 ≤ length m.now }
    ensures { result ≡ mem p (take (get_or m.now end 0) m.now) }
{
    let n = m[end] as usize;
    base_scan::is_in(&m[..n], p)
}

// ---- a map of numbers: the peers, their numbers, and then the count

pub fn contains_number(m: &[u64], cap: usize, p: PeerId) -> bool
    requires { ValidNumbers cap m.now }
    ensures { result ≡ has p (numbers_at cap m.now) }
{
    has_key(m, cap + cap, p)
}

pub fn get_number(m: &[u64], cap: usize, p: PeerId) -> Option<u64>
    requires { ValidNumbers cap m.now }
    ensures { number_in result ≡ lookup p (numbers_at cap m.now) }
{
    let end = cap + cap;
    let n = m[end] as usize;
    let i = base_util::find(m, n, p);
    if i < n { Some(m[cap + i]) } else { None }
}

pub fn remove_number(m: &mut [u64], cap: usize, p: PeerId)
    requires { ValidNumbers cap m.old }
    ensures { ChangesNumbers cap (cut p) m }
{
    let end = cap + cap;
    let n = m[end] as usize;
    let i = base_util::find(m, n, p);
    if i >= n {
        return;
    }
    base_util::take_out(&mut m[..cap], n, i);
    base_util::take_out(&mut m[cap..end], n, i);
    m[end] = (n - 1) as u64;
}

pub fn insert_number(m: &mut [u64], cap: usize, p: PeerId, x: u64)
    requires valid_numbers { ValidNumbers cap m.old }
    requires cap_value { (has p (numbers_at cap m.old) || ltb (length (numbers_at cap m.old)) cap) ≡ true }
    ensures { ChangesNumbers cap (put p x) m }
{
    let end = cap + cap;
    let n = m[end] as usize;
    let i = base_util::find(m, n, p);
    if i < n {
        m[cap + i] = x;
        return;
    }
    let at = base_util::rank_of(m, n, p);
    base_util::put_in(&mut m[..cap], n, at, p);
    base_util::put_in(&mut m[cap..end], n, at, x);
    m[end] = (n + 1) as u64;
}

// The peers that have a number, as a working set.
pub fn keys_into(m: &[u64], cap: usize, t: &mut [u64])
    requires valid_numbers { ValidNumbers cap m.now }
    requires cap_le_working_places { cap ≤ working_places }
    requires t_len { length t.old ≡ working_places + 1 }
    ensures { BecomesSet t (keys (numbers_at cap m.now)) }
{
    let end = cap + cap;
    let n = m[end] as usize;
    base_util::copy_column(&m[..cap], n, t);
}

// Whether this is a map, of any words.
pub fn numbers_valid(m: &[u64], cap: usize) -> bool
    requires { length m.now ≡ cap + cap + 1 }
    ensures { result ≡ valid_numbers cap m.now }
{
    let end = cap + cap;
    let n = m[end] as usize;
    if n > cap {
        return false;
    }
    base_util::zero_from(m, n, cap) & base_util::zero_from(m, cap + n, end) & base_util::rises(m, n)
}

// ---- a map of data: the peers, the lengths, the low words, the high words, and then the count

fn count_data(m: &[u64], cap: usize) -> usize
    requires { ValidDataWords cap m.now }
    ensures { (result ≡ length (data_map_at cap m.now)) × (result ≤ cap) }
{
    let half = cap + cap;
    let end = half + half;
    m[end] as usize
}

pub fn contains_data(m: &[u64], cap: usize, p: PeerId) -> bool
    requires { ValidDataWords cap m.now }
    ensures { result ≡ has p (data_map_at cap m.now) }
{
    let half = cap + cap;
    has_key(m, half + half, p)
}

pub fn get_data(m: &[u64], cap: usize, p: PeerId) -> Option<PeerData>
    requires { ValidDataWords cap m.now }
    ensures { data_in result ≡ lookup p (data_map_at cap m.now) }
{
    let half = cap + cap;
    let end = half + half;
    let n = m[end] as usize;
    let i = base_util::find(m, n, p);
    if i >= n {
        return None;
    }
    let len = m[cap + i] as u8;
    let bytes = bytes_of(m[half + i], m[half + cap + i]);
    Some(PeerData { len, bytes })
}

// Whether the peer has exactly the bytes of `d`.
pub fn holds_data(m: &[u64], cap: usize, p: PeerId, d: PeerData) -> bool
    requires { ValidDataWords cap m.now }
    ensures { result ≡ holds (lookup p (data_map_at cap m.now)) (bytes_of (data_in (Some d))) }
{
    let half = cap + cap;
    let end = half + half;
    let n = m[end] as usize;
    let i = base_util::find(m, n, p);
    if i >= n {
        return false;
    }
    let b = d.bytes;
    let low = word_at(b, 0);
    let high = word_at(b, WORD);
    (m[cap + i] == d.len as u64) & (m[half + i] == low) & (m[half + cap + i] == high)
}

pub fn remove_data(m: &mut [u64], cap: usize, p: PeerId)
    requires { ValidDataWords cap m.old }
    ensures { ChangesData cap (cut p) m }
{
    let half = cap + cap;
    let end = half + half;
    let n = m[end] as usize;
    let i = base_util::find(m, n, p);
    if i >= n {
        return;
    }
    out_two(&mut m[..half], cap, n, i);
    out_two(&mut m[half..end], cap, n, i);
    m[end] = (n - 1) as u64;
}

// The places of the active view, and of the peers of both views and of the requests together.
pub const ACTIVE_PLACES: usize = 8;

pub const KNOWN: usize = ACTIVE_PLACES + 2 * base_util::WORKING_PLACES;

// The peers of both views and of the requests, whose data may be held, as a working set.
pub fn data_peers(active: &[u64], passive: &[u64], requests: &[u64], v: &mut [u64])
    requires valid_set { ValidSet active_places active.now }
    requires valid_set_2 { ValidSet working_places passive.now }
    requires valid_numbers { ValidNumbers working_places requests.now }
    requires v_len { length v.old ≡ known_places + 1 }
    ensures { HoldsSet known_places v.new (known_peers active passive requests) }
{
    let mut asked = [0u64; base_util::WORKING_WORDS];
    keys_into(requests, base_util::WORKING_PLACES, &mut asked);
    base_util::clear(v, KNOWN);
    base_util::append(v, KNOWN, active, ACTIVE_PLACES);
    base_util::append(v, KNOWN, passive, base_util::WORKING_PLACES);
    base_util::append(v, KNOWN, &asked, base_util::WORKING_PLACES);
}

// Whether every peer of the map is in a view or has an open request; nothing is copied for it.
pub fn data_known(m: &[u64], cap: usize, active: &[u64], passive: &[u64], requests: &[u64]) -> bool
    requires valid_data_words { ValidDataWords cap m.now }
    requires valid_set { ValidSet active_places active.now }
    requires valid_set_2 { ValidSet working_places passive.now }
    requires valid_numbers { ValidNumbers working_places requests.now }
    ensures { result ≡ subset (keys (data_map_at cap m.now)) (known_peers active passive requests) }
{
    let half = cap + cap;
    let end = half + half;
    let n = m[end] as usize;
    let i = active[ACTIVE_PLACES] as usize;
    let j = passive[base_util::WORKING_PLACES] as usize;
    let k = requests[2 * base_util::WORKING_PLACES] as usize;
    base_scan::subset_of_three(&m[..n], &active[..i], &passive[..j], &requests[..k])
}

// Only the data of the peers that are in the set.
pub fn retain_data(m: &mut [u64], cap: usize, s: &[u64], scap: usize)
    requires valid_data_words { ValidDataWords cap m.old }
    requires valid_set { ValidSet scap s.now }
    ensures { ChangesData cap (retain (items_at scap s.now)) m }
{
    // From the last place on, so that those still to come stay where they are.
    for i in (0..count_data(m, cap)).rev() {
        let p = m[i];
        if base_util::contains(s, scap, p) {
            continue;
        }
        remove_data(m, cap, p);
    }
}

// The data is stored as its bytes.
pub fn insert_data(m: &mut [u64], cap: usize, p: PeerId, d: PeerData)
    requires valid_data_words { ValidDataWords cap m.old }
    requires cap_value { (has p (data_map_at cap m.old) || ltb (length (data_map_at cap m.old)) cap) ≡ true }
    ensures { ChangesData cap (put p (bytes_of (data_in (Some d)))) m }
{
    let half = cap + cap;
    let end = half + half;
    let n = m[end] as usize;
    let b = d.bytes;
    let low = word_at(b, 0);
    let high = word_at(b, WORD);
    let i = base_util::find(m, n, p);
    if i < n {
        m[cap + i] = d.len as u64;
        m[half + i] = low;
        m[half + cap + i] = high;
        return;
    }
    let at = base_util::rank_of(m, n, p);
    in_two(&mut m[..half], cap, n, at, p, d.len as u64);
    in_two(&mut m[half..end], cap, n, at, low, high);
    m[end] = (n + 1) as u64;
}

// Whether this is an entry, of any words: the bytes past the length are zero. A number of k bytes is below 2^(8 k).
pub fn row_valid(l: u64, w: u64, x: u64) -> bool
    ensures { result ≡ valid_entry (row l w x) }
{
    if IN_BOTH < l {
        return false;
    }
    if l < IN_ONE {
        return (w < 1u64 << (8 * l)) & (x == 0);
    }
    if l < IN_BOTH {
        return x < 1u64 << (8 * (l - IN_ONE));
    }
    true
}

// Whether this is a map, of any words: each entry is well formed, past them are zeroes, and the peers rise.
pub fn data_valid(m: &[u64], cap: usize) -> bool
    requires { length m.now ≡ cap + cap + (cap + cap) + 1 }
    ensures { result ≡ valid_data_words cap m.now }
{
    let half = cap + cap;
    let end = half + half;
    let n = m[end] as usize;
    if n > cap {
        return false;
    }
    let high = half + cap;
    let mut ok = base_util::zero_from(m, n, cap)
        & base_util::zero_from(m, cap + n, half)
        & base_util::zero_from(m, half + n, high)
        & base_util::zero_from(m, high + n, end)
        & base_util::rises(m, n);
    for i in 0..n {
        ok &= row_valid(m[cap + i], m[half + i], m[high + i]);
    }
    ok
}
