// Sets of peers as sections of one lent list of 64-bit words: `cap` places, and then the count of those in use.
// C lends the words of a state in one piece, in the layout that the documents fix, so a set is a part of them and not a type that owns its items.
#![tactic(auto)]

ghost use Rattle.std.specs.Prelude.{◌≡◌, [], ◌∷◌, ◌++◌, ◌+◌, ◌≤◌, ◌<◌, length, take, drop, get_or};
ghost use Rattle.base_lists.specs.Array.{pad};
ghost use Rattle.base_lists.specs.Lists.{null, mem, index_of, rank, shift_remove, swap_remove, remove, insert_at, insert, without, without_all, renew, distinct, rising};
ghost use Rattle.base_lists.specs.Tests.{every};
ghost use Rattle.base_util.specs.Chances.{pick_draws, pick, shuffle, shuffle_draws};
ghost use Rattle.base_scan.specs.Words.{unused};
ghost use Rattle.base_util.specs.Section.{working_places, Filled, items_at, ValidSet, HoldsSet, valid_set};
ghost use Rattle.base_util.specs.Section.{ChangesColumn, ChangesSet, BecomesSet};

use base_peer::PeerId;

// How many places a working set has: as many as the largest set.
pub const WORKING_PLACES: usize = 32;

// The words of a working set: its places and its count.
pub const WORKING_WORDS: usize = WORKING_PLACES + 1;

// How many draws there are: 2^32, since a draw has 32 bits.
const ALL_DRAWS: usize = 4294967296;

// The place that was chosen, and the place in the draws after the one that decided it.
#[derive(Clone, Copy)]
pub struct PickedIndex {
    pub index: usize,
    pub next: usize,
}

// ---- a column alone, of any length: the first n places are in use

// The place of x, or n where it is not there: the number that the definition `index_of` has, which the steps compare with the count.
pub fn find(s: &[u64], n: usize, x: PeerId) -> usize
    requires { n ≤ length s.now }
    ensures { (result ≡ index_of x (take n s.now)) × (result ≤ n) }
{
    s[..n].iter().position(|&y| x == y).unwrap_or(n)
}

// How many items stand before the first that is greater than x.
pub fn rank_of(s: &[u64], n: usize, x: PeerId) -> usize
    requires { n ≤ length s.now }
    ensures { (result ≡ rank x (take n s.now)) × (result ≤ n) }
{
    s[..n].iter().position(|&y| x < y).unwrap_or(n)
}

// Without the item at i: the later ones move down.
pub fn take_out(s: &mut [u64], n: usize, i: usize)
    requires filled { Filled s.old n }
    requires i_lt_n { i < n }
    ensures { ChangesColumn n (shift_remove i) s }
{
    s.copy_within(i + 1..n, i);
    s[n - 1] = 0;
}

// With x at place i: the items from there on move up.
pub fn put_in(s: &mut [u64], n: usize, i: usize, x: u64)
    requires filled { Filled s.old n }
    requires n_in_bounds { n < length s.old }
    requires i_le_n { i ≤ n }
    ensures { ChangesColumn n (insert_at i x) s }
{
    s.copy_within(i..n, i + 1);
    s[i] = x;
}

// Whether the places from `from` on are zero, up to the place `end`.
pub fn zero_from(s: &[u64], from: usize, end: usize) -> bool
    requires from_le_end { from ≤ end }
    requires end_in_bounds { end ≤ length s.now }
    ensures { result ≡ every unused (drop from (take end s.now)) }
{
    // Every word is looked at, so that the compiler makes vector code: 7 ns for 30 words, where `all` takes 22.
    s[from..end].iter().fold(0, |bits, x| bits | x) == 0
}

// Whether each of the first n items is below the next.
pub fn rises(s: &[u64], n: usize) -> bool
    requires { n ≤ length s.now }
    ensures { result ≡ rising (take n s.now) }
{
    // Every word is looked at, so that the compiler makes vector code: 13.4 ns for 32 words, where `windows(2)` takes 14.2 and `is_sorted_by` 22.
    let mut ok = true;
    for i in 1..n {
        ok &= s[i - 1] < s[i];
    }
    ok
}

// Zeroes from place k on.
pub fn clear_from(s: &mut [u64], k: usize)
    ensures { s.new ≡ pad 0 (length s.old) (take k s.old) }
{
    if k < s.len() {
        s[k..].fill(0);
    }
}

// The items that are not in `skip`, in order; the answer is how many there are.
pub fn without_all_in(s: &mut [u64], n: usize, skip: &[PeerId]) -> usize
    requires { Filled s.old n }
    ensures changes_column { ChangesColumn n (without_all skip.now) s }
    ensures value { (result ≡ length (without_all skip.now (take n s.old))) × (result ≤ n) }
{
    let mut m = 0;
    for i in 0..n {
        let y = s[i];
        if base_scan::is_in(skip, y) {
            continue;
        }
        s[m] = y;
        m += 1;
    }
    clear_from(s, m);
    m
}

// One of n places, by the first draw from place `at` on that is below the largest multiple of n not above 2^32: the others are passed over. Where there is none, the place
// is 0, and `next` is past the draws.
pub fn pick_index(draws: &[u32], at: usize, n: usize) -> PickedIndex
    requires n_nonzero { 0 < n }
    requires at_in_bounds { at ≤ length draws.now + working_places }
    ensures index_value { (result.index ≡ pick n (drop at draws.now)) × (result.index < n) }
    ensures next_value { result.next ≡ at + pick_draws n (drop at draws.now) }
{
    let end = ALL_DRAWS - ALL_DRAWS % n;
    for k in at..draws.len() {
        let d = draws[k] as usize;
        if d < end {
            return PickedIndex {
                index: d % n,
                next: k + 1,
            };
        }
    }
    PickedIndex {
        index: 0,
        next: at.max(draws.len()) + 1,
    }
}

// The first n items as a working set, whatever t held.
pub fn copy_column(s: &[u64], n: usize, t: &mut [u64])
    requires filled { Filled s.now n }
    requires s_len_bound { length s.now ≤ working_places }
    requires t_len { length t.old ≡ working_places + 1 }
    ensures { BecomesSet t (take n s.now) }
{
    t[..s.len()].copy_from_slice(s);
    t[s.len()..WORKING_PLACES].fill(0);
    t[WORKING_PLACES] = n as u64;
}

// ---- a set: the places, and then the count

// Whether it is a set at all, whatever its words are.
pub fn is_section(s: &[u64], cap: usize) -> bool
    requires { length s.now ≡ cap + 1 }
    ensures { result ≡ valid_set cap s.now }
{
    let n = s[cap] as usize;
    if cap < n {
        return false;
    }
    zero_from(s, n, cap)
}

pub fn count(s: &[u64], cap: usize) -> usize
    requires { ValidSet cap s.now }
    ensures { (result ≡ length (items_at cap s.now)) × (result ≤ cap) }
{
    s[cap] as usize
}

pub fn is_empty(s: &[u64], cap: usize) -> bool
    requires { ValidSet cap s.now }
    ensures { result ≡ null (items_at cap s.now) }
{
    s[cap] == 0
}

// The item at place i.
pub fn get_index(s: &[u64], cap: usize, i: usize) -> PeerId
    requires valid_set { ValidSet cap s.now }
    requires i_in_bounds { i < length (items_at cap s.now) }
    ensures { result ≡ get_or (items_at cap s.now) i 0 }
{
    s[i]
}

// The place of x, or the number of items where it is not there.
pub fn position(s: &[u64], cap: usize, x: PeerId) -> usize
    requires { ValidSet cap s.now }
    ensures { (result ≡ index_of x (items_at cap s.now)) × (result ≤ length (items_at cap s.now)) }
{
    let n = s[cap] as usize;
    find(s, n, x)
}

pub fn contains(s: &[u64], cap: usize, x: PeerId) -> bool
    requires { ValidSet cap s.now }
    ensures { result ≡ mem x (items_at cap s.now) }
{
    let n = s[cap] as usize;
    base_scan::is_in(&s[..n], x)
}

// Whether no item stands twice: only an item whose low byte a later one has too is looked for.
pub fn is_distinct(s: &[u64], cap: usize) -> bool
    requires { ValidSet cap s.now }
    ensures { result ≡ distinct (items_at cap s.now) }
{
    let n = s[cap] as usize;
    let mut seen = [false; 256];
    for i in (0..n).rev() {
        let x = s[i];
        let k = (x % 256) as usize;
        if seen[k] && base_scan::is_in(&s[i + 1..n], x) {
            return false;
        }
        seen[k] = true;
    }
    true
}

// Whether each item is below the next.
pub fn is_rising(s: &[u64], cap: usize) -> bool
    requires { ValidSet cap s.now }
    ensures { result ≡ rising (items_at cap s.now) }
{
    let n = s[cap] as usize;
    rises(s, n)
}

// No items, whatever the words were.
pub fn clear(s: &mut [u64], cap: usize)
    requires { length s.old ≡ cap + 1 }
    ensures { HoldsSet cap s.new [] }
{
    clear_from(s, 0);
}

// x at the end; also the deques' push_back.
pub fn push(s: &mut [u64], cap: usize, x: PeerId)
    requires valid_set { ValidSet cap s.old }
    requires s_len_bound { length (items_at cap s.old) < cap }
    ensures { ChangesSet cap (λ l. l ++ (x ∷ [])) s }
{
    let n = s[cap] as usize;
    s[n] = x;
    s[cap] = (n + 1) as u64;
}

// Without the item at place i: the last one moves into the gap.
pub fn remove_index(s: &mut [u64], cap: usize, i: usize)
    requires valid_set { ValidSet cap s.old }
    requires i_in_bounds { i < length (items_at cap s.old) }
    ensures { ChangesSet cap (swap_remove i) s }
{
    let last = s[cap] as usize - 1;
    let y = s[last];
    s[i] = y;
    s[last] = 0;
    s[cap] = last as u64;
}

// Without x: the last item moves into the gap.
pub fn remove(s: &mut [u64], cap: usize, x: PeerId)
    requires { ValidSet cap s.old }
    ensures { ChangesSet cap (remove x) s }
{
    let n = s[cap] as usize;
    let i = find(s, n, x);
    if i < n {
        remove_index(s, cap, i);
    }
}

// Without the item at place i: the later ones move down.
pub fn shift_remove_index(s: &mut [u64], cap: usize, i: usize)
    requires valid_set { ValidSet cap s.old }
    requires i_in_bounds { i < length (items_at cap s.old) }
    ensures { ChangesSet cap (shift_remove i) s }
{
    let n = s[cap] as usize;
    take_out(&mut s[..cap], n, i);
    s[cap] = (n - 1) as u64;
}

// What the Rust's HashSet::insert is, in rising order.
pub fn insert_sorted(s: &mut [u64], cap: usize, x: PeerId)
    requires valid_set { ValidSet cap s.old }
    requires s_len_bound { length (insert x (items_at cap s.old)) ≤ cap }
    ensures { ChangesSet cap (insert x) s }
{
    let n = s[cap] as usize;
    let i = find(s, n, x);
    if i < n {
        return;
    }
    let at = rank_of(s, n, x);
    put_in(&mut s[..cap], n, at, x);
    s[cap] = (n + 1) as u64;
}

// The items that are not x, in order.
pub fn without(s: &mut [u64], cap: usize, x: PeerId)
    requires { ValidSet cap s.old }
    ensures { ChangesSet cap (without x) s }
{
    let n = s[cap] as usize;
    let m = without_all_in(&mut s[..cap], n, &[x]);
    s[cap] = m as u64;
}

// x as the newest of at most `most`: the oldest leaves where there are too many.
pub fn renew(s: &mut [u64], cap: usize, most: usize, x: PeerId)
    requires valid_set { ValidSet cap s.old }
    requires le_most { (1 ≤ most) × (most ≤ cap) }
    ensures { ChangesSet cap (renew most x) s }
{
    without(s, cap, x);
    let n = s[cap] as usize;
    if n >= most {
        shift_remove_index(s, cap, 0);
    }
    push(s, cap, x);
}

// The items that are not in `skip`, in order.
pub fn without_all(s: &mut [u64], cap: usize, skip: &[u64], scap: usize)
    requires valid_set { ValidSet cap s.old }
    requires valid_set_2 { ValidSet scap skip.now }
    ensures { ChangesSet cap (without_all (items_at scap skip.now)) s }
{
    let n = s[cap] as usize;
    let k = skip[scap] as usize;
    let m = without_all_in(&mut s[..cap], n, &skip[..k]);
    s[cap] = m as u64;
}

// In the order that the draws from place `at` on decide; the answer is the place in the draws after them, past the end where there are too few.
pub fn shuffle(s: &mut [u64], cap: usize, draws: &[u32], at: usize) -> usize
    requires valid_set { ValidSet cap s.old }
    requires cap_le_working_places { cap ≤ working_places }
    requires at_in_bounds { at ≤ length draws.now }
    ensures changes_set { ChangesSet cap (shuffle (drop at draws.now)) s }
    ensures value { result ≡ at + shuffle_draws (drop at draws.now) (items_at cap s.old) }
{
    let n = s[cap] as usize;
    let mut k = at;
    for i in (1..n).rev() {
        let p = pick_index(draws, k, i + 1);
        s.swap(i, p.index);
        k = p.next;
    }
    k
}

// The items of s, and whatever t held is gone.
pub fn copy_into(s: &[u64], cap: usize, t: &mut [u64])
    requires valid_set { ValidSet cap s.now }
    requires cap_le_working_places { cap ≤ working_places }
    requires t_len { length t.old ≡ working_places + 1 }
    ensures { BecomesSet t (items_at cap s.now) }
{
    let n = s[cap] as usize;
    copy_column(&s[..cap], n, t);
}

// The items of `more` after those of s.
pub fn append(s: &mut [u64], cap: usize, more: &[u64], mcap: usize)
    requires valid_set { ValidSet cap s.old }
    requires valid_set_2 { ValidSet mcap more.now }
    requires more_len_bound { length (items_at cap s.old) + length (items_at mcap more.now) ≤ cap }
    ensures { ChangesSet cap (λ l. l ++ items_at mcap more.now) s }
{
    let n = s[cap] as usize;
    let m = more[mcap] as usize;
    s[n..n + m].copy_from_slice(&more[..m]);
    s[cap] = (n + m) as u64;
}
