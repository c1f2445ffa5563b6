// Document 02, S-1: the timer queue of util.rs, `TimerMap`, in 513 words that the caller lends.
#![tactic(auto)]

ghost use Rattle.std.specs.Prelude.{◌≡◌, [], ◌∷◌, ◌++◌, ◌+◌, ◌-◌, ◌≤◌, ◌<◌, length, take, drop, replicate, IfOk};
ghost use Rattle.std.specs.Simd.{first_chunks};
ghost use Rattle.base_lists.specs.Lists.{shift_remove};
ghost use Rattle.base_lists.specs.Tests.{every};
ghost use Rattle.timer_map.specs.Entries.{capacity, timer_ok, queue_entry_ok, insert_refusal, insert_timer, soonest};
ghost use Rattle.timer_map.specs.Words.{row_words, first_row, row_at, queue_words, queue_count};
ghost use Rattle.timer_map.specs.Words.{queue_entry_at, queue_entries_at, entries_of, queue_row};
ghost use Rattle.timer_map.specs.Words.{unused_word, queue_ok, pack_queue, SoundQueue};
ghost use Rattle.timer_map.specs.Calls.{Leaves, PutsIn, inserted, renewed, due_in, popped_words};
ghost use Rattle.timer_map.specs.Calls.{refused_pop, refused_first, taken_out, first_of, first_in, count_in, code_in};

// The lent words: the count, then a row for each place. A sum is a constant of its own.
pub const WORDS: usize = 513;

pub const COUNT: usize = 0;

const ROWS: usize = 1;

const ROW: usize = 8;

const LAST_ROW: usize = 505;

const CAPACITY: u64 = 64;

// The kinds that a timer can have; none of them has an id, and those up to the second have neither peer nor number. What S-7 adds is added to `timer_ok` alone.
const FIRST_KIND: u64 = 1;

const LAST_BARE_KIND: u64 = 2;

const LAST_KIND: u64 = 4;

// Why a call is refused: each by the number that C is told.
#[derive(Clone, Copy, PartialEq, Eq)]
pub enum QueueRefusal {
    Broken = 2,
    NoTimer = 3,
    Full = 11,
    TooLate = 12,
}

// The number that C is told: 0 where nothing is refused.
pub fn code(r: Result<(), QueueRefusal>) -> u32
    ensures { result ≡ code_in r }
{
    match r {
        Ok(()) => 0,
        Err(why) => why as u32,
    }
}

// 32 bytes, in words.
#[repr(C)]
#[derive(Clone, Copy, PartialEq, Eq, Default)]
pub struct Id(pub u64, pub u64, pub u64, pub u64);

// What a timer is: kind, peer and number as in its record, and the id of S-7's timers.
#[repr(C)]
#[derive(Clone, Copy, Default)]
pub struct Timer {
    pub kind: u64,
    pub peer: u64,
    pub number: u64,
    pub id: Id,
}

// TimerMapEntry without its sequence number: entries stand in the order put in.
#[repr(C)]
#[derive(Clone, Copy, Default)]
pub struct TimerMapEntry {
    pub time: u64,
    pub item: Timer,
}

// The entry that is to come out, and its place.
#[derive(Clone, Copy)]
pub struct Due {
    pub place: usize,
    pub entry: TimerMapEntry,
}

// What taking out hands back; without an entry all of it is zero.
#[repr(C)]
#[derive(Clone, Copy, Default)]
pub struct Popped {
    pub code: u32,
    pub found: bool,
    pub entry: TimerMapEntry,
}

// The next due time, if any.
#[repr(C)]
#[derive(Clone, Copy, Default)]
pub struct First {
    pub code: u32,
    pub found: bool,
    pub time: u64,
}

// How many timers are held.
#[repr(C)]
#[derive(Clone, Copy)]
pub struct Len {
    pub code: u32,
    pub count: u64,
}

// Whether a timer can be so: then an event record can say it.
fn timer_ok(x: Timer) -> bool
    ensures { result ≡ timer_ok x }
{
    let no_id = x.id == Id::default();
    let bare_ok = (LAST_BARE_KIND < x.kind) | ((x.peer == 0) & (x.number == 0));
    (FIRST_KIND <= x.kind) & ((x.kind <= LAST_KIND) & (bare_ok & no_id))
}

// The rows of a queue's words.
fn rows(q: &[u64]) -> &[[u64; ROW]]
    requires { length q.now ≡ queue_words }
    ensures { result.now ≡ first_chunks row_words capacity (drop first_row q.now) }
{
    let (rows, _) = q[ROWS..].as_chunks::<ROW>();
    rows
}

impl From<&[u64; ROW]> for TimerMapEntry {
    fn from(row: &[u64; ROW]) -> TimerMapEntry
        ensures { result ≡ queue_entry_at row.now 0 }
    {
        let [time, kind, peer, number, id0, id1, id2, id3] = *row;
        TimerMapEntry {
            time,
            item: Timer {
                kind,
                peer,
                number,
                id: Id(id0, id1, id2, id3),
            },
        }
    }
}

impl From<TimerMapEntry> for [u64; ROW] {
    fn from(e: TimerMapEntry) -> [u64; ROW]
        ensures { result ≡ queue_row e }
    {
        let TimerMapEntry { time, item } = e;
        let Timer {
            kind,
            peer,
            number,
            id,
        } = item;
        [time, kind, peer, number, id.0, id.1, id.2, id.3]
    }
}

// The entry whose row is the i-th.
fn entry_at(q: &[u64], i: usize) -> TimerMapEntry
    requires q_len { length q.now ≡ queue_words }
    requires i_bound { i < capacity }
    ensures { result ≡ queue_entry_at q.now (row_at i) }
{
    TimerMapEntry::from(&rows(q)[i])
}

// Whether the first n rows are timers.
fn queue_entries_ok(q: &[u64], n: usize) -> bool
    requires q_len { length q.now ≡ queue_words }
    requires n_bound { n ≤ capacity }
    ensures { result ≡ every queue_entry_ok (queue_entries_at q.now first_row n) }
{
    rows(q)[..n]
        .iter()
        .all(|row| timer_ok(TimerMapEntry::from(row).item))
}

// Whether the words from place `from` on are zero.
// One copy for all callers: inlined, its time hangs on where the linker lays each of them.
#[inline(never)]
fn unused_from(q: &[u64], from: usize) -> bool
    requires { from ≤ length q.now }
    ensures { result ≡ every unused_word (drop from q.now) }
{
    // Every word is looked at, since the compiler makes vector code of that, and none of `all`.
    q[from..].iter().fold(0, |bits, w| bits | w) == 0
}

// Whether the words keep the queue's own rules.
pub fn queue_ok(q: &[u64]) -> bool
    ensures { result ≡ queue_ok q.now }
{
    if q.len() != WORDS {
        return false;
    }
    let n = q[COUNT];
    if CAPACITY < n {
        return false;
    }
    let count = n as usize;
    queue_entries_ok(q, count) & unused_from(q, ROWS + ROW * count)
}

// The words from place `from` on become zero.
fn clear_rows(q: &mut [u64], from: usize)
    requires { from ≤ length q.old }
    ensures { q.new ≡ take from q.old ++ replicate (length q.old - from) 0 }
{
    q[from..].fill(0);
}

// One more entry, at the end.
fn push_entry(q: &mut [u64], e: TimerMapEntry)
    requires sound_queue { SoundQueue q.old }
    requires q_bound { queue_count q.old < capacity }
    ensures { q.new ≡ pack_queue (entries_of q.old ++ (e ∷ [])) }
{
    let n = q[COUNT];
    let at = ROWS + ROW * (n as usize);
    let row = <[u64; ROW]>::from(e);
    q[at..at + ROW].copy_from_slice(&row);
    q[COUNT] = n + 1;
}

// The i-th entry goes, and the later ones keep their order.
pub fn remove_entry(q: &mut [u64], i: usize)
    requires sound_queue { SoundQueue q.old }
    requires i_bound { i < queue_count q.old }
    ensures { q.new ≡ pack_queue (shift_remove i (entries_of q.old)) }
{
    let n = q[COUNT];
    let at = ROWS + ROW * i;
    q.copy_within(at + ROW.., at);
    q[LAST_ROW..].fill(0);
    q[COUNT] = n - 1;
}

// The first n entries stay, and the later ones go.
pub fn truncate_entries(q: &mut [u64], n: u64)
    requires sound_queue { SoundQueue q.old }
    requires n_bound { n ≤ queue_count q.old }
    ensures { q.new ≡ pack_queue (take n (entries_of q.old)) }
{
    clear_rows(q, ROWS + ROW * (n as usize));
    q[COUNT] = n;
}

// When a timer is due that is put in beside n others, or why it cannot be put in.
#[tactic(auto, using(crate::proofs::Ways::too_late, crate::proofs::Ways::too_many, crate::proofs::Ways::may))]
fn due_time(time: u64, delay: u64, n: u64) -> Result<u64, QueueRefusal>
    ensures code { code_in result ≡ insert_refusal time delay n }
    ensures due { IfOk result (λ t. t ≡ time + delay) }
{
    let due = time.checked_add(delay).ok_or(QueueRefusal::TooLate)?;
    if CAPACITY <= n {
        return Err(QueueRefusal::Full);
    }
    Ok(due)
}
// A timer into a queue that keeps its rules.
pub fn insert_ok(q: &mut [u64], time: u64, delay: u64, item: Timer) -> Result<(), QueueRefusal>
    requires { SoundQueue q.old }
    ensures { PutsIn (code_in result) q (insert_timer time delay item) }
{
    if !timer_ok(item) {
        return Err(QueueRefusal::NoTimer);
    }
    let due = due_time(time, delay, q[COUNT])?;
    push_entry(q, TimerMapEntry { time: due, item });
    Ok(())
}

// TimerMap::insert, by the time and a delay: 0, or 2, 3 (no timer), 12, 11, and then every word is as it was.
pub fn timer_map_insert(q: &mut [u64], time: u64, delay: u64, item: Timer) -> u32
    ensures { Leaves result q (inserted time delay item q.old) }
{
    if queue_ok(q) {
        return code(insert_ok(q, time, delay, item));
    }
    QueueRefusal::Broken as u32
}

// The place of the first entry with the smallest due time, of n entries.
fn soonest(q: &[u64], n: usize) -> usize
    requires q_len { length q.now ≡ queue_words }
    requires n_bound { n ≤ capacity }
    requires n_nonzero { 0 < n }
    ensures { (result ≡ soonest (queue_entries_at q.now first_row n)) × (result < n) }
{
    let rows = rows(q);
    let mut best = 0;
    for i in 1..n {
        if rows[i][0] < rows[best][0] {
            best = i;
        }
    }
    best
}

// The first entry with the smallest due time, where that is at most the limit, of a queue that keeps its rules.
pub fn find_due(q: &[u64], limit: u64) -> Option<Due>
    requires { SoundQueue q.now }
    ensures { result ≡ due_in limit (entries_of q.now) }
{
    let n = q[COUNT] as usize;
    if n == 0 {
        return None;
    }
    let place = soonest(q, n);
    let entry = entry_at(q, place);
    if limit < entry.time {
        return None;
    }
    Some(Due { place, entry })
}

// Without an entry: none is due, or the code of a refusal.
fn no_pop(code: u32) -> Popped
    ensures { result ≡ refused_pop code }
{
    Popped {
        code,
        ..Popped::default()
    }
}

// Taking out of a queue that keeps its rules.
fn pop_ok(q: &mut [u64], limit: u64) -> Popped
    requires { SoundQueue q.old }
    ensures { record { answer = result; words = q.new } ≡ popped_words limit (entries_of q.old) }
{
    let Some(due) = find_due(q, limit) else {
        return no_pop(0);
    };
    remove_entry(q, due.place);
    Popped {
        code: 0,
        found: true,
        entry: due.entry,
    }
}

// TimerMap::pop_before: the first of the entries with the smallest due time, where that is at most the limit.
pub fn timer_map_pop_before(q: &mut [u64], limit: u64) -> Popped
    ensures { record { answer = result; words = q.new } ≡ taken_out limit q.old }
{
    if queue_ok(q) {
        return pop_ok(q, limit);
    }
    no_pop(QueueRefusal::Broken as u32)
}

// Without a due time: none is held, or the code of a refusal.
fn no_first(code: u32) -> First
    ensures { result ≡ refused_first code }
{
    First {
        code,
        ..First::default()
    }
}

// The next due time of a queue that keeps its rules.
fn first_ok(q: &[u64]) -> First
    requires { SoundQueue q.now }
    ensures { result ≡ first_of (entries_of q.now) }
{
    let n = q[COUNT] as usize;
    if n == 0 {
        return no_first(0);
    }
    let i = soonest(q, n);
    First {
        code: 0,
        found: true,
        time: entry_at(q, i).time,
    }
}

// TimerMap::first: the next due time.
pub fn timer_map_first(q: &[u64]) -> First
    ensures { result ≡ first_in q.now }
{
    if queue_ok(q) {
        return first_ok(q);
    }
    no_first(QueueRefusal::Broken as u32)
}

// How many timers are held.
pub fn timer_map_len(q: &[u64]) -> Len
    ensures { result ≡ count_in q.now }
{
    if queue_ok(q) {
        return Len {
            code: 0,
            count: q[COUNT],
        };
    }
    Len {
        code: QueueRefusal::Broken as u32,
        count: 0,
    }
}

// The lent words become the empty queue; code 2 where they are not as many as a queue has.
pub fn timer_map_new(q: &mut [u64]) -> u32
    ensures { Leaves result q (renewed q.old) }
{
    if q.len() != WORDS {
        return QueueRefusal::Broken as u32;
    }
    clear_rows(q, 0);
    0
}
