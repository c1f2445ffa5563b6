// Reads calls of a timer queue, each of six 64-bit words (what, time or limit, delay, kind, peer, number), and writes a line for each: the answer in numbers.
#![tactic(auto)]

ghost use Rattle.std.specs.Prelude.{◌≡◌, length};
ghost use Rattle.test_timer.specs.Call.{timer_call_bytes};

use timer_map::Timer;

// What a call is; any other number is a new queue.
const INSERT: u64 = 0;

const POP: u64 = 1;

const FIRST: u64 = 2;

const LEN: u64 = 3;

const EVENT: u64 = 4;

// The places of a call's words.
const TIME: usize = 8;

const DELAY: usize = 16;

const KIND: usize = 24;

const PEER_AT: usize = 32;

const NUMBER: usize = 40;

const CALL: usize = 48;

// More calls than are ever made: a program ends.
const MOST_CALLS: usize = 100000000;

// One line: each number and a space.
fn show_line(ws: &[u64]) {
    for &w in ws {
        io::print_decimal(1, w);
        io::write_all(1, b" ");
    }
    io::write_all(1, b"\n");
}

fn show_insert(q: &mut [u64], b: &[u8])
    requires { length b.now ≡ timer_call_bytes }
{
    let item = Timer {
        kind: record::read_number(b, KIND, record::NUMBER_BYTES),
        peer: record::read_number(b, PEER_AT, record::NUMBER_BYTES),
        number: record::read_number(b, NUMBER, record::NUMBER_BYTES),
        ..Timer::default()
    };
    let time = record::read_number(b, TIME, record::NUMBER_BYTES);
    let delay = record::read_number(b, DELAY, record::NUMBER_BYTES);
    let code = timer_map::timer_map_insert(q, time, delay, item);
    let line = [INSERT, u64::from(code)];
    show_line(&line);
}

fn show_pop(q: &mut [u64], limit: u64) {
    let p = timer_map::timer_map_pop_before(q, limit);
    let e = p.entry;
    let x = e.item;
    let id = x.id;
    show_line(&[
        POP,
        u64::from(p.code),
        u64::from(p.found),
        e.time,
        x.kind,
        x.peer,
        x.number,
        id.0,
        id.1,
        id.2,
        id.3,
    ]);
}

fn show_first(q: &[u64]) {
    let f = timer_map::timer_map_first(q);
    let line = [FIRST, u64::from(f.code), u64::from(f.found), f.time];
    show_line(&line);
}

fn show_len(q: &[u64]) {
    let n = timer_map::timer_map_len(q);
    let line = [LEN, u64::from(n.code), n.count];
    show_line(&line);
}

// No byte of what is lent for an event is 0 before, so that one shows that is not cleared.
const BEFORE: u8 = 255;

// The event's bytes as four words.
fn show_event(q: &mut [u64], limit: u64) {
    let mut space = [BEFORE; record::HEADER];
    let out: &mut [u8] = &mut space;
    let p = timer_events::timer_map_pop_event(q, limit, out);
    let line = [
        EVENT,
        u64::from(p.code),
        u64::from(p.found),
        p.time,
        record::read_number(out, 0, record::NUMBER_BYTES),
        record::read_number(out, 8, record::NUMBER_BYTES),
        record::read_number(out, 16, record::NUMBER_BYTES),
        record::read_number(out, 24, record::NUMBER_BYTES),
    ];
    show_line(&line);
}

fn show_new(q: &mut [u64], what: u64) {
    let code = timer_map::timer_map_new(q);
    let line = [what, u64::from(code)];
    show_line(&line);
}

fn call(q: &mut [u64], b: &[u8])
    requires { length b.now ≡ timer_call_bytes }
{
    let what = record::read_number(b, 0, record::NUMBER_BYTES);
    let time = record::read_number(b, TIME, record::NUMBER_BYTES);
    match what {
        INSERT => show_insert(q, b),
        POP => show_pop(q, time),
        FIRST => show_first(q),
        LEN => show_len(q),
        EVENT => show_event(q, time),
        _ => show_new(q, what),
    }
}

// The next call; false where standard input has none.
fn next_call(q: &mut [u64], b: &mut [u8]) -> bool
    requires { length b.old ≡ timer_call_bytes }
{
    let n = io::read_full(0, b);
    if n < CALL {
        return false;
    }
    call(q, b);
    true
}

fn main() {
    let mut words = [0u64; timer_map::WORDS];
    let q: &mut [u64] = &mut words;
    let mut space = [0u8; CALL];
    let b: &mut [u8] = &mut space;
    for _ in 0..MOST_CALLS {
        if !next_call(q, b) {
            return;
        }
    }
}
