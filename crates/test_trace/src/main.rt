// Standard input holds histories one after another; standard output gets their traces, each ended by an empty line.
// A history is a head of 32 bytes and then its input. The head has the input's length and the room (4 bytes each), the next request and the next join (8 each), and the two pass counts (4 each).
#![tactic(auto)]

use trace_replay::TraceStart;

// The bytes of a history's head.
const HISTORY_HEAD: usize = 32;

// What a history starts with, and how long its input is, of the numbers of its head.
fn start_of(head: &[u8]) -> (TraceStart, usize) {
    let mut numbers = [0u32; HISTORY_HEAD / 4];
    run_input::read_numbers(head, &mut numbers);
    let [
        size,
        room,
        request_low,
        request_high,
        join_low,
        join_high,
        passes_alone,
        passes_short,
    ] = numbers;
    let start = TraceStart {
        room: room as usize,
        next_neighbor_request: run_input::from_halves(request_low, request_high),
        next_join: run_input::from_halves(join_low, join_high),
        passes_alone,
        passes_short,
    };
    (start, size as usize)
}

// One history, whose input is as long as the lent bytes; false where standard input has not so many.
fn show_history(bytes: &mut [u8], start: TraceStart) -> bool {
    let n = io::read_full(0, bytes);
    if n < bytes.len() {
        return false;
    }
    trace_replay::history(bytes, start);
    io::write_all(1, b"\n");
    true
}

// The next history of standard input; false where there is none, or a longer one than any input.
fn next_history(head: &mut [u8], bytes: &mut [u8]) -> bool {
    let n = io::read_full(0, head);
    if n < head.len() {
        return false;
    }
    let (start, size) = start_of(head);
    if bytes.len() < size {
        return false;
    }
    show_history(&mut bytes[..size], start)
}

// More histories than any sample has: a program ends.
const MOST_HISTORIES: usize = 1000000;

fn main() {
    let mut head = [0u8; HISTORY_HEAD];
    let mut bytes = [0u8; run_input::MOST_BYTES + 1];
    for _ in 0..MOST_HISTORIES {
        if !next_history(&mut head, &mut bytes) {
            return;
        }
    }
}
