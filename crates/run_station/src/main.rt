// The run program (document 01): standard input is a history, standard output gets the lines of its events.
#![tactic(auto)]

use run_input::Head;

// The line that ends an event, or the one line of an input without events.
fn say_end(code: u32, draws: usize) {
    let mut text = [0u8; run_listing::END_LINE];
    let n = run_listing::end_line(code, draws, &mut text);
    io::write_all(1, &text[..n]);
}

// The lines of the records in an output, one after another: no more space is needed than for one of them.
fn say_records(i: usize, records: &[u8]) {
    let mut line = [0u8; run_listing::RECORD_LINE];
    let mut rest = records;
    // Over what is left, since a line tells how many bytes its record took.
    while let Some(r) = run_listing::record_line(i, rest, &mut line) {
        io::write_all(1, &line[..r.size]);
        if rest.len() < r.taken {
            return;
        }
        rest = &rest[r.taken..];
    }
}

// What an input is answered with.
fn say(b: &[u8]) {
    match run_listing::open(b) {
        Err(refusal) => say_end(refusal.into(), 0),
        Ok(head) => {
            // The longest input has fewer than 16,384 draws, and 8,192 bytes of output always suffice.
            let mut drawn = [0u32; run_input::DRAWS_ROOM];
            let mut records = [0u8; hyparview::OUTPUT];
            run_input::read_numbers(&b[head.draws_at..], &mut drawn);
            let events = &b[Head::BYTES..head.draws_at];
            let draws = &drawn[..head.draws];
            let mut p = run_listing::begin(head);
            for i in 0..head.events {
                // The lines of the event at the place reached.
                let r = run_walk::step(p, events, draws, &mut records);
                say_records(i, &records);
                say_end(r.code, r.draws);
                p = r.runner;
            }
        }
    }
}

fn main() {
    // One byte more than an input may have, so that a longer one is noticed.
    let mut buffer = [0u8; run_input::MOST_BYTES + 1];
    let n = io::read_full(0, &mut buffer);
    say(&buffer[..n]);
}
