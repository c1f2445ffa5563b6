// Standard input holds inputs of the run program one after another, each with its length in 4 bytes in front; standard output gets the text of each, ended by an empty line.
#![tactic(auto)]

// Space for the text of one input.
const TEXT_SPACE: usize = 262144;

// The text of one input; one that does not fit is named, and not cut off.
fn show_listing(b: &[u8], text: &mut [u8]) {
    match run_listing::run(b, text) {
        Some(n) => {
            io::write_all(1, &text[..n]);
        }
        None => {
            io::write_all(1, b"! a text that does not fit\n");
        }
    }
    io::write_all(1, b"\n");
}

// One input, as long as the lent bytes; false where standard input has not so many.
fn take(bytes: &mut [u8], text: &mut [u8; TEXT_SPACE]) -> bool {
    let n = io::read_full(0, bytes);
    if n < bytes.len() {
        return false;
    }
    show_listing(bytes, text);
    true
}

// The next input; false where there is none, or one longer than the lent bytes.
fn next_input(head: &mut [u8], bytes: &mut [u8], text: &mut [u8; TEXT_SPACE]) -> bool {
    let n = io::read_full(0, head);
    if n < head.len() {
        return false;
    }
    let size = run_input::number(head, 0) as usize;
    if bytes.len() < size {
        return false;
    }
    take(&mut bytes[..size], text)
}

// The bytes of an input's length.
const LENGTH_BYTES: usize = 4;

// More inputs than are ever stored: a program ends.
const MOST_INPUTS: usize = 1000000;

fn main() {
    let mut head = [0u8; LENGTH_BYTES];
    let mut bytes = [0u8; run_input::MOST_BYTES + 1];
    let mut text = [0u8; TEXT_SPACE];
    for _ in 0..MOST_INPUTS {
        if !next_input(&mut head, &mut bytes, &mut text) {
            return;
        }
    }
}
