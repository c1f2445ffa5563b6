// Reads questions of 14 numbers of four bytes, each an earliest and a latest start (low half first), the nine settings and a k, and
// writes a line for each: both ends of the k-th shuffle's due time. An input that is no such list, or too long, gets `= 3`.
#![tactic(auto)]

// A question of the input: 14 numbers of four bytes.
const NUMBERS: usize = 14;

const QUESTION_BYTES: usize = 4 * NUMBERS;

fn main() {
    // One byte more than an input may have, so that a longer one is noticed.
    let mut buffer = [0u8; run_input::MOST_BYTES + 1];
    let n = io::read_full(0, &mut buffer);
    say_all(&buffer[..n]);
}

// Every question of the input.
fn say_all(b: &[u8]) {
    if b.len() % QUESTION_BYTES != 0 {
        io::write_all(1, b"= 3\n");
        return;
    }
    for question in b.chunks_exact(QUESTION_BYTES) {
        say_times(question);
    }
}

fn say_times(question: &[u8]) {
    let mut numbers = [0u32; NUMBERS];
    run_input::read_numbers(question, &mut numbers);
    let [earliest_low, earliest_high, latest_low, latest_high, .., k] = numbers;
    // The settings stand behind the two times.
    let t = shuffle_times::hyparview_shuffle_times(
        run_input::from_halves(earliest_low, earliest_high),
        run_input::from_halves(latest_low, latest_high),
        run_input::settings_of(&numbers[4..]),
        k,
    );
    io::print_decimal(1, t.earliest);
    io::write_all(1, b" ");
    io::print_decimal(1, t.latest);
    io::write_all(1, b"\n");
}
