// Standard input is the run program's input; standard output is the history in the trace form.
#![tactic(auto)]

use trace_replay::TraceStart;

fn main() {
    // One byte more than an input may have, so that a longer one is noticed.
    let mut buffer = [0u8; run_input::MOST_BYTES + 1];
    let n = io::read_full(0, &mut buffer);
    let start = TraceStart::usual();
    trace_replay::history(&buffer[..n], start);
}
