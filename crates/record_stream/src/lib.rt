// Document 02, S-8: a file of records of any length from standard input to standard output, each record in the other form.
#![tactic(auto)]

ghost use Rattle.std.specs.Prelude.{◌≤◌, length, IfSome, MatchResult};
ghost use Rattle.record_convert.specs.Walk.{Walks};
ghost use Rattle.record_stream.specs.Chunk.{chunk_bytes, walked_by, AnswersBytes, IsAnswered};

use record::{Form, Refusal};
use record_convert::Progress;

// The bytes that are held at once, and the most that they become.
const CHUNK: usize = 65536;

const CONVERTED_CHUNK: usize = CHUNK + CHUNK / 2;

// How often the input is read at most, each time up to `CHUNK` bytes: more than any disk has, so that the place in it has 64 bits.
const TURNS: u64 = 1099511627776;

// The records of b, to a form.
fn convert_by(b: &[u8], out: &mut [u8], to: Form) -> Progress
    ensures walks { Walks (walked_by to) result b out }
    ensures taken_in_bounds { (result.taken ≤ length b.now) × (result.written ≤ length out.old) }
{
    match to {
        Form::Old => record_convert::all_to_old(b, out),
        Form::This => record_convert::all_to_new(b, out),
    }
}

// The line that ends it where bytes are refused: the answer, and their place in the input.
fn complain(why: Refusal, place: u64) {
    io::write_all(2, b"answer ");
    io::print_decimal(2, u32::from(why) as u64);
    io::write_all(2, b" at byte ");
    io::print_decimal(2, place);
    io::write_all(2, b"\n");
}

// The line that ends it where its output cannot be written.
fn complain_full() {
    io::write_all(2, b"standard output takes no more\n");
}

// Reads on, behind the bytes that are held at the front: how many stand there then, fewer than there is room for only at the end of the input.
fn fill(buffer: &mut [u8], held: usize) -> usize
    requires { held ≤ length buffer.old }
    ensures { result ≤ length buffer.old }
{
    held + io::read_full(0, &mut buffer[held..])
}

// The records of b to standard output, to the first that is refused or is cut off: how far they were converted, as Err where standard output takes no more.
fn pass(b: &[u8], out: &mut [u8], to: Form) -> Result<Progress, Progress>
    ensures taken_in_bounds { MatchResult result (λ p. p.taken ≤ length b.now) (λ p. p.taken ≤ length b.now) }
    ensures code_value { MatchResult result (AnswersBytes to b out) (AnswersBytes to b out) }
{
    let p = convert_by(b, out, to);
    if io::write_all(1, &out[..p.written]) {
        return Ok(p);
    }
    Err(p)
}

// What a turn leaves: how many bytes are held, how many were converted, and the refusal of those behind them.
#[derive(Clone, Copy)]
struct Turned {
    held: usize,
    taken: usize,
    refused: Option<Refusal>,
}

fn turn(buffer: &mut [u8], held: usize, out: &mut [u8], to: Form) -> Option<Turned>
    requires { held ≤ length buffer.old }
    ensures in_bounds { IfSome result (λ t. (t.held ≤ length buffer.old) × (t.taken ≤ length buffer.old)) }
    ensures answered { IfSome result (λ t. IsAnswered to t.refused) }
{
    let n = fill(buffer, held);
    let p = pass(&buffer[..n], out, to).ok()?;
    buffer.copy_within(p.taken..n, 0);
    Some(Turned {
        held: n - p.taken,
        taken: p.taken,
        refused: p.refused,
    })
}

// Turn by turn, to the end of the input or to the first record that is refused: its bytes are held whole then, as the buffer is longer than any record.
fn stream(buffer: &mut [u8], out: &mut [u8], to: Form) -> Option<Refusal>
    requires { length buffer.old ≤ chunk_bytes }
    ensures { IsAnswered to result }
{
    let mut held: usize = 0;
    let mut place: u64 = 0;
    for _turn in 0..TURNS {
        let Some(t) = turn(buffer, held, out, to) else {
            complain_full();
            return None;
        };
        held = t.held;
        if t.taken == 0 {
            if let Some(why) = t.refused {
                complain(why, place);
            }
            return t.refused;
        }
        place += t.taken as u64;
    }
    None
}

// The whole of the input, to a form: the refusal that ended it, where there was one.
pub fn convert_input(to: Form) -> Option<Refusal>
    ensures { IsAnswered to result }
{
    let mut buffer = [0u8; CHUNK];
    let mut out = [0u8; CONVERTED_CHUNK];
    stream(&mut buffer, &mut out, to)
}
