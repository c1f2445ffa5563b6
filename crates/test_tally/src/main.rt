// Keeps one tally over the cases of standard input, by `tally::raise`, and writes its six counts after each, in the order of byte 1.
// A case is the length of an output and the code of its event, four bytes each, lowest first, and then the output.
#![tactic(auto)]

ghost use Rattle.std.specs.Prelude.{◌≡◌};
ghost use Rattle.tally.specs.Counts.{raised};

use tally::Tally;

// The bytes before an output, and the place of the code in them.
const HEAD: usize = 8;

const CODE: usize = 4;

// The tally after one more event, which is raised where it lies.
fn after(t: Tally, code: u32, out: &[u8]) -> Tally
    ensures { result ≡ raised code out.now t }
{
    let mut lent = t;
    tally::raise(&mut lent, code, out);
    lent
}

// A count and what follows it.
fn show_count(n: u64, end: &[u8]) {
    io::print_decimal(1, n);
    io::write_all(1, end);
}

fn show_tally(t: Tally) {
    show_count(t.join, b" ");
    show_count(t.forward_join, b" ");
    show_count(t.shuffle, b" ");
    show_count(t.shuffle_reply, b" ");
    show_count(t.neighbor, b" ");
    show_count(t.disconnect, b"\n");
}

fn cut_off() {
    io::write_all(1, b"! a case that is cut off\n");
}

// The tally after every case of the input, from no message on; a case that is cut off is named.
fn show_tallies(s: &[u8]) {
    let mut t = Tally::default();
    let mut rest = s;
    // Over what is left, since a case has its length in it.
    while HEAD <= rest.len() {
        let size = record::read_number(rest, 0, record::U32_BYTES) as usize;
        let code = record::read_number(rest, CODE, record::U32_BYTES) as u32;
        if rest.len() - HEAD < size {
            cut_off();
            return;
        }
        let end = HEAD + size;
        t = after(t, code, &rest[HEAD..end]);
        show_tally(t);
        rest = &rest[end..];
    }
    if rest.len() > 0 {
        cut_off();
    }
}

fn main() {
    let mut buffer = io::large_buffer();
    let n = io::read_full(0, &mut buffer);
    if n < buffer.len() {
        show_tallies(&buffer[..n]);
    } else {
        io::write_all(1, b"! an input that is too long\n");
    }
}
