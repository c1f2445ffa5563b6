// Reads records, each with two bytes for its length in front, and writes a line for each: what the reader answers, and the code of the event.
#![tactic(auto)]

ghost use Rattle.record.specs.Answers.{Found};

use record::Header;

fn main() {
    let mut buffer = io::large_buffer();
    let n = io::read_full(0, &mut buffer);
    show_records(&buffer[..n]);
}

// Every record of the input, to the first that is cut off.
fn show_records(s: &[u8]) {
    let mut rest = s;
    // Over what is left, since a record has its length in front.
    while record::SHORT <= rest.len() {
        let size = record::read_number(rest, 0, record::SHORT) as usize;
        let end = record::SHORT + size;
        if rest.len() < end {
            return;
        }
        show_record(&rest[record::SHORT..end]);
        rest = &rest[end..];
    }
}

fn show_record(b: &[u8]) {
    match record::read(b) {
        Some(h) => {
            show_header(h);
            show_nodes(b, h);
        }
        None => {
            io::write_all(1, b"malformed");
        }
    }
    show_code(b);
}

// A space and a number.
fn word(n: u64) {
    io::write_all(1, b" ");
    io::print_decimal(1, n);
}

fn show_header(h: Header) {
    io::write_all(1, b"record");
    word(h.kind as u64);
    word(h.message as u64);
    word(h.flags as u64);
    word(h.nodes as u64);
    word(h.peer);
    word(h.second);
    word(h.ttl as u64);
    word(h.size as u64);
    word(h.number);
}

fn show_nodes(b: &[u8], h: Header)
    requires { Found b.now h }
{
    for i in 0..h.nodes as usize {
        let e = record::node(b, i);
        io::write_all(1, b" node");
        word(e.id);
        word(e.present as u64);
        word(e.len as u64);
        show_data(record::node_data(b, e));
    }
}

fn show_data(s: &[u8]) {
    for &x in s {
        word(x as u64);
    }
}

fn show_code(b: &[u8]) {
    io::write_all(1, b" code");
    let code = match record::read_event(b) {
        Ok(_) => 0,
        Err(r) => u32::from(r),
    };
    word(code as u64);
    io::write_all(1, b"\n");
}
