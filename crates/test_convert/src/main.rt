// Reads cases of the conversion (tools/make/convert) and writes for each the converted record in hex, where the code is 0, and a line with the code.
#![tactic(auto)]

ghost use Rattle.std.specs.Prelude.{◌≤◌, length, IfOk};

use record::Refusal;

// As much output as a case may lend, and one byte more.
const CASE_SPACE: usize = 65536;

// The bytes before a case's record: the form, the room and the record's length.
const CASE_HEAD: usize = 1 + 2 * record::SHORT;

fn main() {
    let mut buffer = io::large_buffer();
    let n = io::read_full(0, &mut buffer);
    show_cases(&buffer[..n]);
}

// Every case of the input, to the first that is cut off.
fn show_cases(s: &[u8]) {
    let mut rest = s;
    // Over what is left, since a case has its length in it.
    while CASE_HEAD <= rest.len() {
        let (head, behind) = rest.split_at(CASE_HEAD);
        let room = record::read_number(head, 1, record::SHORT) as usize;
        let size = record::read_number(head, 3, record::SHORT) as usize;
        if behind.len() < size {
            return;
        }
        let (b, after) = behind.split_at(size);
        show_case(head[0], room, b);
        rest = after;
    }
}

// The output holds no 0 at first, so that a byte shows that is not cleared.
fn show_case(form: u8, room: usize, b: &[u8])
    requires { room ≤ 65535 }
{
    let mut space = [255u8; CASE_SPACE];
    show_in(form, b, &mut space[..room]);
}

fn show_in(form: u8, b: &[u8], out: &mut [u8]) {
    let r = convert_to(form, b, out);
    show_result(r, out);
}

// To the new form where the byte is 0, otherwise to the old one.
fn convert_to(form: u8, b: &[u8], out: &mut [u8]) -> Result<usize, Refusal>
    ensures { IfOk result (λ n. n ≤ length out.old) }
{
    if form == 0 {
        return record_convert::old_to_new(b, out);
    }
    record_convert::new_to_old(b, out)
}

fn show_result(r: Result<usize, Refusal>, out: &[u8])
    requires { IfOk r (λ n. n ≤ length out.now) }
{
    match r {
        Ok(n) => {
            show_hex(&out[..n]);
            show_cleared(0, &out[n..]);
        }
        Err(why) => show_cleared(u32::from(why), out),
    }
}

// The answer, where the bytes behind the record are cleared.
fn show_cleared(code: u32, rest: &[u8]) {
    if cleared(rest) {
        io::write_all(1, b"= ");
        io::print_decimal(1, code as u64);
        io::write_all(1, b"\n");
    } else {
        io::write_all(1, b"not cleared\n");
    }
}

fn cleared(s: &[u8]) -> bool {
    s.iter().all(|&x| x == 0)
}

fn show_hex(s: &[u8]) {
    for &x in s {
        io::print_hex(1, x as u64, 2);
    }
    io::write_all(1, b"\n");
}
