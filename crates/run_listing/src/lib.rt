// What the run program prints (document 01, "The run program"): the text of a run, from the input's bytes into lent bytes.
#![tactic(auto)]

ghost use Rattle.std.specs.Prelude.{◌≡◌, ◌≤◌, length, drop};
ghost use Rattle.io.specs.Counts.{IsPrefixLen};
ghost use Rattle.base_lists.specs.Bytes.{overwrite};
ghost use Rattle.run_input.specs.Input.{numbers};
ghost use Rattle.run_input.specs.Input.{Laid};
ghost use Rattle.run_text.specs.Text.{Prints};
ghost use Rattle.run_text.specs.Lines.{end_line};
ghost use Rattle.run_listing.specs.Run.{laid_text, run_text};
ghost use Rattle.run_listing.specs.Place.{end_line_space, record_line_space, Fronts, Lines, fitting};
ghost use Rattle.run_listing.specs.Opened.{opened_run, first_place};

use hyparview::State;
use record::Refusal;
use run_input::Head;
use run_text::Page;
use run_walk::Runner;

// Bytes that suffice for the line that ends an event, and for the line of a record, with twenty digits for each number.
pub const END_LINE: usize = 44;

pub const RECORD_LINE: usize = 168;

// How many bytes the line of a record has, and how many the record takes.
#[derive(Clone, Copy)]
pub struct Lined {
    pub size: usize,
    pub taken: usize,
}

// The events of an input, with the numbers that stand where its draws do.
fn put_walk(s: State, b: &[u8], head: Head, drawn: &[u32], records: &mut [u8], t: &mut Page)
    requires laid { Laid b.now head }
    requires prefix_len { IsPrefixLen head.draws drawn.now }
    requires drawn_value { drawn.now ≡ numbers (length drawn.now) 0 (drop head.draws_at b.now) }
    ensures { Prints (laid_text (length records.old) s.words head b.now) t.old t.new }
{
    let events = &b[Head::BYTES..head.draws_at];
    let draws = &drawn[..head.draws];
    let mut p = Runner {
        state: s,
        at: 0,
        used: 0,
    };
    for i in 0..head.events {
        // The event at the place reached, and its lines.
        let a = run_walk::step(p, events, draws, records);
        t.put_event(i as u64, a.code, a.draws as u64, records);
        p = a.runner;
    }
}

// Every decision that is taken before the first event: the head of an input that has events, or the refusal that its one line tells.
pub fn open(b: &[u8]) -> Result<Head, Refusal>
    ensures { result ≡ opened_run b.now }
{
    let Some(head) = run_input::read_input(b) else {
        return Err(Refusal::Malformed);
    };
    // Settings out of range have one line only.
    let m = State::new(head.me, false, b"", head.config);
    if m.code != 0 {
        return Err(Refusal::Settings);
    }
    Ok(head)
}

// The line that ends an event, or the one line of an input without events, at the front of the lent bytes.
pub fn end_line(code: u32, draws: usize, out: &mut [u8]) -> usize
    requires { end_line_space ≤ length out.old }
    ensures { Fronts (end_line code draws) out.old result out.new }
{
    let mut t = Page::new(out);
    t.put_end(code, draws as u64);
    t.text.at
}

// The line of the first record of an output, at the front of the lent bytes; None where no record stands there.
pub fn record_line(i: usize, records: &[u8], out: &mut [u8]) -> Option<Lined>
    requires { record_line_space ≤ length out.old }
    ensures { Lines i records.now out.old result out.new }
{
    if records.len() < record::HEADER {
        return None;
    }
    let h = record::read_header(records);
    let n = h.size as usize;
    if n == 0 {
        return None;
    }
    let mut t = Page::new(out);
    t.put_record(i as u64, h);
    Some(Lined {
        size: t.text.at,
        taken: n,
    })
}

// The place before the first event: the new station.
pub fn begin(head: Head) -> Runner
    ensures { result ≡ first_place head }
{
    let m = State::new(head.me, false, b"", head.config);
    Runner {
        state: m.state,
        at: 0,
        used: 0,
    }
}

// All that is printed for an input.
fn put_run(b: &[u8], t: &mut Page)
    ensures { Prints (run_text b.now) t.old t.new }
{
    match open(b) {
        Err(refusal) => t.put_end(u32::from(refusal), 0),
        Ok(head) => {
            let p = begin(head);
            // The longest input has fewer than 16,384 draws.
            let mut drawn = [0u32; run_input::DRAWS_ROOM];
            let mut records = [0u8; hyparview::OUTPUT];
            run_input::read_numbers(&b[head.draws_at..], &mut drawn);
            put_walk(p.state, b, head, &drawn, &mut records, t);
        }
    }
}

// The text of a run into lent bytes: as much of it as fits, and how long it is, or None where it does not fit.
pub fn run(b: &[u8], out: &mut [u8]) -> Option<usize>
    ensures value { result ≡ fitting (length (run_text b.now)) (length out.old) }
    ensures out_after { out.new ≡ overwrite out.old 0 (run_text b.now) }
{
    let mut t = Page::new(out);
    put_run(b, &mut t);
    if t.text.full {
        return None;
    }
    Some(t.text.at)
}
