// Text into lent bytes: as much of it as fits, and whether all of it did; and the lines that the run program prints for one event (document 01, "The run program").
#![tactic(auto)]

ghost use Rattle.std.specs.Prelude.{[], ◌∷◌};
ghost use Rattle.run_text.specs.Text.{Prints, Begins};
ghost use Rattle.run_text.specs.Numbers.{decimal, field};
ghost use Rattle.record.specs.Walk.{headers};
ghost use Rattle.run_text.specs.Lines.{record_line, end_line, record_lines, event_text};

use record::{Header, Records};

// The place reached, and whether something did not fit: nothing is written after that.
#[derive(Clone, Copy)]
pub struct Text {
    pub at: usize,
    pub full: bool,
}

// Lent bytes, and the text that is written into them.
#[derive(Drop)]
pub struct Page<'a> {
    pub out: &'a mut [u8],
    pub text: Text,
}

impl<'a> Page<'a> {
    // No text yet.
    pub fn new(out: &'a mut [u8]) -> Page<'a>
        ensures { Begins out.entry result }
    {
        Page {
            out,
            text: Text { at: 0, full: false },
        }
    }

    // One more byte.
    pub fn put(&mut self, x: u8)
        ensures { Prints (x ∷ []) self.old self.new }
    {
        if self.text.at < self.out.len() {
            self.out[self.text.at] = x;
            self.text.at += 1;
        } else {
            self.text.full = true;
        }
    }

    // These bytes, in order.
    fn put_bytes(&mut self, s: &[u8])
        ensures { Prints s.now self.old self.new }
    {
        for &x in s {
            self.put(x);
        }
    }

    // A number in decimal digits.
    pub fn put_decimal(&mut self, n: u64)
        ensures { Prints (decimal n) self.old self.new }
    {
        let mut digits = [0u8; 20];
        let k = io::decimal(n, &mut digits);
        self.put_bytes(&digits[..k]);
    }

    // A number and what follows it.
    pub fn put_field(&mut self, n: u64, after: u8)
        ensures { Prints (field n after) self.old self.new }
    {
        self.put_decimal(n);
        self.put(after);
    }

    // ---- the lines of an event

    // The line of one output record: eight numbers, with spaces between them.
    pub fn put_record(&mut self, i: u64, h: Header)
        ensures { Prints (record_line i h) self.old self.new }
    {
        let numbers = [
            i,
            h.kind as u64,
            h.message as u64,
            h.peer,
            h.second,
            h.ttl as u64,
            h.number,
        ];
        for n in numbers {
            self.put_field(n, b' ');
        }
        self.put_field(h.nodes as u64, b'\n');
    }

    // The line that ends an event.
    pub fn put_end(&mut self, code: u32, draws: u64)
        ensures { Prints (end_line code draws) self.old self.new }
    {
        self.put(b'=');
        self.put(b' ');
        self.put_field(code as u64, b' ');
        self.put_field(draws, b'\n');
    }

    // The lines of the records in an output, each taken by its whole length.
    fn put_records(&mut self, i: u64, records: &[u8])
        ensures { Prints (record_lines i (headers records.now)) self.old self.new }
    {
        for (h, _) in Records::of(records) {
            self.put_record(i, h);
        }
    }

    // All lines of the i-th event, from its code, the draws used and its output.
    pub fn put_event(&mut self, i: u64, code: u32, draws: u64, records: &[u8])
        ensures { Prints (event_text i code draws records.now) self.old self.new }
    {
        self.put_records(i, records);
        self.put_end(code, draws);
    }
}
