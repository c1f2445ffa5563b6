// The records of an output, as every walk over them takes them.
ghost use Rattle.std.specs.Prelude.{◌≡◌};
ghost use Rattle.std.specs.Iterator.{YieldsFirstBy, item_count};
ghost use Rattle.record.specs.Walk.{record_seen, with_headers};

use crate::{HEADER, Header, read_header};

// The records that are left: each comes with its header and the bytes from it on, until a length is 0 or no header fits.
#[derive(Clone, Copy)]
pub struct Records<'a> {
    rest: &'a [u8],
}

impl<'a> Records<'a> {
    pub fn of(out: &'a [u8]) -> Records<'a>
        ensures { result.rest.now ≡ out.now }
    {
        Records { rest: out }
    }
}

impl<'a> Iterator for Records<'a> {
    type Item = (Header, &'a [u8]);

    ghost next_gives = { YieldsFirstBy record_seen (λ s. with_headers s.rest.now) };

    ghost remaining = { item_count (λ s. with_headers s.rest.now) };

    fn next(&mut self) -> Option<(Header, &'a [u8])> {
        let b = self.rest;
        if b.len() < HEADER {
            return None;
        }
        let h = read_header(b);
        let n = h.size as usize;
        if n == 0 {
            return None;
        }
        self.rest = &b[n.min(b.len())..];
        Some((h, b))
    }
}
