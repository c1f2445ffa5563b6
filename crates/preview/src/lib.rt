// The price of an event (02, S-9): what it would send, write and draw, told before it is done.
#![tactic(auto)]

ghost use Rattle.std.specs.Prelude.{◌≡◌};
ghost use Rattle.spec_hyparview.specs.Sides.{side_of};
ghost use Rattle.preview.specs.Preview.{priced_records, no_price, preview};

use hyparview::OUTPUT;
use hyparview_state::Layout;
use record::{Kind, Records, Refusal};

// What an output's records come to.
#[derive(Clone, Copy, Default)]
pub struct Count {
    pub messages: usize,
    pub bytes: usize,
}

// What a call would answer: its code, the messages to neighbors, the bytes of output written and the draws used.
#[repr(C)]
#[derive(Clone, Copy, Default)]
pub struct Price {
    pub code: u32,
    pub messages: usize,
    pub bytes: usize,
    pub draws: usize,
}

// The messages among an output's records, and the bytes of all of them.
fn priced_records(out: &[u8]) -> Count
    ensures { result ≡ priced_records out.now }
{
    let mut count = Count::default();
    for (h, _) in Records::of(out) {
        count.messages += usize::from(h.kind == Kind::MESSAGE);
        count.bytes += h.size as usize;
    }
    count
}

// A refused call sends, writes and draws nothing.
fn no_price(code: u32) -> Price
    ensures { result ≡ no_price code }
{
    Price {
        code,
        ..Price::default()
    }
}

// The event done on a copy of the words, with output of its own.
pub fn preview(st: &[u64], radio: bool, b: &[u8], draws: &[u32]) -> Price
    ensures { result ≡ preview st.now (side_of radio) b.now draws.now }
{
    if st.len() != Layout::LENGTH {
        return no_price(Refusal::State as u32);
    }
    let mut words = [0u64; Layout::LENGTH];
    words.copy_from_slice(st);
    let mut out = [0u8; OUTPUT];
    let d = hyparview::handle_from(&mut words, radio, b, draws, &mut out);
    let code = d.code;
    if code != 0 {
        return no_price(code);
    }
    let n = priced_records(&out);
    Price {
        code,
        messages: n.messages,
        bytes: n.bytes,
        draws: d.draws,
    }
}

// The same for C, over memory that is read and never written.
pub fn hyparview_preview(st: &[u64], radio: bool, event: &[u8], draws: &[u32]) -> Price
    ensures { result ≡ preview st.now (side_of radio) event.now draws.now }
{
    preview(st, radio, event, draws)
}
