// The text of one event, into lent bytes: each output record in hex, the code with the draws used, and the state that the call handed back.
#![tactic(auto)]

ghost use Rattle.std.specs.Prelude.{◌≡◌, length, take};
ghost use Rattle.record.specs.Walk.{records_in};
ghost use Rattle.base_peer.specs.Held.{fields_in};
ghost use Rattle.hyparview_state.specs.Layout.{words};
ghost use Rattle.hyparview_state.specs.Unpack.{own_at, limit_at};
ghost use Rattle.run_text.specs.Text.{Prints};
ghost use Rattle.trace_text.specs.Hex.{hex, hex_lines};
ghost use Rattle.trace_text.specs.Items.{comma_before, after_name};
ghost use Rattle.trace_text.specs.Fields.{InWords, field_at};
ghost use Rattle.trace_text.specs.Event.{own_field, refill_field, trace_event};

use hyparview_state::{Layout, RefillLimit};
use record::Records;
use run_text::Page;

// ---- bytes in hex

// How much further on the letters stand, which are the digits past 9.
const LETTERS: u8 = b'a' - b'0' - 10;

// The first n of the bytes.
fn put_front(t: &mut Page, bytes: &[u8], n: usize)
    ensures { Prints (hex (take n bytes.now)) t.old t.new }
{
    for &x in &bytes[..n.min(bytes.len())] {
        let high = x / 16;
        let low = x % 16;
        t.put(b'0' + high + LETTERS * (high / 10));
        t.put(b'0' + low + LETTERS * (low / 10));
    }
}

// A line for each record, taken by its whole length; one that the end cuts off is the last, and is shown as far as it goes.
fn put_record_lines(t: &mut Page, records: &[u8])
    ensures { Prints (hex_lines (records_in records.now)) t.old t.new }
{
    for (h, bytes) in Records::of(records) {
        put_front(t, bytes, h.size as usize);
        t.put(b'\n');
    }
}

// ---- the line of a state

// The line as it is printed, but for what stands in place of some bytes: `O` the station's own data, `L` the limit on refills, a digit the next of the fields below. The digit is how many
// columns the field has: 0 a number, 1 a list of peers, 2 peers with their numbers, 4 peers with their data.
// The line and its fields, by tools/make/layout.py
const STATE_LINE: [u8; 194] =
    *b"state me=O active=[1] passive=[1] bootstrap=[1] recent=[1] requests=[2] next_request=0 joins=[2] next_join=0 data=[4] alive=[1] refused=[1] refill=L timers=0 interval=0 alone=0 short=0 pins=[1]\n";

// Where the words of each field begin.
const FIELD_PLACES: [usize; 16] = [
    Layout::ACTIVE,
    Layout::PASSIVE,
    Layout::BOOTSTRAP,
    Layout::RECENT,
    Layout::REQUESTS,
    Layout::NEXT_NEIGHBOR_REQUEST,
    Layout::JOINS,
    Layout::NEXT_JOIN,
    Layout::PEER_DATA,
    Layout::ALIVE,
    Layout::REFUSED,
    Layout::TIMERS_SCHEDULED,
    Layout::NEXT_SHUFFLE_INTERVAL,
    Layout::PASSES_ALONE,
    Layout::PASSES_SHORT,
    Layout::PINS,
];

// How many items each has room for.
const FIELD_ROOMS: [usize; 16] = [
    Layout::ACTIVE_PLACES,
    Layout::PASSIVE_PLACES,
    Layout::BOOTSTRAP_PLACES,
    Layout::RECENT_PLACES,
    Layout::REQUESTS_PLACES,
    1,
    Layout::JOINS_PLACES,
    1,
    Layout::PEER_DATA_PLACES,
    Layout::ALIVE_PLACES,
    Layout::REFUSED_PLACES,
    1,
    1,
    1,
    1,
    Layout::PINS_PLACES,
];
// end

// A comma before every item but the first.
fn put_comma(t: &mut Page, i: usize)
    ensures { Prints (comma_before i) t.old t.new }
{
    if i != 0 {
        t.put(b',');
    }
}

// The items of a field, as many as its count says and there is room for. The count stands behind the columns; a number is one item and has none.
fn put_items(t: &mut Page, st: &[u64], columns: usize, at: usize, room: usize)
    requires { InWords columns at room (length st.now) }
    ensures { Prints (field_at columns at room st.now) t.old t.new }
{
    let count = if columns == 0 {
        1
    } else {
        st[at + columns * room] as usize
    };
    for i in 0..count.min(room) {
        put_comma(t, i);
        let place = at + i;
        t.put_decimal(st[place]);
        if 1 < columns {
            t.put(b':');
            let value = st[place + room];
            if columns == 2 {
                t.put_decimal(value);
            } else {
                // The value is how many bytes there are, in two more words.
                let bytes = base_columns::bytes_of(st[place + 2 * room], st[place + 3 * room]);
                put_front(t, &bytes, value as usize);
            }
        }
    }
}

// The station's own data, without the name of the field.
fn put_own(t: &mut Page, st: &[u64])
    requires { length st.now ≡ words }
    ensures { Prints (after_name "state me=" (own_field (fields_in (own_at st.now)))) t.old t.new }
{
    if st[Layout::OWN_PRESENT] == 1 {
        t.put(b'x');
        let bytes = base_columns::bytes_of(st[Layout::OWN_LOW], st[Layout::OWN_HIGH]);
        put_front(t, &bytes, st[Layout::OWN_LEN] as usize);
    } else {
        t.put(b'-');
    }
}

// The limit on refills, without the name of the field.
fn put_limit(t: &mut Page, st: &[u64])
    requires { length st.now ≡ words }
    ensures { Prints (after_name " refill=" (refill_field (limit_at st.now))) t.old t.new }
{
    match st[Layout::REFILL_KIND] {
        RefillLimit::AUTOMATIC => t.put(b'A'),
        RefillLimit::REQUESTS_LEFT => {
            t.put(b'R');
            t.put_decimal(st[Layout::REFILL_REQUESTS]);
        }
        _ => t.put(b'V'),
    }
}

// One event: its output records, its code with the draws used, and the state.
pub fn put_trace_event(
    t: &mut Page,
    records: &[u8],
    code: u32,
    draws: usize,
    st: &[u64; Layout::LENGTH],
)
    ensures { Prints (trace_event records.now code draws st.now) t.old t.new }
{
    put_record_lines(t, records);
    t.put_end(code, draws as u64);
    // The line of the state.
    let mut field: usize = 0;
    for x in STATE_LINE {
        match x {
            b'O' => put_own(t, st),
            b'L' => put_limit(t, st),
            b'0'..=b'4' => {
                put_items(
                    t,
                    st,
                    (x - b'0') as usize,
                    FIELD_PLACES[field],
                    FIELD_ROOMS[field],
                );
                field += 1;
            }
            _ => t.put(x),
        }
    }
}
