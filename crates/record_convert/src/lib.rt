// Document 02, S-8: a record of the old form made one of this form, and back, on lent bytes.
#![tactic(auto)]

ghost use Rattle.std.specs.Prelude.{◌≡◌, true, ◌+◌, ◌-◌, ◌^◌, ◌≤◌, ◌<◌, length, drop, ltb, IfOk};
ghost use Rattle.base_lists.specs.Lent.{Overwrites};
ghost use Rattle.record.specs.Format.{old_peer_length, peer_length, header_length_by, node_length_by};
ghost use Rattle.record.specs.Format.{place_by, size_by, encode_by};
ghost use Rattle.record.specs.Forms.{form_width};
ghost use Rattle.record.specs.Read.{header_of_by, well_formed_by, nodes_of_by, rec_of_by};
ghost use Rattle.record_convert.specs.Convert.{kind_in_form, is_record, ids_fit, conversion_code, code_to, placed, outcome_of, Converts};
ghost use Rattle.record_convert.specs.Convert.{tail_bytes, header_fields, entry_fields, entries_of_by, moved_entry, resized};
ghost use Rattle.record_convert.specs.Walk.{first_record, walked, Walks};

use record::{BOTH_SHORT, Entry, Form, Header, Kind, NUMBER_BYTES, PEER_FROM, Refusal, SHORT};

// What became of a file of records: the refusal that it ended with, if it did, how many of its bytes are records that were converted, and how many bytes were written.
#[derive(Clone, Copy)]
pub struct Progress {
    pub refused: Option<Refusal>,
    pub taken: usize,
    pub written: usize,
}

// The header's fields behind its peers: they are as long in both forms.
fn put_tail(out: &mut [u8], at: usize, h: Header)
    requires { at + 12 ≤ length out.old }
    ensures { Overwrites out at (tail_bytes h) }
{
    record_writer::put_number(out, at, h.ttl as u64, SHORT);
    record_writer::put_number(out, at + SHORT, h.size as u64, SHORT);
    record_writer::put_number(out, at + BOTH_SHORT, h.number, NUMBER_BYTES);
}

// The header, in a form.
fn write_header(out: &mut [u8], h: Header, form: Form)
    requires { header_length_by (form_width form) ≤ length out.old }
    ensures { Overwrites out 0 (header_fields (form_width form) h) }
{
    let w = form.width();
    record_writer::write_bytes(out, 0, &[h.kind, h.message, h.flags, h.nodes]);
    record_writer::put_number(out, PEER_FROM, h.peer, w);
    record_writer::put_number(out, PEER_FROM + w, h.second, w);
    put_tail(out, PEER_FROM + 2 * w, h);
}

// The node entry at a place.
fn put_entry(out: &mut [u8], at: usize, e: Entry, form: Form)
    requires { at + node_length_by (form_width form) ≤ length out.old }
    ensures { Overwrites out at (entry_fields (form_width form) e) }
{
    let w = form.width();
    record_writer::put_number(out, at, e.id, w);
    record_writer::put_number(out, at + w, e.offset as u64, SHORT);
    record_writer::write_bytes(out, at + (w + SHORT), &[e.len, e.present]);
}

// An entry whose data stand at the place reached, if it has any.
fn moved(e: Entry, at: usize) -> Entry
    requires { at < 65536 }
    ensures { result ≡ moved_entry e at }
{
    let offset = if e.present == 0 { 0 } else { at as u16 };
    Entry { offset, ..e }
}

// The entries of a record's n nodes, from one form into the other.
fn write_entries(out: &mut [u8], b: &[u8], n: usize, from: Form, to: Form)
    requires b_value { well_formed_by (form_width from) b.now ≡ true }
    requires n_value { n ≡ (header_of_by (form_width from) b.now).nodes }
    requires n_in_bounds { place_by (form_width to) n ≤ length out.old }
    ensures { Overwrites out (header_length_by (form_width to)) (entries_of_by (form_width from) (form_width to) n b) }
{
    let mut reached = record::place(n, to);
    for i in 0..n {
        let e = record::node_by(b, i, from);
        put_entry(out, record::place(i, to), moved(e, reached), to);
        reached += e.len as usize;
    }
}

// The data behind the entries of n nodes, as they stand.
fn write_data(out: &mut [u8], b: &[u8], n: usize, from: Form, to: Form)
    requires n_bound { n ≤ 255 }
    requires n_in_bounds { place_by (form_width from) n ≤ length b.now }
    requires n_in_bounds_2 { place_by (form_width to) n + (length b.now - place_by (form_width from) n) ≤ length out.old }
    ensures { Overwrites out (place_by (form_width to) n) (drop (place_by (form_width from) n) b.now) }
{
    let data = record::place(n, from);
    record_writer::write_bytes(out, record::place(n, to), &b[data..]);
}

// The whole length in the other form: the data stay as long as they are.
fn other_size(len: usize, n: usize, from: Form, to: Form) -> usize
    requires n_bound { n ≤ 255 }
    requires n_bound_2 { place_by (form_width from) n ≤ len }
    requires len_bound { len ≤ 65535 }
    ensures { result ≡ place_by (form_width to) n + (len - place_by (form_width from) n) }
{
    record::place(n, to) + (len - record::place(n, from))
}

// The record in the other form, whose header is h: the header, the entries, and the data as they stand.
fn write_form(out: &mut [u8], b: &[u8], h: Header, from: Form, to: Form)
    requires b_value { well_formed_by (form_width from) b.now ≡ true }
    requires h_value { h ≡ resized (header_of_by (form_width from) b.now) (size_by (form_width to) (rec_of_by (form_width from) b.now)) }
    requires size_in_bounds { h.size ≤ length out.old }
    ensures { Overwrites out 0 (encode_by (form_width to) (rec_of_by (form_width from) b.now)) }
{
    let n = h.nodes as usize;
    write_header(out, h, to);
    write_entries(out, b, n, from, to);
    write_data(out, b, n, from, to);
}

// The form has room for the number.
fn fits(x: u64, form: Form) -> bool
    ensures { result ≡ ltb x (256 ^ form_width form) }
{
    match form {
        Form::Old => x < record::FOUR_BYTES_END,
        Form::This => true,
    }
}

// The form has room for the ids of all nodes.
fn ids_fit(b: &[u8], n: usize, from: Form, to: Form) -> bool
    requires n_bound { n ≤ 255 }
    requires n_in_bounds { place_by (form_width from) n ≤ length b.now }
    ensures { result ≡ ids_fit (form_width to) (nodes_of_by (form_width from) b.now 0 n) }
{
    (0..n).all(|i| fits(record::node_by(b, i, from).id, to))
}

// The form has the kind: a pin has no old one.
fn kind_in_form(kind: u8, form: Form) -> bool
    ensures { result ≡ kind_in_form (form_width form) kind }
{
    match form {
        Form::Old => kind != Kind::PIN,
        Form::This => true,
    }
}

// What a record of one form is answered: its header in the other form.
fn other_form(b: &[u8], room: usize, from: Form, to: Form) -> Result<Header, Refusal>
    requires { is_record (form_width from) b.now ≡ true }
    ensures code { code_to result ≡ conversion_code (form_width from) (form_width to) b.now room }
    ensures header { IfOk result (λ h. h ≡ resized (header_of_by (form_width from) b.now) (size_by (form_width to) (rec_of_by (form_width from) b.now))) }
{
    let h = record::read_header_by(b, from);
    let n = h.nodes as usize;
    let size = other_size(b.len(), n, from, to);
    let has_form = kind_in_form(h.kind, to)
        & fits(h.peer, to)
        & fits(h.second, to)
        & ids_fit(b, n, from, to)
        & (size < 65536);
    if !has_form {
        return Err(Refusal::NoOtherForm);
    }
    if room < size {
        return Err(Refusal::Output);
    }
    Ok(Header {
        size: size as u16,
        ..h
    })
}

// What bytes are answered that are to go into an output of so much room.
fn answer(b: &[u8], room: usize, from: Form, to: Form) -> Result<Header, Refusal>
    ensures code { code_to result ≡ conversion_code (form_width from) (form_width to) b.now room }
    ensures header { IfOk result (λ h. h ≡ resized (header_of_by (form_width from) b.now) (size_by (form_width to) (rec_of_by (form_width from) b.now))) }
{
    if b.len() < record::place(0, from) {
        return Err(Refusal::Malformed);
    }
    if record::MOST_NODES < b[3] {
        return Err(Refusal::Nodes);
    }
    if record::well_formed(b, from) & kind_in_form(b[0], from) {
        return other_form(b, room, from, to);
    }
    Err(Refusal::Malformed)
}

// The record in the other form onto what stands in the output, and how many bytes were written.
fn place_record(b: &[u8], out: &mut [u8], from: Form, to: Form) -> Result<usize, Refusal>
    ensures { outcome_of result out.new ≡ placed (form_width from) (form_width to) b.now out.old }
{
    let h = answer(b, out.len(), from, to)?;
    write_form(out, b, h, from, to);
    Ok(h.size as usize)
}

fn convert(b: &[u8], out: &mut [u8], from: Form, to: Form) -> Result<usize, Refusal>
    ensures { Converts (form_width from) (form_width to) result b out }
{
    out.fill(0);
    place_record(b, out, from, to)
}

// A record of the old form in this one: how many bytes of the output were written.
pub fn old_to_new(b: &[u8], out: &mut [u8]) -> Result<usize, Refusal>
    ensures { Converts old_peer_length peer_length result b out }
{
    convert(b, out, Form::Old, Form::This)
}

// A record of this form in the old one.
pub fn new_to_old(b: &[u8], out: &mut [u8]) -> Result<usize, Refusal>
    ensures { Converts peer_length old_peer_length result b out }
{
    convert(b, out, Form::This, Form::Old)
}

// How many bytes the first record has.
fn first_length(b: &[u8], form: Form) -> usize
    ensures { (result ≡ length (first_record (form_width form) b.now)) × (result ≤ length b.now) }
{
    if b.len() < record::place(0, form) {
        return b.len();
    }
    let h = record::read_header_by(b, form);
    b.len().min(h.size as usize)
}

// Each record of a file in order, to its end or to the first record that is refused.
fn convert_all(b: &[u8], out: &mut [u8], from: Form, to: Form) -> Progress
    ensures walks { Walks (walked (form_width from) (form_width to)) result b out }
    ensures taken_in_bounds { (result.taken ≤ length b.now) × (result.written ≤ length out.old) }
{
    out.fill(0);
    let mut taken: usize = 0;
    let mut written: usize = 0;
    // By the place reached, which is a part of the answer: a record has its length in it, so that no iterator gives the records.
    while taken < b.len() {
        let end = taken + first_length(&b[taken..], from);
        match place_record(&b[taken..end], &mut out[written..], from, to) {
            Ok(n) => written += n,
            Err(why) => {
                return Progress {
                    refused: Some(why),
                    taken,
                    written,
                };
            }
        }
        taken = end;
    }
    Progress {
        refused: None,
        taken,
        written,
    }
}

pub fn all_to_new(b: &[u8], out: &mut [u8]) -> Progress
    ensures walks { Walks (walked old_peer_length peer_length) result b out }
    ensures taken_in_bounds { (result.taken ≤ length b.now) × (result.written ≤ length out.old) }
{
    convert_all(b, out, Form::Old, Form::This)
}

pub fn all_to_old(b: &[u8], out: &mut [u8]) -> Progress
    ensures walks { Walks (walked peer_length old_peer_length) result b out }
    ensures taken_in_bounds { (result.taken ≤ length b.now) × (result.written ≤ length out.old) }
{
    convert_all(b, out, Form::This, Form::Old)
}
