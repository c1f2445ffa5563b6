// The work that the steps of one event hand on, whatever the state is: draws, refusals and records.
#![tactic(auto)]

ghost use Rattle.std.specs.Prelude.{◌≡◌, [], ◌∷◌, ◌≤◌, ◌<◌, length, get_or, drop};
ghost use Rattle.base_util.specs.Chances.{pick, shuffle};
ghost use Rattle.base_peer.specs.Held.{node_in};
ghost use Rattle.base_util.specs.Section.{items_at, working_places, ValidSet, ChangesSet};
ghost use Rattle.record.specs.Refusals.{refusal_code};
ghost use Rattle.record_writer.specs.Nodes.{nodes_in};
ghost use Rattle.record_writer.specs.Write.{rec_in};
ghost use Rattle.work.specs.Run.{draw, draw_one_of, draw_shuffle, require, emit, message, timer, notice, node_notice};
ghost use Rattle.work.specs.Work.{ChangesAny, DrawsAny, Reaches, Emits, after_record};

use base_peer::{PeerId, PeerInfo};
use record::{Kind, Refusal};
use record_writer::{Fields, Nodes};

// The draws used and the bytes written so far, and a code that is 0 while all is well.
#[derive(Clone, Copy, Default)]
pub struct Work {
    pub drawn: usize,
    pub written: usize,
    pub code: u32,
}

// The next draw, and the work that has taken it.
#[derive(Clone, Copy)]
pub struct Drawn {
    pub work: Work,
    pub value: u32,
}

// The place that a draw decided, and the work that has taken it.
#[derive(Clone, Copy)]
pub struct Chosen {
    pub work: Work,
    pub index: usize,
}

// ---- draws

// The work that has taken the draws before `next`; code 5 where there are not so many.
fn reach(w: Work, draws: &[u32], next: usize) -> Work
    requires { w.drawn ≤ length draws.now }
    ensures { Reaches next w result draws.now }
{
    if w.code != 0 {
        return w;
    }
    if draws.len() < next {
        return Work {
            code: Refusal::Draws.into(),
            ..w
        };
    }
    Work { drawn: next, ..w }
}

// Takes the next draw, which a delay never passes over; code 5 where there is none, and then the value is 0.
pub fn draw(w: Work, draws: &[u32]) -> Drawn
    requires { w.drawn ≤ length draws.now }
    ensures draws_any { DrawsAny (draw 1) w result.work draws.now }
    ensures value_value { result.value ≡ get_or draws.now w.drawn 0 }
{
    let at = w.drawn;
    let a = reach(w, draws, at + 1);
    Drawn {
        work: a,
        value: draws.get(at).copied().unwrap_or(0),
    }
}

// Takes the draws that decide one of n places, with those passed over; code 5 where none is kept.
pub fn draw_one_of(w: Work, draws: &[u32], n: usize) -> Chosen
    requires drawn_in_bounds { w.drawn ≤ length draws.now }
    requires n_nonzero { 0 < n }
    ensures draws_any { DrawsAny (draw_one_of n) w result.work draws.now }
    ensures index_value { (result.index ≡ pick n (drop w.drawn draws.now)) × (result.index < n) }
{
    let p = base_util::pick_index(draws, w.drawn, n);
    Chosen {
        work: reach(w, draws, p.next),
        index: p.index,
    }
}

// Shuffles a working set of 32 places where it lies, and takes the draws of that; code 5 where there are not so many.
pub fn shuffle_by_draws(w: Work, draws: &[u32], v: &mut [u64]) -> Work
    requires drawn_in_bounds { w.drawn ≤ length draws.now }
    requires valid_set { ValidSet working_places v.old }
    ensures draws_any { DrawsAny (draw_shuffle (items_at working_places v.old)) w result draws.now }
    ensures changes_set { ChangesSet working_places (shuffle (drop w.drawn draws.now)) v }
{
    let next = base_util::shuffle(v, base_util::WORKING_PLACES, draws, w.drawn);
    reach(w, draws, next)
}

// ---- refusals and records

// A refusal with this code, unless the test holds.
pub fn require(w: Work, code: u32, test: bool) -> Work
    ensures { ChangesAny (require code test) w result }
{
    if w.code != 0 {
        return w;
    }
    if test {
        return w;
    }
    Work { code, ..w }
}

impl Work {
    // This refusal, unless the test holds.
    pub fn require(self, refusal: Refusal, test: bool) -> Work
        ensures { ChangesAny (require (refusal_code refusal) test) self result }
    {
        require(self, refusal.into(), test)
    }
}

// The work after a record was written up to this place, or was found not to fit.
fn after_record(w: Work, a: Option<usize>) -> Work
    ensures { result ≡ after_record a w }
{
    match a {
        Some(n) => Work { written: n, ..w },
        None => Work {
            code: Refusal::Output.into(),
            ..w
        },
    }
}

// A record without nodes into the output; code 9 where it does not fit. One function with a closure that writes would take the record as a
// ghost value besides, which is no plainer than three such bodies.
fn emit_bare(w: Work, out: &mut [u8], f: Fields) -> Work
    requires { w.written ≤ length out.old }
    ensures { Emits (emit (rec_in f [])) w result out }
{
    if w.code != 0 {
        return w;
    }
    after_record(w, record_writer::write_bare(out, w.written, f))
}

// A record with one node.
fn emit_one(w: Work, out: &mut [u8], f: Fields, p: PeerInfo) -> Work
    requires { w.written ≤ length out.old }
    ensures { Emits (emit (rec_in f (node_in p ∷ []))) w result out }
{
    if w.code != 0 {
        return w;
    }
    after_record(w, record_writer::write_one(out, w.written, f, p))
}

// A record with these nodes.
fn emit_nodes(w: Work, out: &mut [u8], f: Fields, ns: &Nodes) -> Work
    requires { w.written ≤ length out.old }
    ensures { Emits (emit (rec_in f (nodes_in ns.now))) w result out }
{
    if w.code != 0 {
        return w;
    }
    after_record(w, record_writer::write(out, w.written, f, ns))
}

// The fields of a record that has but its kind and its peer.
fn plain(kind: u8, p: PeerId) -> Fields
    ensures { result ≡ record { kind = kind; message = 0; flags = 0; peer = p; second = 0; ttl = 0; number = 0 } }
{
    Fields {
        kind,
        message: 0,
        flags: 0,
        peer: p,
        second: 0,
        ttl: 0,
        number: 0,
    }
}

// `io.schedule`: a timer of this kind about a peer, after so many milliseconds, with its number.
pub fn schedule(w: Work, out: &mut [u8], kind: u8, p: PeerId, delay: u64, number: u64) -> Work
    requires { w.written ≤ length out.old }
    ensures { Emits (emit (timer kind p delay number)) w result out }
{
    let f = Fields {
        second: delay,
        number,
        ..plain(kind, p)
    };
    emit_bare(w, out, f)
}

// `io.emit`: a notice of this kind about a peer.
pub fn notify(w: Work, out: &mut [u8], kind: u8, p: PeerId) -> Work
    requires { w.written ≤ length out.old }
    ensures { Emits (emit (notice kind p)) w result out }
{
    schedule(w, out, kind, p, 0, 0)
}

// `io.emit`: a notice with a node.
pub fn notify_node(w: Work, out: &mut [u8], kind: u8, p: PeerId, n: PeerInfo) -> Work
    requires { w.written ≤ length out.old }
    ensures { Emits (emit (node_notice kind p (node_in n))) w result out }
{
    emit_one(w, out, plain(kind, p), n)
}

// `io.send`: a message without nodes.
pub fn send(w: Work, out: &mut [u8], m: u8, to: PeerId, flags: u8) -> Work
    requires { w.written ≤ length out.old }
    ensures { Emits (emit (message m to flags 0 0 [])) w result out }
{
    let f = Fields {
        message: m,
        flags,
        ..plain(Kind::MESSAGE, to)
    };
    emit_bare(w, out, f)
}

// `io.send`: a message with one node.
pub fn send_node(
    w: Work,
    out: &mut [u8],
    m: u8,
    to: PeerId,
    flags: u8,
    ttl: u16,
    n: PeerInfo,
) -> Work
    requires { w.written ≤ length out.old }
    ensures { Emits (emit (message m to flags 0 ttl (node_in n ∷ []))) w result out }
{
    let f = Fields {
        message: m,
        flags,
        ttl,
        ..plain(Kind::MESSAGE, to)
    };
    emit_one(w, out, f, n)
}

// `io.send`: a message with these nodes, and the station that they come from where it tells one.
pub fn send_nodes(
    w: Work,
    out: &mut [u8],
    m: u8,
    to: PeerId,
    origin: PeerId,
    ttl: u16,
    ns: &Nodes,
) -> Work
    requires { w.written ≤ length out.old }
    ensures { Emits (emit (message m to 0 origin ttl (nodes_in ns.now))) w result out }
{
    let f = Fields {
        message: m,
        second: origin,
        ttl,
        ..plain(Kind::MESSAGE, to)
    };
    emit_nodes(w, out, f, ns)
}
