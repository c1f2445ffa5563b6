// The tally of 01, "What the Rust does that needs another form": the messages sent, by kind.
#![tactic(auto)]

ghost use Rattle.std.specs.Prelude.{◌≡◌};
ghost use Rattle.tally.specs.Counts.{counted, raise_one, enter, raised};

use record::{Header, Kind, Message, Records};

// One count for each value of byte 1.
#[repr(C)]
#[derive(Clone, Copy, Default)]
pub struct Tally {
    pub join: u64,
    pub forward_join: u64,
    pub shuffle: u64,
    pub shuffle_reply: u64,
    pub neighbor: u64,
    pub disconnect: u64,
}

// One more where the test holds; a count at 2^64 - 1 stays there.
fn counted(test: bool, n: u64) -> u64
    ensures { result ≡ counted test n }
{
    n.saturating_add(u64::from(test))
}

// One message more, of the kind that its byte 1 says.
fn raise_one(t: Tally, message: u8) -> Tally
    ensures { result ≡ raise_one message t }
{
    Tally {
        join: counted(message == Message::JOIN, t.join),
        forward_join: counted(message == Message::FORWARD_JOIN, t.forward_join),
        shuffle: counted(message == Message::SHUFFLE, t.shuffle),
        shuffle_reply: counted(message == Message::SHUFFLE_REPLY, t.shuffle_reply),
        neighbor: counted(message == Message::NEIGHBOR, t.neighbor),
        disconnect: counted(message == Message::DISCONNECT, t.disconnect),
    }
}

// One record of the output: only kind 0 is a message.
fn enter(t: Tally, h: Header) -> Tally
    ensures { result ≡ enter h.kind h.message t }
{
    if h.kind == Kind::MESSAGE {
        return raise_one(t, h.message);
    }
    t
}

// The tally after an event with this code and this output.
pub fn raised(t: Tally, code: u32, out: &[u8]) -> Tally
    ensures { result ≡ raised code out.now t }
{
    if code != 0 {
        return t;
    }
    Records::of(out).fold(t, |t, (h, _)| enter(t, h))
}

// The lent tally becomes what it is after that event.
pub fn raise(t: &mut Tally, code: u32, out: &[u8])
    ensures { t.new ≡ raised code out.now t.old }
{
    *t = raised(*t, code, out);
}
