// A script run on a floor: the lines of events on a network's record, and a whole script from its set-up on.
#![tactic(auto)]

ghost use Rattle.std.specs.Prelude.{◌≡◌, true, ◌++◌, ◌+◌, ◌≤◌, leb, length, IfSome};
ghost use Rattle.network.specs.Sizes.{Sized};
ghost use Rattle.network.specs.Events.{valid_network_record};
ghost use Rattle.script.specs.Text.{lines};
ghost use Rattle.script.specs.Put.{over, front};
ghost use Rattle.script.specs.Result.{result_names, bad_set_up};
ghost use Rattle.script.specs.Script.{printed};
ghost use Rattle.script_runner.specs.Played.{text_in, after_line, played_as, measured, rehearsed_from, written_into, rehearsed_into};

use answers::Refusal;
use structs::Network;

// The record after the lines of events, and the length of what they print. The length stays a number: a slice would keep the buffer lent.
#[derive(Clone, Copy)]
pub struct Played {
    pub network: Network,
    pub len: usize,
}

// Puts a text into out at `at`.
fn put(out: &mut [u8], at: usize, text: &[u8])
    requires { at + length text.now ≤ length out.old }
    ensures { out.new ≡ over at text.now out.old }
{
    octets::copy(text, &mut out[at..]);
}

// One line of events on a record to which 14 does not apply: its event is done there, or it is unreadable, and what it prints is put at the
// front of the lent array: its length.
pub fn turn(network: &mut Network, l: &[u8], text: &mut [u8; 32]) -> usize
    requires { Sized network.old × (valid_network_record network.old ≡ true) }
    ensures network_value { network.new ≡ after_line network.old l.now }
    ensures value { result ≡ length (text_in network.old l.now) }
    ensures text_after { text.new ≡ front (text_in network.old l.now) text.old }
{
    let mut context = [0; 128];
    let Some(x) = script_reader::read_event(l, &mut context) else {
        return script_writer::unreadable_line(text);
    };
    let answer = floor_link::act(network, x.event, &context[..x.context_len]);
    script_writer::result(text, x.event.kind, answer)
}

// The lines of events in s on a record to which 14 does not apply. They print at the front of out.
pub fn play(network: Network, s: &[u8], out: &mut [u8]) -> Played
    requires network_value { valid_network_record network ≡ true }
    requires s_in_bounds { length (printed network (lines s.now)) ≤ length out.old }
    ensures value { result ≡ played_as network (lines s.now) }
    ensures out_after { out.new ≡ front (printed network (lines s.now)) out.old }
    ensures network_value_2 { valid_network_record result.network ≡ true }
{
    let mut floor = network;
    let mut text = [0; 32];
    let mut len: usize = 0;
    for part in s.split_inclusive(|x| *x == b'\n') {
        let l = part.strip_suffix(b"\n").unwrap_or(part);
        let n = turn(&mut floor, l, &mut text);
        put(out, len, &text[..n]);
        len += n;
    }
    Played {
        network: floor,
        len,
    }
}

// The same with nothing printed, where what they print fits `room` octets. Stays a loop beside `play`'s, over the same `turn`: a closure for what
// is done with a line would hold the buffer for one and nothing for the other, and is no plainer.
pub fn measure(network: Network, s: &[u8], room: usize) -> Option<Played>
    requires { valid_network_record network ≡ true }
    ensures value { result ≡ measured network (lines s.now) room }
    ensures network_value { IfSome result (λ p. valid_network_record p.network ≡ true) }
{
    let mut floor = network;
    let mut text = [0; 32];
    let mut len: usize = 0;
    for piece in s.split_inclusive(|x| *x == b'\n') {
        let l = piece.strip_suffix(b"\n").unwrap_or(piece);
        let n = turn(&mut floor, l, &mut text);
        if room - len < n {
            return None;
        }
        len += n;
    }
    Some(Played {
        network: floor,
        len,
    })
}

// Whether what the lines of events in s print fits `room` octets. 32 octets for each octet of s are enough for any lines; else they are played
// once to measure it.
fn fits(network: Network, s: &[u8], room: usize) -> bool
    requires { valid_network_record network ≡ true }
    ensures { result ≡ leb (length (printed network (lines s.now))) room }
{
    s.len() <= room / 32 || measure(network, s, room).is_some()
}

// Bad set-up or names lines: the names and `? 14 0 0 - -`.
fn refuse(out: &mut [u8]) -> Result<usize, Refusal>
    ensures { rehearsed_from result out.new ≡ written_into (result_names ++ bad_set_up) out.old }
{
    if out.len() < 51 {
        return Err(Refusal::BufferTooShort);
    }
    put(
        out,
        0,
        b"EVENT ANSWER SENT GIVENUP HELD TABLES\n? 14 0 0 - -\n",
    );
    Ok(51)
}

// The names, and then what the lines of events in s print, on a record to which 14 does not apply.
fn print_all(network: Network, s: &[u8], out: &mut [u8]) -> Result<usize, Refusal>
    requires { valid_network_record network ≡ true }
    ensures { rehearsed_from result out.new ≡ written_into (result_names ++ printed network (lines s.now)) out.old }
{
    if out.len() < 38 {
        return Err(Refusal::BufferTooShort);
    }
    if !fits(network, s, out.len() - 38) {
        return Err(Refusal::BufferTooShort);
    }
    put(out, 0, b"EVENT ANSWER SENT GIVENUP HELD TABLES\n");
    let p = play(network, s, &mut out[38..]);
    Ok(38 + p.len)
}

// A whole script, printed at the front of out, whose rest stays: its length, or 10 where out is too short for its output, and then all of it stays.
pub fn rehearse(script: &[u8], out: &mut [u8]) -> Result<usize, Refusal>
    ensures { rehearsed_from result out.new ≡ rehearsed_into script.now out.old }
{
    let Some(o) = script_reader::read_opening(script) else {
        return refuse(out);
    };
    let Ok(network) = floor_link::set_up(o.aps, o.timeout, o.resends) else {
        return refuse(out);
    };
    print_all(network, &script[o.next..], out)
}
