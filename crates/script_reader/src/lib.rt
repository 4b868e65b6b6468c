// Lines of a script read: an event or an unreadable line, and the set-up of the first three lines.
#![tactic(auto)]

ghost use Rattle.std.specs.Prelude.{◌≡◌, ◌≤◌, false, length};
ghost use Rattle.script.specs.Text.{place_from, next_from};
ghost use Rattle.script.specs.EventLine.{said_with};
ghost use Rattle.script.specs.SetUpLines.{values_in};
ghost use Rattle.script_reader.specs.Heard.{heard_as, heard_from, nothing_heard, heard_in, context_to, values_from, opening_from, opening_in};
ghost use Rattle.script_reader.specs.Parts.{heard_said, context_said};

use structs::{Event, Kind};

// A line of more octets is unreadable.
const LONGEST_LINE: usize = 255;

// What a line of an event says. The octets of the context are in the array that was lent; their length stays a number, since a slice would
// keep the array lent.
#[derive(Clone, Copy)]
pub struct Heard {
    pub event: Event,
    pub context_len: usize,
}

// APS, TIMEOUT and RESENDS, as a line of values says them.
#[derive(Clone, Copy)]
pub struct Values {
    pub aps: u16,
    pub timeout: u16,
    pub resends: u16,
}

// The set-up that a script begins with: APS, TIMEOUT and RESENDS, and where the lines of events begin.
#[derive(Clone, Copy)]
pub struct Opening {
    pub aps: u16,
    pub timeout: u16,
    pub resends: u16,
    pub next: usize,
}

// The place of the first octet c from `at` on, or the length of s, or `at` where that is past the end. Stays a loop over places, since the
// place is what is asked for, and `position` counts from the start of a part that may not be there.
#[tactic(auto, using(crate::proofs::Places::place_past, crate::proofs::Places::place_hit, crate::proofs::Places::place_miss))]
pub fn place_of(s: &[u8], at: usize, c: u8) -> usize
    ensures { result ≡ place_from c at s.now }
{
    for i in at..s.len() {
        if s[i] == c {
            return i;
        }
    }
    at.max(s.len())
}

// Where the line after the end of a line begins.
#[tactic(auto, unfolding(script::specs::Text::next_from))]
pub fn next_line(s: &[u8], end: usize) -> usize
    ensures { result ≡ next_from end s.now }
{
    if end < s.len() { end + 1 } else { end }
}

// One line of an event, without its 0A.
pub fn read_event(l: &[u8], context: &mut [u8; 128]) -> Option<Heard>
    ensures result_value { heard_from result ≡ heard_in l.now }
    ensures context_after { context.new ≡ context_to l.now context.old }
{
    if LONGEST_LINE < l.len() {
        return None;
    }
    let mut fields = l.split(|x| *x == b' ');
    let name = fields.next()?;
    let at = fields.next()?;
    let station = fields.next()?;
    let sequence = fields.next()?;
    let old = fields.next()?;
    let given = fields.next()?;
    if fields.next().is_some() {
        return None;
    }
    let kind = script_fields::read_kind(name)?;
    read_fields(kind, at, station, sequence, old, given, context)
}

// AT, STATION, SEQ, OLD and CONTEXT of an event of this kind.
fn read_fields(
    kind: Kind,
    at: &[u8],
    station: &[u8],
    sequence: &[u8],
    old: &[u8],
    given: &[u8],
    context: &mut [u8; 128],
) -> Option<Heard>
    requires { length given.now ≤ 255 }
    ensures result_value { heard_from result ≡ heard_said (said_with kind at.now station.now sequence.now old.now given.now) }
    ensures context_after { context.new ≡ context_said (said_with kind at.now station.now sequence.now old.now given.now) context.old }
{
    let at = script_fields::number_field(script_fields::has_at(kind), at)?;
    let station = script_fields::station_field(script_fields::has_station(kind), station)?;
    let join = script_fields::is_join(kind);
    let sequence = script_fields::number_field(join, sequence)?;
    let old = script_fields::old_field(join, old)?;
    let context_len = script_fields::context_field(join, given, context)?;
    Some(Heard {
        event: Event {
            kind,
            at,
            station,
            sequence,
            old,
        },
        context_len,
    })
}

// The line of values.
pub fn read_values(l: &[u8]) -> Option<Values>
    ensures { values_from result ≡ values_in l.now }
{
    if LONGEST_LINE < l.len() {
        return None;
    }
    let mut fields = l.split(|x| *x == b' ');
    let aps = script_fields::read_number(fields.next()?)?;
    let timeout = script_fields::read_number(fields.next()?)?;
    let resends = script_fields::read_number(fields.next()?)?;
    if fields.next().is_some() || !access_point::valid_setup(aps, timeout, resends) {
        return None;
    }
    Some(Values {
        aps,
        timeout,
        resends,
    })
}

// The first three lines of a script.
pub fn read_opening(s: &[u8]) -> Option<Opening>
    ensures { opening_from result ≡ opening_in s.now }
{
    let mut lines = s.split(|x| *x == b'\n');
    let names = lines.next()?;
    let values = lines.next()?;
    let event_names = lines.next()?;
    if names != b"APS TIMEOUT RESENDS".as_slice() {
        return None;
    }
    if event_names != b"EVENT AT STATION SEQ OLD CONTEXT".as_slice() {
        return None;
    }
    let end = names.len() + values.len() + event_names.len() + 2;
    let v = read_values(values)?;
    Some(Opening {
        aps: v.aps,
        timeout: v.timeout,
        resends: v.resends,
        next: next_line(s, end),
    })
}
