// The fields of a script's lines: names, numbers, stations and contexts, each read from its own octets. None where a field is unreadable.
#![tactic(auto)]

ghost use Rattle.std.specs.Prelude.{◌≡◌, true, ◌+◌, ◌*◌, ◌≤◌, ◌<◌, length, get_or, is_some, option_map};
ghost use Rattle.lists.specs.Places.{every};
ghost use Rattle.script.specs.Put.{front, front_given};
ghost use Rattle.script.specs.Fields.{is_dash, number_in, is_hex, hex_of, octets_in, station_in, context_in};
ghost use Rattle.script.specs.EventLine.{name_of, kind_in, has_at, has_station, is_join, number_field, station_field, old_field, context_field};

use structs::Kind;

// The seven events, as a field may name them.
const KINDS: [Kind; 7] = [
    Kind::Join,
    Kind::Leave,
    Kind::Deliver,
    Kind::Repeat,
    Kind::Lose,
    Kind::Tick,
    Kind::Who,
];

// Whether the field is `-`.
#[tactic(auto, using(crate::proofs::Texts::equal_texts))]
pub fn is_dash(f: &[u8]) -> bool
    ensures { result ≡ is_dash f.now }
{
    f == b"-".as_slice()
}

// A number of 0..65535 without leading zeros.
pub fn read_number(f: &[u8]) -> Option<u16>
    ensures { result ≡ number_in f.now }
{
    let first = *f.first()?;
    if first == b'0' && 1 < f.len() {
        return None;
    }
    let mut v: u16 = 0;
    for x in f {
        if !x.is_ascii_digit() {
            return None;
        }
        v = v.checked_mul(10)?.checked_add(u16::from(*x - b'0'))?;
    }
    Some(v)
}

fn is_hex(x: u8) -> bool
    ensures { result ≡ is_hex x }
{
    matches!(x, b'0'..=b'9' | b'a'..=b'f')
}

fn hex_of(x: u8) -> u8
    requires { is_hex x ≡ true }
    ensures value { result ≡ hex_of x }
    ensures upper_bound { result < 16 }
{
    if x <= b'9' { x - b'0' } else { x - b'a' + 10 }
}

// Whether every octet is a lower-case hex digit.
fn is_hex_run(f: &[u8]) -> bool
    ensures { result ≡ every is_hex f.now }
{
    f.iter().all(|x| is_hex(*x))
}

// The octet of the digits 2i and 2i + 1.
fn octet_at(f: &[u8], i: usize) -> u8
    requires { (2 * i + 1 < length f.now) × (every is_hex f.now ≡ true) }
    ensures { result ≡ get_or (octets_in f.now) i 0 }
{
    hex_of(f[2 * i]) * 16 + hex_of(f[2 * i + 1])
}

// The octets of a run of digits, put at the front of a lent part, whose rest stays: how many there are. Stays a loop over places: with
// `chunks_exact` its proof did not close.
fn put_octets(f: &[u8], octets: &mut [u8]) -> usize
    requires { (length (octets_in f.now) ≤ length octets.old) × (every is_hex f.now ≡ true) }
    ensures value { result ≡ length (octets_in f.now) }
    ensures octets_after { octets.new ≡ front (octets_in f.now) octets.old }
{
    let n = f.len() / 2;
    for i in 0..n {
        octets[i] = octet_at(f, i);
    }
    n
}

// A station: 12 lower-case hex digits.
#[tactic(auto, using(crate::proofs::Runs::octets_length, crate::proofs::Runs::front_all), unfolding(script::specs::Fields::station_in))]
pub fn read_station(f: &[u8]) -> Option<[u8; 6]>
    ensures { result ≡ station_in f.now }
{
    if f.len() != 12 || !is_hex_run(f) {
        return None;
    }
    let mut octets = [0; 6];
    put_octets(f, &mut octets);
    Some(octets)
}

// Whether the field is a context: an even run of digits.
#[tactic(auto, using(crate::proofs::Runs::context_test))]
fn is_context(f: &[u8]) -> bool
    ensures { result ≡ is_some (context_in f.now) }
{
    !f.is_empty() && f.len() % 2 == 0 && is_hex_run(f)
}

// The name of an event.
pub fn name(kind: Kind) -> &'static [u8]
    ensures { result.now ≡ name_of kind }
{
    match kind {
        Kind::Join => b"join",
        Kind::Leave => b"leave",
        Kind::Deliver => b"deliver",
        Kind::Repeat => b"repeat",
        Kind::Lose => b"lose",
        Kind::Tick => b"tick",
        Kind::Who => b"who",
    }
}

// The event that has this name.
pub fn read_kind(f: &[u8]) -> Option<Kind>
    ensures { result ≡ kind_in f.now }
{
    KINDS.iter().find(|kind| f == name(**kind)).copied()
}

// `has` stays a bool in these four: that a field which an event lacks is a dash is a rule of the script, and one `if` in each. One function
// for all would take a closure and a value for the dash, and is no plainer.

// AT of an event that has it or lacks it, and SEQ.
#[tactic(auto, unfolding(script::specs::EventLine::number_field))]
pub fn number_field(has: bool, f: &[u8]) -> Option<u16>
    ensures { result ≡ number_field has f.now }
{
    if has {
        read_number(f)
    } else {
        is_dash(f).then_some(0)
    }
}

// STATION.
#[tactic(auto, unfolding(script::specs::EventLine::station_field))]
pub fn station_field(has: bool, f: &[u8]) -> Option<[u8; 6]>
    ensures { result ≡ station_field has f.now }
{
    if has {
        read_station(f)
    } else {
        is_dash(f).then_some([0; 6])
    }
}

// OLD.
#[tactic(auto, unfolding(script::specs::EventLine::old_field))]
pub fn old_field(has: bool, f: &[u8]) -> Option<Option<u16>>
    ensures { result ≡ old_field has f.now }
{
    if is_dash(f) {
        Some(None)
    } else if has {
        read_number(f).map(Some)
    } else {
        None
    }
}

// CONTEXT: its octets are put at the front of the lent array, whose rest stays: how many there are. Where it is unreadable, all of it
// stays.
#[tactic(auto, using(crate::proofs::Runs::context_some, crate::proofs::Runs::context_none, crate::proofs::Runs::context_hex, crate::proofs::Runs::octets_length), unfolding(script::specs::EventLine::context_field))]
pub fn context_field(has: bool, f: &[u8], context: &mut [u8; 128]) -> Option<usize>
    requires { length f.now ≤ 255 }
    ensures len_value { result ≡ option_map length (context_field has f.now) }
    ensures context_after { context.new ≡ front_given (context_field has f.now) context.old }
{
    if is_dash(f) {
        return Some(0);
    }
    if !has || !is_context(f) {
        return None;
    }
    Some(put_octets(f, context))
}

// Which fields an event has. Stay functions: contracts name them.

pub fn has_at(kind: Kind) -> bool
    ensures { result ≡ has_at kind }
{
    !matches!(kind, Kind::Who)
}

pub fn has_station(kind: Kind) -> bool
    ensures { result ≡ has_station kind }
{
    matches!(kind, Kind::Join | Kind::Leave | Kind::Who)
}

pub fn is_join(kind: Kind) -> bool
    ensures { result ≡ is_join kind }
{
    matches!(kind, Kind::Join)
}
