// The floor link: set-up and the seven events, on a network's record handed on by value.
#![tactic(auto)]

ghost use Rattle.std.specs.Prelude.{◌≡◌, true, false};
ghost use Rattle.std.specs.List.{list_all};
ghost use Rattle.machine.specs.Events as machine;
ghost use Rattle.machine.specs.Events.{step};
ghost use Rattle.record.specs.Valid.{valid_record};
ghost use Rattle.network.specs.Lens.{get};
ghost use Rattle.network.specs.Sizes.{Sized};
ghost use Rattle.network.specs.Events.{valid_network_record, reply_of, event_of};
ghost use Rattle.events.specs.Event.{is_who, event_from};
ghost use Rattle.floor_link.specs.Answered.{set_up_of, set_up_done, reply_at, Unchanged, reply_from};

use answers::Refusal;
use structs::{AccessPoint, Event, Network, Outbox, Setup};

// SENT, GIVENUP, HELD and TABLES of an accepted event.
#[derive(Clone, Copy, Debug, PartialEq, Eq)]
pub struct Line {
    pub sent: u8,
    pub given_up: u8,
    pub held: u8,
    pub tables: u8,
}

// What an accepted event tells, and the network after it. Refused, the network is as it came.
#[derive(Clone, Copy)]
pub struct Reply {
    pub line: Line,
    pub network: Network,
}

// A floor of ap_count APs, all empty, with T and R: 14 where one of the three is out of its limits.
pub fn set_up(ap_count: u16, timeout: u16, resend_limit: u16) -> Result<Network, Refusal>
    ensures { set_up_of result ≡ set_up_done ap_count timeout resend_limit }
{
    if !access_point::valid_setup(ap_count, timeout, resend_limit) {
        return Err(Refusal::InvalidRecord);
    }
    Ok(network::new_network(ap_count as u8, timeout, resend_limit as u8))
}

// Whether 14 does not apply to any of these access points' records, on a floor of ap_count APs.
fn all_valid(points: &[AccessPoint], ap_count: u8) -> bool
    ensures { result ≡ list_all (valid_record ap_count) points.now }
{
    points.iter().all(|a| access_point::valid(*a, ap_count))
}

// Refusal 14 of a network's record: whether it does not apply.
pub fn valid(network: Network) -> bool
    ensures { result ≡ valid_network_record network }
{
    let k = network.ap_count;
    if !access_point::valid_setup(k as u16, network.timeout, network.resend_limit as u16) {
        return false;
    }
    in_flight::valid(&network.in_flight, k) && all_valid(&network.points[..k as usize], k)
}

// An event but who, on a record to which 14 does not apply.
fn change(network: &mut Network, e: Event, context: &[u8]) -> Result<Line, Refusal>
    requires network_value { Sized network.old × (valid_network_record network.old ≡ true) }
    requires kind_value { is_who e.kind ≡ false }
    ensures reply_value { reply_at network.new result ≡ reply_of network.old (step (get network.old) 0 (event_from e context.now)) }
    ensures refused_value { Unchanged result network.new network.old }
{
    let kind = e.kind;
    let at = e.at;
    let n = network.ap_count;
    let count = network.in_flight.count;
    let k = events::packet_of(kind, at, count);
    let p = network.in_flight.items[k];
    let b = events::point_of(kind, at, n, count, p.to) as usize;
    let setup = Setup {
        ap_count: n,
        timeout: network.timeout,
        resend_limit: network.resend_limit,
    };
    let mut sent = Outbox::none();
    let a = &mut network.points[b];
    let given_up = events::act(a, &mut sent, e, context, setup, count, &p)?;
    let taken = events::takes(kind, at, count);
    events::settle(&mut network.in_flight, taken, k, &sent);
    Ok(Line {
        sent: sent.count as u8,
        given_up,
        held: 0,
        tables: 0,
    })
}

// A who, on a record to which 14 does not apply: 13, then HELD and TABLES.
fn look_up(network: &Network, station: [u8; 6]) -> Result<Line, Refusal>
    requires { Sized network.now × (valid_network_record network.now ≡ true) }
    ensures { reply_at network.now result ≡ reply_of network.now (step (get network.now) 0 (machine.who station)) }
{
    if actions::is_group(station) {
        return Err(Refusal::GroupAddress);
    }
    let held = events::holders(&network.points[..network.ap_count as usize], station);
    Ok(Line {
        sent: 0,
        given_up: 0,
        held,
        tables: u8::count_ones(held) as u8,
    })
}

// An event on a record to which 14 does not apply, which is changed where it stands: the machine's step. Refused, it is as it came.
pub fn act(network: &mut Network, e: Event, context: &[u8]) -> Result<Line, Refusal>
    requires { Sized network.old × (valid_network_record network.old ≡ true) }
    ensures reply_value { reply_at network.new result ≡ reply_of network.old (step (get network.old) 0 (event_from e context.now)) }
    ensures refused_value { Unchanged result network.new network.old }
{
    if events::is_who(e.kind) {
        return look_up(network, e.station);
    }
    change(network, e, context)
}

// The same on a record that is handed over.
pub fn perform(network: Network, e: Event, context: &[u8]) -> Result<Reply, Refusal>
    requires { valid_network_record network ≡ true }
    ensures { reply_from network result ≡ reply_of network (step (get network) 0 (event_from e context.now)) }
{
    let mut after = network;
    let line = act(&mut after, e, context)?;
    Ok(Reply {
        line,
        network: after,
    })
}

// An event on any record: 14, then the machine's step.
pub fn event(network: Network, e: Event, context: &[u8]) -> Result<Reply, Refusal>
    ensures { reply_from network result ≡ event_of network (event_from e context.now) }
{
    if !valid(network) {
        return Err(Refusal::InvalidRecord);
    }
    perform(network, e, context)
}

// A station joins AP `at`, with the old AP that it names or none, and a context: 14, 11, 13, 7, 9, 15, 16, 17.
pub fn join(
    network: Network,
    at: u16,
    station: [u8; 6],
    sequence: u16,
    old: Option<u16>,
    context: &[u8],
) -> Result<Reply, Refusal>
    ensures { reply_from network result ≡ event_of network (machine.join at station sequence old context.now) }
{
    let e = Event::join(at, station, sequence, old);
    event(network, e, context)
}

// A station leaves AP `at`: 14, 11, 13.
pub fn leave(network: Network, at: u16, station: [u8; 6]) -> Result<Reply, Refusal>
    ensures { reply_from network result ≡ event_of network (machine.leave at station) }
{
    event(network, Event::leave(at, station), &[])
}

// Packet `at` is taken out and handed to its receiver: 14, 12.
pub fn deliver(network: Network, at: u16) -> Result<Reply, Refusal>
    ensures { reply_from network result ≡ event_of network (machine.deliver at) }
{
    event(network, Event::deliver(at), &[])
}

// Packet `at` is handed to its receiver and stays: 14, 12.
pub fn repeat(network: Network, at: u16) -> Result<Reply, Refusal>
    ensures { reply_from network result ≡ event_of network (machine.repeat at) }
{
    event(network, Event::repeat(at), &[])
}

// Packet `at` is taken out: 14, 12.
pub fn lose(network: Network, at: u16) -> Result<Reply, Refusal>
    ensures { reply_from network result ≡ event_of network (machine.lose at) }
{
    event(network, Event::lose(at), &[])
}

// One tick at AP `at`: 14, 11.
pub fn tick(network: Network, at: u16) -> Result<Reply, Refusal>
    ensures { reply_from network result ≡ event_of network (machine.tick at) }
{
    event(network, Event::tick(at), &[])
}

// Which APs have a row of the station: 14, 13.
pub fn who(network: Network, station: [u8; 6]) -> Result<Reply, Refusal>
    ensures { reply_from network result ≡ event_of network (machine.who station) }
{
    event(network, Event::who(station), &[])
}
