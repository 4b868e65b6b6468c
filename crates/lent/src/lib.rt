// A network's calls as a caller that lends its record makes them: what is asked of it, by value, and what it answers, in numbers.
#![tactic(auto)]

ghost use Rattle.std.specs.Prelude.{◌≡◌, [], take};
ghost use Rattle.answers.specs.Numbers.{refusal_number};
ghost use Rattle.machine.specs.Events as machine;
ghost use Rattle.events.specs.Event.{event_from};
ghost use Rattle.network.specs.Events.{refused, event_of};
ghost use Rattle.floor_link.specs.Answered.{reply_from};
ghost use Rattle.alone.specs.Told.{old_named};
ghost use Rattle.lent.specs.Told.{told_of, set_up_over, asked_of};

use answers::Refusal;
use floor_link::Reply;
use structs::{Event, Network};

// ANSWER, SENT, GIVENUP, HELD and TABLES, each as document 01's number. Stays numbers, since C is given it.
#[repr(C)]
#[derive(Clone, Copy)]
pub struct Line {
    pub answer: u8,
    pub sent: u8,
    pub given_up: u8,
    pub held: u8,
    pub tables: u8,
}

// The network after a call, and what it answers.
#[derive(Clone, Copy)]
pub struct Outcome {
    pub network: Network,
    pub line: Line,
}

// A refused call: the network as it came, and the refusal's number.
#[tactic(auto, unfolding(network::specs::Events::refused))]
fn refused(network: Network, refusal: Refusal) -> Outcome
    ensures { told_of result ≡ refused (refusal_number refusal) network }
{
    Outcome {
        network,
        line: Line {
            answer: u8::from(refusal),
            sent: 0,
            given_up: 0,
            held: 0,
            tables: 0,
        },
    }
}

// What an event on the network answers, in numbers. Stays by hand: C is given numbers, and a refused call gives the network back.
#[tactic(auto, unfolding(network::specs::Events::refused))]
fn in_numbers(network: Network, reply: Result<Reply, Refusal>) -> Outcome
    ensures { told_of result ≡ reply_from network reply }
{
    match reply {
        Ok(Reply { line, network }) => Outcome {
            network,
            line: Line {
                answer: 0,
                sent: line.sent,
                given_up: line.given_up,
                held: line.held,
                tables: line.tables,
            },
        },
        Err(r) => refused(network, r),
    }
}

// A floor of ap_count APs, all empty, with T and R, in the place of the record: 14, and then the record as it came.
pub fn set_up(network: Network, ap_count: u16, timeout: u16, resend_limit: u16) -> Outcome
    ensures { told_of result ≡ set_up_over network ap_count timeout resend_limit }
{
    match floor_link::set_up(ap_count, timeout, resend_limit) {
        Ok(new) => Outcome {
            network: new,
            line: Line {
                answer: 0,
                sent: 0,
                given_up: 0,
                held: 0,
                tables: 0,
            },
        },
        Err(refusal) => refused(network, refusal),
    }
}

// What is asked: an event, with a join's context in the first `len` octets. A context of more than 64 octets is 9, whatever else it has, so
// 65 of them are enough. The length stays beside the octets: the exports hand it on by value, and a slice would tie it to their caller's.
#[derive(Clone, Copy)]
pub struct Asked {
    pub event: Event,
    pub len: usize,
    pub context: [u8; 65],
}

// An event with no context.
fn plainly(event: Event) -> Asked
    ensures { asked_of result ≡ event_from event [] }
{
    Asked {
        event,
        len: 0,
        context: [0; 65],
    }
}

// A station joins AP `at` with the old AP and the context that it names.
pub fn join(at: u16, station: &[u8; 6], sequence: u16, old: u32, context: &[u8]) -> Asked
    ensures { asked_of result ≡ machine.join at station.now sequence (old_named old) (take 65 context.now) }
{
    let len = context.len().min(65);
    let mut octets = [0; 65];
    octets::copy(&context[..len], &mut octets);
    Asked {
        event: Event::join(at, *station, sequence, alone::old_named(old)),
        len,
        context: octets,
    }
}

// A station leaves AP `at`.
pub fn leave(at: u16, station: &[u8; 6]) -> Asked
    ensures { asked_of result ≡ machine.leave at station.now }
{
    plainly(Event::leave(at, *station))
}

// A packet is taken out and handed to its receiver.
pub fn deliver(packet: u16) -> Asked
    ensures { asked_of result ≡ machine.deliver packet }
{
    plainly(Event::deliver(packet))
}

// A packet is handed to its receiver and stays.
pub fn repeat(packet: u16) -> Asked
    ensures { asked_of result ≡ machine.repeat packet }
{
    plainly(Event::repeat(packet))
}

// A packet is taken out.
pub fn lose(packet: u16) -> Asked
    ensures { asked_of result ≡ machine.lose packet }
{
    plainly(Event::lose(packet))
}

// One tick at AP `at`.
pub fn tick(at: u16) -> Asked
    ensures { asked_of result ≡ machine.tick at }
{
    plainly(Event::tick(at))
}

// Which APs have a row of the station.
pub fn who(station: &[u8; 6]) -> Asked
    ensures { asked_of result ≡ machine.who station.now }
{
    plainly(Event::who(*station))
}

// What is asked, of any record: 14, then the machine's step.
pub fn event(network: Network, q: Asked) -> Outcome
    ensures { told_of result ≡ event_of network (asked_of q) }
{
    let len = q.len.min(65);
    in_numbers(
        network,
        floor_link::event(network, q.event, &q.context[..len]),
    )
}
