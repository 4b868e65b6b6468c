// A floor: set-up, the seven events and parts put in place, as a line of input gives them, and the line of output for each.
use crate::words::Line;
use crate::{digests, parts};
use lent::{Asked, Outcome};
use std::io::Result;
use structs::{Event, Kind, Network};

// A network of no APs, to which 14 applies: what there is before set-up, and after a refused one.
pub fn nothing_set_up() -> Network {
    network::new_network(0, 0, 0)
}

// floor APS TIMEOUT RESENDS. The new floor takes the place of a network of no APs; refused, that is what comes back.
pub fn floor(rt: &impl Print, line: Line) -> Result<Network> {
    let o = lent::set_up(
        nothing_set_up(),
        line.short(1),
        line.short(2),
        line.short(3),
    );
    rt.write_all(line.0)?;
    let digest = digests::of_network(&o.network);
    println!(rt; " : {} {digest}", o.line.answer)?;
    Ok(o.network)
}

// What the line asks. Of its context the first 65 octets are enough: more than 64 of them are 9, whatever else there is.
fn asked(kind: Kind, line: Line) -> Asked {
    let octets = line.octets(5);
    let said = octets.used();
    let len = said.len().min(65);
    let mut context = [0; 65];
    context[..len].copy_from_slice(&said[..len]);
    let event = Event {
        kind,
        at: line.short(1),
        station: line.station(2),
        sequence: line.short(3),
        old: line.option(4),
    };
    Asked {
        event,
        len,
        context,
    }
}

// EVENT AT STATION SEQ OLD CONTEXT. The numbers and the record are what comes back, refused or not.
pub fn turn(rt: &impl Print, before: Network, kind: Kind, line: Line) -> Result<Network> {
    let Outcome { line: x, network } = lent::event(before, asked(kind, line));
    rt.write_all(line.0)?;
    println!(rt;
        " : {} {} {} {} {} {}",
        x.answer,
        x.sent,
        x.given_up,
        x.held,
        x.tables,
        digests::of_network(&network)
    )?;
    Ok(network)
}

// set WHOLE.PART PLACE .. VALUE
pub fn set(rt: &impl Print, before: Network, line: Line) -> Result<Network> {
    let network = parts::set(before, line);
    rt.write_all(line.0)?;
    println!(rt; " : {}", digests::of_network(&network))?;
    Ok(network)
}
