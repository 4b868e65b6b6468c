// One AP alone: set-up, its calls and parts put in place, as a line of input gives them, and the line of output for each.
use crate::words::Line;
use crate::{digests, parts};
use alone::Outcome;
use cases::Hex;
use std::io::Result;
use structs::LoneAccessPoint;

// The record: ROWS MOVES NEXT OPENED RESENT ANSWERED GIVENUP DIGEST.
fn show(rt: &impl Print, l: &LoneAccessPoint) -> Result<()> {
    let a = &l.point;
    println!(rt;
        " : {} {} {} {} {} {} {} {}",
        a.associations.count,
        a.moves.count,
        a.next_identifier,
        a.opened,
        a.resent,
        a.answered,
        a.given_up,
        digests::of_lone(l)
    )
}

// What a call gave, the whole lent buffer, and the record.
fn tell(rt: &impl Print, line: Line, o: Outcome, lent: &[u8]) -> Result<LoneAccessPoint> {
    let r = o.reply;
    rt.write_all(line.0)?;
    print!(rt;
        " : {} {} {} {} {} {} {}",
        r.answer,
        r.sent,
        r.given_up,
        r.held,
        Hex(&r.to),
        r.len,
        Hex(lent)
    )?;
    show(rt, &o.lone)?;
    Ok(o.lone)
}

// ap NUMBER APS TIMEOUT RESENDS
fn set_up(rt: &impl Print, before: LoneAccessPoint, line: Line) -> Result<LoneAccessPoint> {
    let o = alone::set_up(
        before,
        line.short(1),
        line.short(2),
        line.short(3),
        line.short(4),
    );
    tell(rt, line, o, &[])
}

// ap_join STATION SEQ OLD CONTEXT ROOM. Where no OLD is given, it is 4294967295.
fn join(rt: &impl Print, before: LoneAccessPoint, line: Line) -> Result<LoneAccessPoint> {
    let mut buffer = [0xEE; 160];
    let lent = &mut buffer[..line.room(5)];
    let old = (line.field(3).unwrap_or(u64::MAX) % 4294967296) as u32;
    let context = line.octets(4);
    let o = alone::join(
        before,
        lent,
        &line.station(1),
        line.short(2),
        old,
        context.used(),
    );
    tell(rt, line, o, lent)
}

// ap_tick ROOM
fn tick(rt: &impl Print, before: LoneAccessPoint, line: Line) -> Result<LoneAccessPoint> {
    let mut buffer = [0xEE; 160];
    let lent = &mut buffer[..line.room(1)];
    let o = alone::tick(before, lent);
    tell(rt, line, o, lent)
}

// outside SENDER PACKET ROOM
fn outside(rt: &impl Print, before: LoneAccessPoint, line: Line) -> Result<LoneAccessPoint> {
    let mut buffer = [0xEE; 160];
    let lent = &mut buffer[..line.room(3)];
    let packet = line.octets(2);
    let o = alone::outside(before, lent, line.short(1), packet.used());
    tell(rt, line, o, lent)
}

// Shows the record where no call was made.
pub fn seen(rt: &impl Print, line: Line, lone: LoneAccessPoint) -> Result<LoneAccessPoint> {
    rt.write_all(line.0)?;
    show(rt, &lone)?;
    Ok(lone)
}

// The record after one line. A line whose first word is none of these is printed as it is.
pub fn act(
    rt: &impl Print,
    before: LoneAccessPoint,
    kept: LoneAccessPoint,
    line: Line,
) -> Result<LoneAccessPoint> {
    match line.word(0) {
        b"ap" => set_up(rt, before, line),
        b"ap_join" => join(rt, before, line),
        b"ap_leave" => tell(rt, line, alone::leave(before, &line.station(1)), &[]),
        b"ap_tick" => tick(rt, before, line),
        b"ap_who" => tell(rt, line, alone::who(before, &line.station(1)), &[]),
        b"outside" => outside(rt, before, line),
        b"ap_set" => seen(rt, line, parts::ap_set(before, line)),
        b"ap_back" => seen(rt, line, kept),
        _ => {
            rt.write_all(line.0)?;
            println!(rt; "")?;
            Ok(before)
        }
    }
}
