// Calls the library at the edges of document 01's rules, by the lines of its standard input. Each line is printed again, with what came
// back; ANSWER is 0 or the refusal:
//
//     read PACKET                              ANSWER COMMAND IDENTIFIER STATUS STATION SEQUENCE START LEN CONTEXT
//     write COMMAND IDENTIFIER STATUS STATION SEQ CONTEXT ROOM    a packet written: ANSWER LENGTH BUFFER
//     again PACKET ROOM                        what was read is written again: ANSWER LENGTH BUFFER
//
//     ap NUMBER APS TIMEOUT RESENDS            one AP alone, set up anew: TOLD : RECORD
//     ap_join STATION SEQ OLD CONTEXT ROOM     and so ap_leave STATION, ap_tick ROOM, ap_who STATION: TOLD : RECORD
//     outside SENDER PACKET ROOM               outside bytes: TOLD : RECORD
//     ap_set WHOLE.PART PLACE .. VALUE         a part of the record put in place by hand: RECORD
//     ap_keep, ap_back                         the record is kept; it is again as it was kept: RECORD
//
//     floor APS TIMEOUT RESENDS                a new floor: ANSWER DIGEST
//     EVENT AT STATION SEQ OLD CONTEXT         an event: ANSWER SENT GIVENUP HELD TABLES DIGEST
//     set WHOLE.PART PLACE .. VALUE            a part of the floor's record put in place by hand: DIGEST
//
// TOLD is ANSWER SENT GIVENUP HELD TO LENGTH BUFFER, where TO has the receivers; RECORD is ROWS MOVES NEXT OPENED RESENT ANSWERED GIVENUP
// DIGEST. A digest is of the whole record. ROOM is the size of the lent buffer, 160 at most, which is full of EE before the call and is shown
// whole. A station is 12 hex digits or a number, see `Line::station`; PACKET and CONTEXT are hex digits, see `Line::octets`. A missing field
// is `-`; of an event it may be left out at the line's end. The parts that can be set are in parts.rt. A line that begins with `=` is a
// remark: it is printed as it is.
#![tactic(auto)]

mod calls;
mod digests;
mod packets;
mod parts;
mod turns;
mod words;

use std::io::Result;
use structs::{LoneAccessPoint, Network};
use words::Line;

// The floor's record, the one of the AP alone, and the latter as it was kept.
#[derive(Clone, Copy)]
struct Records {
    network: Network,
    lone: LoneAccessPoint,
    kept: LoneAccessPoint,
}

// Records of no APs, to which 14 applies.
fn nothing_set_up() -> Records {
    let lone = LoneAccessPoint {
        point: network::new_point(),
        number: 0,
        ap_count: 0,
        timeout: 0,
        resend_limit: 0,
    };
    Records {
        network: turns::nothing_set_up(),
        lone,
        kept: lone,
    }
}

// The records after one line.
fn act(rt: &impl Print, s: Records, line: Line) -> Result<Records> {
    let mut next = s;
    let word = line.word(0);
    match word {
        b"read" => packets::read(rt, line)?,
        b"write" => packets::write(rt, line)?,
        b"again" => packets::again(rt, line)?,
        b"ap_keep" => next.kept = calls::seen(rt, line, s.lone)?,
        b"floor" => next.network = turns::floor(rt, line)?,
        b"set" => next.network = turns::set(rt, s.network, line)?,
        _ => match script_fields::read_kind(word) {
            Some(kind) => next.network = turns::turn(rt, s.network, kind, line)?,
            None => next.lone = calls::act(rt, s.lone, s.kept, line)?,
        },
    }
    Ok(next)
}

// The lines in order, each on the records that the one before left.
fn main(rt: HostRuntime) -> Result<()> {
    let mut s = nothing_set_up();
    for line in rt.lines(rt.alloc()) {
        let line = line?;
        s = act(&rt, s, Line(line.as_bytes()))?;
    }
    Ok(())
}
