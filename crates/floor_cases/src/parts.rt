// A part of a record put in place by hand, as a line of input says. A place is taken modulo the number of places that there are, and
// a value modulo the number of values. The last part of each whole stands for any other.
use crate::words::{self, Line};
use structs::{AccessPoint, Association, InFlight, LoneAccessPoint, Move, Network};

// WHOLE and PART of the line's word 1.
fn names(line: Line) -> (&[u8], &[u8]) {
    words::parted(line.word(1), b'.')
}

// row ROW STATION SEQ CONTEXT: a whole row.
fn row(values: Line) -> Association {
    let octets = values.octets(2);
    let mut context = [0; 64];
    for (slot, octet) in context.iter_mut().zip(octets.used()) {
        *slot = *octet;
    }
    Association {
        station: values.station(0),
        sequence: values.short(1),
        context_len: octets.used().len(),
        context,
    }
}

// row.PART ROW VALUE
fn set_row(x: &mut Association, part: &[u8], values: Line) {
    match part {
        b"" => *x = row(values),
        b"station" => x.station = values.station(0),
        b"sequence" => x.sequence = values.short(0),
        _ => x.context_len = values.number(0) as usize,
    }
}

// move MOVE STATION SEQ OLD IDENTIFIER TICKS RESENDS: a whole move.
fn open_move(values: Line) -> Move {
    Move {
        station: values.station(0),
        sequence: values.short(1),
        old: values.octet(2),
        identifier: values.short(3),
        ticks_left: values.short(4),
        resends_left: values.octet(5),
    }
}

// move.PART MOVE VALUE
fn set_move(x: &mut Move, part: &[u8], values: Line) {
    match part {
        b"" => *x = open_move(values),
        b"sequence" => x.sequence = values.short(0),
        b"old" => x.old = values.octet(0),
        b"ticks" => x.ticks_left = values.short(0),
        _ => x.resends_left = values.octet(0),
    }
}

// ap.slots VALUE: every octet and number of each slot of a row and of a move, but for the ticks left, which are 0.
fn set_slots(a: &mut AccessPoint, value: u8) {
    let row = Association {
        station: [value; 6],
        sequence: value as u16 * 257,
        context_len: value as usize,
        context: [value; 64],
    };
    let open = Move {
        station: [value; 6],
        sequence: value as u16 * 257,
        old: value,
        identifier: value as u16 * 257,
        ticks_left: 0,
        resends_left: value,
    };
    a.associations.items = [row; 16];
    a.moves.items = [open; 8];
}

// ap.PART VALUE; ap.counts has one value for each of the four counts.
fn set_point(a: &mut AccessPoint, part: &[u8], value: u64) {
    let count = (value % 4294967296) as u32;
    match part {
        b"counts" => {
            a.opened = count;
            a.resent = count;
            a.answered = count;
            a.given_up = count;
        }
        b"next" => a.next_identifier = (value % 65536) as u16,
        b"slots" => set_slots(a, (value % 256) as u8),
        b"rows" => a.associations.count = value as usize,
        _ => a.moves.count = value as usize,
    }
}

// An AP's record with a part put in place. `values` has the places and the value.
fn put(before: AccessPoint, line: Line, values: Line) -> AccessPoint {
    let mut a = before;
    let (whole, part) = names(line);
    let rest = values.after(1);
    match whole {
        b"row" => set_row(&mut a.associations.items[values.place(0, 16)], part, rest),
        b"move" => set_move(&mut a.moves.items[values.place(0, 8)], part, rest),
        _ => set_point(&mut a, part, values.number(0)),
    }
    a
}

// floor.PART VALUE
fn set_floor(n: &mut Network, part: &[u8], line: Line) {
    match part {
        b"aps" => n.ap_count = line.octet(2),
        b"timeout" => n.timeout = line.short(2),
        b"resends" => n.resend_limit = line.octet(2),
        _ => n.in_flight.count = line.number(2) as usize,
    }
}

// packet.PART PACKET VALUE, and packet.octet PACKET OCTET VALUE
fn set_packet(p: &mut InFlight, part: &[u8], line: Line) {
    match part {
        b"from" => p.from = line.octet(3),
        b"to" => p.to = line.octet(3),
        b"length" => p.len = line.number(3) as usize,
        _ => p.octets[line.place(3, 82)] = line.octet(4),
    }
}

// The floor's record after a line `set`. A part of an AP's record has the AP before its other places.
pub fn set(before: Network, line: Line) -> Network {
    let mut n = before;
    let (whole, part) = names(line);
    match whole {
        b"floor" => set_floor(&mut n, part, line),
        b"packet" => set_packet(&mut n.in_flight.items[line.place(2, 64)], part, line),
        _ => {
            let k = line.place(2, 8);
            n.points[k] = put(n.points[k], line, line.after(3));
        }
    }
    n
}

// lone.PART VALUE
fn set_lone(l: &mut LoneAccessPoint, part: &[u8], line: Line) {
    match part {
        b"number" => l.number = line.octet(2),
        b"aps" => l.ap_count = line.octet(2),
        b"timeout" => l.timeout = line.short(2),
        _ => l.resend_limit = line.octet(2),
    }
}

// The record of the AP alone after a line `ap_set`.
pub fn ap_set(before: LoneAccessPoint, line: Line) -> LoneAccessPoint {
    let mut l = before;
    let (whole, part) = names(line);
    match whole {
        b"lone" => set_lone(&mut l, part, line),
        _ => l.point = put(l.point, line, line.after(2)),
    }
    l
}
