// Packets read and written, as a line of input gives them, and the line of output for each.
use crate::words::Line;
use answers::Refusal;
use cases::Hex;
use packet::{Command, Packet};
use std::io;

// read PACKET
pub fn read(rt: &impl Print, line: Line) -> io::Result<()> {
    let octets = line.octets(1);
    let packet = octets.used();
    let context = Hex(reader::context(packet));
    rt.write_all(line.0)?;
    match reader::read(packet) {
        Ok(r) => println!(rt;
            " : 0 {} {} {} {} {} {} {} {context}",
            u8::from(r.command),
            r.identifier,
            r.status,
            Hex(&r.station),
            r.sequence,
            r.start,
            r.len
        ),
        Err(refusal) => println!(rt;
            " : {} 0 0 0 000000000000 0 0 0 {context}",
            u8::from(refusal)
        ),
    }
}

// Writes a packet, unless it was refused before, into a lent buffer whose size is word k, and shows the whole buffer.
fn store(
    rt: &impl Print,
    line: Line,
    packet: Result<Packet, Refusal>,
    context: &[u8],
    k: usize,
) -> io::Result<()> {
    let mut buffer = [0xEE; 160];
    let lent = &mut buffer[..line.room(k)];
    let written = match packet {
        Ok(p) => writer::write(p, context, lent),
        Err(refusal) => Err(refusal),
    };
    let (answer, len) = match written {
        Ok(len) => (0, len),
        Err(refusal) => (u8::from(refusal), 0),
    };
    rt.write_all(line.0)?;
    println!(rt; " : {answer} {len} {}", Hex(lent))
}

// The packet of a line `write` but for its context; 3 for a command above 2, as `skel_write` has it.
fn packet(line: Line) -> Result<Packet, Refusal> {
    let command = Command::try_from(line.octet(1))?;
    Ok(Packet {
        command,
        identifier: line.short(2),
        status: line.octet(3),
        station: line.station(4),
        sequence: line.short(5),
    })
}

// write COMMAND IDENTIFIER STATUS STATION SEQ CONTEXT ROOM
pub fn write(rt: &impl Print, line: Line) -> io::Result<()> {
    store(rt, line, packet(line), line.octets(6).used(), 7)
}

// What was read, as it is given to the writer.
fn received(octets: &[u8]) -> Result<Packet, Refusal> {
    let r = reader::read(octets)?;
    let station = r.station;
    Ok(Packet {
        command: r.command,
        identifier: r.identifier,
        status: r.status,
        station,
        sequence: r.sequence,
    })
}

// again PACKET ROOM: what was read is written again.
pub fn again(rt: &impl Print, line: Line) -> io::Result<()> {
    let octets = line.octets(1);
    let packet = octets.used();
    store(rt, line, received(packet), reader::context(packet), 2)
}
