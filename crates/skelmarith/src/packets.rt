// Packets over slices.
ghost use Rattle.std.specs.Prelude.{◌≡◌};
ghost use Rattle.reader.specs.Read.{read_of};
ghost use Rattle.skelmarith.specs.Packets.{reading_in, Tells, writing_in, write_as};

use answers::Refusal;
use packet::{Command, Packet};

// What reading a packet finds, in numbers. The context block is the part of the packet from octet `start` on, of `len` octets. Stays numbers,
// here and in Written, since C is given them, each number written out; skel_write's command and status stay octets, since C may give any.
#[repr(C)]
#[derive(Clone, Copy)]
pub struct Reading {
    pub answer: u8,
    pub command: u8,
    pub identifier: u16,
    pub status: u8,
    pub station: [u8; 6],
    pub sequence: u16,
    pub start: usize,
    pub len: usize,
}

// An answer, and how many octets were written: 0 where it refuses.
#[repr(C)]
#[derive(Clone, Copy)]
pub struct Written {
    pub answer: u8,
    pub len: usize,
}

impl From<Result<usize, Refusal>> for Written {
    ghost from_gives = { Tells };

    fn from(written: Result<usize, Refusal>) -> Written {
        match written {
            Ok(len) => Written { answer: 0, len },
            Err(refusal) => Written {
                answer: u8::from(refusal),
                len: 0,
            },
        }
    }
}

// Reads a packet: 1 to 9; refused, every other number is 0.
#[unsafe(no_mangle)]
pub extern "C" fn skel_read(packet: &[u8]) -> Reading
    ensures { reading_in result ≡ read_of packet.now }
{
    // A refusal returns at once. As the value of the other arm of a match it shared the writes of an accepted packet, and took twice the time.
    let r = match reader::read(packet) {
        Ok(r) => r,
        Err(refusal) => {
            return Reading {
                answer: u8::from(refusal),
                command: 0,
                identifier: 0,
                status: 0,
                station: [0; 6],
                sequence: 0,
                start: 0,
                len: 0,
            };
        }
    };
    let station = r.station;
    Reading {
        answer: 0,
        command: u8::from(r.command),
        identifier: r.identifier,
        status: r.status,
        station,
        sequence: r.sequence,
        start: r.start,
        len: r.len,
    }
}

// Writes a packet at the front of the buffer: 3 for a command above 2, then 7, 8, 9, 10; refused, the buffer is as it came.
#[unsafe(no_mangle)]
pub extern "C" fn skel_write(
    buffer: &mut [u8],
    command: u8,
    identifier: u16,
    status: u8,
    station: &[u8; 6],
    sequence: u16,
    context: &[u8],
) -> Written
    ensures { writing_in result buffer.new ≡ write_as command identifier status station.now sequence context.now buffer.old }
{
    match Command::try_from(command) {
        Ok(command) => {
            let station = *station;
            let p = Packet {
                command,
                identifier,
                status,
                station,
                sequence,
            };
            Written::from(writer::write(p, context, buffer))
        }
        Err(refusal) => Written::from(Err(refusal)),
    }
}
