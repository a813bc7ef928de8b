// Replays stored calls of the line writer. A line of standard input is a call and the length of the
// buffer, in hexadecimal: which call it is, its rate or time, lost, size and length. It is answered
// by the refusal in two columns, a space, the buffer, which was all dots, and a newline.
// oracle/write_calls.sh made the stored calls and their answers.
#![tactic(auto)]

use call_line::Call;
use packets::PacketSize;
use std::io;
use streams::Lines;

// The bytes of a line: five fields of 1, 16, 2, 8 and 2 digits, a space or the newline behind each
const LINE: usize = 34;

const LONGEST: usize = 64;

fn main(rt: HostRuntime) -> io::Result<()> {
    for line in Lines::<_, LINE>::new(rt.stdin()) {
        let line = line?;
        let room = hexadecimal::number(&line[31..33]);
        if room > LONGEST as u64 {
            break;
        }
        let mut buffer = [b'.'; LONGEST];
        print(&rt, call_of(&line), &mut buffer[0..room as usize])?;
    }
    Ok(())
}

fn call_of(line: &[u8; LINE]) -> Call {
    let number = hexadecimal::number(&line[2..18]);
    match hexadecimal::number(&line[0..1]) {
        0 => Call::Estimate(number),
        1 => Call::Acknowledged(number),
        2 => Call::AlrOn(number),
        3 => Call::AlrOff,
        4 => Call::CapacityIs(number),
        5 => Call::CapacityNone,
        6 => Call::Packet {
            time: number,
            lost: (hexadecimal::number(&line[19..21]) % 256) as u8,
            size: (hexadecimal::number(&line[22..30]) % 0x1_0000_0000) as PacketSize,
        },
        7 => Call::Report(number),
        8 => Call::Read,
        9 => Call::StartBytes,
        _ => Call::StartPackets,
    }
}

// The refusal, a space, the buffer with the call, and a newline.
fn print(out: &impl Print, call: Call, buffer: &mut [u8]) -> io::Result<()> {
    let written = call_line::write_line(call, buffer);
    let refusal = refusal::number(&written);
    print!(out; "{refusal:>2} ")?;
    out.write_all(buffer)?;
    out.write_all(b"\n")
}
