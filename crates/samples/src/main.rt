// Answers the questions on its standard input, one a line: prints each, an arrow, and what was answered. A question is an operation and what it is given, between
// spaces; what is missing is empty.
//   compile PATTERN: states N classes K, or refused NUMBER at PLACE
//   table ROOM: the rows of the table, between /, and the states that accept, - if there is none; nothing if the room is not sound
//   minimise ROOM: states N classes K
//   match ROOM TEXT: accepted, unfinished, or dead PLACE; the text `{lines}` is a, a line end and b
//   compare ROOM ROOM: same rounds R, or separated WORD rounds R, the word in hex, - if it is empty
//   pack ROOM: bytes N
// A room is that of a pattern, or has a name in braces, which begin no pattern (`rooms`). One that is not taken is refused NUMBER.
#![tactic(auto)]

mod rooms;
mod show;

ghost use Rattle.std.specs.Prelude.{◌≤◌, length, IfOk};

use answers::{Compared, Matched, Numbered};
use scope::Machine;
use std::io;
use std::io::{Read, Stdin, Stdout, Write};

// How many bytes of the input are read at most.
const INPUT: usize = 65536;

// Compiles a pattern.
fn compiles(out: &mut Stdout, pattern: &[u8]) -> io::Result<()> {
    let mut room = [0u8; Machine::ROOM];
    let mut bytes = [7u8; Machine::SCRATCH_BYTES];
    let mut words = [7u64; Machine::SCRATCH_WORDS];
    match compile::compile(pattern, &mut room, &mut bytes, &mut words) {
        Ok(()) => show::sizes(out, &room),
        Err(refusal) => write!(out, "refused {} at {}", refusal.number(), refusal.value()),
    }
}

// Minimises a room.
fn minimises(out: &mut Stdout, from: &[u8]) -> io::Result<()> {
    let mut to = [7u8; Machine::ROOM];
    let mut bytes = [7u8; Machine::SCRATCH_BYTES];
    let mut words = [7u64; Machine::SCRATCH_WORDS];
    match smallest::minimise(from, &mut to, &mut bytes, &mut words) {
        Ok(()) => show::sizes(out, &to),
        Err(refusal) => show::refused(out, &refusal),
    }
}

// Matches a text as it is given, or the one that has a name.
fn matches_text(out: &mut Stdout, room: &[u8], given: &[u8]) -> io::Result<()> {
    let text: &[u8] = match given {
        b"{lines}" => b"a\nb",
        _ => given,
    };
    match matching::match_text(room, text) {
        Ok(Matched::Accepted) => write!(out, "accepted"),
        Ok(Matched::Dead(place)) => write!(out, "dead {place}"),
        Ok(Matched::Unfinished) => write!(out, "unfinished"),
        Err(refusal) => show::refused(out, &refusal),
    }
}

// Compares a room with that of a name or a pattern.
fn compares(out: &mut Stdout, left: &[u8], given: &[u8]) -> io::Result<()> {
    let right = rooms::room_of(given);
    let mut word = [7u8; Machine::WORD];
    let mut bytes = [7u8; Machine::SCRATCH_BYTES];
    let mut words = [7u64; Machine::SCRATCH_WORDS];
    match compare::compare(left, right.bytes(), &mut word, &mut bytes, &mut words) {
        Ok(Compared::Same(rounds)) => write!(out, "same rounds {rounds}"),
        Ok(Compared::Separated(length, rounds)) => {
            write!(out, "separated ")?;
            show::word(out, &word, length)?;
            write!(out, " rounds {rounds}")
        }
        Err(refusal) => show::refused(out, &refusal),
    }
}

// Packs a room.
fn packs(out: &mut Stdout, room: &[u8]) -> io::Result<()> {
    let mut form = [7u8; Machine::ROOM];
    let mut bytes = [7u8; Machine::SCRATCH_BYTES];
    let mut words = [7u64; Machine::SCRATCH_WORDS];
    match packing::pack(room, &mut form, &mut bytes, &mut words) {
        Ok(length) => write!(out, "bytes {length}"),
        Err(refusal) => show::refused(out, &refusal),
    }
}

// Answers an operation on a room, and on what else it is given.
fn asks_room(out: &mut Stdout, operation: &[u8], room: &[u8], other: &[u8]) -> io::Result<()> {
    match operation {
        b"table" => show::table(out, room),
        b"minimise" => minimises(out, room),
        b"match" => matches_text(out, room, other),
        b"compare" => compares(out, room, other),
        b"pack" => packs(out, room),
        _ => Ok(()),
    }
}

// Answers an operation on what it is given.
fn asks(out: &mut Stdout, operation: &[u8], given: &[u8], other: &[u8]) -> io::Result<()> {
    if let b"compile" = operation {
        return compiles(out, given);
    }
    asks_room(out, operation, rooms::room_of(given).bytes(), other)
}

// Answers a question.
fn answers(out: &mut Stdout, line: &[u8]) -> io::Result<()> {
    let mut parts = line.splitn(3, |byte| *byte == b' ');
    let operation = parts.next().unwrap_or(b"");
    let given = parts.next().unwrap_or(b"");
    let other = parts.next().unwrap_or(b"");
    asks(out, operation, given, other)
}

// Prints every question and its answer.
fn print_lines(out: &mut Stdout, input: &[u8]) -> io::Result<()> {
    for whole in input.split_inclusive(|byte| *byte == b'\n') {
        let line = whole.strip_suffix(b"\n").unwrap_or(whole);
        out.write_all(line)?;
        write!(out, " -> ")?;
        answers(out, line)?;
        writeln!(out)?;
    }
    Ok(())
}

// Reads until `buffer` is full or the input ends; answers how many bytes came.
fn read_full(input: &mut Stdin, buffer: &mut [u8]) -> io::Result<usize>
    ensures { IfOk result (λ n. n ≤ length buffer.new) }
{
    let mut done: usize = 0;
    while done < buffer.len() {
        let got = input.read(&mut buffer[done..])?;
        if got == 0 {
            return Ok(done);
        }
        done += got;
    }
    Ok(done)
}

fn main(rt: HostRuntime) -> io::Result<()> {
    let mut input = [0u8; INPUT];
    let n = read_full(&mut rt.stdin(), &mut input)?;
    print_lines(&mut rt.stdout(), &input[..n])
}
