// Compares two patterns: reads them as the two lines of its standard input, and prints what compiling each and comparing both answered. It only reads and
// writes; the lines are taken by `take_lines`, and what is printed is the report's.
#![tactic(auto)]

ghost use Rattle.std.specs.Prelude.{◌≡◌, ◌+◌, ◌≤◌, length};
ghost use Rattle.scope.specs.Limits.{pattern_limit};
ghost use Rattle.alike.specs.Input.{Lines, Stopped};

use std::io;
use std::io::{Read, Stdin, Write};
use take_lines::{Line, Taking};

// A line has one byte more than a pattern may have, so that a line that is too long is a text that is too long.
const LINE: usize = scope::Machine::PATTERN + 1;

// How many bytes a block has at most.
const BLOCK: usize = 4096;

// How many blocks are read at most, since a loop must end. No input is as long.
const READS: usize = usize::MAX;

// What was taken, how many bytes the last read gave, and how many reads there were.
#[derive(Clone, Copy)]
struct Reading {
    taking: Taking,
    got: usize,
    reads: usize,
}

// Reads a block; answers how many bytes it has. A read that fails gives none, as at the input's end.
fn read_block(input: &mut Stdin, block: &mut [u8]) -> usize
    ensures { result ≤ length block.new }
{
    input.read(block).unwrap_or(0)
}

// Reads blocks until both lines are ended or the input is.
fn take_lines(input: &mut Stdin, left: &mut [u8], right: &mut [u8]) -> Reading
    requires { (length left.old ≡ pattern_limit + 1) × (length right.old ≡ pattern_limit + 1) }
    ensures lines { Lines result.taking left.new right.new }
    ensures stopped { Stopped result }
{
    let mut reading = Reading {
        taking: take_lines::begin(),
        got: 0,
        reads: 0,
    };
    for reads in 0..READS {
        let mut block = [0u8; BLOCK];
        let got = read_block(input, &mut block);
        let taking = take_lines::take_block(reading.taking, &block[..got], left, right);
        reading = Reading {
            taking,
            got,
            reads: reads + 1,
        };
        if got == 0 || taking.line == Line::Further {
            return reading;
        }
    }
    reading
}

fn main(rt: HostRuntime) -> io::Result<()> {
    let mut left = [0u8; LINE];
    let mut right = [0u8; LINE];
    let reading = take_lines(&mut rt.stdin(), &mut left, &mut right);
    let taking = reading.taking;
    let first = taking.first;
    let second = taking.second;
    let mut out = [0u8; put_lines::LINES];
    let n = alike_report::report(&left[..first], &right[..second], &mut out);
    rt.stdout().write_all(&out[..n])
}
