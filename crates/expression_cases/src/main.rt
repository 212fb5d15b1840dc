// Reads drills from standard input, one to a line after a letter that is the last channel of a recording, and writes
// for each the number of its refusal, or 0 and its tree with every operator before its operands.
//
// The types are those of `expression`, of which no other program prints anything: an `impl Display` there would need definitions of
// these texts for its contract, for this program alone.
#![tactic(auto)]

use expression::{End, Node, Range, Sign, Unary};
use std::io;

// As much of standard input is read.
const INPUT_BYTES: usize = 65_536;

fn letter(channel: u32) -> char {
    char::from((channel % 16) as u8 + b'a')
}

fn sign_text(sign: Sign) -> &'static str {
    match sign {
        Sign::High => "",
        Sign::Low => "!",
        Sign::Rise => "+",
        Sign::Fall => "-",
    }
}

fn print_end(rt: &impl Print, end: End) -> io::Result<()> {
    match end {
        End::Closed(n) => print!(rt; "{n}"),
        End::Open(n) => print!(rt; "<{n}"),
    }
}

fn print_range(rt: &impl Print, range: Range) -> io::Result<()> {
    print!(rt; "{{")?;
    print_end(rt, range.lo)?;
    print!(rt; ",")?;
    if let Some(hi) = range.hi {
        print_end(rt, hi)?;
    }
    print!(rt; "}}")
}

fn print_unary(rt: &impl Print, op: Unary) -> io::Result<()> {
    match op {
        Unary::Star => print!(rt; "*"),
        Unary::Band(range) => print_range(rt, range),
        Unary::Absence => print!(rt; "~"),
    }
}

// The tree of a node, as far as `depth` goes.
fn print_tree(rt: &impl Print, nodes: &[u32], n: u32, depth: u32) -> io::Result<()> {
    if depth == 0 {
        return Ok(());
    }
    match expression::node_at(nodes, n) {
        Node::Epsilon => print!(rt; "_"),
        Node::Literal(sign, channel) => print!(rt; "{}{}", sign_text(sign), letter(channel)),
        Node::Infix(join, left, right) => {
            print!(rt; "{}", char::from(join.symbol()))?;
            print_tree(rt, nodes, left, depth - 1)?;
            print_tree(rt, nodes, right, depth - 1)
        }
        Node::Applied(op, operand) => {
            print_unary(rt, op)?;
            print_tree(rt, nodes, operand, depth - 1)
        }
    }
}

fn print_answer(rt: &impl Print, text: &[u8], channels: usize) -> io::Result<()> {
    let mut nodes = [0u32; 1020];
    match parser::parse(text, channels, &mut nodes) {
        Ok(root) => {
            print!(rt; "0 ")?;
            print_tree(rt, &nodes, root, 16)?;
            println!(rt)
        }
        Err(fault) => println!(rt; "{}", fault.number()),
    }
}

// The number of channels up to a letter.
fn channels_to(letter: u8) -> usize {
    usize::from(letter % 32)
}

fn print_line(rt: &impl Print, line: &[u8]) -> io::Result<()> {
    if let [last, drill @ ..] = line {
        print_answer(rt, drill, channels_to(*last))?;
    }
    Ok(())
}

// What stands behind the last newline is no line.
fn main(rt: HostRuntime) -> io::Result<()> {
    let mut buffer = [0u8; INPUT_BYTES];
    let mut input = rt.stdin();
    let filled = files::read_full(&mut input, &mut buffer);
    for line in buffer[..filled].split_inclusive(|byte| *byte == b'\n') {
        if let Some(line) = line.strip_suffix(b"\n") {
            print_line(&rt, line)?;
        }
    }
    Ok(())
}
