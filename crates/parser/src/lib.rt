// Reads the text of a drill into a tree of nodes in a lent buffer of words, or says which of the causes 4 to 8 of
// document 01 refuses it. Nothing is known here of recordings: the channel count is a number.
//
// specs/Parsing.antt says what the answer is. The readers of the grammar's levels call each other in a cycle: `chain` reads the three
// that join, an alternative (`|`), a conjunction (`&`) and a sequence (`.`), and the others are `factor`, `repeat` and `primary`. Each
// reads the text from `at` on, and tells where it ends. What stands at a place of the text is read in `tokens`, a primary without
// brackets in `leaves`, and `trees` puts the nodes together.
//
// Text, place and nodes are parameters and no fields of a reader behind `&mut self`: that a text keeps its bytes and a slice its length
// follows from their types, and the contract of each method would have to say it.
#![tactic(auto)]

ghost use Rattle.std.specs.Prelude.{◌≡◌, ◌*◌, ◌≤◌, min, length};
ghost use Rattle.parser.specs.Parsing.{number_of, ParsedAs};
ghost use Rattle.descent.specs.Descent.{joining, factoring, repeating, single, below};
ghost use Rattle.leaves.specs.Reading.{is_wrong_unary, Ready, ReadAs};
ghost use Rattle.parser.specs.Readers.{ClosedAs, verdict};

use expression::{Join, Unary};
use trees::Tree;

// Why a text is refused, with document 01's number of the cause.
#[derive(Clone, Copy)]
pub enum Fault {
    WrongLength = 4,
    NoForm = 5,
    WrongLetter = 6,
    WrongRange = 7,
    TooDeep = 8,
}

impl Fault {
    pub fn number(self) -> u32
        ensures { result ≡ number_of (Err self) }
    {
        self as u32
    }
}

// The range of a band is wrong.
fn wrong_operator(op: Unary) -> bool
    ensures { result ≡ is_wrong_unary op }
{
    matches!(op, Unary::Band(range) if expression::is_wrong(range))
}

// The level of a join: its operands, one or more, grouped to the left.
#[cycle(grammar)]
fn chain(text: &[u8], at: usize, nodes: &mut [u32], used: u32, join: Join) -> Option<Tree>
    requires { Ready text.now at nodes.old used }
    ensures { ReadAs (joining join) text.now at used nodes.old nodes.new result }
{
    let byte = join.symbol();
    let mut tree = operand(text, at, nodes, used, join)?;
    while tokens::byte_is(text, tree.at, byte) {
        let right = operand(text, tree.at + 1, nodes, tree.used, join)?;
        tree = trees::over_two(nodes, join, tree, right);
    }
    Some(tree)
}

// An operand of a join, which is of the level below it. Which level that is, is asked of the join and of no closure: the readers call each other in a
// cycle, and each is named there.
#[cycle(grammar)]
fn operand(text: &[u8], at: usize, nodes: &mut [u32], used: u32, join: Join) -> Option<Tree>
    requires { Ready text.now at nodes.old used }
    ensures { ReadAs (below join) text.now at used nodes.old nodes.new result }
{
    match join {
        Join::Union => chain(text, at, nodes, used, Join::Intersection),
        Join::Intersection => chain(text, at, nodes, used, Join::Concatenation),
        Join::Concatenation => factor(text, at, nodes, used),
    }
}

// A repeat, with or without a `~` before it.
#[cycle(grammar)]
fn factor(text: &[u8], at: usize, nodes: &mut [u32], used: u32) -> Option<Tree>
    requires { Ready text.now at nodes.old used }
    ensures { ReadAs factoring text.now at used nodes.old nodes.new result }
{
    if tokens::byte_is(text, at, b'~') {
        let inner = repeat(text, at + 1, nodes, used)?;
        return Some(trees::over_one(nodes, Unary::Absence, inner, inner.at, false));
    }
    repeat(text, at, nodes, used)
}

// A primary followed by any number of `*` and `{lo,hi}`.
#[cycle(grammar)]
fn repeat(text: &[u8], at: usize, nodes: &mut [u32], used: u32) -> Option<Tree>
    requires { Ready text.now at nodes.old used }
    ensures { ReadAs repeating text.now at used nodes.old nodes.new result }
{
    let mut tree = primary(text, at, nodes, used)?;
    while let Some((end, op)) = tokens::postfix_at(text, tree.at) {
        tree = trees::over_one(nodes, op, tree, end, wrong_operator(op));
    }
    Some(tree)
}

// A whole alternative in round brackets, or a leaf.
#[cycle(grammar)]
fn primary(text: &[u8], at: usize, nodes: &mut [u32], used: u32) -> Option<Tree>
    requires { Ready text.now at nodes.old used }
    ensures { ReadAs single text.now at used nodes.old nodes.new result }
{
    if tokens::byte_is(text, at, b'(') {
        let inner = chain(text, at + 1, nodes, used, Join::Union)?;
        return closed(text, inner);
    }
    leaves::leaf(text, at, nodes, used)
}

// The part with the closing bracket that has to follow it.
fn closed(text: &[u8], inner: Tree) -> Option<Tree>
    ensures { ClosedAs text.now inner result }
{
    if tokens::byte_is(text, inner.at, b')') {
        Some(Tree {
            at: inner.at + 1,
            ..inner
        })
    } else {
        None
    }
}

// The checks 5 to 8, in the order of their numbers, of a text of `size` bytes of which `tree` is the part that was read.
fn judged(tree: Tree, size: usize, channels: usize) -> Result<u32, Fault>
    ensures { result ≡ verdict size channels tree }
{
    if tree.at < size {
        return Err(Fault::NoForm);
    }
    let width = tree.width as usize;
    if channels < width {
        return Err(Fault::WrongLetter);
    }
    if tree.wrong {
        return Err(Fault::WrongRange);
    }
    if 16 < tree.depth {
        return Err(Fault::TooDeep);
    }
    Ok(tree.root)
}

// Reads a whole text, to the root of its tree or a refusal. `channels` is the channel count of the recording. The nodes have room
// for one for each byte of a text that is not too long.
pub fn parse(text: &[u8], channels: usize, nodes: &mut [u32]) -> Result<u32, Fault>
    requires { min (length text.now) 255 * 4 ≤ length nodes.old }
    ensures { ParsedAs text.now channels nodes.new result }
{
    if text.is_empty() || 255 < text.len() {
        return Err(Fault::WrongLength);
    }
    let tree = chain(text, 0, nodes, 0, Join::Union).ok_or(Fault::NoForm)?;
    judged(tree, text.len(), channels)
}
