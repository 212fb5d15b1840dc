// Drills as timed regular expressions over the letters of the channels: their operators, and the nodes of a drill's tree in
// a lent buffer of words.
//
// specs/Expression.antt has the expressions, specs/Grammar.antt the texts that document 01 takes for them, specs/Refusal.antt
// the causes 4 to 8. Which text is which expression is found in `parser`. Nothing is known here of recordings.
//
// A tree's nodes are numbered, and stand in words that the caller lends: there is no heap. `node_at`, `store` and `parse` promise of these words what
// specs/Stored.antt says, so that they are no array of `Node`.
#![tactic(auto)]

ghost use Rattle.std.specs.Prelude.{◌≡◌, true, ◌↔◌, ◌+◌, ◌*◌, ◌≤◌, length, get_or};
ghost use Rattle.expression.specs.Grammar.{symbol};
ghost use Rattle.expression.specs.Refusal.{figure, Opened, WrongUpper, Wrong};
ghost use Rattle.expression.specs.Stored.{band_node, decoded, node_at, Placed};

// An end of a range of lengths, with its number of ticks: one that belongs to the range, or one that does not.
#[derive(Clone, Copy)]
pub enum End {
    Closed(u32),
    Open(u32),
}

impl End {
    fn figure(self) -> u32
        ensures { result ≡ figure self }
    {
        match self {
            End::Closed(n) | End::Open(n) => n,
        }
    }

    fn is_open(self) -> bool
        ensures { (result ≡ true) ↔ Opened self }
    {
        matches!(self, End::Open(_))
    }
}

// A range of lengths. Without hi it has no upper limit.
#[derive(Clone, Copy)]
pub struct Range {
    pub lo: End,
    pub hi: Option<End>,
}

// What a letter asks of its channel: a level, or the moment when the level goes over.
#[derive(Clone, Copy)]
pub enum Sign {
    High,
    Low,
    Rise,
    Fall,
}

// The joins: `|`, `&` and `.`.
#[derive(Clone, Copy)]
pub enum Join {
    Union,
    Intersection,
    Concatenation,
}

impl Join {
    // The byte between its operands.
    pub fn symbol(self) -> u8
        ensures { result ≡ symbol self }
    {
        match self {
            Join::Union => b'|',
            Join::Intersection => b'&',
            Join::Concatenation => b'.',
        }
    }
}

// The operators with one operand: `*`, `{lo,hi}` and `~`.
#[derive(Clone, Copy)]
pub enum Unary {
    Star,
    Band(Range),
    Absence,
}

// A node, with the numbers of the nodes of its operands. A channel is 0 for `a`.
#[derive(Clone, Copy)]
pub enum Node {
    Epsilon,
    Literal(Sign, u32),
    Infix(Join, u32, u32),
    Applied(Unary, u32),
}

// Whether hi is above 1,000,000, or below lo, or equal to it with a `<` on either.
fn is_wrong_upper(lo: End, hi: End) -> bool
    ensures { (result ≡ true) ↔ WrongUpper lo (Some hi) }
{
    let least = lo.figure();
    let most = hi.figure();
    1_000_000 < most || most < least || least == most && (lo.is_open() || hi.is_open())
}

// Whether check 7 refuses the range.
pub fn is_wrong(range: Range) -> bool
    ensures { (result ≡ true) ↔ Wrong range }
{
    1_000_000 < range.lo.figure() || range.hi.is_some_and(|hi| is_wrong_upper(range.lo, hi))
}

// The word at i, 0 past the end.
fn word(nodes: &[u32], i: usize) -> u32
    ensures { result ≡ get_or nodes.now i 0 }
{
    nodes.get(i).copied().unwrap_or(0)
}

fn band_node(lo: End, hi: Option<End>, operand: u32) -> Node
    ensures { result ≡ band_node lo hi operand }
{
    Node::Applied(Unary::Band(Range { lo, hi }), operand)
}

// The node that four words stand for. A kind is a number here: `decoded` says which.
#[tactic(auto, unfolding(crate::specs::Stored::decoded))]
fn node_of(op: u32, x: u32, y: u32, z: u32) -> Node
    ensures { result ≡ decoded op x y z }
{
    match op {
        1 => Node::Literal(Sign::High, x),
        2 => Node::Literal(Sign::Low, x),
        3 => Node::Literal(Sign::Rise, x),
        4 => Node::Literal(Sign::Fall, x),
        5 => Node::Infix(Join::Union, x, y),
        6 => Node::Infix(Join::Intersection, x, y),
        7 => Node::Infix(Join::Concatenation, x, y),
        8 => Node::Applied(Unary::Star, x),
        9 => band_node(End::Closed(y), None, x),
        10 => band_node(End::Open(y), None, x),
        11 => band_node(End::Closed(y), Some(End::Closed(z)), x),
        12 => band_node(End::Closed(y), Some(End::Open(z)), x),
        13 => band_node(End::Open(y), Some(End::Closed(z)), x),
        14 => band_node(End::Open(y), Some(End::Open(z)), x),
        15 => Node::Applied(Unary::Absence, x),
        _ => Node::Epsilon,
    }
}

// Node n. Past the end of the buffer, and where no other node's words stand, that is `Epsilon`.
#[tactic(auto, unfolding(crate::specs::Stored::node_at))]
pub fn node_at(nodes: &[u32], n: u32) -> Node
    ensures { result ≡ node_at nodes.now n }
{
    let i = n as usize * 4;
    node_of(
        word(nodes, i),
        word(nodes, i + 1),
        word(nodes, i + 2),
        word(nodes, i + 3),
    )
}

// The words that stand for a band: its operation, its operand, lo and hi. Which of its ends belong to it is a part of the operation.
#[tactic(auto, unfolding(crate::specs::Stored::node_at, crate::specs::Stored::decoded))]
fn band_words(lo: End, hi: Option<End>, operand: u32) -> [u32; 4]
    ensures { node_at result 0 ≡ band_node lo hi operand }
{
    match (lo, hi) {
        (End::Closed(n), None) => [9, operand, n, 0],
        (End::Open(n), None) => [10, operand, n, 0],
        (End::Closed(n), Some(End::Closed(m))) => [11, operand, n, m],
        (End::Closed(n), Some(End::Open(m))) => [12, operand, n, m],
        (End::Open(n), Some(End::Closed(m))) => [13, operand, n, m],
        (End::Open(n), Some(End::Open(m))) => [14, operand, n, m],
    }
}

// The words that stand for a node: its operation, and up to three numbers.
#[tactic(auto, unfolding(crate::specs::Stored::node_at, crate::specs::Stored::decoded))]
fn words_of(node: Node) -> [u32; 4]
    ensures { node_at result 0 ≡ node }
{
    match node {
        Node::Epsilon => [0; 4],
        Node::Literal(Sign::High, channel) => [1, channel, 0, 0],
        Node::Literal(Sign::Low, channel) => [2, channel, 0, 0],
        Node::Literal(Sign::Rise, channel) => [3, channel, 0, 0],
        Node::Literal(Sign::Fall, channel) => [4, channel, 0, 0],
        Node::Infix(Join::Union, left, right) => [5, left, right, 0],
        Node::Infix(Join::Intersection, left, right) => [6, left, right, 0],
        Node::Infix(Join::Concatenation, left, right) => [7, left, right, 0],
        Node::Applied(Unary::Star, operand) => [8, operand, 0, 0],
        Node::Applied(Unary::Band(Range { lo, hi }), operand) => band_words(lo, hi, operand),
        Node::Applied(Unary::Absence, operand) => [15, operand, 0, 0],
    }
}

// Writes node n, for which the buffer has room; all other words stay as they were.
pub fn store(nodes: &mut [u32], n: u32, node: Node)
    requires { n * 4 + 4 ≤ length nodes.old }
    ensures { Placed n node nodes.old nodes.new }
{
    let i = n as usize * 4;
    nodes[i..i + 4].copy_from_slice(&words_of(node));
}
