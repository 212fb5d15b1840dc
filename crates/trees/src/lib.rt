// Trees of a drill's nodes in a lent buffer of words, put together from the leaves up. A node is stored behind its operands, and its
// tree keeps what the checks 5 to 8 of document 01 ask of the text that it was read from.
//
// specs/Trees.antt says what a tree keeps. What stands in a text, and where, is found in `parser`. Each call asks for room for its node (`Room`),
// since the caller lends the words.
#![tactic(auto)]

ghost use Rattle.std.specs.Prelude.{◌≡◌, max};
ghost use Rattle.expression.specs.declared.Node.TheVariants.{Infix, Applied};
ghost use Rattle.expression.specs.Stored.{Placed};
ghost use Rattle.trees.specs.Trees.{over, beside, around, nothing, Room};

use expression::{Join, Node, Unary};

// A part of the text that was read: what is unread starts at `at`, and `used` nodes are stored.
#[derive(Clone, Copy)]
pub struct Tree {
    pub at: usize,
    pub root: u32,
    pub used: u32,
    pub depth: u32,
    // One more than the highest letter.
    pub width: u32,
    // Check 7 refuses some range. A mark and no error: check 6, on the letters of the whole text, comes before it.
    pub wrong: bool,
}

// The operands of a join.
fn pair(left: Tree, right: Tree) -> Tree
    ensures { result ≡ beside left right }
{
    Tree {
        depth: left.depth.max(right.depth),
        width: left.width.max(right.width),
        wrong: left.wrong || right.wrong,
        ..right
    }
}

// The operand of an operator whose text ends before `at`.
fn extended(tree: Tree, at: usize, wrong: bool) -> Tree
    ensures { result ≡ around tree at wrong }
{
    Tree {
        at,
        wrong: wrong || tree.wrong,
        ..tree
    }
}

// Stores a node over the operands that `under` sums up.
fn add(nodes: &mut [u32], under: Tree, node: Node) -> Tree
    requires { Room nodes.old under.used under.depth }
    ensures { (result ≡ over under) × Placed under.used node nodes.old nodes.new }
{
    expression::store(nodes, under.used, node);
    Tree {
        root: under.used,
        used: under.used + 1,
        depth: under.depth + 1,
        ..under
    }
}

// The tree of a node without operands, whose text ends before `at`.
pub fn leaf(nodes: &mut [u32], used: u32, at: usize, node: Node, width: u32) -> Tree
    requires { Room nodes.old used 0 }
    ensures { (result ≡ over (nothing at used width)) × Placed used node nodes.old nodes.new }
{
    let under = Tree {
        at,
        root: 0,
        used,
        depth: 0,
        width,
        wrong: false,
    };
    add(nodes, under, node)
}

// The tree of an operator whose text ends before `at`, over its operand. `wrong` says that check 7 refuses the operator.
pub fn over_one(nodes: &mut [u32], op: Unary, operand: Tree, at: usize, wrong: bool) -> Tree
    requires { Room nodes.old operand.used operand.depth }
    ensures { (result ≡ over (around operand at wrong)) × Placed operand.used (Applied op operand.root) nodes.old nodes.new }
{
    let node = Node::Applied(op, operand.root);
    add(nodes, extended(operand, at, wrong), node)
}

// The tree of a join over its operands, the right one of which is stored behind the left one.
pub fn over_two(nodes: &mut [u32], join: Join, left: Tree, right: Tree) -> Tree
    requires { Room nodes.old right.used (max left.depth right.depth) }
    ensures { (result ≡ over (beside left right)) × Placed right.used (Infix join left.root right.root) nodes.old nodes.new }
{
    let node = Node::Infix(join, left.root, right.root);
    add(nodes, pair(left, right), node)
}
