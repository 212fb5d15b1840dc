// Reads the leaves of a drill from its text, each to a tree of one node: `_`, and letters with their sign.
//
// specs/Reading.antt says what the reader of a level of the grammar comes to, which holds of all levels alike. Those that call each
// other are found in `parser`.
#![tactic(auto)]

ghost use Rattle.std.specs.Prelude.{◌≡◌, false, drop};
ghost use Rattle.tokens.specs.Tokens.{starts};
ghost use Rattle.descent.specs.Descent.{single};
ghost use Rattle.leaves.specs.Reading.{Ready, ReadAs};

use expression::Node;
use trees::Tree;

// `_`, or a letter with its sign: a primary that no bracket opens.
pub fn leaf(text: &[u8], at: usize, nodes: &mut [u32], used: u32) -> Option<Tree>
    requires { Ready text.now at nodes.old used × (starts 40 (drop at text.now) ≡ false) }
    ensures { ReadAs single text.now at used nodes.old nodes.new result }
{
    if tokens::byte_is(text, at, b'_') {
        return Some(trees::leaf(nodes, used, at + 1, Node::Epsilon, 0));
    }
    let (end, sign, channel) = tokens::letter_at(text, at)?;
    let node = Node::Literal(sign, channel);
    Some(trees::leaf(nodes, used, end, node, channel + 1))
}
