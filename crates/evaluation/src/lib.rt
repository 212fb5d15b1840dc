// What a drill comes to on a recording: the list of its expression, evaluated in slots of a lent work buffer, and its rounds.
//
// The crate `meaning` says which list and rounds an expression comes to; `purse` how a slot holds them, and what rounds told are to them;
// `primaries` has the lists of the parts without operands, `values` those of the operators.
#![tactic(auto)]

ghost use Rattle.std.specs.Prelude.{◌+◌, ◌*◌, ◌≤◌, length};
ghost use Rattle.list.specs.Slots.{slot_words, Kept};
ghost use Rattle.runs.specs.Levels.{Shows};
ghost use Rattle.expression.specs.Expression.{Expression};
ghost use Rattle.expression.specs.Planted.{Planted};
ghost use Rattle.meaning.specs.Lists.{Evaluates};
ghost use Rattle.purse.specs.Purse.{EvaluatedAs};
ghost use Rattle.evaluation.specs.Evaluating.{Rooted};

use expression::Node;
use list::SLOT_WORDS;
use primaries::Window;
use purse::{Listed, Stopped};

// The list of a node's expression, in the slot at `base`, within the rounds told. A left operand, or the only one, is finished in the same
// slot, a right one in the slot after it, with the rounds that the left one leaves. Words outside the depth + 2 slots from `base` on stay as
// they were. Of these slots the words behind the list are free, and all of them where there is no list.
pub fn evaluate(
    window: &Window<'_>,
    nodes: &[u32],
    node: u32,
    work: &mut [i32],
    base: usize,
    depth: usize,
    told: u64,
) -> Result<Listed, Stopped>
    requires { (Rooted nodes.now window.now.recording.size.channels node depth) × (depth ≤ 16) × (base + (depth + 2) * slot_words ≤ length work.old) }
    ensures value { (e : Expression) → Planted nodes.now window.now.recording.size.channels node depth e → EvaluatedAs (Evaluates (Shows window.now.recording.bytes.now) window.now.from window.now.to e) told work.new base result }
    ensures kept { Kept base ((depth + 2) * slot_words) work.old work.new }
{
    let rest = depth - 1;
    match expression::node_at(nodes, node) {
        Node::Epsilon => primaries::point(work, base, window.ticks(), told),
        Node::Literal(sign, channel) => {
            // A channel is below the recording's count, so that a byte holds it.
            primaries::literal(window, channel as u8, sign, work, base, told)
        }
        Node::Applied(op, operand) => {
            let only = evaluate(window, nodes, operand, work, base, rest, told)?;
            values::apply(op, work, base, only.count, window.ticks(), only.left)
        }
        Node::Infix(op, left, right) => {
            let first = evaluate(window, nodes, left, work, base, rest, told)?;
            let next = base + SLOT_WORDS;
            let second = evaluate(window, nodes, right, work, next, rest, first.left)?;
            values::combine(op, work, base, first.count, second.count, second.left)
        }
    }
}
