// What an expression shows of where its matches begin.

ghost use Rattle.pawk_ere_automaton.specs.Hints.{BeginsWith, IsAnchored};
ghost use Rattle.pawk_ere_automaton.specs.Tree.{regex_of};
ghost use Rattle.std.specs.Prelude.{IfSome, IsTrue};

use crate::node::Node;

/// Whether the expression is seen to match at the begin of the text only.
pub fn is_anchored(node: &Node) -> bool
    ensures { IsTrue result → IsAnchored (regex_of node.now) }
{
    match node {
        Node::Start => true,
        Node::Sequence(a, _b) => is_anchored(a),
        Node::Copies(count, a) => *count > 0 && is_anchored(a),
        Node::Plus(a) => is_anchored(a),
        Node::Either(a, b) => is_anchored(a) && is_anchored(b),
        Node::Empty | Node::End | Node::Bytes(_) | Node::Star(_) => false,
    }
}

/// The byte that each match begins with, if one is seen.
pub fn first_byte(node: &Node) -> Option<u8>
    ensures { IfSome result (λ byte. BeginsWith (regex_of node.now) byte) }
{
    match node {
        Node::Bytes(set) => set.only_member(),
        Node::Sequence(a, _b) => first_byte(a),
        Node::Copies(count, a) => {
            if *count == 0 {
                return None;
            }
            first_byte(a)
        }
        Node::Plus(a) => first_byte(a),
        Node::Either(a, b) => {
            let byte = first_byte(a)?;
            if first_byte(b)? != byte {
                return None;
            }
            Some(byte)
        }
        Node::Empty | Node::Start | Node::End | Node::Star(_) => None,
    }
}
