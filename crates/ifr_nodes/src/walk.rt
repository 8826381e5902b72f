//! A way through the nodes of a package.

ghost use Rattle.std.specs.Prelude.{◌≡◌, ◌≤◌, ◌<◌, ◌^◌, ◌+◌, ◌++◌, ◌∷◌, [], ℕ, List, Some, length, map, drop, if◌then◌else◌, IfNone, IfSome, IsSome, MatchOption};
ghost use Rattle.ifr_opcodes.specs.Forest.{Node, SpellsForest, as_ancestor, nodes, node_at, below};
ghost use Rattle.ifr_opcodes.specs.code.Marks.{mark};
ghost use Rattle.ifr_opcodes.specs.Opcode.{has_scope, IsWhole};
ghost use Rattle.ifr_opcodes.specs.Reading.{tree_of};
ghost use Rattle.ifr_opcodes.specs.code.Marks.{mark_at};
ghost use Rattle.ifr_opcodes.specs.code.Ops.{bytes_of};
ghost use Rattle.ifr_nodes.specs.code.Walking.{IsWalking, IsWalking-prop};

use crate::framing::HEADER;
use arrayvec::ArrayVec;
use ifr_opcodes::{END, Op, op_at, op_there};

/// A node that a walk meets.
#[derive(Clone, Copy)]
pub struct Visit<'a> {
    /// The opcode of the node.
    pub op: Op<'a>,
    /// How many scopes are around it, of those that the walk enters.
    pub depth: usize,
}

/// The nodes of a package, or those inside of a node's scope, by place.
#[derive(Drop)]
pub struct Walk<'a> {
    bytes: &'a [u8],
    at: usize,
    around: ArrayVec<u32, 64>,
    ghost walking: { IsWalking bytes.now at around.items } by { IsWalking-prop bytes.now at around.items },
}

/// Where the nodes inside of a node's scope begin, or the package's end, where it has none.
fn inner_start(bytes: &[u8], place: u32) -> usize
    requires { IsWhole (mark_at bytes.now place).op }
    ensures { result ≡ (if has_scope (mark_at bytes.now place).op
        then place + length (mark_at bytes.now place).op else length bytes.now) }
{
    match op_at(bytes, place) {
        Ok(op) if op.scope => place as usize + op.len(),
        _ => bytes.len(),
    }
}

impl<'a> Walk<'a> {
    ghost use Rattle.ifr_nodes.specs.code.Visits.{left, sights, under, Meets};

    /// All nodes of a package.
    pub fn over(bytes: &'a [u8]) -> Walk<'a>
        requires header { 4 ≤ length bytes.now }
        requires small { length bytes.now < 2 ^ 32 }
        requires spelled { SpellsForest bytes.now (tree_of bytes.now) }
        ensures nodes { left result ≡ nodes (tree_of bytes.now) }
        ensures few { length (left result) < 2 ^ 32 }
        ensures kept { result.bytes.now ≡ bytes.now }
    {
        Walk {
            bytes,
            at: HEADER,
            around: ArrayVec::new(),
        }
    }

    /// The nodes inside of the scope of the node at a place.
    pub fn inside(bytes: &'a [u8], place: u32) -> Walk<'a>
        requires small { length bytes.now < 2 ^ 32 }
        requires spelled { SpellsForest bytes.now (tree_of bytes.now) }
        requires there { IsSome (node_at (nodes (tree_of bytes.now)) place) }
        ensures nodes { (n : Node) → node_at (nodes (tree_of bytes.now)) place ≡ Some n
            → below n ≡ map (under (n.path ++ as_ancestor n ∷ [])) (left result) }
        ensures sights { (n : Node) → node_at (nodes (tree_of bytes.now)) place ≡ Some n
            → sights result ≡ map mark (below n) }
        ensures few { length (left result) < 2 ^ 32 }
        ensures kept { result.bytes.now ≡ bytes.now }
    {
        Walk {
            bytes,
            at: inner_start(bytes, place),
            around: ArrayVec::new(),
        }
    }

    /// The package's bytes.
    pub(crate) fn bytes(&self) -> &'a [u8]
        ensures { result.now ≡ self.now.bytes.now }
    {
        self.bytes
    }

    // The opcode where the walk stands, if one is left.
    #[inline(always)]
    fn next_op(&self) -> Option<Op<'a>>
        ensures { MatchOption result
            ((op more : List ℕ) → IsWhole op
            → drop self.now.at self.now.bytes.now ≡ op ++ more → ⊥)
            (λ op. (op.place ≡ self.now.at) × (drop self.now.at self.now.bytes.now
            ≡ bytes_of op ++ drop (length (bytes_of op)) (drop self.now.at self.now.bytes.now))) }
    {
        if self.at < self.bytes.len() {
            Some(op_there(self.bytes, self.at as u32))
        } else {
            None
        }
    }

    /// Goes to the next node.
    #[inline(always)]
    pub fn step(&mut self) -> Option<Visit<'a>>
        ensures none { IfNone result ((left self.old ≡ []) × (left self.new ≡ [])) }
        ensures some { IfSome result (λ visit. Meets self.old visit self.new) }
        ensures kept { self.new.bytes.now ≡ self.old.bytes.now }
    {
        while let Some(op) = self.next_op() {
            if op.code != END {
                let depth = self.around.len();
                let visit = Visit { op, depth };
                self.at += op.len();
                if !op.scope {
                    return Some(visit);
                }
                self.around.push(op.place);
                return Some(visit);
            }
            if self.around.is_empty() {
                return None;
            }
            self.at += op.len();
            self.around.pop();
        }
        None
    }
}

impl<'a> Walk<'a> {
    ghost use Rattle.std.specs.Prelude.{take};
    ghost use Rattle.std.specs.Prelude.{All};
    ghost use Rattle.ifr_opcodes.specs.code.Marks.{inside};
    ghost use Rattle.ifr_opcodes.specs.Reading.{opcodes_in};
    ghost use Rattle.ifr_nodes.specs.Structure.{first_number};

    /// The number of the first child of the node that the walk met last.
    #[inline(always)]
    pub fn first_child(&self, visit: &Visit) -> Option<u8>
        ensures { result ≡ first_number
            (inside (bytes_of visit.now.op) (opcodes_in (drop self.now.at self.now.bytes.now))) }
    {
        if !visit.op.scope {
            return None;
        }
        match self.next_op() {
            Some(op) => { if op.code == END { None } else { Some(op.code) } }
            None => None,
        }
    }

    /// The places of the scopes around the node that the walk met last, as many as its depth says, the outermost first.
    pub(crate) fn around(&self, depth: usize) -> &[u32]
        requires { depth ≤ length self.now.around.items }
        ensures around { result.now ≡ take depth self.now.around.items }
        ensures whole { All (λ place. IsWhole (mark_at self.now.bytes.now place).op) result.now }
        ensures few { length result.now ≤ 64 }
    {
        &self.around.as_slice()[..depth]
    }
}

impl<'a> Iterator for Walk<'a> {
    ghost use Rattle.std.specs.Iterator.{YieldsFirstBy, item_count};
    ghost use Rattle.ifr_nodes.specs.code.Visits.{view, sights};

    type Item = Visit<'a>;

    ghost next_gives = { YieldsFirstBy view sights };

    ghost remaining = { item_count sights };

    fn next(&mut self) -> Option<Visit<'a>> {
        self.step()
    }
}
