//! Where nodes end.

ghost use Rattle.std.specs.Prelude.{◌≡◌, ◌<◌, ◌^◌, true, length};
ghost use Rattle.ifr_opcodes.specs.Forest.{SpellsForest};
ghost use Rattle.ifr_opcodes.specs.Reading.{tree_of};
ghost use Rattle.ifr_nodes.specs.code.Checked.{has_node, node_in};
ghost use Rattle.ifr_nodes.specs.Nodes as nodes;

use ifr_opcodes::{END, op_at, split_opcode};

/// Where the node at a place of a package ends: behind the END of its scope, or behind its opcode where it has none.
/// Both are in bytes from the package's header.
#[inline(always)]
pub fn end_of(bytes: &[u8], place: u32) -> u32
    requires small { length bytes.now < 2 ^ 32 }
    requires spelled { SpellsForest bytes.now (tree_of bytes.now) }
    requires there { has_node bytes.now place ≡ true }
    ensures { result ≡ nodes.end_of (node_in bytes.now place) }
{
    end_index(bytes, place) as u32
}

// Where the node at a place ends, as an index into the package's bytes.
fn end_index(bytes: &[u8], place: u32) -> usize
    requires small { length bytes.now < 2 ^ 32 }
    requires spelled { SpellsForest bytes.now (tree_of bytes.now) }
    requires there { has_node bytes.now place ≡ true }
    ensures { result ≡ nodes.end_of (node_in bytes.now place) }
{
    let first = op_at(bytes, place).unwrap();
    let mut end = place as usize + first.len();
    let mut depth = usize::from(first.scope);
    while depth > 0 {
        let Some((op, _)) = split_opcode(&bytes[end..], end as u32) else {
            break;
        };
        end += op.len();
        if op.code == END {
            depth -= 1;
        } else if op.scope {
            depth += 1;
        }
    }
    end
}
