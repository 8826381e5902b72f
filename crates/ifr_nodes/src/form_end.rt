//! The innermost form around a node, and where it ends.

ghost use Rattle.std.specs.Prelude.{◌≡◌, true, map, option_map, All, IfSome};
ghost use Rattle.std.specs.List.{last_or};
ghost use Rattle.std.specs.Prelude.{None};
ghost use Rattle.ifr_opcodes.specs.Opcode.{IsWhole};
ghost use Rattle.ifr_opcodes.specs.code.Marks.{mark_at, ancestor_at};
ghost use Rattle.ifr_nodes.specs.Checked.{IsChecked};
ghost use Rattle.ifr_nodes.specs.code.Checked.{has_node, node_in};
ghost use Rattle.ifr_nodes.specs.Nodes as ends;
ghost use Rattle.ifr_nodes.specs.Rules.{forms_among};

use crate::ends::end_of;
use ifr_opcodes::FORM;

/// The place of the innermost form among the nodes at these places, if there is one.
pub(crate) fn form_among(bytes: &[u8], places: &[u32]) -> Option<u32>
    requires { All (λ place. IsWhole (mark_at bytes.now place).op) places.now }
    ensures { result ≡ option_map (λ a. a.place)
        (last_or None (forms_among (map (ancestor_at bytes.now) places.now))) }
{
    let mut found = None;
    for place in places {
        if bytes[*place as usize] == FORM {
            found = Some(*place);
        }
    }
    found
}

/// A form, by its place, and where it ends: both in bytes from the package's header.
#[derive(Clone, Copy)]
pub struct FormEnd {
    pub place: u32,
    pub ends: u32,
}

impl FormEnd {
    /// The end of the form at a place, which may be the one that is known.
    pub fn at(ifr: &[u8], place: u32, known: Option<FormEnd>) -> FormEnd
        requires checked { IsChecked ifr.now }
        requires there { has_node ifr.now place ≡ true }
        requires known { IfSome known (λ form. form.ends
            ≡ ends.end_of (node_in ifr.now form.place)) }
        ensures place { result.place ≡ place }
        ensures ends { result.ends ≡ ends.end_of (node_in ifr.entry.now place) }
    {
        if let Some(form) = known {
            if form.place == place {
                return form;
            }
        }
        FormEnd {
            place,
            ends: end_of(ifr, place),
        }
    }
}
