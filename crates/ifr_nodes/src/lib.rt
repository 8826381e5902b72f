//! The nodes of a forms package: walks over them, and by what a package is accepted: its framing, each node by where it stands, and
//! references and rules among the nodes (UEFI 2.8, 33.3.8 Forms Package; what is refused, and as what, is an own rule).
#![tactic(auto)]

mod columns;
mod ends;
mod form_end;
mod framing;
mod guard_place;
mod guards;
mod node;
mod nodes;
mod nodes_of;
mod places;
mod references;
mod rules;
mod scoped_nodes;
mod structure;
mod table;
mod walk;

pub use ends::end_of;
pub use form_end::FormEnd;
pub use framing::{HEADER, check_framing};
pub use guard_place::GuardPlace;
pub use guards::is_guard;
pub use node::Node;
pub use nodes::Nodes;
pub use nodes_of::NodesOf;
pub use places::node_at;
pub use references::{check_references, has_form};
pub use rules::{KeptRule, RuleSize, RuleTable, add_to, expression_of, last_ended};
pub use scoped_nodes::{ScopedNode, ScopedNodes};
pub use structure::{check_structure, has_wrong_scope, lacks_wanted};
pub use table::{Class, admits, class_of, guarded, wants_expression, wants_value};
pub use walk::Walk;
