//! The warnings of a form set.

ghost use Rattle.std.specs.Prelude.{IfOk, ◌≡◌, ◌++◌};
ghost use Rattle.ifr_nodes.specs.Nodes.{nodes_of};
ghost use Rattle.check_audit.specs.GivenDefaults.{default_warnings};
ghost use Rattle.check_audit.specs.Warnings.{AreWarnings, asks_warnings, bounds_warnings, crossed_spans, unreached_warnings};
ghost use Rattle.check_audit.specs.code.States.{states_of};

use crate::asks::add_asks;
use crate::bounds::add_bounds;
use crate::constants::add_constants;
use crate::given_defaults::add_defaults;
use crate::guard_states::{GuardState, guard_states};
use crate::lacks::Lacks;
use crate::overlaps::add_overlaps;
use crate::textless::add_textless;
use crate::unreached::add_unreached;
use crate::warning::{Span, Warning};
use hii_questions::Questions;
use ifr_scopes::Forms;
use opcode_audit::FirstStrings;
use std::alloc::{AllocError, Global};

/// The warnings of a form set, and what they tell by a number.
#[derive(Drop)]
pub(crate) struct Found {
    pub warnings: Vec<Warning>,
    /// The bounds that nothing can meet.
    pub spans: Vec<Span>,
}

// What is found by the tables of a form set: its warnings but those of conditions that name no question, in front of
// these and behind them.
#[derive(Drop)]
struct Tabled {
    front: Vec<Warning>,
    behind: Vec<Warning>,
    spans: Vec<Span>,
    states: Vec<GuardState>,
}

// What the tables of a form set say.
fn read_tables<'a>(
    alloc: Global,
    strings: &FirstStrings<'_>,
    forms: &Forms<'a>,
    questions: &Questions<'_>,
) -> Result<Tabled, AllocError>
    requires { questions.now.ifr ≡ forms.now }
    ensures front { IfOk result (λ found. found.front.items
        ≡ asks_warnings (nodes_of forms.now) ++ bounds_warnings (nodes_of forms.now)) }
    ensures behind { IfOk result (λ found. found.behind.items
        ≡ default_warnings strings.now (nodes_of forms.now) ++ unreached_warnings (nodes_of forms.now)) }
    ensures spans { IfOk result (λ found. found.spans.items ≡ crossed_spans (nodes_of forms.now)) }
    ensures states { IfOk result (λ found. found.states.items ≡ states_of (nodes_of forms.now)) }
{
    let mut front = Vec::new(alloc);
    add_asks(forms, questions, &mut front)?;
    let spans = add_bounds(alloc, forms, &mut front)?;
    let mut behind = Vec::new(alloc);
    add_defaults(strings, questions, &mut behind)?;
    add_unreached(alloc, forms, &mut behind)?;
    let states = guard_states(alloc, forms)?;
    Ok(Tabled {
        front,
        behind,
        spans,
        states,
    })
}

/// The warnings of a form set, by place, then word, then id, where the first string package says this, and further ones
/// lack this. The tables of the form set are given back as soon as they were looked at, so that the warnings take no more
/// room than these.
pub(crate) fn warnings_of<'a>(
    alloc: Global,
    strings: &FirstStrings<'_>,
    lacks: &Lacks<'_>,
    forms: Forms<'a>,
    questions: Questions<'_>,
) -> Result<Found, AllocError>
    requires { questions.ifr ≡ forms }
    ensures warned { IfOk result (λ found. AreWarnings strings.now lacks.now forms.entry found.warnings.items) }
    ensures spans { IfOk result (λ found. found.spans.items ≡ crossed_spans (nodes_of forms.entry)) }
{
    let ifr = forms.bytes();
    let found = read_tables(alloc, strings, &forms, &questions)?;
    drop(forms);
    let Tabled {
        front: mut warnings,
        behind,
        spans,
        states,
    } = found;
    add_constants(ifr, &states, &mut warnings)?;
    drop(states);
    warnings.extend_from_slice(&behind)?;
    drop(behind);
    add_overlaps(alloc, questions, &mut warnings)?;
    lacks.add(&mut warnings)?;
    add_textless(alloc, strings, ifr, &mut warnings)?;
    warnings.sort_by_key(|warning| warning.order())?;
    warnings.shrink_to_fit();
    Ok(Found { warnings, spans })
}
