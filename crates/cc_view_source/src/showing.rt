//! The drawing of one lambda.

ghost use Rattle.std.specs.Prelude.{◌≡◌, ◌<◌, Some, length, map, slice_get, OnOk};
ghost use Rattle.std.specs.Arc.{arc_value};
ghost use Rattle.cc_view_source.specs.Drawn.{IsShown};

use crate::Drawing;
use base::{Name, NoMemory};
use g_graph::Lambda;
use g_text::{write_graph, write_lambda};
use r_rule::Optimised;
use std::alloc::Global;
use std::sync::Arc;

/// What the function of this number was made into.
pub(crate) fn answer_at(answers: &[Arc<Optimised>], function: usize) -> &Optimised
    requires { function < length answers.now }
    ensures { slice_get (map arc_value answers.now) function ≡ Some result.now }
{
    &answers[function]
}

/// The drawing of the function of this name goes to the end of the buffer, the node of the number
/// `framed` in a frame. Functions that it calls go by their names in `names`.
pub(crate) fn push_shown(
    alloc: Global,
    out: &mut Vec<u8>,
    drawing: Drawing,
    name: &[u8],
    names: &[Name],
    lambda: &Lambda,
    framed: Option<u32>,
) -> Result<(), NoMemory>
    ensures { OnOk result (IsShown drawing name.now lambda.now out.old.items out.new.items) }
{
    match drawing {
        Drawing::Dot => write_graph(out, alloc, name, names, lambda, framed),
        Drawing::Rows => write_lambda(out, name, lambda),
    }
}
