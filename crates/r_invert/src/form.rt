//! The form of a loop that may be inverted.

ghost use Rattle.std.specs.Prelude.{◌≡◌};
ghost use Rattle.g_graph.specs.Scope.{same_kind};
ghost use Rattle.g_graph.specs.WellFormed.{all_of, some_of};
ghost use Rattle.r_invert.specs.Edit.{branches_so};
ghost use Rattle.r_invert.specs.Rule.{is_output_of, takes_both_states, word_given, is_zero, is_other};

use g_graph::{Kind, Origin, OutputsToResults, Redirect, Region, constant};

/// Whether these regions of a Gamma `id`, and these results of the region that it stands in, are
/// those of a loop that may be inverted. It takes no memory.
pub fn branches_so(
    id: u32,
    predicate: Origin,
    variables: &[Origin],
    stop: &Region,
    go: &Region,
) -> bool
    ensures { result ≡ branches_so id predicate variables.now stop.now go.now }
{
    takes_both_states(stop)
        && is_output_of(id, predicate)
        && all_outputs(id, variables)
        && is_zero(word_given(id, predicate, stop))
        && is_other(word_given(id, predicate, go))
}

fn takes_both_states(region: &Region) -> bool
    ensures { result ≡ takes_both_states region.now }
{
    takes(&region.args, Kind::Memory) && takes(&region.args, Kind::Io)
}

fn takes(args: &[Kind], kind: Kind) -> bool
    ensures { result ≡ some_of (same_kind kind) args.now }
{
    for arg in args {
        if same_kind(kind, *arg) {
            return true;
        }
    }
    false
}

fn same_kind(kind: Kind, other: Kind) -> bool
    ensures { result ≡ same_kind kind other }
{
    match (kind, other) {
        (Kind::Value, Kind::Value) => true,
        (Kind::Memory, Kind::Memory) => true,
        (Kind::Io, Kind::Io) => true,
        _ => false,
    }
}

fn all_outputs(id: u32, origins: &[Origin]) -> bool
    ensures { result ≡ all_of (is_output_of id) origins.now }
{
    for origin in origins {
        if !is_output_of(id, *origin) {
            return false;
        }
    }
    true
}

fn is_output_of(id: u32, origin: Origin) -> bool
    ensures { result ≡ is_output_of id origin }
{
    match origin {
        Origin::Arg(_) => false,
        Origin::Out { node, port: _ } => node == id,
    }
}

// The word of the Const node of the region that gives this output of a Gamma `id`.
fn word_given(id: u32, output: Origin, region: &Region) -> Option<u32>
    ensures { result ≡ word_given id output region.now }
{
    let results = OutputsToResults {
        at: id,
        outputs: &region.results,
    };
    constant(&region.nodes, results.redirect(output))
}

fn is_zero(word: Option<u32>) -> bool
    ensures { result ≡ is_zero word }
{
    match word {
        Some(word) => word == 0,
        None => false,
    }
}

fn is_other(word: Option<u32>) -> bool
    ensures { result ≡ is_other word }
{
    match word {
        Some(word) => word != 0,
        None => false,
    }
}
