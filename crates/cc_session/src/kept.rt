//! What is kept of the last rebuild.

ghost use Rattle.std.specs.Prelude.{◌≡◌, map, IfSome};
ghost use Rattle.std.specs.Arc.{arc_value};
ghost use Rattle.call_order.specs.Units.{call_lists};
ghost use Rattle.rv_layout.specs.Layout.{item_lists};
ghost use Rattle.cc_session.specs.Session.{answers_of, deps_of, lambdas_of, IsImageKept};
ghost use Rattle.cc_session.specs.Items.{kept_items};

use g_graph::Lambda;
use r_rule::Optimised;
use rv_layout::Item;
use s_linear::CodeForm;
use std::marker::Model;
use std::sync::Arc;

/// What is kept of the last rebuild: its source, the lambdas of its program, the deps of each, what
/// the recipe made of each, the form, the items of each function, and the image. Contracts see a plain record
/// without the items, which are those of the answers.
#[derive(Drop)]
pub(crate) struct Kept {
    pub(crate) source: Vec<u8>,
    pub(crate) lambdas: Vec<Lambda>,
    pub(crate) deps: Vec<Vec<u32>>,
    pub(crate) answers: Vec<Arc<Optimised>>,
    pub(crate) form: CodeForm,
    pub(crate) items: Vec<Vec<Item>>,
    pub(crate) image: Vec<u8>,
}

impl Model for Kept {
    ghost use Rattle.std.specs.Prelude.{◌≡◌, map};
    ghost use Rattle.std.specs.Arc.{arc_value};
    ghost use Rattle.call_order.specs.Units.{call_lists};
    ghost use Rattle.rv_layout.specs.Layout.{item_lists};
    ghost use Rattle.cc_session.specs.Session.{PlainKept, coded_kept};
    ghost use Rattle.cc_session.specs.Items.{items_of};

    ghost Value = { PlainKept };

    ghost coded = { coded_kept };

    ghost view = { λ k. record {
      source = k.source.items;
      lambdas = k.lambdas.items;
      deps = call_lists k.deps.items;
      answers = map arc_value k.answers.items;
      form = k.form;
      image = k.image.items;
    } };

    ghost invariant = { λ k. item_lists k.items.items ≡ items_of k.form (map arc_value k.answers.items) };
}

/// The lambdas that are kept; none where there was no rebuild.
pub(crate) fn lambdas_of(last: &Option<Kept>) -> &[Lambda]
    ensures { result.now ≡ lambdas_of last.now }
{
    match last {
        Some(kept) => kept.lambdas.as_slice(),
        None => &[],
    }
}

/// The deps of the kept lambdas.
pub(crate) fn deps_of(last: &Option<Kept>) -> &[Vec<u32>]
    ensures { call_lists result.now ≡ deps_of last.now }
{
    match last {
        Some(kept) => kept.deps.as_slice(),
        None => &[],
    }
}

/// The answers of the kept lambdas.
pub(crate) fn answers_of(last: &Option<Kept>) -> &[Arc<Optimised>]
    ensures { map arc_value result.now ≡ answers_of last.now }
{
    match last {
        Some(kept) => kept.answers.as_slice(),
        None => &[],
    }
}

/// The items of the functions that are kept.
pub(crate) fn items_of(last: &Option<Kept>) -> &[Vec<Item>]
    ensures { item_lists result.now ≡ kept_items last.now }
{
    match last {
        Some(kept) => kept.items.as_slice(),
        None => &[],
    }
}

/// The image that is kept, where it is that of this source.
pub(crate) fn image_of<'a>(last: &'a Option<Kept>, source: &[u8]) -> Option<&'a [u8]>
    ensures { IfSome result (λ image. IsImageKept last.now source.now image.now) }
{
    match last {
        Some(kept) if kept.source.as_slice() == source => Some(kept.image.as_slice()),
        _ => None,
    }
}
