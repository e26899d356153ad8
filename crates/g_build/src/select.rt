//! The number of the segment of a `switch`, and `from`.

ghost use Rattle.std.specs.Prelude.{◌≡◌, ◌<◌, ◌^◌, true, length, map, OnOk, IfOk};
ghost use Rattle.c_typed.specs.StmtViews.{groups_of};
ghost use Rattle.g_build_def.specs.Switch.{moved_where, segment_made, from_made, from_popped, some_segment_has_several};
ghost use Rattle.g_build_expression.specs.Work.{made, moved_to};
ghost use Rattle.g_build.specs.LabelViews.{label_of};
ghost use Rattle.g_build.specs.LabelParts.{label_made, segment_chosen};

use crate::labels::{Label, default_target, labels_of, word_difference};
use base::NoMemory;
use c_typed::Group;
use g_build_expression::{Builder, InScope};
use g_graph::Origin;
use val_core::Op2;

/// The number of the segment, and for each label whether the value is equal to its word.
#[derive(Drop)]
pub struct Selected {
    pub number: Origin,
    pub equals: Vec<Origin>,
}

// Whether the value is equal to the word of a label, and the number after that label.
#[derive(Clone, Copy)]
struct Found {
    equal: Origin,
    number: Origin,
}

// A number becomes greater by a difference where `equal` is 1.
fn moved_where(
    b: &mut Builder,
    equal: Origin,
    difference: u32,
    number: Origin,
) -> Result<Origin, NoMemory>
    ensures work { OnOk result
        (b.new ≡ made b.old (moved_where equal difference number b.old.point)) }
    ensures value { IfOk result
        (λ v. v ≡ (moved_where equal difference number b.old.point).value) }
{
    let word = b.constant(difference)?;
    let product = b.bin(Op2::Mul, equal, word)?;
    b.bin(Op2::Add, number, product)
}

fn find(
    b: &mut Builder,
    value: Origin,
    default: u32,
    label: Label,
    number: Origin,
) -> Result<Found, NoMemory>
    ensures work { OnOk result
        (b.new ≡ made b.old (label_made value default (label_of label) number b.old.point)) }
    ensures equal { IfOk result (λ v. v.equal ≡
        (label_made value default (label_of label) number b.old.point).value.equal) }
    ensures number { IfOk result (λ v. v.number ≡
        (label_made value default (label_of label) number b.old.point).value.number) }
{
    let word = b.constant(label.word)?;
    let equal = b.bin(Op2::Eq, value, word)?;
    let difference = word_difference(label.target.segment, default);
    let number = moved_where(b, equal, difference, number)?;
    Ok(Found { equal, number })
}

/// The number of the segment that the labels choose by a value.
pub fn select(
    b: &mut Builder,
    value: Origin,
    default: u32,
    labels: &[Label],
) -> Result<Selected, NoMemory>
    ensures work { OnOk result
        (b.new ≡ made b.old (segment_made value default (map label_of labels.now) b.old.point)) }
    ensures number { IfOk result (λ v. v.number ≡
        (segment_made value default (map label_of labels.now) b.old.point).value.number) }
    ensures equals { IfOk result (λ v. v.equals.items ≡
        (segment_made value default (map label_of labels.now) b.old.point).value.equals) }
{
    let mut number = b.constant(default)?;
    let mut equals = b.no_origins();
    for label in labels {
        let found = find(b, value, default, *label, number)?;
        equals.push(found.equal)?;
        number = found.number;
    }
    Ok(Selected { number, equals })
}

fn begin_several(
    b: &mut Builder,
    default: u32,
    labels: &[Label],
    equals: &[Origin],
) -> Result<(), NoMemory>
    ensures { OnOk result (b.new ≡
        made b.old (from_made true default (map label_of labels.now) equals.now b.old.point)) }
{
    let mut number = b.constant(default)?;
    let count = labels.len().min(equals.len());
    for k in 0..count {
        let difference = word_difference(labels[k].target.group, default);
        number = moved_where(b, equals[k], difference, number)?;
    }
    b.push_variable(InScope::Hidden(number))
}

/// `from` comes into scope where some segment has several groups.
#[tactic(auto, using(g_build_expression::proofs::lemmas::Made::moved_made))]
pub fn begin_from(
    b: &mut Builder,
    several: bool,
    default: u32,
    labels: &[Label],
    equals: &[Origin],
) -> Result<(), NoMemory>
    ensures { OnOk result (b.new ≡
        made b.old (from_made several default (map label_of labels.now) equals.now b.old.point)) }
{
    if several {
        return begin_several(b, default, labels, equals);
    }
    Ok(())
}

/// The number of the segment that a value chooses among groups; `from` comes into scope where some
/// segment has several groups.
pub fn choose_segment(
    b: &mut Builder,
    value: Origin,
    several: bool,
    groups: &[Group],
) -> Result<Origin, NoMemory>
    requires few { length groups.now < 2 ^ 32 }
    requires several { several ≡ some_segment_has_several (groups_of groups.now) }
    ensures work { OnOk result
        (b.new ≡ made b.old (segment_chosen value (groups_of groups.now) b.old.point)) }
    ensures value { IfOk result
        (λ v. v ≡ (segment_chosen value (groups_of groups.now) b.old.point).value) }
{
    let labels = labels_of(b.allocator(), groups)?;
    let default = default_target(groups);
    let selected = select(b, value, default.segment, &labels)?;
    begin_from(b, several, default.group, &labels, &selected.equals)?;
    Ok(selected.number)
}

/// `from` leaves the scope.
pub fn end_from(b: &mut Builder, several: bool)
    ensures { b.new ≡ moved_to b.old (from_popped several b.old.point) }
{
    if several {
        b.pop_variable();
    }
}
