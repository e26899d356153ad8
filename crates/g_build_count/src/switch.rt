//! The segments of a `switch`.

ghost use Rattle.std.specs.Prelude.{◌≡◌, ◌+◌, ◌<◌, not, drop, length, ◌&&◌};
ghost use Rattle.c_typed.specs.StmtViews.{items_of, groups_of};
ghost use Rattle.g_graph.specs.Count.{saturated};
ghost use Rattle.g_build_def.specs.Switch.{is_jump, ends_with_jump, some_segment_has_several};
ghost use Rattle.g_build_count.specs.Values.{first_ends, label_count, segment_count, group_values, selected_values, segments_values, jump_ended_values};

use crate::loops::leaving_values;
use crate::operations::choice_values;
use c_typed::{Group, Item, StmtForm, TStmt};

// Whether a statement is a jump.
fn is_jump(a: &TStmt) -> bool
    ensures { result ≡ is_jump a.now }
{
    match &a.form {
        StmtForm::Break | StmtForm::Continue | StmtForm::ReturnValue(_) | StmtForm::ReturnNone =>
            true,
        _ => false,
    }
}

/// Whether the last of these statements is a jump.
pub fn ends_with_jump(items: &[Item]) -> bool
    ensures { result ≡ ends_with_jump (items_of items.now) }
{
    let mut ends = false;
    for item in items {
        ends = match item {
            Item::Statement(a) => is_jump(a),
            Item::Variable(_) => false,
        };
    }
    ends
}

/// Whether the group at this index is the last of its segment.
pub fn ends_segment(groups: &[Group], i: usize) -> bool
    requires { i < length groups.now }
    ensures { result ≡ first_ends (groups_of (drop i groups.now)) }
{
    if i + 1 == groups.len() {
        return true;
    }
    ends_with_jump(&groups[i].body)
}

/// What groups are like together.
#[derive(Clone, Copy)]
pub struct Segments {
    pub labels: u64,
    pub count: u64,
    pub several: bool,
}

/// How many labels and segments there are, and whether some segment has several groups.
pub fn segments_of(groups: &[Group]) -> Segments
    ensures labels { result.labels ≡ saturated (label_count (groups_of groups.now)) }
    ensures count { result.count ≡ segment_count (groups_of groups.now) }
    ensures several { result.several ≡ some_segment_has_several (groups_of groups.now) }
{
    let mut labels: u64 = 0;
    let mut count: u64 = 0;
    let mut several = false;
    for i in 0..groups.len() {
        labels = labels.saturating_add(groups[i].cases.len() as u64);
        if ends_segment(groups, i) {
            count += 1;
        } else {
            several = true;
        }
    }
    Segments {
        labels,
        count,
        several,
    }
}

/// Of a group with statements of so many values, which begins a segment and ends it or not.
pub fn group_values(carried: u64, begins: bool, ends: bool, leaves: bool, statements: u64) -> u64
    ensures { result ≡
        saturated (group_values carried (begins && ends) (not ends && leaves) statements) }
{
    if begins && ends {
        return statements;
    }
    choice_values(carried, 0, 0, statements)
        .saturating_add(4)
        .saturating_add(leaving_values(carried, !ends && leaves))
}

/// Of the number of the segment and of `from`.
pub fn selected_values(several: bool, labels: u64) -> u64
    ensures { result ≡ saturated (selected_values several labels) }
{
    let number = labels.saturating_mul(10).saturating_add(2);
    if several {
        number
            .saturating_add(labels.saturating_mul(6))
            .saturating_add(2)
    } else {
        number
    }
}

/// Of the Gamma round the segments, without what stands in them.
pub fn segments_values(carried: u64, count: u64) -> u64
    ensures { result ≡ saturated (segments_values carried count) }
{
    let region = carried.saturating_mul(2).saturating_add(1);
    count
        .saturating_mul(region)
        .saturating_add(region)
        .saturating_add(carried)
        .saturating_add(1)
}

/// Of a `switch` with groups of so many values, whose regions carry so many variables.
pub fn switch_values(value: u64, segments: Segments, within: u64, groups: u64, breaks: bool) -> u64
    ensures { result ≡
        saturated (value + selected_values segments.several segments.labels
        + segments_values within segments.count + groups + jump_ended_values breaks) }
{
    let ended = if breaks { 6 } else { 0 };
    selected_values(segments.several, segments.labels)
        .saturating_add(segments_values(within, segments.count))
        .saturating_add(value)
        .saturating_add(groups)
        .saturating_add(ended)
}
