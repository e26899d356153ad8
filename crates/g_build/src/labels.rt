//! The labels of a `switch`, and the segment and group to which each leads.

ghost use Rattle.std.specs.Prelude.{◌≡◌, ◌+◌, ◌<◌, ◌^◌, ◌++◌, map, suc, if◌then◌else◌, length, OnOk, IfOk};
ghost use Rattle.c_typed.specs.StmtViews.{groups_of};
ghost use Rattle.g_build_def.specs.Switch.{some_segment_has_several, default_target, labels_of, word_difference};
ghost use Rattle.g_build.specs.LabelViews.{label_of, target_of, labels_at};

use base::NoMemory;
use c_typed::Group;
use g_build_count::ends_segment;
use std::alloc::Global;

/// Where a label leads: to a segment, and to a group.
#[derive(Clone, Copy)]
pub struct Target {
    pub segment: u32,
    pub group: u32,
}

/// A `case` label: its word, and where it leads.
#[derive(Clone, Copy)]
pub struct Label {
    pub word: u32,
    pub target: Target,
}

fn next_segment(segment: u32, ends: bool) -> u32
    requires { segment + 1 < 2 ^ 32 }
    ensures { result ≡ (if ends then suc segment else segment) }
{
    if ends { segment + 1 } else { segment }
}

fn push_labels(labels: &mut Vec<Label>, cases: &[u32], target: Target) -> Result<(), NoMemory>
    ensures { OnOk result (map label_of labels.new.items ≡
        map label_of labels.old.items ++ labels_at (target_of target) cases.now) }
{
    for word in cases {
        labels.push(Label {
            word: *word,
            target,
        })?;
    }
    Ok(())
}

/// The `case` labels of the groups, in order.
pub fn labels_of(alloc: Global, groups: &[Group]) -> Result<Vec<Label>, NoMemory>
    requires { length groups.now < 2 ^ 32 }
    ensures { IfOk result
        (λ labels. map label_of labels.items ≡ labels_of 0 0 (groups_of groups.now)) }
{
    let mut labels = Vec::new(alloc);
    let mut segment: u32 = 0;
    for i in 0..groups.len() {
        let target = Target {
            segment,
            group: i as u32,
        };
        push_labels(&mut labels, &groups[i].cases, target)?;
        segment = next_segment(segment, ends_segment(groups, i));
    }
    Ok(labels)
}

/// Where `default` leads, or what stands after the groups.
pub fn default_target(groups: &[Group]) -> Target
    requires { length groups.now < 2 ^ 32 }
    ensures { target_of result ≡ default_target 0 0 (groups_of groups.now) }
{
    let mut segment: u32 = 0;
    for i in 0..groups.len() {
        if groups[i].is_default {
            return Target {
                segment,
                group: i as u32,
            };
        }
        segment = next_segment(segment, ends_segment(groups, i));
    }
    Target {
        segment,
        group: groups.len() as u32,
    }
}

/// Whether some segment has several groups.
pub fn has_several(groups: &[Group]) -> bool
    ensures { result ≡ some_segment_has_several (groups_of groups.now) }
{
    for i in 0..groups.len() {
        if !ends_segment(groups, i) {
            return true;
        }
    }
    false
}

/// The difference of two numbers as a word.
pub fn word_difference(a: u32, b: u32) -> u32
    ensures { result ≡ word_difference a b }
{
    a.wrapping_sub(b)
}
