//! What is known of a place: after which positions its names are needed, and where they are written.

ghost use Rattle.std.specs.Prelude.{◌<◌, OnOk};
ghost use Rattle.std.specs.List.{All};
ghost use Rattle.a_share.specs.Counts.{AreCounts};
ghost use Rattle.a_share.specs.Added.{AddsBy};

use crate::counts::Counts;
use crate::walk::Segment;
use std::alloc::{AllocError, Global};

/// The segments of a place's names, by where they begin and by where they end, the writes of its
/// names, and whether one of them is a parameter.
#[derive(Drop)]
pub(crate) struct Held {
    firsts: Counts,
    lasts: Counts,
    writes: Counts,
    pub(crate) has_param: bool,
}

impl Held {
    ghost use Rattle.std.specs.Prelude.{◌≡◌, ◌==◌, ◌^◌};
    ghost use Rattle.a_share.specs.Sound.{IsWithin};
    ghost use Rattle.a_share.specs.Held.{AddsTo, IsEmpty, IsHeld, meetings, needed_after, remaining, total};
    ghost use Rattle.a_share.specs.Held.{written_in};

    /// No name has the place.
    pub(crate) fn new(alloc: Global, lines: usize) -> Self
        requires { lines < 2 ^ 63 }
        ensures held { IsHeld lines result }
        ensures empty { IsEmpty result }
    {
        Held {
            firsts: Counts::new(alloc, lines),
            lasts: Counts::new(alloc, lines),
            writes: Counts::new(alloc, lines),
            has_param: false,
        }
    }

    /// Gives the place to a name.
    pub(crate) fn hold(
        &mut self,
        segments: &[Segment],
        writes: &[usize],
        is_param: bool,
    ) -> Result<(), AllocError>
        requires held { IsHeld self.old.firsts.size self.old }
        requires segments { All (IsWithin self.old.firsts.size) segments.now }
        requires writes { All (λ i. i < self.old.firsts.size) writes.now }
        ensures held { OnOk result (IsHeld self.old.firsts.size self.new) }
        ensures adds { OnOk result (AddsTo
            self.old.firsts.size segments.now writes.now is_param self.old self.new) }
    {
        add_firsts(&mut self.firsts, segments)?;
        add_lasts(&mut self.lasts, segments)?;
        add_writes(&mut self.writes, writes)?;
        self.has_param = self.has_param || is_param;
        Ok(())
    }

    /// A name with these segments and writes is needed after a write of one of the place's names, or
    /// one of them after a write of that name, so many times.
    pub(crate) fn meets(&self, segments: &[Segment], writes: &[usize], times: usize) -> bool
        requires held { IsHeld self.now.firsts.size self.now }
        requires segments { All (IsWithin self.now.firsts.size) segments.now }
        requires writes { All (λ i. i < self.now.firsts.size) writes.now }
        ensures { result ≡ (meetings self.now segments.now writes.now == times) }
    {
        match self.after_writes(writes, times) {
            None => false,
            Some(left) => match self.after_segments(segments, left) {
                None => false,
                Some(rest) => rest == 0,
            },
        }
    }

    // What is left of a number after the names that are needed after these positions.
    fn after_writes(&self, writes: &[usize], number: usize) -> Option<usize>
        requires held { IsHeld self.now.firsts.size self.now }
        requires writes { All (λ i. i < self.now.firsts.size) writes.now }
        ensures { result ≡ remaining (total (needed_after self.now) writes.now) number }
    {
        let mut left = number;
        for position in writes {
            let met = self.needed_after(*position) as usize;
            if met > left {
                return None;
            }
            left -= met;
        }
        Some(left)
    }

    // What is left of a number after the writes in these segments.
    fn after_segments(&self, segments: &[Segment], number: usize) -> Option<usize>
        requires held { IsHeld self.now.firsts.size self.now }
        requires segments { All (IsWithin self.now.firsts.size) segments.now }
        ensures { result ≡ remaining (total (written_in self.now) segments.now) number }
    {
        let mut left = number;
        for segment in segments {
            let met = self.writes.sum(segment.first, segment.last + 1) as usize;
            if met > left {
                return None;
            }
            left -= met;
        }
        Some(left)
    }

    // How many of the place's names are needed after a position.
    fn needed_after(&self, position: usize) -> u32
        requires held { IsHeld self.now.firsts.size self.now }
        requires inside { position < self.now.firsts.size }
        ensures { result ≡ needed_after self.now position }
    {
        let (begun, ended) = self.firsts.sums(&self.lasts, 0, position);
        let here = self.firsts.sum(position, position + 1);
        (begun + here).saturating_sub(ended)
    }
}

fn add_firsts(counts: &mut Counts, segments: &[Segment]) -> Result<(), AllocError>
    requires counts { AreCounts counts.old }
    requires inside { All (λ s. s.first < counts.old.size) segments.now }
    ensures { OnOk result (AddsBy (λ s. s.first) segments.now counts.old counts.new) }
{
    for segment in segments {
        counts.add(segment.first)?;
    }
    Ok(())
}

fn add_lasts(counts: &mut Counts, segments: &[Segment]) -> Result<(), AllocError>
    requires counts { AreCounts counts.old }
    requires inside { All (λ s. s.last < counts.old.size) segments.now }
    ensures { OnOk result (AddsBy (λ s. s.last) segments.now counts.old counts.new) }
{
    for segment in segments {
        counts.add(segment.last)?;
    }
    Ok(())
}

fn add_writes(counts: &mut Counts, writes: &[usize]) -> Result<(), AllocError>
    requires counts { AreCounts counts.old }
    requires inside { All (λ i. i < counts.old.size) writes.now }
    ensures { OnOk result (AddsBy (λ i. i) writes.now counts.old counts.new) }
{
    for position in writes {
        counts.add(*position)?;
    }
    Ok(())
}
