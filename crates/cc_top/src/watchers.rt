//! The watchers of a call: they are given rows, and one of them gives a report.

ghost use Rattle.std.specs.Prelude.{◌≡◌, ◌∷◌, [], List, Some, OnOk, OnErr, IfOk, option_map};
ghost use Rattle.std.specs.Str.{bytes_eq};
ghost use Rattle.cc_watch.specs.Rows.{PlainRow};
ghost use Rattle.cc_top.specs.Watchers.{AllHaveBegun, AllHaveGained, HasGained, IsReportOf, has_reporter, watcher_named};

use base::NoMemory;
use cc_watch::{Row, Watcher};
use std::alloc::Global;

/// Tells a watcher a row.
fn tell(watcher: &mut Box<dyn Watcher>, row: &Row) -> Result<(), NoMemory>
    ensures ok { OnOk result
        (HasGained named stands_for text_of (row.now ∷ []) watcher.old watcher.new) }
    ensures err { OnErr result
        (HasGained named stands_for text_of [] watcher.old watcher.new) }
{
    watcher.tell(row)
}

/// Tells all watchers a row, in order.
fn tell_row(watchers: &mut [Box<dyn Watcher>], row: &Row) -> Result<(), NoMemory>
    ensures ok { OnOk result
        (AllHaveGained named stands_for text_of (row.now ∷ []) watchers.old watchers.new) }
    ensures err { OnErr result
        (AllHaveBegun named stands_for text_of (row.now ∷ []) watchers.old watchers.new) }
{
    for watcher in watchers.iter_mut() {
        tell(watcher, row)?;
    }
    Ok(())
}

/// Tells all watchers each row before the next row.
fn tell_rows(watchers: &mut [Box<dyn Watcher>], rows: &[Row]) -> Result<(), NoMemory>
    ensures ok { OnOk result
        (AllHaveGained named stands_for text_of rows.now watchers.old watchers.new) }
    ensures err { OnErr result
        (AllHaveBegun named stands_for text_of rows.now watchers.old watchers.new) }
{
    for row in rows {
        tell_row(watchers, row)?;
    }
    Ok(())
}

/// The same of all watchers of a call.
pub fn tell_all(watchers: &mut Vec<Box<dyn Watcher>>, rows: &[Row]) -> Result<(), NoMemory>
    ensures ok { OnOk result
        (AllHaveGained named stands_for text_of rows.now watchers.old.items watchers.new.items) }
    ensures err { OnErr result
        (AllHaveBegun named stands_for text_of rows.now watchers.old.items watchers.new.items) }
{
    tell_rows(watchers, rows)
}

fn is_named(watcher: &Box<dyn Watcher>, name: &str) -> bool
    ensures { result ≡ bytes_eq (named watcher.now) name.now }
{
    watcher.name() == name
}

/// The first watcher of this name.
fn watcher_named<'a>(watchers: &'a [Box<dyn Watcher>], name: &str) -> Option<&'a Box<dyn Watcher>>
    ensures { option_map (λ w. w.now) result ≡ watcher_named named name.now watchers.now }
{
    for watcher in watchers {
        if is_named(watcher, name) {
            return Some(watcher);
        }
    }
    None
}

/// Whether there is a watcher to report, where a report is asked for.
pub fn has_reporter(watchers: &[Box<dyn Watcher>], report: Option<&str>) -> bool
    ensures { result ≡ has_reporter named (option_map (λ s. s.now) report.entry) watchers.now }
{
    match report {
        Some(name) => watcher_named(watchers, name).is_some(),
        None => true,
    }
}

/// The text of a watcher.
fn text_of(alloc: Global, watcher: &Box<dyn Watcher>) -> Result<Vec<u8>, NoMemory>
    ensures { IfOk result (λ text. (rows : List PlainRow) → stands_for watcher.now rows →
        text.items ≡ text_of watcher.now rows) }
{
    let mut text = Vec::new(alloc);
    watcher.text(&mut text)?;
    Ok(text)
}

/// The text of the first watcher of this name, of the rows that it stands for.
fn text_of_named(
    alloc: Global,
    watchers: &[Box<dyn Watcher>],
    name: &str,
) -> Result<Vec<u8>, NoMemory>
    ensures { IfOk result (λ text. IsReportOf named stands_for text_of (Some name.now) []
        watchers.now text.items) }
{
    match watcher_named(watchers, name) {
        Some(watcher) => text_of(alloc, watcher),
        None => Ok(Vec::new(alloc)),
    }
}

/// The text of a report, of the rows that the watchers stand for.
pub fn report_of(
    alloc: Global,
    watchers: &[Box<dyn Watcher>],
    report: Option<&str>,
) -> Result<Vec<u8>, NoMemory>
    ensures { IfOk result (λ text. IsReportOf named stands_for text_of
        (option_map (λ s. s.now) report.entry) [] watchers.now text.items) }
{
    match report {
        Some(name) => text_of_named(alloc, watchers, name),
        None => Ok(Vec::new(alloc)),
    }
}
