//! Watchers of a row, by themselves. `tell NAME BEFORE AFTER TIMES RULE:NODE ..` gives them what a
//! recipe did to a function, the steps so many times; where one refuses it, `memory` is said.
//! `texts TEXT` says each one's name and its text behind TEXT, or `memory`.

use crate::row::{Row, bytes_of, say_bytes, split};
use base::{Name, NoMemory};
use cc_watch::Watcher;
use r_rule::{Rule, Step, StepList};
use std::alloc::Global;

fn rule_named(name: &str) -> Rule {
    match name {
        "fold" => Rule::Fold,
        "cne" => Rule::Cne,
        "dne" => Rule::Dne,
        "inv" => Rule::Inv,
        "psh" => Rule::Push,
        "pll" => Rule::Pull,
        "ivt" => Rule::Invert,
        "url" => Rule::Unroll,
        _ => Rule::Inline,
    }
}

fn number(word: &str) -> u32 {
    word.parse::<u32>().unwrap_or(0)
}

fn push_steps(steps: &mut Vec<Step>, words: &str) -> Result<(), NoMemory> {
    for word in words.split(' ') {
        if let Some((rule, node)) = word.split_once(':') {
            steps.push(Step {
                rule: rule_named(rule),
                node: number(node),
            })?;
        }
    }
    Ok(())
}

fn steps_of(alloc: Global, times: u32, words: &str) -> Result<StepList, NoMemory> {
    let mut steps = Vec::new(alloc);
    for _ in 0..times {
        push_steps(&mut steps, words)?;
    }
    Ok(StepList::from(steps))
}

// What is told of a function: its name, its values before and after, how often it has the steps,
// and these.
fn told_of(alloc: Global, words: &str) -> Result<cc_watch::Row, NoMemory> {
    let (name, rest) = split(words);
    let (before, rest) = split(rest);
    let (after, rest) = split(rest);
    let (times, steps) = split(rest);
    let name = Name::from_slice(alloc, name.as_bytes())?;
    let steps = steps_of(alloc, number(times), steps)?;
    Ok(cc_watch::Row {
        name,
        before: number(before),
        after: number(after),
        steps,
    })
}

fn tell_all(watchers: &mut [Box<dyn Watcher>], told: &cc_watch::Row) -> Result<(), NoMemory> {
    for watcher in watchers.iter_mut() {
        watcher.tell(told)?;
    }
    Ok(())
}

/// Tells the watchers a row.
pub fn tell_row(
    row: &mut Row,
    words: &str,
    watchers: &mut Vec<Box<dyn Watcher>>,
) -> Result<(), NoMemory> {
    let told = told_of(row.alloc, words)?;
    match tell_all(watchers, &told) {
        Ok(()) => Ok(()),
        Err(NoMemory) => row.say("memory"),
    }
}

fn say_text(row: &mut Row, before: &str, watcher: &Box<dyn Watcher>) -> Result<(), NoMemory> {
    let mut text = bytes_of(row.alloc, before)?;
    row.said.push_str(watcher.name())?;
    row.said.push(' ')?;
    match watcher.text(&mut text) {
        Ok(()) => say_bytes(&mut row.said, &text)?,
        Err(NoMemory) => row.said.push_str("memory")?,
    }
    Ok(row.said.push('\n')?)
}

/// Says the texts of the watchers, each behind this text.
pub fn say_texts(
    row: &mut Row,
    before: &str,
    watchers: &[Box<dyn Watcher>],
) -> Result<(), NoMemory> {
    for watcher in watchers {
        say_text(row, before, watcher)?;
    }
    Ok(())
}
