//! The calls of a row. `check` (`arenas`), `values`, `ids`, `print`, `copy` and `same` look at the
//! lambda: `ids` says how many nodes it has, and the first ten, `copy` whether a copy is equal to
//! it, and `same` whether the lambda before it is. `numbered N` says whether its nodes from the
//! number N on are numbered in pre-order, up to its next number.

use crate::arenas::{check_of, left};
use crate::changes::{replace, splice_body, wrap};
use crate::code::{linear, lines, place_lines};
use crate::drawings::draw;
use crate::row::Row;
use crate::rules::{at, recipe, rules, sweep_of};
use crate::words::{kept_of, unary_of, value_of_one, value_of_two, word_of_two};
use base::NoMemory;
use g_graph::{Lambda, copy_of, equal, ids, values};
use g_text::Named;

/// Makes a call, a word and what is behind it.
pub fn call(row: &mut Row, line: &str) -> Result<(), NoMemory> {
    row.read_told()?;
    let (word, rest) = line.split_once(' ').unwrap_or((line, ""));
    match word {
        "" | "#" => Ok(()),
        "rules" => rules(row, rest),
        "code" => place_lines(row, rest),
        "word" => word_of_two(row, rest),
        "unary" => unary_of(row, rest),
        "value" => value_of_two(row, rest),
        "value1" => value_of_one(row, rest),
        "kept" => kept_of(row, rest),
        _ => call_on_last(row, word, rest),
    }
}

// The lambda is taken out for the call.
fn call_on_last(row: &mut Row, word: &str, rest: &str) -> Result<(), NoMemory> {
    let Some(last) = row.lambdas.pop() else {
        return row.say("no lambda");
    };
    let mut last = last;
    match word {
        "at" => at(row, &mut last, rest)?,
        "sweep" => sweep_of(row, &mut last, rest)?,
        "recipe" => recipe(row, &mut last, rest)?,
        "replace" => replace(&mut last, rest),
        "splice" => splice_body(row, &mut last, rest)?,
        "wrap" => wrap(row, &mut last, rest)?,
        _ => look(row, &last, word, rest)?,
    }
    Ok(row.lambdas.push(last)?)
}

fn look(row: &mut Row, last: &Named, word: &str, rest: &str) -> Result<(), NoMemory> {
    let lambda = &last.lambda;
    match word {
        "check" => check_of(row, lambda),
        "left" => left(row, lambda, rest),
        "values" => row.say_number(values(lambda)),
        "ids" => say_ids(row, last),
        "numbered" => numbered(row, last, rest),
        "print" => row.say_lambda(last.name.as_slice(), lambda),
        "draw" => draw(row, last, rest),
        "copy" => {
            let copy = copy_of(row.alloc, lambda)?;
            row.say_whether(equal(&copy, lambda), "equal", "not equal")
        }
        "same" => say_same(row, lambda),
        "linear" => linear(row, lambda),
        "lines" => lines(row, lambda),
        _ => row.say("no call"),
    }
}

fn say_same(row: &mut Row, lambda: &Lambda) -> Result<(), NoMemory> {
    let is_same = match row.lambdas.last() {
        Some(before) => equal(&before.lambda, lambda),
        None => false,
    };
    row.say_whether(is_same, "equal", "not equal")
}

fn say_ids(row: &mut Row, last: &Named) -> Result<(), NoMemory> {
    let all = ids(row.alloc, &last.lambda)?;
    row.say_number(all.len() as u64)?;
    for id in all.as_slice().iter().take(10) {
        row.say_number(u64::from(*id))?;
    }
    Ok(())
}

fn numbered(row: &mut Row, last: &Named, first: &str) -> Result<(), NoMemory> {
    let first = first.parse::<u32>().unwrap_or(0);
    let mut next = first;
    let mut in_order = true;
    for id in &ids(row.alloc, &last.lambda)? {
        if *id == next {
            next = next.saturating_add(1);
        } else if *id > first {
            in_order = false;
        }
    }
    row.say_whether(
        in_order && next == last.lambda.next,
        "in order",
        "not in order",
    )
}
