//! The labels of a `switch`, group by group.

ghost use Rattle.std.specs.Prelude.{◌≡◌, ◌∷◌, ◌++◌, [], true, IfOk, OnOk};
ghost use Rattle.c_ast.specs.Expressions.{expr_tree};
ghost use Rattle.c_ast.specs.Statements.{label_tree, labels_tree};
ghost use Rattle.c_check_def.specs.State.{or_broken, breaks_if, after};
ghost use Rattle.c_check_def.specs.Leaves.{begin_of};
ghost use Rattle.c_check_def.specs.declared.refusal_kind.RefusalKind.TheVariants.{NotConstant, BadLabel};
ghost use Rattle.c_check_def.specs.Operands.{term_constant};
ghost use Rattle.c_check_def.specs.Expressions.{expression};
ghost use Rattle.c_check_def.specs.Statements.{no_labels, next_group, case_label, label, more_labels};
ghost use Rattle.c_check_expression.specs.Labels.{group_labels};

use crate::expression;
use crate::words::Words;
use base::NoMemory;
use c_ast::{Expr, Label};
use c_check_def::RefusalKind;
use c_check_state::State;
use c_check_term::term_constant;
use std::alloc::Global;
use std::marker::Model;

/// The labels of the groups of a `switch` so far: the words of all cases, whether there is a
/// `default`, and the labels of the group that begins. Contracts see a plain record.
#[derive(Drop)]
pub struct Labels {
    pub words: Words,
    pub has_default: bool,
    pub cases: Vec<u32>,
    pub is_default: bool,
}

impl Model for Labels {
    ghost use Rattle.c_check_def.specs.Statements.{Labels as Record};
    ghost use Rattle.c_check_expression.specs.Labels.{coded_labels};

    ghost Value = { Record };

    ghost coded = { coded_labels };

    ghost view = { λ x. record {
      words = x.words;
      has_default = x.has_default;
      cases = x.cases.items;
      is_default = x.is_default;
    } };
}

impl Labels {
    /// No labels.
    pub fn new(alloc: Global) -> Labels
        ensures { result ≡ no_labels }
    {
        Labels {
            words: Words::new(alloc),
            has_default: false,
            cases: Vec::new(alloc),
            is_default: false,
        }
    }
}

/// The labels that a group begins with, after those of the groups before it (ISO/IEC 9899:2011,
/// 6.8.4.2).
pub fn group_labels(
    state: &mut State,
    labels: Labels,
    first: &Label,
    more: &[Label],
) -> Result<Labels, NoMemory>
    ensures value { IfOk result (λ r. r ≡
        (group_labels labels (label_tree first.now) (labels_tree more.now) state.old).0) }
    ensures state { OnOk result (state.new ≡
        (group_labels labels (label_tree first.now) (labels_tree more.now) state.old).1) }
{
    let begun = next_group(state.alloc(), labels);
    let labels = label(state, begun, first)?;
    more_labels(state, labels, more)
}

fn next_group(alloc: Global, labels: Labels) -> Labels
    ensures { result ≡ next_group labels }
{
    Labels {
        words: labels.words,
        has_default: labels.has_default,
        cases: Vec::new(alloc),
        is_default: false,
    }
}

fn more_labels(state: &mut State, labels: Labels, more: &[Label]) -> Result<Labels, NoMemory>
    ensures value { IfOk result
        (λ r. r ≡ (more_labels labels (labels_tree more.now) state.old).0) }
    ensures state { OnOk result
        (state.new ≡ (more_labels labels (labels_tree more.now) state.old).1) }
{
    let mut all = labels;
    for x in more {
        all = label(state, all, x)?;
    }
    Ok(all)
}

#[tactic(auto, unfolding(c_ast::specs::Statements::label_tree))]
fn label(state: &mut State, labels: Labels, x: &Label) -> Result<Labels, NoMemory>
    ensures value { IfOk result (λ r. r ≡ (label labels (label_tree x.now) state.old).0) }
    ensures state { OnOk result (state.new ≡ (label labels (label_tree x.now) state.old).1) }
{
    match x {
        Label::Case { keyword, value, .. } => {
            let word = case_word(state, value)?;
            case_label(state, labels, keyword.at, word)
        }
        Label::Default { keyword, .. } => Ok(default_label(state, labels, keyword.at)),
    }
}

// The word of a case.
fn case_word(state: &mut State, value: &Expr) -> Result<Option<u32>, NoMemory>
    ensures value { IfOk result (λ r. r ≡ (after (expression (expr_tree value.now) state.old)
        (λ a. or_broken NotConstant (begin_of (expr_tree value.now)) (term_constant a))).0) }
    ensures state { OnOk result (state.new ≡
        (after (expression (expr_tree value.now) state.old)
        (λ a. or_broken NotConstant (begin_of (expr_tree value.now)) (term_constant a))).1) }
{
    let a = expression(state, value)?;
    Ok(or_broken(state, value.start(), term_constant(&a)))
}

fn or_broken(state: &mut State, offset: u32, word: Option<u32>) -> Option<u32>
    ensures value { result ≡ (or_broken NotConstant offset word state.old).0 }
    ensures state { state.new ≡ (or_broken NotConstant offset word state.old).1 }
{
    if word.is_none() {
        state.breaks(RefusalKind::NotConstant, offset);
    }
    word
}

fn case_label(
    state: &mut State,
    labels: Labels,
    offset: u32,
    word: Option<u32>,
) -> Result<Labels, NoMemory>
    ensures value { IfOk result (λ r. r ≡ (case_label labels offset word state.old).0) }
    ensures state { OnOk result (state.new ≡ (case_label labels offset word state.old).1) }
{
    match word {
        Some(word) => {
            state.breaks_if(labels.words.contains(word), RefusalKind::BadLabel, offset);
            with_case(labels, word)
        }
        None => Ok(labels),
    }
}

fn with_case(labels: Labels, word: u32) -> Result<Labels, NoMemory>
    ensures { IfOk result (λ r. r ≡ record labels {
      words = labels.words ++ word ∷ [];
      cases = labels.cases ++ word ∷ [];
    }) }
{
    let mut cases = labels.cases;
    cases.push(word)?;
    Ok(Labels {
        words: labels.words.with(word)?,
        has_default: labels.has_default,
        cases,
        is_default: labels.is_default,
    })
}

fn default_label(state: &mut State, labels: Labels, offset: u32) -> Labels
    ensures value { result ≡ record labels { has_default = true; is_default = true } }
    ensures state { state.new ≡
        (breaks_if labels.has_default BadLabel offset state.old).1 }
{
    state.breaks_if(labels.has_default, RefusalKind::BadLabel, offset);
    Labels {
        words: labels.words,
        has_default: true,
        cases: labels.cases,
        is_default: true,
    }
}
