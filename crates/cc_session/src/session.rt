//! Sessions.

ghost use Rattle.std.specs.Prelude.{◌≡◌, ◌<◌, ◌≤◌, None, Some, IfErr, IfOk, OnErr, OnOk};
ghost use Rattle.base.specs.Limits.{most_workers};
ghost use Rattle.cc_source.specs.Accepted.{Refuses};
ghost use Rattle.cc_session.specs.Session.{IsAcceptedSource, Replaces, IsReplaceRefused};
ghost use Rattle.cc_session.specs.Rebuilds.{IsRebuilt};

use crate::kept::{Kept, image_of};
use crate::rebuild::{Rebuilt, rebuild_again, rebuild_from};
use crate::{AcceptedSource, EditFault};
use base::NoMemory;
use board_work::Gate;
use cc_source::CompileFault;
use g_pass::Recipe;
use g_pass_order::laws::orders_are_unique;
use s_linear::CodeForm;
use std::alloc::Global;
use std::marker::Model;
use std::sync::Wait;
use std::thread::Threads;

/// A source that is accepted, open for edits and rebuilds under a recipe. Contracts see the source,
/// the rules of the recipe, the form, and the source of the last rebuild or none.
#[derive(Drop)]
pub struct Session {
    alloc: Global,
    current: AcceptedSource,
    recipe: Recipe,
    form: CodeForm,
    last: Option<Kept>,
}

impl Model for Session {
    ghost use Rattle.std.specs.Prelude.{option_map};
    ghost use Rattle.cc_session.specs.Session.{PlainKept, PlainSession, IsSession, coded_session};

    ghost Value = { PlainSession };

    ghost coded = { coded_session };

    ghost view = { λ s. record {
      source = s.current.source;
      recipe = s.recipe;
      form = s.form;
      last = option_map (λ (k : PlainKept). k.source) s.last;
    } };

    ghost invariant = { λ s. IsSession s.current s.recipe s.form s.last };
}

impl Session {
    /// A session on a source, under a recipe and in a form, before any rebuild. The faults are those of
    /// `accepted_of`: where a phase refuses the source, or memory ran out.
    pub fn open(
        alloc: Global,
        source: Vec<u8>,
        recipe: Recipe,
        form: CodeForm,
    ) -> Result<Session, CompileFault>
        ensures opened { IfOk result (λ s.
            s ≡ record { source = source.items; recipe = recipe; form = form; last = None }) }
        ensures accepted { IfOk result (λ _. IsAcceptedSource source.items) }
        ensures refused { IfErr result (λ e. Refuses e source.items) }
    {
        let current = AcceptedSource::read(alloc, source)?;
        Ok(Session {
            alloc,
            current,
            recipe,
            form,
            last: None,
        })
    }

    /// The bytes of the source. It takes no memory.
    pub fn source(&self) -> &[u8]
        ensures { result.now ≡ self.now.source }
    {
        self.current.source()
    }

    /// Replaces the definition of the first function of a name, from its first token to its closing
    /// brace, by a text. `NoFunction` where no function has the name; `Source` where the new source
    /// is not accepted, which is given back with its fault; `OtherNames` where the functions that
    /// it defines, in order, have not the names that they had. `NoMemory` may come in place of any
    /// answer. The session is then as it was.
    pub fn replace(&mut self, name: &[u8], text: &[u8]) -> Result<(), EditFault>
        ensures replaced { OnOk result (Replaces self.old name.now text.now self.new) }
        ensures refused { IfErr result (λ e. IsReplaceRefused e self.old name.now text.now) }
        ensures unchanged { OnErr result (self.new ≡ self.old) }
    {
        match self.current.edited(self.alloc, name, text) {
            Ok(after) => {
                self.current = after;
                Ok(())
            }
            Err(fault) => Err(fault),
        }
    }

    /// The image of the source under the recipe in the form, as it is made from nothing, and how many
    /// functions were stale: those are made anew, by 1 to `MOST_WORKERS` workers, each in a thread
    /// of its own where one can be made, and of the others the answers are kept. A worker passes the
    /// gate for each stale function, by its number among them, before it makes it. Where the source
    /// is that of the last rebuild, the image is a copy of that one's. `NoMemory` only where the
    /// allocator has none; the session is then as it was. It may wait, and nothing is promised of
    /// its returning.
    pub fn rebuild<H: Threads + Wait + Sync, G: Gate>(
        &mut self,
        rt: &H,
        workers: u32,
        gate: &G,
    ) -> Result<Rebuilt, NoMemory>
        requires some_worker { 0 < workers }
        requires few_workers { workers ≤ most_workers }
        ensures rebuilt { IfOk result (λ it. IsRebuilt self.old it.image.items it.jobs) }
        ensures last { OnOk result (self.new
            ≡ record self.old { last = Some self.old.source }) }
        ensures unchanged { OnErr result (self.new ≡ self.old) }
    {
        orders_are_unique();
        if let Some(image) = image_of(&self.last, self.current.source()) {
            return rebuild_again(self.alloc, image);
        }
        let (it, kept) = rebuild_from(
            rt,
            self.alloc,
            &self.current,
            &self.recipe,
            self.form,
            &self.last,
            workers,
            gate,
        )?;
        self.last = Some(kept);
        Ok(it)
    }
}
