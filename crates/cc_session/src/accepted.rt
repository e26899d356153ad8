//! Sources that are accepted, with their programs.

ghost use Rattle.std.specs.Prelude.{◌≡◌, None, IfErr, IfOk};
ghost use Rattle.c_typed.specs.WellTyped.{IsWellTyped};
ghost use Rattle.c_check_def.specs.Limits.{above_limits};
ghost use Rattle.cc_source.specs.Accepted.{Accepts, Refuses};
ghost use Rattle.cc_session.specs.Edits.{given_back, IsEdited, IsEditRefused, IsNotAccepted};

use crate::edit::{extent_of, have_same_names, replaced};
use crate::fault::EditFault;
use base::Bytes;
use c_typed::Typed;
use cc_source::{CompileFault, accepted_of};
use std::alloc::Global;
use std::marker::Model;

/// A source that is accepted, and the program that it is accepted as. Contracts see both.
#[derive(Drop)]
pub struct AcceptedSource {
    source: Vec<u8>,
    typed: Typed,
}

impl Model for AcceptedSource {
    ghost use Rattle.cc_session.specs.Accepted.{PlainAccepted, coded_accepted};

    ghost Value = { PlainAccepted };

    ghost coded = { coded_accepted };

    ghost use Rattle.cc_session.specs.Accepted.{IsAccepted};

    ghost view = { λ a. record { source = a.source.items; program = a.typed } };

    ghost invariant = { λ a. IsAccepted a.source.items a.typed };
}

// The fault of an edit that makes this source, which has this fault.
fn given_back(fault: CompileFault, new: Vec<u8>) -> EditFault
    ensures { result ≡ given_back fault new.items }
{
    match fault {
        CompileFault::NoMemory => EditFault::NoMemory,
        fault => EditFault::Source {
            fault,
            new: Bytes::from_vec(new),
        },
    }
}

// The source that an edit makes, where it is accepted; else it is given back with its fault.
fn accepted_or_back(alloc: Global, new: Vec<u8>) -> Result<AcceptedSource, EditFault>
    ensures same { IfOk result (λ a. a.source ≡ new.items) }
    ensures accepted { IfOk result (λ a. Accepts new.items a.program) }
    ensures refused { IfErr result (λ e. IsNotAccepted e new.items) }
{
    match accepted_of(alloc, &new) {
        Ok(typed) => Ok(AcceptedSource { source: new, typed }),
        Err(fault) => Err(given_back(fault, new)),
    }
}

impl AcceptedSource {
    /// This source, where it is accepted. The faults are those of `accepted_of`; the source is then
    /// given up.
    pub fn read(alloc: Global, source: Vec<u8>) -> Result<AcceptedSource, CompileFault>
        ensures same { IfOk result (λ a. a.source ≡ source.items) }
        ensures accepted { IfOk result (λ a. Accepts source.items a.program) }
        ensures refused { IfErr result (λ e. Refuses e source.items) }
    {
        let typed = accepted_of(alloc, &source)?;
        Ok(AcceptedSource { source, typed })
    }

    /// The bytes of the source.
    pub fn source(&self) -> &[u8]
        ensures same { result.now ≡ self.now.source }
        ensures accepted { Accepts self.now.source self.now.program }
    {
        &self.source
    }

    /// The program.
    pub fn typed(&self) -> &Typed
        ensures same { result.now ≡ self.now.program }
        ensures accepted { Accepts self.now.source self.now.program }
        ensures typed { IsWellTyped self.now.program }
        ensures limits { above_limits self.now.program ≡ None }
    {
        &self.typed
    }

    /// The source in which the definition of the first function of a name, from its first token to
    /// its closing brace, is a text. `NoFunction` where no function has the name; `Source` where
    /// the new source is not accepted, which is given back with its fault; `OtherNames` where the
    /// functions that it defines, in order, have not the names that they had. `NoMemory` may come
    /// in place of any answer.
    pub fn edited(
        &self,
        alloc: Global,
        name: &[u8],
        text: &[u8],
    ) -> Result<AcceptedSource, EditFault>
        ensures edited { IfOk result (λ a. IsEdited self.now name.now text.now a) }
        ensures refused { IfErr result (λ e. IsEditRefused e self.now name.now text.now) }
    {
        let extent = match extent_of(&self.typed.functions, name) {
            Some(extent) => extent,
            None => return Err(EditFault::NoFunction),
        };
        let source = replaced(alloc, &self.source, extent, text)?;
        let after = match accepted_or_back(alloc, source) {
            Ok(after) => after,
            Err(fault) => return Err(fault),
        };
        if !have_same_names(&after.typed.functions, &self.typed.functions) {
            drop(after);
            return Err(EditFault::OtherNames);
        }
        Ok(after)
    }
}
