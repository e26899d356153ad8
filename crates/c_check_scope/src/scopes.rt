//! The scopes around a point of a program, with what each name means there.

ghost use Rattle.std.specs.Prelude.{◌≡◌, [], ◌∷◌, not, OnOk, OnErr, IfOk, if◌then◌else◌};
ghost use Rattle.c_check_scope.specs.Scopes.{meaning, is_declared, with_declaration, outer};

use crate::declarations::Declarations;
use base::{Name, NoMemory};
use std::alloc::Global;
use std::marker::Model;

/// The scopes around a point of a program, with what each name means, which is the caller's. The
/// outermost one is file scope. Contracts see a list of scopes, the innermost first, and a scope as
/// a list of names with their meanings, the latest first.
#[derive(Drop)]
pub struct Scopes<T: Copy> {
    declarations: Declarations<T>,
    // How many of them, the latest, are of the innermost scope.
    count: usize,
    // How many are of each scope around it, the outermost first.
    outer: Vec<usize>,
}

impl<T: Copy> Model for Scopes<T> {
    ghost use Rattle.c_check_scope.specs.Scopes.{Scopes as List};

    ghost Value = { List T };

    ghost use Rattle.std.specs.Prelude.{reverse};
    ghost use Rattle.c_check_scope.specs.Nested.{scopes_of, AreCounted};

    ghost view = { λ s. scopes_of s.declarations s.count (reverse s.outer.items) };

    ghost invariant = { λ s. AreCounted s.declarations s.count (reverse s.outer.items) };
}

impl<T: Copy> Scopes<T> {
    /// One scope without names.
    pub fn new(alloc: Global) -> Scopes<T>
        ensures { result ≡ [] ∷ [] }
    {
        Scopes {
            declarations: Declarations::new(alloc),
            count: 0,
            outer: Vec::new(alloc),
        }
    }

    /// What a name means here, by its innermost declaration (ISO/IEC 9899:2011, 6.2.1p4).
    pub fn lookup(&self, name: &Name) -> Option<T>
        ensures { result ≡ meaning self.now name.now }
    {
        self.declarations.lookup(name)
    }

    /// Begins a scope within the innermost one; `leave` ends it. Without memory nothing changes.
    pub fn enter(&mut self) -> Result<(), NoMemory>
        ensures ok { OnOk result (self.new ≡ [] ∷ self.old) }
        ensures left { OnOk result (outer self.new ≡ self.old) }
        ensures err { OnErr result (self.new ≡ self.old) }
    {
        self.outer.push(self.count)?;
        self.count = 0;
        Ok(())
    }

    /// Ends the innermost scope: names mean again what they meant around it. Where it is the
    /// outermost one, an empty one takes its place.
    pub fn leave(&mut self)
        ensures { self.new ≡ outer self.old }
    {
        for _i in 0..self.count {
            self.declarations.pop();
        }
        self.count = self.outer.pop().unwrap_or(0);
    }

    /// Declares a name in the innermost scope, where no name is declared twice. The answer is
    /// whether it is new there; where it is not, nothing changes. Without memory nothing changes.
    pub fn declare(&mut self, name: &Name, meaning: T) -> Result<bool, NoMemory>
        ensures new { IfOk result (λ new. new ≡ not (is_declared self.old name.now)) }
        ensures scopes { IfOk result (λ new. self.new ≡
            (if new then with_declaration self.old name.now meaning else self.old)) }
        ensures err { OnErr result (self.new ≡ self.old) }
    {
        if self.declarations.is_among_latest(self.count, name) {
            return Ok(false);
        }
        self.declarations.push(name, meaning)?;
        self.count += 1;
        Ok(true)
    }

    /// Whether the innermost scope declares a name.
    pub fn is_declared(&self, name: &Name) -> bool
        ensures { result ≡ is_declared self.now name.now }
    {
        self.declarations.is_among_latest(self.count, name)
    }

    /// Declares a name in the innermost scope, which may declare it already: the later declaration
    /// hides the earlier one. Without memory nothing changes.
    pub fn bind(&mut self, name: &Name, meaning: T) -> Result<(), NoMemory>
        ensures ok { OnOk result (self.new ≡ with_declaration self.old name.now meaning) }
        ensures err { OnErr result (self.new ≡ self.old) }
    {
        self.declarations.push(name, meaning)?;
        self.count += 1;
        Ok(())
    }
}
