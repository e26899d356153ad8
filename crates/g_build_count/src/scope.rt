//! The variables in scope, without memory: which of them are objects.

ghost use Rattle.std.specs.Prelude.{◌≡◌, ◌++◌, ◌∷◌, [], MatchBool, slice_index_or, false};

use std::marker::Model;

const MOST: usize = 256;

/// Which variables in scope are objects, by slot. The newest ones stand here, and those before them
/// in the scope around. Contracts see a list.
#[derive(Drop)]
pub struct Scope<'a> {
    around: Option<&'a Scope<'a>>,
    first: u64,
    count: usize,
    newest: [bool; MOST],
}

impl<'a> Model for Scope<'a> {
    ghost use Rattle.g_build_count.specs.ScopeViews.{PlainScope, coded_scope};

    ghost Value = { PlainScope };

    ghost coded = { coded_scope };

    ghost use Rattle.g_build_count.specs.ScopeViews.{seen_of, scope_of, objects_around};

    ghost view = { λ s. scope_of (seen_of (λ r. r.now) s.around) s.count s.newest };

    ghost use Rattle.std.specs.Prelude.{◌≡◌, ◌≤◌, ◌-◌, ◌^◌, length, min};

    ghost invariant = { λ s.
        (s.first ≡ min (length (objects_around (seen_of (λ r. r.now) s.around))) (2 ^ 64 - 1))
        × (s.count ≤ 256) };

    ghost size = { λ s. s.depth };

    ghost use Rattle.g_build_count.specs.ScopeHeight.{scope_height};

    ghost size_decreases = { λ a h. scope_height a };
}

impl<'a> Scope<'a> {
    /// No variable is in scope.
    pub fn outermost() -> Scope<'a>
        ensures { result.objects ≡ [] }
    {
        Scope {
            around: None,
            first: 0,
            count: 0,
            newest: [false; MOST],
        }
    }

    /// The same variables, with room for more.
    pub fn inside(scope: &'a Scope<'a>) -> Scope<'a>
        ensures { result.objects ≡ scope.now.objects }
    {
        Scope {
            around: Some(scope),
            first: scope.first.saturating_add(scope.count as u64),
            count: 0,
            newest: [false; MOST],
        }
    }

    /// One variable more.
    pub fn with(scope: &'a Scope<'a>, is_object: bool) -> Scope<'a>
        ensures { result.objects ≡ scope.now.objects ++ is_object ∷ [] }
    {
        let mut newest = [false; MOST];
        newest[0] = is_object;
        Scope {
            around: Some(scope),
            first: scope.first.saturating_add(scope.count as u64),
            count: 1,
            newest,
        }
    }

    /// One variable more comes into scope, where there is room.
    pub fn push(&mut self, is_object: bool) -> bool
        ensures { MatchBool result
            (self.new.objects ≡ self.old.objects ++ is_object ∷ [])
            (self.new ≡ self.old) }
    {
        if self.count == MOST {
            return false;
        }
        self.newest[self.count] = is_object;
        self.count += 1;
        true
    }

    /// Whether the variable at the slot is an object; false where there is none.
    pub fn is_object(&self, slot: u32) -> bool
        ensures { result ≡ slice_index_or self.now.objects slot false }
    {
        let slot = u64::from(slot);
        if slot < self.first {
            match self.around {
                Some(scope) => scope.is_object(slot as u32),
                None => false,
            }
        } else if slot - self.first < self.count as u64 {
            self.newest[(slot - self.first) as usize]
        } else {
            false
        }
    }
}
