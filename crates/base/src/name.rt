//! Identifiers, of which short ones take no memory.

ghost use Rattle.std.specs.Prelude.{◌≡◌, ◌≤◌, length, nat_eq, IfOk, IsOk};
ghost use Rattle.std.specs.Cmp.{partial_equiv_from_equiv};
ghost use Rattle.std.specs.Cmp.Lexicographic.{pointwise, nat_list_eq_equiv};
ghost use Rattle.std.specs.Hash as fed;
ghost use Rattle.std.proofs.Common.{ap};
ghost use Rattle.std.proofs.lemmas.Slice.Eq.{bytes_eq-Decides};

use smallvec::SmallVec;
use std::alloc::{AllocError, Global};
use std::hash::{Hash, Hasher};
use std::marker::Model;

/// An identifier, which contracts see as the list of its bytes. One of up to 20 bytes takes no
/// allocation.
#[derive(Debug, Drop)]
pub struct Name {
    bytes: SmallVec<u8, 20>,
}

impl Model for Name {
    ghost use Rattle.std.specs.Prelude.{List, ℕ};

    ghost Value = { List ℕ };

    ghost view = { λ n. n.bytes.items };
}

impl Name {
    /// The name with these bytes. Up to 20 bytes it succeeds always.
    pub fn from_slice(alloc: Global, bytes: &[u8]) -> Result<Name, AllocError>
        ensures ok { IfOk result (λ name. name ≡ bytes.now) }
        ensures short { length bytes.now ≤ 20 → IsOk result }
    {
        let bytes = SmallVec::from_slice(alloc, bytes)?;
        Ok(Name { bytes })
    }

    /// The bytes, in order.
    pub fn as_slice(&self) -> &[u8]
        ensures { result.now ≡ self.now }
    {
        self.bytes.as_slice()
    }
}

impl Clone for Name {
    ghost is_clone = { λ name copy. copy ≡ name };

    fn clone(&self) -> Result<Name, AllocError>
        ensures ok { IfOk result (λ copy. copy ≡ self.now) }
    {
        let bytes = SmallVec::from_slice(*self.bytes.allocator(), self.bytes.as_slice())?;
        Ok(Name { bytes })
    }
}

impl PartialEq for Name {
    ghost eq = { λ x y. pointwise nat_eq x y };

    ghost laws = { partial_equiv_from_equiv nat_list_eq_equiv };

    fn eq(&self, other: &Name) -> bool {
        self.as_slice() == other.as_slice()
    }
}

impl Eq for Name {
    ghost laws = { nat_list_eq_equiv };
}

impl Hash for Name {
    ghost hash_input = { λ name. fed.slice fed.u8 name };

    ghost respects_eq = { λ x y same. ap (fed.slice fed.u8) ((bytes_eq-Decides x y).0 same) };

    fn hash<H: Hasher>(&self, state: &mut H) {
        self.as_slice().hash(state);
    }
}
