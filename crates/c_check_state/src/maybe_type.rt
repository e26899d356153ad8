//! Types that are there unless a rule is broken.

ghost use Rattle.std.specs.Prelude.{◌≡◌, None, Some, IfOk, MatchOption};

use base::NoMemory;
use c_type::CType;
use std::alloc::Global;
use std::marker::Model;
use std::sync::Arc;

/// A type, or none where it breaks a rule. Contracts see an option of its tree.
#[derive(Drop)]
pub struct MaybeType {
    pub ty: Option<Arc<CType>>,
}

impl Model for MaybeType {
    ghost use Rattle.c_check_def.specs.State.{MaybeType as Tree};
    ghost use Rattle.c_check_state.specs.Codes.{coded_type};

    ghost Value = { Tree };

    ghost coded = { coded_type };

    ghost use Rattle.std.specs.Prelude.{option_map};

    ghost view = { λ t. option_map (λ a. a.value) t.ty };
}

impl MaybeType {
    /// No type.
    pub fn none() -> MaybeType
        ensures { result ≡ None }
    {
        MaybeType { ty: None }
    }

    /// A type that is shared.
    pub fn shared(ty: Arc<CType>) -> MaybeType
        ensures { result ≡ Some ty.value }
    {
        MaybeType { ty: Some(ty) }
    }

    /// A type.
    pub fn of(alloc: Global, ty: CType) -> Result<MaybeType, NoMemory>
        ensures { IfOk result (λ r. r ≡ Some ty) }
    {
        Ok(MaybeType::shared(Arc::new(alloc, ty)?))
    }

    /// The type, if there is one.
    pub fn get(&self) -> Option<&Arc<CType>>
        ensures { MatchOption result (self.now ≡ None) (λ t. self.now ≡ Some t.now.value) }
    {
        self.ty.as_ref()
    }

    /// The same type, which is shared.
    pub fn copy(&self) -> Result<MaybeType, NoMemory>
        ensures { IfOk result (λ r. r ≡ self.now) }
    {
        match &self.ty {
            Some(ty) => Ok(MaybeType::shared(Arc::try_clone(ty)?)),
            None => Ok(MaybeType::none()),
        }
    }
}
