//! The members of a struct so far, by name and in order.

ghost use Rattle.std.specs.Prelude.{◌≡◌, ◌∷◌, ◌++◌, [], None, Some, IfOk, OnOk, MatchOption};
ghost use Rattle.c_check_def.specs.Externals.{has_member, types_of};
ghost use Rattle.c_check.specs.MemberLists.{name_set};

use base::{Name, NoMemory};
use c_check_scope::Names;
use c_check_state::MaybeType;
use c_type::CType;
use std::alloc::Global;
use std::marker::Model;

// A member of a struct: its name, and its type, none where it breaks a rule.
#[derive(Drop)]
pub(crate) struct Member {
    name: Name,
    ty: MaybeType,
}

impl Model for Member {
    ghost use Rattle.c_check_def.specs.Externals.{Member as Record};
    ghost use Rattle.c_check.specs.Codes.{coded_member};

    ghost Value = { Record };

    ghost coded = { coded_member };

    ghost view = { λ x. record { name = x.name; type = x.ty } };
}

// The members of a struct so far, of which a name is found at once. Contracts see their list.
#[derive(Drop)]
pub(crate) struct MemberList {
    members: Vec<Member>,
    names: Names,
}

impl Model for MemberList {
    ghost use Rattle.std.specs.Prelude.{List, ◌≡◌};
    ghost use Rattle.std.specs.Coded.{coded_list};
    ghost use Rattle.c_check_def.specs.Externals.{Member as Record};
    ghost use Rattle.c_check.specs.Codes.{coded_member};

    ghost Value = { List Record };

    ghost coded = { coded_list coded_member };

    ghost use Rattle.c_check.specs.MemberLists.{name_set};

    ghost view = { λ l. l.members.items };

    ghost invariant = { λ l. l.names ≡ name_set l.members.items };
}

impl MemberList {
    // No members.
    pub(crate) fn new(alloc: Global) -> MemberList
        ensures { result ≡ [] }
    {
        MemberList {
            members: Vec::new(alloc),
            names: Names::new(alloc),
        }
    }

    // Whether there is a member of this name.
    pub(crate) fn has_member(&self, name: &Name) -> bool
        ensures { result ≡ has_member self.now name.now }
    {
        self.names.contains(name)
    }

    // Appends a member.
    pub(crate) fn push(&mut self, name: &Name, ty: MaybeType) -> Result<(), NoMemory>
        ensures { OnOk result
            (self.new ≡ self.old ++ record { name = name.now; type = ty } ∷ []) }
    {
        let member = named(name, ty)?;
        self.members.push(member)?;
        let noted = self.names.insert(name);
        match noted {
            Ok(_) => Ok(()),
            Err(e) => {
                self.members.pop();
                Err(e)
            }
        }
    }

    // Their types, in order, if each has one.
    pub(crate) fn types(&self, alloc: Global) -> Result<Option<Vec<CType>>, NoMemory>
        ensures { IfOk result (λ r. MatchOption r (types_of self.now ≡ None)
            (λ ts. types_of self.now ≡ Some ts.items)) }
    {
        types_of(alloc, self.members.as_slice())
    }

    // The set of their names.
    pub(crate) fn into_names(self) -> Names
        ensures { result ≡ name_set self }
    {
        self.names
    }
}

fn named(name: &Name, ty: MaybeType) -> Result<Member, NoMemory>
    ensures { IfOk result (λ r. r ≡ record { name = name.now; type = ty }) }
{
    let name = name.clone()?;
    Ok(Member { name, ty })
}

fn types_of(alloc: Global, members: &[Member]) -> Result<Option<Vec<CType>>, NoMemory>
    ensures { IfOk result (λ r. MatchOption r (types_of members.now ≡ None)
        (λ ts. types_of members.now ≡ Some ts.items)) }
{
    let mut types = Vec::new(alloc);
    for x in members {
        match x.ty.get() {
            Some(ty) => types.push(ty.copy(alloc)?)?,
            None => return Ok(None),
        }
    }
    Ok(Some(types))
}
