//! Declarations and definitions of structs.

ghost use Rattle.std.specs.Prelude.{◌≡◌, ◌<◌, None, false, length, OnOk};
ghost use Rattle.c_ast.specs.Externals.{struct_rest, members as members_tree};
ghost use Rattle.c_check_def.specs.Externals.{struct, defined, types_of};
ghost use Rattle.c_type.specs.Layout.{is_defined};
ghost use Rattle.c_type.specs.WellDefined.{AreLaidOut};
ghost use Rattle.c_check.specs.MemberLists.{AreReady};
ghost use Rattle.c_check.specs.Structs.{members_trees, struct_of, struct_tagged, struct_with};

use crate::large::are_large;
use crate::member_list::MemberList;
use crate::members::{members, more_members};
use base::NoMemory;
use c_ast::{Identifier, StructBody, Structure};
use c_check_def::RefusalKind;
use c_check_scope::Names;
use c_check_state::State;
use c_type::CType;

/// Declares the tag of a struct, and defines the struct where the members are given (ISO/IEC
/// 9899:2011, 6.7.2.1, 6.7.2.3). The tag is declared before its members. A struct is defined once,
/// and no two of its members have one name.
pub fn structure(state: &mut State, x: &Structure) -> Result<(), NoMemory>
    ensures { OnOk result (state.new ≡ (struct x.now.tag.name x.now.tag.span.at
        (struct_rest x.now.body x.now.semicolon) state.old).1) }
{
    match &x.body {
        Some(body) => struct_with(state, &x.tag, body),
        None => {
            state.declare_tag(&x.tag.name)?;
            Ok(())
        }
    }
}

fn struct_with(state: &mut State, tag: &Identifier, body: &StructBody) -> Result<(), NoMemory>
    ensures { OnOk result (state.new ≡ (struct_with tag.now.name tag.now.span.at
        (members_tree body.now.first) (members_trees body.now.more) state.old).1) }
{
    let number = state.declare_tag(&tag.name)?;
    struct_tagged(state, number, tag.span.at, body)
}

// A struct whose tag is declared.
fn struct_tagged(
    state: &mut State,
    tag: u32,
    offset: u32,
    body: &StructBody,
) -> Result<(), NoMemory>
    ensures { OnOk result (state.new ≡ (struct_tagged tag offset
        (members_tree body.now.first) (members_trees body.now.more) state.old).1) }
{
    let wrong = state.types().is_defined(tag);
    state.breaks_if(wrong, RefusalKind::Redeclared, offset);
    let mut all = MemberList::new(state.alloc());
    members(state, &body.first, &mut all)?;
    more_members(state, body.more.as_slice(), &mut all)?;
    defined(state, tag, offset, all)
}

// Defines a struct of these members, where no rule is broken.
fn defined(state: &mut State, tag: u32, offset: u32, all: MemberList) -> Result<(), NoMemory>
    requires { AreReady state.old tag all }
    ensures { OnOk result (state.new ≡ (defined tag offset all (types_of all) state.old).1) }
{
    let types = all.types(state.alloc())?;
    match types {
        Some(types) => struct_of(state, tag, offset, types, all.into_names()),
        None => Ok(()),
    }
}

fn struct_of(
    state: &mut State,
    tag: u32,
    offset: u32,
    types: Vec<CType>,
    names: Names,
) -> Result<(), NoMemory>
    requires laid_out { AreLaidOut state.old.structs types.items }
    requires some { 0 < length types.items }
    requires new { state.old.broken ≡ None → is_defined state.old.structs tag ≡ false }
    ensures { OnOk result
        (state.new ≡ (struct_of tag offset names types.items state.old).1) }
{
    let large = are_large(state.types(), &types)?;
    state.breaks_if(large, RefusalKind::BadType, offset);
    if state.broken().is_some() {
        return Ok(());
    }
    state.define_struct(tag, types, names)?;
    Ok(())
}
