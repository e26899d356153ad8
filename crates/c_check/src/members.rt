//! The members that a struct declares.

ghost use Rattle.std.specs.Prelude.{◌≡◌, map, IfOk, OnOk};
ghost use Rattle.c_ast.specs.Externals.{member as member_tree, members as members_tree, more_members as member_trees};
ghost use Rattle.c_check_def.specs.declared.dimension.Dimension.TheVariants as dimension;
ghost use Rattle.c_check_def.specs.Externals.{member, more_member, members, more_members};
ghost use Rattle.c_check.specs.Structs.{member_typed, members_trees};

use crate::member_list::MemberList;
use base::NoMemory;
use c_ast::{Identifier, Member, Members, Next};
use c_check_def::{Dimension, RefusalKind};
use c_check_expression::dimensions;
use c_check_state::{MaybeType, Specified, State, object_type, specified_type};
use std::alloc::Global;

// The members that follow those of the first type.
pub(crate) fn more_members(
    state: &mut State,
    more: &[Members],
    out: &mut MemberList,
) -> Result<(), NoMemory>
    ensures members { OnOk result (out.new ≡ (more_members out.old
        (members_trees more.now) state.old).0) }
    ensures state { OnOk result (state.new ≡ (more_members out.old
        (members_trees more.now) state.old).1) }
{
    for x in more {
        members(state, x, out)?;
    }
    Ok(())
}

// The members of one type, in order.
pub(crate) fn members(state: &mut State, x: &Members, out: &mut MemberList) -> Result<(), NoMemory>
    ensures members { OnOk result
        (out.new ≡ (members out.old (members_tree x.now) state.old).0) }
    ensures state { OnOk result
        (state.new ≡ (members out.old (members_tree x.now) state.old).1) }
{
    let specified = specified_type(state, &x.spec)?;
    member(state, &specified, &x.first, out)?;
    more_member(state, &specified, x.more.as_slice(), out)
}

fn more_member(
    state: &mut State,
    x: &Specified,
    more: &[Next<Member>],
    out: &mut MemberList,
) -> Result<(), NoMemory>
    ensures members { OnOk result
        (out.new ≡ (more_member x.now out.old (member_trees more.now) state.old).0) }
    ensures state { OnOk result
        (state.new ≡ (more_member x.now out.old (member_trees more.now) state.old).1) }
{
    for next in more {
        member(state, x, &next.element, out)?;
    }
    Ok(())
}

// A member, from its dimensions on.
fn member(
    state: &mut State,
    x: &Specified,
    m: &Member,
    out: &mut MemberList,
) -> Result<(), NoMemory>
    ensures members { OnOk result
        (out.new ≡ (member x.now out.old (member_tree m.now) state.old).0) }
    ensures state { OnOk result
        (state.new ≡ (member x.now out.old (member_tree m.now) state.old).1) }
{
    let sizes = dimensions(state, m.dimensions.as_slice())?;
    let sized = sized(state.alloc(), &sizes)?;
    let ty = object_type(state, false, m.name.span.at, x, m.stars.len(), &sized)?;
    member_typed(state, &m.name, ty, out)
}

fn sized(alloc: Global, sizes: &[Option<u32>]) -> Result<Vec<Dimension>, NoMemory>
    ensures { IfOk result (λ r. r.items ≡ map dimension.Sized sizes.now) }
{
    let mut all = Vec::new(alloc);
    for size in sizes {
        all.push(Dimension::Sized(*size))?;
    }
    Ok(all)
}

// A member of this type. A second one of a name breaks a rule (ISO/IEC 9899:2011, 6.7p3).
fn member_typed(
    state: &mut State,
    name: &Identifier,
    ty: MaybeType,
    out: &mut MemberList,
) -> Result<(), NoMemory>
    ensures members { OnOk result (out.new ≡
        (member_typed out.old name.now.name name.now.span.at ty state.old).0) }
    ensures state { OnOk result (state.new ≡
        (member_typed out.old name.now.name name.now.span.at ty state.old).1) }
{
    let wrong = out.has_member(&name.name);
    state.breaks_if(wrong, RefusalKind::Redeclared, name.span.at);
    out.push(&name.name, ty)
}
