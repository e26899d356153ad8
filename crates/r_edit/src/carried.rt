//! The edit of exit variables of a Gamma that carry origins: they go, and their uses become uses of
//! these origins.

ghost use Rattle.std.specs.Prelude.{◌≡◌, [], unwrap_or, slice_get};
ghost use Rattle.g_graph.specs.declared.op.Origin.TheVariants.{Out};
ghost use Rattle.g_graph.specs.Signatures.{joined};
ghost use Rattle.r_edit.specs.Places.{place_after};
ghost use Rattle.r_edit.specs.InPlace.{outputs_redirected};
ghost use Rattle.r_edit.specs.Carried.{output_carried, staying, exits_carried};

use crate::exits::ExitsKept;
use crate::in_place::{edit_first, redirect_after};
use crate::places::place_after;
use g_graph::{Origin, Redirect, Region, redirect_origins};

/// Of the Gamma of this number in the region the exit variables go that carry an origin, and what
/// names their outputs names that origin; `stays` says which ones carry none. It takes no memory,
/// and time linear in the region's inputs and results and in the results of the Gamma's regions,
/// but for uses of its outputs, which take time linear in `stays`.
pub fn carry_exits(region: &mut Region, id: u32, carried: &[Option<Origin>], stays: &[bool])
    requires { stays.now ≡ staying carried.now }
    ensures { region.new ≡ exits_carried id carried.now region.old }
{
    edit_first(&mut region.nodes, id, &ExitsKept { stays });
    redirect_carried(region, id, carried, stays);
}

/// What names an output of the node of this number that carries an origin names that origin. It
/// takes no memory, and time linear in the region's inputs and results.
pub fn carry_uses(region: &mut Region, id: u32, carried: &[Option<Origin>])
    ensures { region.new ≡ outputs_redirected id (output_carried id carried.now []) region.old }
{
    redirect_carried(region, id, carried, &[]);
}

fn redirect_carried(region: &mut Region, id: u32, carried: &[Option<Origin>], stays: &[bool])
    ensures { region.new ≡
        outputs_redirected id (output_carried id carried.now stays.now) region.old }
{
    let by = OutputCarried {
        node: id,
        carried,
        stays,
    };
    redirect_after(&mut region.nodes, id, &by);
    redirect_origins(region.results.as_mut_slice(), &by);
}

#[derive(Drop)]
struct OutputCarried<'a> {
    node: u32,
    carried: &'a [Option<Origin>],
    stays: &'a [bool],
}

impl Redirect for OutputCarried<'_> {
    ghost redirected = { λ m. output_carried m.node m.carried.now m.stays.now };

    fn redirect(&self, origin: Origin) -> Origin {
        match origin {
            Origin::Arg(_) => origin,
            Origin::Out { node, port } => {
                if self.node == node {
                    carried_or_after(self.carried, self.stays, node, port)
                } else {
                    origin
                }
            }
        }
    }
}

fn carried_or_after(carried: &[Option<Origin>], stays: &[bool], node: u32, port: u32) -> Origin
    ensures { result ≡ unwrap_or (joined (slice_get carried.now port))
        (Out node (place_after stays.now port)) }
{
    match carried.get(port as usize).copied().flatten() {
        Some(origin) => origin,
        None => Origin::Out {
            node,
            port: place_after(stays, port),
        },
    }
}
