//! The uses of one origin replaced by those of another in one region of a lambda.

ghost use Rattle.std.specs.Prelude.{◌≡◌};
ghost use Rattle.g_graph.specs.Change.{in_region_of};
ghost use Rattle.g_graph.specs.Replace.{region_redirected, origin_replaced, replaced};

use crate::change::{Change, change_lambda};
use crate::find::holds_node;
use crate::redirect::{OriginReplaced, redirect_region};
use crate::{Lambda, Origin, Region};
use std::convert::Infallible;

/// Replaces the uses of one origin by another in one region: the body, or the region that holds the
/// node `region_of`. Where there is no such node nothing changes. It takes no memory, and time
/// linear in the lambda.
pub fn replace_uses(lambda: &mut Lambda, from: Origin, to: Origin, region_of: Option<u32>)
    ensures { lambda.new ≡ replaced from to region_of lambda.old }
{
    match region_of {
        None => redirect_region(&mut lambda.body, &OriginReplaced { from, to }),
        Some(region_of) => replace_at(lambda, from, to, region_of),
    }
}

fn replace_at(lambda: &mut Lambda, from: Origin, to: Origin, region_of: u32)
    ensures { lambda.new ≡ replaced from to (Some region_of) lambda.old }
{
    match change_lambda(
        lambda,
        &mut Uses {
            from,
            to,
            region_of,
        },
    ) {
        Ok(_) => (),
        Err(never) => match never {},
    }
}

// The change of the uses in the region that holds a node.
#[derive(Drop)]
struct Uses {
    from: Origin,
    to: Origin,
    region_of: u32,
}

impl Change for Uses {
    type Fault = Infallible;

    ghost changed = { λ u.
        in_region_of u.region_of (region_redirected (origin_replaced u.from u.to)) };

    fn make(&mut self, region: &mut Region) -> Result<bool, Infallible> {
        if !holds_node(region, self.region_of) {
            return Ok(false);
        }
        let by = OriginReplaced {
            from: self.from,
            to: self.to,
        };
        redirect_region(region, &by);
        Ok(true)
    }
}
