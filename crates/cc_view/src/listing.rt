//! The listing of the image of a source.

ghost use Rattle.std.specs.Prelude.{map, IfOk};
ghost use Rattle.std.specs.Arc.{arc_value};
ghost use Rattle.cc_emit.specs.Image.{lambdas_of, CanEmit};
ghost use Rattle.cc_listing.specs.Lines.{IsListing};

use base::NoMemory;
use cc_emit::emit;
use cc_listing::listing;
use cc_view_source::{Made, names_at};
use s_linear::CodeForm;
use std::alloc::Global;

/// The listing of the image of what is made of a source. `NoMemory` only where the allocator has
/// none.
pub fn listing_of(alloc: Global, source: &[u8], made: &Made) -> Result<Vec<u8>, NoMemory>
    requires { CanEmit made.now.omega (lambdas_of (map arc_value made.now.answers.items)) }
    ensures { IfOk result (λ text. IsListing made.now.omega
        (lambdas_of (map arc_value made.now.answers.items)) text.items) }
{
    let names = names_at(alloc, source, &made.globals)?;
    let image = emit(alloc, CodeForm::Plain, &made.answers, &made.omega)?;
    let text = listing(alloc, &image, &made.omega, &made.answers, &names);
    drop(image);
    text
}
