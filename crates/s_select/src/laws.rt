//! Laws of selection, for the proofs of the crates above: each is the contract of a function that
//! does nothing.

ghost use Rattle.s_select.specs.Laws.{SelectedItemsFit, SelectedLabelsAreMarked};

/// Each label that the items of a function jump to is marked once.
pub fn selected_labels_are_marked()
    ensures { SelectedLabelsAreMarked }
{
    s_linear::laws::labels_are_marked_once();
    s_linear::laws::lines_go_to_labels();
}

/// The items of lines ask no more than the lines do.
pub fn selected_items_fit()
    ensures { SelectedItemsFit }
{}
