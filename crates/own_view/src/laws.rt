//! What holds of the data of every page. The law costs nothing to call.
ghost use Rattle.own_view.specs.Page.{HasNoTag, shielded};
ghost use Rattle.std.specs.Prelude.{List, ℕ};

/// Whatever a book says, what a page is told holds no `<`, by which the element that it stands in could end.
pub fn law_shielded()
    ensures { (text : List ℕ) → HasNoTag (shielded text) }
{}
