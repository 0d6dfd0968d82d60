//! Laws of values and ids, each a function with nothing to do.
ghost use Rattle.std.specs.Prelude.{◌≡◌, ◌↔◌, List, ℕ, true};
ghost use Rattle.std.specs.Cmp.{IsTotalOrder};
ghost use Rattle.std.specs.declared.cmp.Ordering.TheVariants.{Equal};
ghost use Rattle.cv_values.specs.IdLaws.{IdsAreReadBack, OnlyTextsAreRead, DigitsAreRead};
ghost use Rattle.cv_values.specs.Order.{compare};
ghost use Rattle.cv_values.specs.Trees.{tree};
ghost use Rattle.cv_values.specs.Value.{Value};
ghost use Rattle.cv_values.specs.declared.val.Val.{Val as Values};

use crate::doc::Doc;
use crate::text::Text;
use crate::threads::crosses;
use crate::val::{Fields, Val};

/// Two values, fields or texts are equal exactly where they stand for the same.
pub fn equal_where_same()
    ensures texts { (t : List ℕ) (u : List ℕ) → (⟦<Text as PartialEq>⟧.eq t u ≡ true) ↔ (t ≡ u) }
    ensures fields { (f : List (List ℕ × Value)) (g : List (List ℕ × Value)) → (⟦<Fields as PartialEq>⟧.eq f g ≡ true) ↔ (f ≡ g) }
    ensures values { (v : Values) (w : Values) → (⟦<Val as PartialEq>⟧.eq v w ≡ true) ↔ (tree v ≡ tree w) }
{}

/// The order of values is total, and only equal trees compare equal.
pub fn order_is_total()
    ensures total { IsTotalOrder compare }
    ensures exact { (v : Value) (w : Value) → compare v w ≡ Equal → v ≡ w }
{}

/// The text of an id is read as that id; what is read as an id is its text; and exactly the texts of
/// 48 lower-case hexadecimal digits are read.
pub fn ids_and_their_texts()
    ensures back { IdsAreReadBack }
    ensures only { OnlyTextsAreRead }
    ensures digits { DigitsAreRead }
{}

/// Values, fields and documents may go to another thread.
pub fn values_cross(value: &Val, fields: &Fields, doc: &Doc) {
    crosses(value);
    crosses(fields);
    crosses(doc);
}
