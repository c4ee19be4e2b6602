//! Laws of names and their texts, for the crates above: each function only states one.

ghost use Rattle.std.specs.Prelude.{◌≡◌, ◌≢◌, ℕ, List, Some, ◌≤◌, length};
ghost use Rattle.log_names.specs.declared.LogName.{LogName};
ghost use Rattle.log_names.specs.Texts.{published_text, staged_text, checkpoint_text, name_text, InRange, HasForm, IsNameOf};
ghost use Rattle.log_names.specs.Reading.{name_of};

/// A name and its text are one to one: the text of a name is read as the name, a text that is read
/// as a name with a text is that text, and names with one text are equal.
pub fn one_to_one()
    ensures of_text { (n : LogName) (bs : List ℕ) → InRange n → name_text n ≡ Some bs → name_of bs ≡ n }
    ensures text_of { (bs text : List ℕ) → name_text (name_of bs) ≡ Some text → bs ≡ text }
    ensures same { (a b : LogName) (bs : List ℕ) → InRange a → InRange b → name_text a ≡ Some bs → name_text b ≡ Some bs → a ≡ b }
{}

/// A text has one name, whose numbers fit their types; a name that is not `Other` has at most 78 bytes.
pub fn one_name()
    ensures only { (bs : List ℕ) (n : LogName) → IsNameOf bs n → name_of bs ≡ n }
    ensures in_range { (bs : List ℕ) → InRange (name_of bs) }
    ensures short { (bs : List ℕ) (n : LogName) → HasForm bs n → length bs ≤ 78 }
{}

/// The texts of published commits, of staged commits and of checkpoints are different, whatever
/// their numbers.
pub fn kinds_differ()
    ensures published_staged { (v w u : ℕ) → published_text v ≢ staged_text w u }
    ensures published_checkpoint { (v w u : ℕ) → published_text v ≢ checkpoint_text w u }
    ensures staged_checkpoint { (v u w x : ℕ) → staged_text v u ≢ checkpoint_text w x }
{}
