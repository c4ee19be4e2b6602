//! The lines of a text, as definitions, laws and lemmas. There is no code here: the crates that read texts by lines cite
//! `specs/Lines.antt`, and their proofs cite `proofs/Cutting.antt` and `proofs/Numbering.antt`.
#![tactic(auto)]

ghost use Rattle.std.specs.Prelude.{◌≡◌, ◌⊎◌, ℕ, List, [], ◌∷◌, ◌++◌, All, filter, flat_map, not};
ghost use Rattle.text_lines.specs.Lines.{cut, ended_lines, Ends, HasNoLf, is_blank, numbered_from, said_from, with_lf};

/// No line of a text has an LF.
pub fn lines_have_no_lf()
    ensures { (text : List ℕ) → All HasNoLf (cut text) }
{}

/// The lines, each with an LF after it, are the text, but for a last LF that may be missing there.
pub fn lines_make_the_text()
    ensures { (text : List ℕ) → (flat_map with_lf (cut text) ≡ text) ⊎ (flat_map with_lf (cut text) ≡ text ++ 10 ∷ []) }
{}

/// The lines that an LF ends, each with its LF, are the text up to its last LF.
pub fn ended_lines_make_the_text_up_to_its_last_lf()
    ensures { (text : List ℕ) → Ends (ended_lines text) text }
{}

/// Lines without LF that are written each with an LF after it are read again.
pub fn written_lines_are_read()
    ensures { (lines : List (List ℕ)) → All HasNoLf lines → cut (flat_map with_lf lines) ≡ lines }
{}

/// The lines said are the numbered lines without the blank ones.
pub fn blank_lines_are_counted_and_not_said()
    ensures { (first : ℕ) (lines : List (List ℕ)) → said_from first lines ≡ filter (λ line. not (is_blank line.text)) (numbered_from first lines) }
{}
