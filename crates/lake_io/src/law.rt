//! What a loop over the lines of a source comes to.
ghost use Rattle.std.specs.Prelude.{[], ◌++◌, Bool, List, ℕ, Option, Result};
ghost use Rattle.lake_io.specs.Reading.{At, Heard, HeardAfter, Next, at_start};
ghost use Rattle.lake_io.specs.declared.reader.Line.{Line};
ghost use Rattle.lake_io.specs.declared.reader.LineError.{LineError};

/// The lines that [`Lines::next`](crate::Lines::next) answers are the texts between the LFs of what it took from the source, in order and
/// with their numbers: all of them at the end, those that an LF ends at a fault and where it is too much, and the first ones in between.
pub fn lines_are_cut_at_lf()
    ensures start { (tells : Bool) (left : List ℕ) → Heard tells left [] [] at_start }
    ensures step { (tells : Bool) (taken taken' left left' bytes : List ℕ) (handed : List (List ℕ)) (at : At) (answer : Result (Option Line) LineError) (at' : At) → Heard tells left bytes handed at → (n : Next tells taken left taken' left' at answer at') → HeardAfter tells left' (bytes ++ n.bytes) handed answer at' }
{}
