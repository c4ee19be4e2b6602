//! Laws on checkpoint texts: facts about the definitions, with no code.
ghost use Rattle.std.specs.Prelude.{ℕ, List, MatchResult};
ghost use Rattle.std.specs.List.Sorted.{IsPermutation};
ghost use Rattle.text_lines.specs.Lines.{cut};
ghost use Rattle.reconcile.specs.Replay.{Log};
ghost use Rattle.checkpoint_v2.specs.Outcome.{outcome};
ghost use Rattle.checkpoint_v2.specs.Refused.{IsRefusedFor};
ghost use Rattle.checkpoint_v2.specs.Table.{HasSameTable, IsCheckpointOf};
ghost use Rattle.checkpoint_v2.specs.Text.{IsCheckpointText};

/// The lines of a checkpoint may stand in any order.
pub fn lines_stand_in_any_order()
    ensures { (bytes other : List ℕ) (version : ℕ) (log : Log) → IsPermutation (cut bytes) (cut other)
        → IsCheckpointOf bytes version log → IsCheckpointOf other version log }
{}

/// A text is a checkpoint of one table.
pub fn a_checkpoint_has_one_table()
    ensures { (bytes : List ℕ) (version : ℕ) (log other : Log)
        → IsCheckpointOf bytes version log → IsCheckpointOf bytes version other → HasSameTable log other }
{}

/// The reading of any bytes is a checkpoint text of its actions, or the fault of bytes that are none.
pub fn readings_are_checkpoint_texts_or_faults()
    ensures { (version : ℕ) (bytes : List ℕ)
        → MatchResult (outcome version bytes) (IsCheckpointText bytes version) (IsRefusedFor version bytes) }
{}
