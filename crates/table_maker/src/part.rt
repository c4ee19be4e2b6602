//! The fixed parts of a script's lines.
ghost use Rattle.std.specs.Prelude.{◌≡◌};
ghost use Rattle.table_maker.specs.Script.{text_of};

/// A fixed part of a line. A part whose name ends in `Line` is a whole one; after each other part a number follows, but after an
/// `End` none.
#[derive(Clone, Copy)]
pub enum Part {
    CreateLine,
    AddModified,
    AddPath,
    AddSize,
    AddNumber,
    AddEnd,
    RemoveNumber,
    RemovePath,
    RemoveEnd,
    PublishLine,
    LoadLine,
}

impl Part {
    /// The part's text. Lines end with LF.
    #[tactic(auto, unfolding(crate::specs::Script::text_of))]
    pub fn text(self) -> &'static str
        ensures { result.now ≡ text_of self }
    {
        match self {
            Part::CreateLine =>
                "{\"id\":\"maker\",\"op\":\"create\",\"partition\":[],\"schema\":\"{\\\"type\\\":\\\"struct\\\",\\\"fields\\\":[]}\"}\n",
            Part::AddModified => "{\"adds\":[{\"dataChange\":true,\"modificationTime\":",
            Part::AddPath => ",\"partitionValues\":{},\"path\":\"f",
            Part::AddSize => "\",\"size\":",
            Part::AddNumber => "}],\"app\":\"maker\",\"number\":",
            Part::AddEnd => ",\"op\":\"write\"}\n",
            Part::RemoveNumber => "{\"app\":\"maker\",\"number\":",
            Part::RemovePath => ",\"op\":\"write\",\"removes\":[{\"dataChange\":true,\"path\":\"f",
            Part::RemoveEnd => "\"}]}\n",
            Part::PublishLine => "{\"op\":\"publish\"}\n",
            Part::LoadLine => "{\"op\":\"load\"}\n",
        }
    }
}
