ghost use Rattle.std.specs.Prelude.{◌≡◌};
ghost use Rattle.action_fields.specs.Canonical.{kind_of};
ghost use Rattle.action_fields.specs.Kinds.{is_action, kind_name, kind_named};

use action_types::Action;

/// The kind of a line of a commit or of a checkpoint (Delta protocol, "Actions").
#[derive(Clone, Copy, Debug, PartialEq, Eq)]
pub enum Kind {
    Info,
    Protocol,
    Meta,
    Txn,
    Domain,
    Remove,
    Add,
    CheckpointMetadata,
    Sidecar,
}

impl Kind {
    /// The name of the one member of a line of this kind.
    pub fn name(self) -> &'static str
        ensures { result.now ≡ kind_name self }
    {
        match self {
            Kind::Info => "commitInfo",
            Kind::Protocol => "protocol",
            Kind::Meta => "metaData",
            Kind::Txn => "txn",
            Kind::Domain => "domainMetadata",
            Kind::Remove => "remove",
            Kind::Add => "add",
            Kind::CheckpointMetadata => "checkpointMetadata",
            Kind::Sidecar => "sidecar",
        }
    }

    /// The kind with this name; `None` where the name is of no kind that is read.
    #[tactic(auto, unfolding(crate::specs::Kinds::kind_named))]
    pub fn named(name: &str) -> Option<Kind>
        ensures { result ≡ kind_named name.now }
    {
        match name {
            "commitInfo" => Some(Kind::Info),
            "protocol" => Some(Kind::Protocol),
            "metaData" => Some(Kind::Meta),
            "txn" => Some(Kind::Txn),
            "domainMetadata" => Some(Kind::Domain),
            "remove" => Some(Kind::Remove),
            "add" => Some(Kind::Add),
            "checkpointMetadata" => Some(Kind::CheckpointMetadata),
            "sidecar" => Some(Kind::Sidecar),
            _ => None,
        }
    }

    /// Whether a commit has lines of this kind, so that it stands for an action.
    pub fn is_action(self) -> bool
        ensures { result ≡ is_action self }
    {
        !matches!(self, Kind::CheckpointMetadata | Kind::Sidecar)
    }
}

/// The kind of an action's line.
pub fn kind_of(action: &Action) -> Kind
    ensures { result ≡ kind_of action.now }
{
    match action {
        Action::Info(_) => Kind::Info,
        Action::Protocol(_) => Kind::Protocol,
        Action::Meta(_) => Kind::Meta,
        Action::Txn(_) => Kind::Txn,
        Action::Domain(_) => Kind::Domain,
        Action::Remove(_) => Kind::Remove,
        Action::Add(_) => Kind::Add,
    }
}
