ghost use Rattle.std.specs.Prelude.{◌≡◌};
ghost use Rattle.session_lines.specs.Members.{has_member, op_named};

/// The kinds of requests that are built.
#[derive(Clone, Copy, PartialEq, Eq, Debug)]
pub(crate) enum Op {
    Create,
    Load,
    Write,
}

impl Op {
    /// The kind of this name; `None` where it is not built.
    #[tactic(auto, unfolding(crate::specs::Members::op_named))]
    pub(crate) fn named(name: &str) -> Option<Op>
        ensures { result ≡ op_named name.now }
    {
        match name {
            "create" => Some(Op::Create),
            "load" => Some(Op::Load),
            "write" => Some(Op::Write),
            _ => None,
        }
    }

    /// Whether such a request has a member of this name.
    #[tactic(auto, unfolding(crate::specs::Members::has_member))]
    pub(crate) fn has_member(self, name: &str) -> bool
        ensures { result ≡ has_member self name.now }
    {
        match self {
            Op::Create => name == "id" || name == "op" || name == "schema",
            Op::Load => name == "op",
            Op::Write => name == "adds" || name == "app" || name == "number" || name == "op",
        }
    }
}
