//! The names and the keys of rules, and the names of reasons.
ghost use Rattle.std.specs.Prelude.{◌≡◌};
ghost use Rattle.std.specs.Option.{option_copied};
ghost use Rattle.session_lines.specs.Replies.{broken_key, broken_name, broken_vector, rule_name};

use action_types::Name;
use conflict_rules::Rule;
use table_rules::Broken;

/// The name of a broken rule.
pub(crate) fn broken_name(why: &Broken) -> &'static str
    ensures { result.now ≡ broken_name why.now }
{
    match why {
        Broken::NoInfo => "noInfo",
        Broken::NoMeta => "noMeta",
        Broken::TimeNotAfter { .. } => "timeNotAfter",
        Broken::Feature { .. } => "feature",
        Broken::Property { .. } => "property",
        Broken::Invariants => "invariants",
        Broken::Columns => "columns",
        Broken::TxnNotAfter { .. } => "txnNotAfter",
        Broken::NotLive { .. } => "notLive",
        Broken::AppendOnly { .. } => "appendOnly",
        Broken::Partition { .. } => "partition",
        Broken::Vector { .. } => "vector",
        Broken::Domain { .. } => "domain",
        Broken::Memory => "memory",
    }
}

/// The name, path, application or domain that a broken rule names, else the empty text.
pub(crate) fn broken_key(why: &Broken) -> &str
    ensures { result.now ≡ broken_key why.now }
{
    match why {
        Broken::Feature { name } | Broken::Property { name } => name.as_str(),
        Broken::TxnNotAfter { app, .. } => app.as_str(),
        Broken::NotLive { path, .. } => path.as_str(),
        Broken::AppendOnly { path, .. } => path.as_str(),
        Broken::Partition { path, .. } => path.as_str(),
        Broken::Vector { path, .. } => path.as_str(),
        Broken::Domain { domain } => domain.as_str(),
        Broken::NoInfo => "",
        Broken::NoMeta => "",
        Broken::TimeNotAfter { .. } => "",
        Broken::Invariants => "",
        Broken::Columns => "",
        Broken::Memory => "",
    }
}

/// The unique id of the vector, where a broken rule names a file with one.
pub(crate) fn broken_vector(why: &Broken) -> Option<&Name>
    ensures { option_copied result ≡ broken_vector why.now }
{
    match why {
        Broken::NotLive { vector, .. } => vector.as_ref(),
        Broken::AppendOnly { vector, .. } => vector.as_ref(),
        Broken::Partition { vector, .. } => vector.as_ref(),
        Broken::Vector { vector, .. } => vector.as_ref(),
        _ => None,
    }
}

/// The name of a rule of conflicts.
pub(crate) fn rule_name(rule: Rule) -> &'static str
    ensures { result.now ≡ rule_name rule }
{
    match rule {
        Rule::Protocol => "protocol",
        Rule::Metadata => "metadata",
        Rule::Transaction => "transaction",
        Rule::DeleteDelete => "deleteDelete",
        Rule::DeleteRead => "deleteRead",
        Rule::Append => "append",
        Rule::Domain => "domain",
    }
}
