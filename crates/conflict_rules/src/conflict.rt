//! The first rule by which an intended write conflicts with a commit.

ghost use Rattle.std.specs.Prelude.{◌≡◌, ℕ, None, option_map, MatchOption, All};
ghost use Rattle.reconcile.specs.Replay.{Log};
ghost use Rattle.reconcile.specs.Standing.{live_in, StandsFor};
ghost use Rattle.conflict_rules.specs.declared.intent.Intent.{Intent};
ghost use Rattle.conflict_rules.specs.Conflict.{said, conflicts_of_table, conflicts_of_files, conflicts_of_reads, conflict_by, conflict_with, first_conflict, first_of, placed, commits_of, IsLowest};

use crate::clash::{Clash, Lowest};
use crate::intent::Intent;
use crate::rules;
use action_types::Action;
use reconcile::State;

/// The first rule by which an intent conflicts with a winner, a commit after the base of the intent.
/// The state is that of the base.
pub fn first_conflict<'a>(
    intent: &'a Intent,
    base: &State,
    winner: &'a [Action],
) -> Option<Clash<'a>>
    ensures in_state { option_map said result ≡ conflict_by intent.now (live_in base.now) winner.now }
    ensures of_log { (log : Log) → StandsFor base.now log → option_map said result ≡ conflict_with intent.now log winner.now }
{
    first_rule(intent, base, winner)
}

/// The first of all the rules.
fn first_rule<'a>(intent: &'a Intent, base: &State, winner: &'a [Action]) -> Option<Clash<'a>>
    ensures { option_map said result ≡ conflict_by intent.now (live_in base.now) winner.now }
{
    if let Some(clash) = of_table(intent, winner) {
        return Some(clash);
    }
    if let Some(clash) = of_files(intent, base, winner) {
        return Some(clash);
    }
    rules::by_domain(intent.domains.as_slice(), winner)
}

/// The rules on protocol, metadata and applications.
fn of_table<'a>(intent: &'a Intent, winner: &'a [Action]) -> Option<Clash<'a>>
    ensures { option_map said result ≡ conflicts_of_table intent.now winner.now }
{
    if let Some(clash) = rules::by_protocol(winner) {
        return Some(clash);
    }
    if let Some(clash) = rules::by_metadata(winner) {
        return Some(clash);
    }
    rules::by_transaction(&intent.app, winner)
}

/// The rules on files.
fn of_files<'a>(intent: &Intent, base: &State, winner: &'a [Action]) -> Option<Clash<'a>>
    ensures { option_map said result ≡ conflicts_of_files intent.now (live_in base.now) winner.now }
{
    match rules::by_delete_delete(intent.removes.as_slice(), winner) {
        Some(clash) => Some(clash),
        None => of_reads(intent, base, winner),
    }
}

/// The rules on what was read.
fn of_reads<'a>(intent: &Intent, base: &State, winner: &'a [Action]) -> Option<Clash<'a>>
    ensures { option_map said result ≡ conflicts_of_reads intent.now (live_in base.now) winner.now }
{
    match rules::by_delete_read(&intent.reads, base, winner) {
        Some(clash) => Some(clash),
        None => rules::by_append(intent.level, &intent.reads, winner),
    }
}

/// The first of the winners, the commits after the base of the intent in rising order, that the intent
/// conflicts with, and that conflict. The state is that of the base.
pub fn first_conflict_of<'a>(
    intent: &'a Intent,
    base: &State,
    winners: &'a [Vec<Action>],
) -> Option<Lowest<'a>>
    ensures in_state { option_map placed result ≡ first_of (conflict_by intent.now (live_in base.now)) 0 (commits_of winners.now) }
    ensures of_log { (log : Log) → StandsFor base.now log → option_map placed result ≡ first_conflict intent.now log 0 (commits_of winners.now) }
{
    lowest(intent, base, winners)
}

/// The same against the live files of the state.
fn lowest<'a>(intent: &'a Intent, base: &State, winners: &'a [Vec<Action>]) -> Option<Lowest<'a>>
    ensures { option_map placed result ≡ first_of (conflict_by intent.now (live_in base.now)) 0 (commits_of winners.now) }
{
    for (place, winner) in winners.iter().enumerate() {
        if let Some(clash) = first_rule(intent, base, winner.as_slice()) {
            return Some(Lowest { place, clash });
        }
    }
    None
}

/// A law: the first conflict with several winners is that of the lowest version that conflicts, and there
/// is none exactly where none of them conflicts.
pub fn the_lowest_is_named()
    ensures { (intent : Intent) (base : Log) (version : ℕ) (winners : Log) → MatchOption (first_conflict intent base version winners) (All (λ winner. conflict_with intent base winner ≡ None) winners) (λ found. IsLowest (conflict_with intent base) version winners found) }
{}
