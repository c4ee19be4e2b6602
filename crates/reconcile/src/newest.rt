ghost use Rattle.std.specs.Prelude.{◌≡◌, true, List, [], ◌∷◌, ◌++◌, IfOk, if◌then◌else◌};
ghost use Rattle.std.specs.Option.{option_copied};
ghost use Rattle.action_types.specs.Files.{file_of_key};
ghost use Rattle.reconcile.specs.Replay.{Log, or_else};
ghost use Rattle.reconcile.specs.Laying.{LaysOver, Strikes};
ghost use Rattle.reconcile.specs.Under.{IsUnderFiles, IsUnderNames};

use crate::by_file::ByFile;
use crate::by_name::ByName;
use crate::state::State;
use action_types::{Action, Add, Domain, Key, Meta, Protocol, Remove, Txn};
use std::alloc::{AllocError, Global};

/// What commits decide that are read from the newest one back, until they are laid on the state of those
/// before them. An action on a file, an application or a domain that a newer commit decides is dropped
/// where it is met.
#[derive(Drop)]
pub struct NewestFirst {
    newer: State,
    dropped: ByName<()>,
    begun: bool,
}

impl NewestFirst {
    ghost use Rattle.action_types.specs.declared.actions.Action.TheVariants as act;
    ghost use Rattle.reconcile.specs.Newest.{IsAfter};
    ghost use Rattle.reconcile.specs.Newer.{Newer};
    ghost use Rattle.reconcile.specs.Standing.{StandsFor, HasTableOf};
    ghost use Rattle.reconcile.specs.Steps.{holding};
    ghost use Rattle.reconcile.specs.StepsBack.{is_decided, is_file_decided, is_domain_decided, dropping, with_newer, settled, before, all_before, older, IsOver};

    /// What no commits decide.
    pub fn new(alloc: Global) -> NewestFirst
        ensures { Newer result [] }
    {
        NewestFirst {
            newer: State::empty(alloc),
            dropped: ByName::new(alloc),
            begun: false,
        }
    }

    /// What the same commits decide and one before them. Refused for want of memory alone; what was decided
    /// is then given up.
    pub fn older(self, actions: &[Action]) -> Result<NewestFirst, AllocError>
        ensures { (log : Log) → Newer self log → IfOk result (λ n. Newer n (actions.now ∷ log)) }
    {
        Ok(self.with_actions(actions)?.started())
    }

    /// As `older`, with the actions given away: what is kept of them is moved.
    pub fn older_owned(self, actions: Vec<Action>) -> Result<NewestFirst, AllocError>
        ensures { (log : Log) → Newer self log → IfOk result (λ n. Newer n (actions.items ∷ log)) }
    {
        Ok(self.with_owned_actions(actions)?.started())
    }

    fn started(self) -> NewestFirst
        ensures { result ≡ record self { begun = true } }
    {
        let mut newest = self;
        newest.begun = true;
        newest
    }

    fn with_actions(self, actions: &[Action]) -> Result<NewestFirst, AllocError>
        ensures { IfOk result (λ n. n ≡ all_before self actions.now) }
    {
        let mut newest = self;
        for action in actions.iter().rev() {
            newest = newest.with_action(action)?;
        }
        Ok(newest)
    }

    fn with_owned_actions(self, actions: Vec<Action>) -> Result<NewestFirst, AllocError>
        ensures { IfOk result (λ n. n ≡ all_before self actions.items) }
    {
        let mut newest = self;
        let mut left = actions;
        while let Some(action) = left.pop() {
            newest = newest.with_owned_action(action)?;
        }
        Ok(newest)
    }

    fn with_action(self, action: &Action) -> Result<NewestFirst, AllocError>
        ensures { IfOk result (λ n. n ≡ before self action.now) }
    {
        if self.is_decided(action) {
            return Ok(self);
        }
        self.settled_copy(action)
    }

    fn with_owned_action(self, action: Action) -> Result<NewestFirst, AllocError>
        ensures { IfOk result (λ n. n ≡ before self action) }
    {
        if self.is_decided(&action) {
            return Ok(self);
        }
        self.settled(action)
    }

    /// With a copy of what an action says of what it names.
    fn settled_copy(self, action: &Action) -> Result<NewestFirst, AllocError>
        ensures { IfOk result (λ n. n ≡ settled self action.now) }
    {
        let mut newest = self.dropping(action)?;
        newest.newer.hold_copy(action)?;
        Ok(newest)
    }

    /// With what an action says of what it names.
    fn settled(self, action: Action) -> Result<NewestFirst, AllocError>
        ensures { IfOk result (λ n. n ≡ settled self action) }
    {
        let mut newest = self.dropping(&action)?;
        newest.newer.hold(action)?;
        Ok(newest)
    }

    /// Whether what an action names is decided.
    fn is_decided(&self, action: &Action) -> bool
        ensures { result ≡ is_decided self.now action.now }
    {
        match action {
            Action::Info(_) => self.begun || self.newer.time.is_some(),
            Action::Protocol(_) => self.newer.protocol.is_some(),
            Action::Meta(_) => self.newer.meta.is_some(),
            Action::Txn(txn) => self.newer.txns.get(txn.app.as_str()).is_some(),
            Action::Domain(domain) => self.is_domain_decided(domain.domain.as_str()),
            Action::Remove(remove) => self.is_file_decided(remove.key()),
            Action::Add(add) => self.is_file_decided(add.key()),
        }
    }

    fn is_domain_decided(&self, name: &str) -> bool
        ensures { result ≡ is_domain_decided self.now name.now }
    {
        self.newer.domains.get(name).is_some() || self.dropped.get(name).is_some()
    }

    fn is_file_decided(&self, key: Key<'_>) -> bool
        ensures { result ≡ is_file_decided self.now (file_of_key key.entry) }
    {
        self.newer.live.get(key).is_some() || self.newer.gone.get(key).is_some()
    }

    /// With the domain that an action removes among those that were dropped.
    fn dropping(self, action: &Action) -> Result<NewestFirst, AllocError>
        ensures { IfOk result (λ n. n ≡ dropping self action.now) }
    {
        match action {
            Action::Domain(domain) => self.dropping_domain(domain),
            _ => Ok(self),
        }
    }

    fn dropping_domain(self, domain: &Domain) -> Result<NewestFirst, AllocError>
        ensures { IfOk result (λ n. n ≡ dropping self (act.Domain domain.now)) }
    {
        let mut newest = self;
        if domain.removed {
            newest.dropped.insert(domain.domain.copy()?, ())?;
            return Ok(newest);
        }
        Ok(newest)
    }

    /// The state of a base and the commits that were read: what they decide, and the base for the rest.
    /// Refused for want of memory alone; both are then given up.
    pub fn over(self, base: State) -> Result<State, AllocError>
        ensures on_base { (newer : Log) → Newer self newer → IfOk result (λ s. IsAfter s base newer) }
        ensures stands { (log newer : Log) → StandsFor base log → Newer self newer
            → IfOk result (λ s. StandsFor s (log ++ newer)) }
        ensures on_table { (log newer : Log) (commit : List Action) → HasTableOf base log → Newer self (commit ∷ newer)
            → IfOk result (λ s. StandsFor s (log ++ commit ∷ newer)) }
    {
        self.laid_on(base)
    }

    fn laid_on(self, base: State) -> Result<State, AllocError>
        ensures { IfOk result (λ s. IsOver s base self) }
    {
        let NewestFirst {
            newer,
            dropped,
            begun,
        } = self;
        let State {
            live,
            gone,
            txns,
            domains,
            protocol,
            meta,
            time,
        } = newer;
        let state = under_files(base, live, gone)?;
        let state = under_names(state, txns, domains, &dropped)?;
        Ok(under_rest(state, protocol, meta, begun, time))
    }
}

/// A base under files that are decided. Refused for want of memory alone.
fn under_files(base: State, live: ByFile<Add>, gone: ByFile<Remove>) -> Result<State, AllocError>
    ensures { IfOk result (λ s. IsUnderFiles s base live gone) }
{
    let state = without_files(base, &live, &gone)?;
    let state = under_live(state, live)?;
    under_gone(state, gone)
}

/// A base without the live files and the tombstones that are decided otherwise.
fn without_files(
    base: State,
    live: &ByFile<Add>,
    gone: &ByFile<Remove>,
) -> Result<State, AllocError>
    ensures live { IfOk result (λ s. Strikes base.live gone.now s.live) }
    ensures gone { IfOk result (λ s. Strikes base.gone live.now s.gone) }
    ensures rest { IfOk result (λ s. s ≡ record base { live = s.live; gone = s.gone }) }
{
    let mut state = base;
    state.live.strike(gone)?;
    state.gone.strike(live)?;
    Ok(state)
}

fn under_live(base: State, live: ByFile<Add>) -> Result<State, AllocError>
    ensures live { IfOk result (λ s. LaysOver base.live live s.live) }
    ensures rest { IfOk result (λ s. s ≡ record base { live = s.live }) }
{
    let mut state = base;
    state.live.lay(live)?;
    Ok(state)
}

fn under_gone(base: State, gone: ByFile<Remove>) -> Result<State, AllocError>
    ensures gone { IfOk result (λ s. LaysOver base.gone gone s.gone) }
    ensures rest { IfOk result (λ s. s ≡ record base { gone = s.gone }) }
{
    let mut state = base;
    state.gone.lay(gone)?;
    Ok(state)
}

/// A base under applications and domains that are decided. Refused for want of memory alone.
fn under_names(
    base: State,
    txns: ByName<Txn>,
    domains: ByName<Domain>,
    dropped: &ByName<()>,
) -> Result<State, AllocError>
    ensures { IfOk result (λ s. IsUnderNames s base txns domains dropped.now) }
{
    let mut state = base;
    state.txns.lay(txns)?;
    state.domains.strike(dropped);
    state.domains.lay(domains)?;
    Ok(state)
}

/// A base under a protocol and metadata that are decided, where they are, and a time.
fn under_rest(
    base: State,
    protocol: Option<Protocol>,
    meta: Option<Meta>,
    begun: bool,
    time: Option<i64>,
) -> State
    ensures { result ≡ record base { protocol = or_else protocol base.protocol; meta = or_else meta base.meta; time = (if begun then time else base.time) } }
{
    let state = under_protocol(base, protocol);
    let state = under_meta(state, meta);
    under_time(state, begun, time)
}

fn under_protocol(base: State, protocol: Option<Protocol>) -> State
    ensures { result ≡ record base { protocol = or_else protocol base.protocol } }
{
    match protocol {
        Some(protocol) => base.with_protocol(protocol),
        None => base,
    }
}

fn under_meta(base: State, meta: Option<Meta>) -> State
    ensures { result ≡ record base { meta = or_else meta base.meta } }
{
    match meta {
        Some(meta) => base.with_meta(meta),
        None => base,
    }
}

fn under_time(base: State, begun: bool, time: Option<i64>) -> State
    ensures { result ≡ record base { time = (if begun then time else base.time) } }
{
    let mut state = base;
    if begun {
        state.time = time;
        return state;
    }
    state
}
