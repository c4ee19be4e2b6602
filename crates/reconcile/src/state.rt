ghost use Rattle.std.specs.Prelude.{◌≡◌, ◌↔◌, IsTrue, List, [], ◌∷◌, ◌++◌, None, Some, IfOk, OnOk, option_map, fold};
ghost use Rattle.std.specs.Option.{option_copied};

use crate::by_file::ByFile;
use crate::by_name::{ByName, EqualCopy};
use crate::equal::{is_same_meta, is_same_protocol};
use crate::walks::{DomainWalk, FileWalk, GoneWalk, TxnWalk};
use action_types::{Action, Add, Domain, Key, Meta, Protocol, Remove, Txn};
use std::alloc::{AllocError, Global};

/// What a list of commits says of a table (Delta protocol, "Action Reconciliation"): the live files, the
/// tombstones, the latest txn of each application, the domains, the protocol, the metadata and the time. A
/// file is a path and the unique id of its deletion vector, or a path without one.
#[derive(Drop)]
pub struct State {
    pub(crate) live: ByFile<Add>,
    pub(crate) gone: ByFile<Remove>,
    pub(crate) txns: ByName<Txn>,
    pub(crate) domains: ByName<Domain>,
    pub(crate) protocol: Option<Protocol>,
    pub(crate) meta: Option<Meta>,
    pub(crate) time: Option<i64>,
}

impl State {
    ghost use Rattle.action_types.specs.declared.actions.Action.TheVariants as act;
    ghost use Rattle.action_types.specs.Files.{file_of_key};
    ghost use Rattle.reconcile.specs.Replay.{Log};
    ghost use Rattle.reconcile.specs.Standing.{StandsFor, HasTableOf, live_in, gone_in, txn_in, domain_in, protocol_in, meta_in, time_in, files_in, tombstones_in, txns_in, domains_in};
    ghost use Rattle.reconcile.specs.Newest.{IsAfter};
    ghost use Rattle.reconcile.specs.Steps.{after, cleared, holding, timed};
    ghost use Rattle.std.specs.FinMap as fin;
    ghost use Rattle.reconcile.specs.Walks.{files_of, tombstones_of, txns_of, domains_of};

    /// The state of no commits.
    pub fn empty(alloc: Global) -> State
        ensures { StandsFor result [] }
    {
        State {
            live: ByFile::new(alloc),
            gone: ByFile::new(alloc),
            txns: ByName::new(alloc),
            domains: ByName::new(alloc),
            protocol: None,
            meta: None,
            time: None,
        }
    }

    /// The state of the same commits and one more, which alone decides the time. Refused for want of memory
    /// alone; the state is then given up.
    pub fn apply(self, actions: &[Action]) -> Result<State, AllocError>
        ensures stands { (log : Log) → StandsFor self log → IfOk result (λ s. StandsFor s (log ++ actions.now ∷ [])) }
        ensures on_table { (log : Log) → HasTableOf self log → IfOk result (λ s. StandsFor s (log ++ actions.now ∷ [])) }
        ensures on_base { IfOk result (λ s. IsAfter s self (actions.now ∷ [])) }
    {
        self.untimed().with_actions(actions)
    }

    /// As `apply`, with the actions given away: what the state keeps of them is moved into it.
    pub fn apply_owned(self, actions: Vec<Action>) -> Result<State, AllocError>
        ensures stands { (log : Log) → StandsFor self log → IfOk result (λ s. StandsFor s (log ++ actions.items ∷ [])) }
        ensures on_table { (log : Log) → HasTableOf self log → IfOk result (λ s. StandsFor s (log ++ actions.items ∷ [])) }
        ensures on_base { IfOk result (λ s. IsAfter s self (actions.items ∷ [])) }
    {
        self.untimed().with_owned_actions(actions)
    }

    fn untimed(self) -> State
        ensures { result ≡ timed self None }
    {
        let mut state = self;
        state.time = None;
        state
    }

    fn with_actions(self, actions: &[Action]) -> Result<State, AllocError>
        ensures { IfOk result (λ s. s ≡ fold after self actions.now) }
    {
        let mut state = self;
        for action in actions {
            state.take(action)?;
        }
        Ok(state)
    }

    fn with_owned_actions(self, actions: Vec<Action>) -> Result<State, AllocError>
        ensures { IfOk result (λ s. s ≡ fold after self actions.items) }
    {
        let mut state = self;
        for action in actions {
            state.take_owned(action)?;
        }
        Ok(state)
    }

    fn take(&mut self, action: &Action) -> Result<(), AllocError>
        ensures { OnOk result (self.new ≡ after self.old action.now) }
    {
        self.clear(action)?;
        self.hold_copy(action)
    }

    fn take_owned(&mut self, action: Action) -> Result<(), AllocError>
        ensures { OnOk result (self.new ≡ after self.old action) }
    {
        self.clear(&action)?;
        self.hold(action)
    }

    /// Takes away what an action puts an end to. Refused for want of memory alone.
    fn clear(&mut self, action: &Action) -> Result<(), AllocError>
        ensures { OnOk result (self.new ≡ cleared self.old action.now) }
    {
        match action {
            Action::Domain(domain) => {
                self.clear_domain(domain);
                Ok(())
            }
            Action::Remove(remove) => self.live.remove(remove.key()),
            Action::Add(add) => self.gone.remove(add.key()),
            _ => Ok(()),
        }
    }

    fn clear_domain(&mut self, domain: &Domain)
        ensures { self.new ≡ cleared self.old (act.Domain domain.now) }
    {
        if domain.removed {
            self.domains.remove(domain.domain.as_str());
        }
    }

    /// Keeps what an action says of what it names. Refused for want of memory alone.
    pub(crate) fn hold(&mut self, action: Action) -> Result<(), AllocError>
        ensures { OnOk result (self.new ≡ holding self.old action) }
    {
        match action {
            Action::Info(info) => {
                self.time = Some(info.time);
                Ok(())
            }
            Action::Protocol(protocol) => {
                self.protocol = Some(protocol);
                Ok(())
            }
            Action::Meta(meta) => {
                self.meta = Some(meta);
                Ok(())
            }
            Action::Txn(txn) => self.hold_txn(txn),
            Action::Domain(domain) => self.hold_domain(domain),
            Action::Remove(remove) => self.hold_tombstone(remove),
            Action::Add(add) => self.hold_file(add),
        }
    }

    /// Keeps a copy of what an action says of what it names. Refused for want of memory alone.
    pub(crate) fn hold_copy(&mut self, action: &Action) -> Result<(), AllocError>
        ensures { OnOk result (self.new ≡ holding self.old action.now) }
    {
        match action {
            Action::Info(info) => {
                self.time = Some(info.time);
                Ok(())
            }
            Action::Protocol(protocol) => self.hold_protocol_copy(protocol),
            Action::Meta(meta) => self.hold_meta_copy(meta),
            Action::Txn(txn) => self.hold_txn_copy(txn),
            Action::Domain(domain) => self.hold_domain_copy(domain),
            Action::Remove(remove) => self.hold_tombstone_copy(remove),
            Action::Add(add) => self.hold_file_copy(add),
        }
    }

    fn hold_protocol_copy(&mut self, protocol: &Protocol) -> Result<(), AllocError>
        ensures { OnOk result (self.new ≡ holding self.old (act.Protocol protocol.now)) }
    {
        self.protocol = Some(protocol.copy()?);
        Ok(())
    }

    fn hold_meta_copy(&mut self, meta: &Meta) -> Result<(), AllocError>
        ensures { OnOk result (self.new ≡ holding self.old (act.Meta meta.now)) }
    {
        self.meta = Some(meta.copy()?);
        Ok(())
    }

    fn hold_txn_copy(&mut self, txn: &Txn) -> Result<(), AllocError>
        ensures { OnOk result (self.new ≡ holding self.old (act.Txn txn.now)) }
    {
        self.hold_txn(txn.copy()?)
    }

    fn hold_tombstone_copy(&mut self, remove: &Remove) -> Result<(), AllocError>
        ensures { OnOk result (self.new ≡ holding self.old (act.Remove remove.now)) }
    {
        self.hold_tombstone(remove.copy()?)
    }

    fn hold_file_copy(&mut self, add: &Add) -> Result<(), AllocError>
        ensures { OnOk result (self.new ≡ holding self.old (act.Add add.now)) }
    {
        self.hold_file(add.copy()?)
    }

    /// The same state at this time, in milliseconds since 1970 UTC.
    pub fn with_time(self, time: i64) -> State
        ensures { result ≡ timed self (Some time) }
    {
        let mut state = self;
        state.time = Some(time);
        state
    }

    pub(crate) fn with_protocol(self, protocol: Protocol) -> State
        ensures { result ≡ holding self (act.Protocol protocol) }
    {
        let mut state = self;
        state.protocol = Some(protocol);
        state
    }

    pub(crate) fn with_meta(self, meta: Meta) -> State
        ensures { result ≡ holding self (act.Meta meta) }
    {
        let mut state = self;
        state.meta = Some(meta);
        state
    }

    fn hold_txn(&mut self, txn: Txn) -> Result<(), AllocError>
        ensures { OnOk result (self.new ≡ holding self.old (act.Txn txn)) }
    {
        self.txns.insert(txn.app.copy()?, txn)
    }

    fn put_domain(&mut self, domain: Domain) -> Result<(), AllocError>
        ensures { OnOk result (self.new ≡ record self.old { domains = fin.insert self.old.domains domain.domain domain }) }
    {
        self.domains.insert(domain.domain.copy()?, domain)
    }

    fn hold_domain(&mut self, domain: Domain) -> Result<(), AllocError>
        ensures { OnOk result (self.new ≡ holding self.old (act.Domain domain)) }
    {
        if !domain.removed {
            return self.put_domain(domain);
        }
        Ok(())
    }

    fn hold_domain_copy(&mut self, domain: &Domain) -> Result<(), AllocError>
        ensures { OnOk result (self.new ≡ holding self.old (act.Domain domain.now)) }
    {
        if !domain.removed {
            return self.put_domain(domain.copy()?);
        }
        Ok(())
    }

    fn hold_tombstone(&mut self, remove: Remove) -> Result<(), AllocError>
        ensures { OnOk result (self.new ≡ holding self.old (act.Remove remove)) }
    {
        let mut kept = remove;
        kept.change = false;
        let file = self.gone.name(kept.key())?;
        self.gone.insert(file, kept)
    }

    fn hold_file(&mut self, add: Add) -> Result<(), AllocError>
        ensures { OnOk result (self.new ≡ holding self.old (act.Add add)) }
    {
        let mut kept = add;
        kept.change = false;
        let file = self.live.name(kept.key())?;
        self.live.insert(file, kept)
    }

    /// The live file that a key names, its `change` false. It takes no memory; under one path the files with
    /// vectors are looked at one by one.
    pub fn live(&self, key: Key<'_>) -> Option<&Add>
        ensures { option_copied result ≡ live_in self.now (file_of_key key.entry) }
    {
        self.live.get(key)
    }

    /// The tombstone of the file that a key names, its `change` false. It takes no memory; under one path the
    /// files with vectors are looked at one by one.
    pub fn gone(&self, key: Key<'_>) -> Option<&Remove>
        ensures { option_copied result ≡ gone_in self.now (file_of_key key.entry) }
    {
        self.gone.get(key)
    }

    /// The number that an application wrote last.
    pub fn number(&self, app: &str) -> Option<i64>
        ensures { result ≡ option_map (λ t. t.number) (txn_in self.now app.now) }
    {
        match self.txns.get(app) {
            Some(txn) => Some(txn.number),
            None => None,
        }
    }

    /// The domain of a name, if there is one that is not removed (Delta protocol, "Domain Metadata").
    pub fn domain(&self, name: &str) -> Option<&Domain>
        ensures { option_copied result ≡ domain_in self.now name.now }
    {
        self.domains.get(name)
    }

    /// The protocol of the table.
    pub fn protocol(&self) -> Option<&Protocol>
        ensures { option_copied result ≡ protocol_in self.now }
    {
        self.protocol.as_ref()
    }

    /// The metadata of the table.
    pub fn meta(&self) -> Option<&Meta>
        ensures { option_copied result ≡ meta_in self.now }
    {
        self.meta.as_ref()
    }

    /// The in-commit timestamp of the last commit, in milliseconds since 1970 UTC.
    pub fn time(&self) -> Option<i64>
        ensures { result ≡ time_in self.now }
    {
        self.time
    }

    /// The live files by path, and under one path the one without a deletion vector first, then by the bytes
    /// of the vectors' unique ids; each with its `change` false.
    pub fn files(&self) -> FileWalk<'_>
        ensures value { result ≡ files_in self.now }
        ensures of_log { (log : Log) → HasTableOf self.now log → result ≡ files_of log }
    {
        FileWalk {
            rest: self.live.files(),
        }
    }

    /// The tombstones in the same order of files, each with its `change` false.
    pub fn tombstones(&self) -> GoneWalk<'_>
        ensures value { result ≡ tombstones_in self.now }
        ensures of_log { (log : Log) → HasTableOf self.now log → result ≡ tombstones_of log }
    {
        GoneWalk {
            rest: self.gone.files(),
        }
    }

    /// The latest txns in byte order of their applications.
    pub fn txns(&self) -> TxnWalk<'_>
        ensures value { result ≡ txns_in self.now }
        ensures of_log { (log : Log) → HasTableOf self.now log → result ≡ txns_of log }
    {
        TxnWalk {
            rest: self.txns.values(),
        }
    }

    /// The domains that are not removed, in byte order of their names.
    pub fn domains(&self) -> DomainWalk<'_>
        ensures value { result ≡ domains_in self.now }
        ensures of_log { (log : Log) → HasTableOf self.now log → result ≡ domains_of log }
    {
        DomainWalk {
            rest: self.domains.values(),
        }
    }

    /// Whether two states are equal but for their time. It takes no memory; each value is looked up in the
    /// other state.
    pub fn same_table(&self, other: &State) -> bool
        ensures { IsTrue result ↔ (self.now ≡ timed other.now (time_in self.now)) }
    {
        self.has_files_of(other) && self.has_names_of(other) && self.has_rest_of(other)
    }

    fn has_files_of(&self, other: &State) -> bool
        ensures { IsTrue result ↔ ((self.now.live ≡ other.now.live) × (self.now.gone ≡ other.now.gone)) }
    {
        self.live.is_same_map(&other.live) && self.gone.is_same_map(&other.gone)
    }

    fn has_names_of(&self, other: &State) -> bool
        ensures { IsTrue result ↔ ((self.now.txns ≡ other.now.txns) × (self.now.domains ≡ other.now.domains)) }
    {
        self.txns.is_same_map(&other.txns) && self.domains.is_same_map(&other.domains)
    }

    fn has_rest_of(&self, other: &State) -> bool
        ensures { IsTrue result ↔ ((self.now.protocol ≡ other.now.protocol) × (self.now.meta ≡ other.now.meta)) }
    {
        is_same_protocol(&self.protocol, &other.protocol) && is_same_meta(&self.meta, &other.meta)
    }

    /// An equal state; refused for want of memory alone.
    pub fn copy(&self) -> Result<State, AllocError>
        ensures { IfOk result (λ s. s ≡ self.now) }
    {
        let live = self.live.copy()?;
        let gone = self.gone.copy()?;
        let txns = self.txns.copy()?;
        let domains = self.domains.copy()?;
        let protocol = copy_protocol(&self.protocol)?;
        let meta = copy_meta(&self.meta)?;
        Ok(State {
            live,
            gone,
            txns,
            domains,
            protocol,
            meta,
            time: self.time,
        })
    }
}

/// An equal protocol, or none; refused for want of memory alone.
fn copy_protocol(protocol: &Option<Protocol>) -> Result<Option<Protocol>, AllocError>
    ensures { IfOk result (λ n. n ≡ protocol.now) }
{
    match protocol {
        None => Ok(None),
        Some(protocol) => Ok(Some(protocol.copy()?)),
    }
}

/// Equal metadata, or none; refused for want of memory alone.
fn copy_meta(meta: &Option<Meta>) -> Result<Option<Meta>, AllocError>
    ensures { IfOk result (λ n. n ≡ meta.now) }
{
    match meta {
        None => Ok(None),
        Some(meta) => Ok(Some(meta.copy()?)),
    }
}

impl EqualCopy for Add {
    fn equal_copy(&self) -> Result<Add, AllocError> {
        self.copy()
    }
}

impl EqualCopy for Remove {
    fn equal_copy(&self) -> Result<Remove, AllocError> {
        self.copy()
    }
}

impl EqualCopy for Domain {
    fn equal_copy(&self) -> Result<Domain, AllocError> {
        self.copy()
    }
}

impl EqualCopy for Txn {
    fn equal_copy(&self) -> Result<Txn, AllocError> {
        self.copy()
    }
}
