ghost use Rattle.std.specs.Prelude.{◌≡◌, ℕ, List, [], ◌++◌, None};
ghost use Rattle.reconcile.specs.declared.state.State.{State};
ghost use Rattle.reconcile.specs.Keys.{key_of, key_of_remove, key_cmp, name_cmp};
ghost use Rattle.reconcile.specs.Replay.{Log, live_at, gone_at, txn_at, domain_at};
ghost use Rattle.reconcile.specs.ByFile.{plain_file, marked_file};
ghost use Rattle.reconcile.specs.Paths.{IsPlainLog, live_path, gone_path};
ghost use Rattle.reconcile.specs.Newest.{IsAfter};
ghost use Rattle.reconcile.specs.Standing.{StandsFor};
ghost use Rattle.reconcile.specs.Walks.{Lists, files_of, tombstones_of, txns_of, domains_of};

/// The lists of a log have exactly what the replay says, in the order of the keys and each key once.
pub fn walks_list_the_replay()
    ensures files { (log : Log) → Lists key_cmp key_of (files_of log) (λ key. live_at key log) }
    ensures tombstones { (log : Log) → Lists key_cmp key_of_remove (tombstones_of log) (λ key. gone_at key log) }
    ensures txns { (log : Log) → Lists name_cmp (λ t. t.app) (txns_of log) (λ app. txn_at app log) }
    ensures domains { (log : Log) → Lists name_cmp (λ d. d.domain) (domains_of log) (λ name. domain_at name log) }
{}

/// Two states that stand for one log are equal.
pub fn a_log_has_one_state()
    ensures { (s t : State) (log : Log) → StandsFor s log → StandsFor t log → s ≡ t }
{}

/// Commits on top of a base make one state, whatever the base: in one step, as commits that are read from the
/// newest one back, or in several, as commits that are applied in rising order.
pub fn a_base_and_commits_make_one_state()
    ensures one { (s t base : State) (newer : Log) → IsAfter s base newer → IsAfter t base newer → s ≡ t }
    ensures none { (base : State) → IsAfter base base [] }
    ensures steps { (s t base : State) (older newer : Log) → IsAfter t base older → IsAfter s t newer
        → IsAfter s base (older ++ newer) }
{}

/// On commits without deletion vectors and domains each path is a file, and no other file and no domain is
/// there: of a path the last commit that mentions it decides.
pub fn paths_are_files()
    ensures live { (log : Log) → IsPlainLog log → (path : List ℕ)
        → live_at (plain_file path) log ≡ live_path path log }
    ensures gone { (log : Log) → IsPlainLog log → (path : List ℕ)
        → gone_at (plain_file path) log ≡ gone_path path log }
    ensures no_other_live { (log : Log) → IsPlainLog log → (path id : List ℕ)
        → live_at (marked_file path id) log ≡ None }
    ensures no_other_gone { (log : Log) → IsPlainLog log → (path id : List ℕ)
        → gone_at (marked_file path id) log ≡ None }
    ensures no_domain { (log : Log) → IsPlainLog log → (name : List ℕ)
        → domain_at name log ≡ None }
{}
