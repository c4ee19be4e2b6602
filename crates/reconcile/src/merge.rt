ghost use Rattle.std.specs.Prelude.{◌≡◌};
ghost use Rattle.std.specs.Option.{option_copied};
ghost use Rattle.std.specs.FinMap as fin;
ghost use Rattle.std.specs.Iterator.{YieldsFirstRef};
ghost use Rattle.reconcile.specs.ByFile.{by_file};
ghost use Rattle.reconcile.specs.Left.{given_left, is_marked_first, name_after, opened, rest_of, values_in};

use crate::ahead::Ahead;
use crate::by_name::ByName;
use std::collections::btree_map::Values;

/// The values of files that are left, in the order of the files: those without a vector are kept apart from
/// those with one, and `given` has the rest of the path whose files with vectors are being given.
#[derive(Drop)]
pub(crate) struct FilesLeft<'a, V> {
    given: Option<Values<'a, String, V>>,
    plain: Ahead<'a, V>,
    marked: Ahead<'a, ByName<V>>,
}

/// The next of the files that are being given.
fn next_given<'a, V: Drop>(given: &mut Option<Values<'a, String, V>>) -> Option<&'a V>
    ensures { YieldsFirstRef given_left given.old result given.new }
{
    match given {
        Some(values) => values.next(),
        None => None,
    }
}

/// Whether the next path, if there is one, stands after a path.
fn is_after(path: Option<&str>, marked: &str) -> bool
    ensures { result ≡ name_after (option_copied path.entry) marked.now }
{
    match path {
        Some(path) => path.cmp(marked).is_gt(),
        None => true,
    }
}

/// The values of a map, if there is one.
fn values_of<'a, V: Drop>(files: Option<&'a ByName<V>>) -> Option<Values<'a, String, V>>
    ensures { given_left result ≡ values_in (option_copied files.entry) }
{
    match files {
        Some(files) => Some(files.values()),
        None => None,
    }
}

impl<'a, V: Drop> FilesLeft<'a, V> {
    ghost use Rattle.reconcile.specs.Walking.{left};

    /// All files.
    pub(crate) fn new(plain: &'a ByName<V>, marked: &'a ByName<ByName<V>>) -> FilesLeft<'a, V>
        ensures { left result ≡ fin.values (by_file plain.now marked.now) }
    {
        FilesLeft {
            given: None,
            plain: Ahead::new(plain),
            marked: Ahead::new(marked),
        }
    }

    /// Whether the next path with vectors stands before the next file without one.
    fn is_marked_next(&self) -> bool
        ensures { result ≡ is_marked_first self.now.plain self.now.marked }
    {
        match self.marked.name() {
            Some(marked) => is_after(self.plain.name(), marked),
            None => false,
        }
    }

    /// Goes on to the files of the next path with vectors.
    fn open_marked(&mut self)
        ensures given { given_left self.new.given ≡ opened self.old.marked }
        ensures plain { self.new.plain ≡ self.old.plain }
        ensures marked { self.new.marked ≡ rest_of self.old.marked }
    {
        self.given = values_of(self.marked.take());
    }

    /// The next file.
    pub(crate) fn next(&mut self) -> Option<&'a V>
        ensures { YieldsFirstRef left self.old result self.new }
    {
        loop {
            if let Some(value) = next_given(&mut self.given) {
                return Some(value);
            }
            if !self.is_marked_next() {
                return self.plain.take();
            }
            self.open_marked();
        }
    }
}
