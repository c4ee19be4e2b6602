//! The least of names, texts in the order of their bytes, and the least of files, in the order of files.
#![tactic(auto)]

ghost use Rattle.std.specs.Prelude.{◌≡◌, ℕ, List, [], MatchOption, option_map};
ghost use Rattle.std.specs.Option.{option_copied};
ghost use Rattle.action_types.specs.Files.{File, name_cmp, file_cmp, file_of_key};
ghost use Rattle.least_names.specs.Least.{lesser, least, lesser_file, least_file, IsLeast};

use action_types::Key;

/// The lesser of the least name so far and one name more.
pub fn lesser<'a>(best: Option<&'a str>, name: &'a str) -> Option<&'a str>
    ensures { option_copied result ≡ lesser (option_copied best.entry) name.now }
{
    match best {
        None => Some(name),
        Some(least) => {
            if name < least {
                Some(name)
            } else {
                Some(least)
            }
        }
    }
}

/// The lesser of the least file so far and one file more: by path, under one path the file without a vector
/// first, then by the bytes of the vector's unique id.
pub fn lesser_file<'a>(best: Option<Key<'a>>, file: Key<'a>) -> Option<Key<'a>>
    ensures { option_map file_of_key result
        ≡ lesser_file (option_map file_of_key best.entry) (file_of_key file.entry) }
{
    match best {
        None => Some(file),
        Some(first) => {
            if file.compare(first).is_lt() {
                Some(file)
            } else {
                Some(first)
            }
        }
    }
}

/// A law: the least of names, and of files, is one of them and is above none of them, and only none have none.
pub fn the_least_is_least()
    ensures names { (names : List (List ℕ))
        → MatchOption (least names) (names ≡ []) (λ name. IsLeast name_cmp names name) }
    ensures files { (files : List File)
        → MatchOption (least_file files) (files ≡ []) (λ file. IsLeast file_cmp files file) }
{}
