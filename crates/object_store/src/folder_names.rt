//! Which names are those of files of a folder.

ghost use Rattle.std.specs.Prelude.{◌≡◌};
ghost use Rattle.object_store.specs.FolderNames.{folder_of, is_file_name};

use crate::disk::Folder;

/// The folder that the file of that name stands in: the one of the log, or `_staged_commits` in it. There is none for a name with
/// another folder, `.` or `..` in it, for an absolute one, and for one that a file has while it is put.
#[tactic(auto, unfolding(crate::specs::FolderNames::folder_of))]
pub(crate) fn folder_of(name: &[u8]) -> Option<Folder>
    ensures { result ≡ folder_of name.now }
{
    if !name.starts_with(b"_staged_commits/") {
        return if is_file_name(name) {
            Some(Folder::Log)
        } else {
            None
        };
    }
    if is_file_name(&name[16..]) {
        Some(Folder::Staged)
    } else {
        None
    }
}

/// Whether these bytes can name a file within one folder: at most 255 of them, as a file system takes.
#[tactic(auto, unfolding(crate::specs::FolderNames::is_file_name))]
fn is_file_name(name: &[u8]) -> bool
    ensures { result ≡ is_file_name name.now }
{
    !name.is_empty()
        && name.len() <= 255
        && !name.contains(&b'/')
        && !name.contains(&0)
        && name != b".".as_slice()
        && name != b"..".as_slice()
        && !name.starts_with(b".put-")
}
