//! What is known of the paths that were looked at.
ghost use Rattle.std.specs.Prelude.{◌≤◌, vec_len};

use crate::case_folder::CaseFolder;

/// Looks at paths below a folder, one after the other in tree order, for names that lead to the file or the folder of
/// another name, as they do where a file system does not tell case apart, and may tell two inodes all the same.
///
/// A name that is one with an earlier name of its folder but for case has to stand in the folder's listing, and so has
/// that one: then they are two. No other name is looked for, so mostly no folder is listed. One is listed again only
/// where the last listing lacks such a name, as it does where the file was made since: at most once for each of them.
#[derive(Drop)]
pub struct CasePaths {
    /// The elements of the last path, and each folder on it: the first one is that below which the paths lie.
    pub(crate) path: Vec<String>,
    pub(crate) folders: Vec<CaseFolder>,
    ghost in_folders: { vec_len path ≤ vec_len folders },
}
