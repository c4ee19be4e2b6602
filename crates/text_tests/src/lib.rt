//! Tests of the outside and of texts: streams, lines, clocks and ids, stores (over a directory in `folders`), the catalogue, commit texts,
//! names of files, requests over HTTP, and made scripts.
//! There is no code here.
#![tactic(auto)]

#[cfg(test)]
mod catalogues;
#[cfg(test)]
mod commit_texts;
#[cfg(test)]
mod file_names;
#[cfg(test)]
mod folders;
#[cfg(test)]
mod http_requests;
#[cfg(test)]
mod scripts;
#[cfg(test)]
mod small_files;
#[cfg(test)]
mod stores;
#[cfg(test)]
mod streams;
