//! The names of files of a log.

use log_names::{LogName, NameText};

/// The id of the names.
const ID: u128 = 0x2222_2222_2222_4222_8222_2222_2222_222a;

const STAGED: &str =
    "_staged_commits/00000000000000000001.22222222-2222-4222-8222-22222222222a.json";

const TEXTS: [(&str, LogName); 17] = [
    ("00000000000000000007.json", LogName::Published(7)),
    ("18446744073709551615.json", LogName::Published(u64::MAX)),
    ("18446744073709551616.json", LogName::Other),
    ("99999999999999999999.json", LogName::Other),
    ("0000000000000000007.json", LogName::Other),
    ("7.json", LogName::Other),
    ("_last_checkpoint", LogName::Other),
    ("", LogName::Other),
    (STAGED, LogName::Staged(1, ID)),
    (
        "_staged_commits/00000000000000000001.22222222-2222-4222-8222-22222222222A.json",
        LogName::Other,
    ),
    (
        "_staged-commits/00000000000000000001.22222222-2222-4222-8222-22222222222a.json",
        LogName::Other,
    ),
    (
        "00000000000000000010.checkpoint.22222222-2222-4222-8222-22222222222a.json",
        LogName::Checkpoint(10, ID),
    ),
    (
        "00000000000000000010.checkpoint.parquet",
        LogName::Parquet(10),
    ),
    (
        "00000000000000000010.checkpoint.22222222-2222-4222-8222-22222222222a.parquet",
        LogName::Parquet(10),
    ),
    (
        "00000000000000000010.checkpoint.0000000001.0000000003.parquet",
        LogName::Parquet(10),
    ),
    (
        "00000000000000000010.checkpoint.0000000001.000000000x.parquet",
        LogName::Other,
    ),
    ("00000000000000000007.crc", LogName::Other),
];

#[test]
fn names_are_read_from_their_texts(rt: HostRuntime) {
    for (text, name) in TEXTS {
        assert_eq!(rt; LogName::parse(text), name, "{text}");
    }
}

const NAMES: [(LogName, &str); 6] = [
    (LogName::Published(0), "00000000000000000000.json"),
    (LogName::Published(u64::MAX), "18446744073709551615.json"),
    (LogName::Staged(1, ID), STAGED),
    (
        LogName::Checkpoint(10, 0xc),
        "00000000000000000010.checkpoint.00000000-0000-0000-0000-00000000000c.json",
    ),
    (LogName::Parquet(1), ""),
    (LogName::Other, ""),
];

#[test]
fn names_are_written(rt: HostRuntime) {
    for (name, text) in NAMES {
        match name.text() {
            Some(written) => assert_eq!(rt; written.as_str(), text),
            None => assert_eq!(rt; "", text),
        }
    }
    assert_eq!(rt; NameText::new("7.json").as_str(), "7.json");
}
