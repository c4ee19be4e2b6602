//! The name of a text.

ghost use Rattle.std.specs.Prelude.{◌≡◌, ◌+◌, ◌≤◌, length, IsTrue};
ghost use Rattle.std.specs.Char.{is_ascii_digit};
ghost use Rattle.std.specs.List.{list_all};
ghost use Rattle.std.specs.Str.{bytes_eq};
ghost use Rattle.log_names.specs.Texts.{uuid_text};
ghost use Rattle.log_names.specs.Reading.{name_of, stands_at, is_part_at, version_in, id_in, decimal_value, published_in, staged_in, checkpoint_in, whole_parquet_in, parquet_in, part_parquet_in};

use crate::LogName;
use uuid::Uuid;

/// The name of a text in bytes: each form has a length of its own.
#[tactic(auto, unfolding(crate::specs::Reading::name_of))]
pub(crate) fn parse_bytes(bytes: &[u8]) -> LogName
    ensures { result ≡ name_of bytes.now }
{
    match bytes.len() {
        25 => published(bytes),
        78 => staged(bytes),
        73 => checkpoint(bytes),
        39 => whole_parquet(bytes),
        76 => parquet(bytes),
        61 => part_parquet(bytes),
        _ => LogName::Other,
    }
}

/// The name of a text that is as long as a published commit's.
#[tactic(auto, unfolding(crate::specs::Reading::published_in))]
fn published(bytes: &[u8]) -> LogName
    requires { length bytes.now ≡ 25 }
    ensures { result ≡ published_in bytes.now }
{
    if !stands_at(bytes, 20, b".json") {
        return LogName::Other;
    }
    match version_in(&bytes[..20]) {
        Some(version) => LogName::Published(version),
        None => LogName::Other,
    }
}

/// The name of a text that is as long as a staged commit's.
#[tactic(auto, unfolding(crate::specs::Reading::staged_in))]
fn staged(bytes: &[u8]) -> LogName
    requires { length bytes.now ≡ 78 }
    ensures { result ≡ staged_in bytes.now }
{
    let framed = stands_at(bytes, 0, b"_staged_commits/")
        && stands_at(bytes, 36, b".")
        && stands_at(bytes, 73, b".json");
    if !framed {
        return LogName::Other;
    }
    match (version_in(&bytes[16..36]), id_in(&bytes[37..73])) {
        (Some(version), Some(id)) => LogName::Staged(version, id),
        _ => LogName::Other,
    }
}

/// The name of a text that is as long as a checkpoint's.
#[tactic(auto, unfolding(crate::specs::Reading::checkpoint_in))]
fn checkpoint(bytes: &[u8]) -> LogName
    requires { length bytes.now ≡ 73 }
    ensures { result ≡ checkpoint_in bytes.now }
{
    let framed = stands_at(bytes, 20, b".checkpoint.") && stands_at(bytes, 68, b".json");
    if !framed {
        return LogName::Other;
    }
    match (version_in(&bytes[..20]), id_in(&bytes[32..68])) {
        (Some(version), Some(id)) => LogName::Checkpoint(version, id),
        _ => LogName::Other,
    }
}

/// The name of a text that is as long as a whole Parquet checkpoint's.
#[tactic(auto, unfolding(crate::specs::Reading::whole_parquet_in))]
fn whole_parquet(bytes: &[u8]) -> LogName
    requires { length bytes.now ≡ 39 }
    ensures { result ≡ whole_parquet_in bytes.now }
{
    if !stands_at(bytes, 20, b".checkpoint.parquet") {
        return LogName::Other;
    }
    match version_in(&bytes[..20]) {
        Some(version) => LogName::Parquet(version),
        None => LogName::Other,
    }
}

/// The name of a text that is as long as that of a Parquet checkpoint under an id.
#[tactic(auto, unfolding(crate::specs::Reading::parquet_in))]
fn parquet(bytes: &[u8]) -> LogName
    requires { length bytes.now ≡ 76 }
    ensures { result ≡ parquet_in bytes.now }
{
    let framed = stands_at(bytes, 20, b".checkpoint.") && stands_at(bytes, 68, b".parquet");
    if !framed {
        return LogName::Other;
    }
    match (version_in(&bytes[..20]), id_in(&bytes[32..68])) {
        (Some(version), Some(_)) => LogName::Parquet(version),
        _ => LogName::Other,
    }
}

/// The name of a text that is as long as that of a part of a Parquet checkpoint.
#[tactic(auto, unfolding(crate::specs::Reading::part_parquet_in))]
fn part_parquet(bytes: &[u8]) -> LogName
    requires { length bytes.now ≡ 61 }
    ensures { result ≡ part_parquet_in bytes.now }
{
    let framed = stands_at(bytes, 20, b".checkpoint.")
        && stands_at(bytes, 42, b".")
        && stands_at(bytes, 53, b".parquet");
    if !framed || !is_part_at(bytes, 32) || !is_part_at(bytes, 43) {
        return LogName::Other;
    }
    match version_in(&bytes[..20]) {
        Some(version) => LogName::Parquet(version),
        None => LogName::Other,
    }
}

/// Whether `part` stands in `bytes` from the index `from` on.
fn stands_at(bytes: &[u8], from: usize, part: &[u8]) -> bool
    requires { from + length part.now ≤ length bytes.now }
    ensures { result ≡ stands_at from part.now bytes.now }
{
    &bytes[from..from + part.len()] == part
}

/// Whether the ten bytes from the index `from` on are decimal digits.
fn is_part_at(bytes: &[u8], from: usize) -> bool
    requires { from + 10 ≤ length bytes.now }
    ensures { result ≡ is_part_at from bytes.now }
{
    are_digits(&bytes[from..from + 10])
}

/// Whether all the bytes are decimal digits.
fn are_digits(bytes: &[u8]) -> bool
    ensures { result ≡ list_all is_ascii_digit bytes.now }
{
    bytes.iter().all(|b| b.is_ascii_digit())
}

/// The version that 20 bytes write in decimal digits, where it fits in 64 bits.
#[tactic(auto, unfolding(crate::specs::Reading::version_in, crate::specs::Reading::number_in))]
fn version_in(digits: &[u8]) -> Option<u64>
    requires { length digits.now ≡ 20 }
    ensures { result ≡ version_in digits.now }
{
    if !are_digits(digits) {
        return None;
    }
    let value = decimal_value(digits);
    if value <= u64::MAX as u128 {
        Some(value as u64)
    } else {
        None
    }
}

/// The number that 20 decimal digits write.
fn decimal_value(digits: &[u8]) -> u128
    requires width { length digits.now ≡ 20 }
    requires digits { IsTrue (list_all is_ascii_digit digits.now) }
    ensures { result ≡ decimal_value digits.now }
{
    let mut value: u128 = 0;
    for digit in digits {
        value = value * 10 + (*digit - b'0') as u128;
    }
    value
}

/// The id whose UUID text the bytes are.
fn id_in(bytes: &[u8]) -> Option<u128>
    ensures { result ≡ id_in bytes.now }
{
    let Ok(parsed) = Uuid::try_parse_ascii(bytes) else {
        return None;
    };
    let id = parsed.as_u128();
    if is_uuid_of(bytes, id) {
        Some(id)
    } else {
        None
    }
}

/// Whether the bytes are the UUID text of the id.
fn is_uuid_of(bytes: &[u8], id: u128) -> bool
    ensures { result ≡ bytes_eq (uuid_text id) bytes.now }
{
    let mut buffer = Uuid::encode_buffer();
    let text = Uuid::from_u128(id).hyphenated().encode_lower(&mut buffer);
    text.as_bytes() == bytes
}
