//! The text of each kind of name.

ghost use Rattle.std.specs.Prelude.{◌≡◌, ◌+◌, ◌≤◌, ◌++◌, length};
ghost use Rattle.log_names.specs.Texts.{version_text, uuid_text, published_text, staged_text, checkpoint_text};

use crate::NameText;
use uuid::Uuid;

/// The text of the published commit of a version.
#[tactic(auto, using(crate::proofs::Forms::text_lengths), unfolding(crate::specs::Texts::published_text))]
pub(crate) fn published(version: u64) -> NameText
    ensures { result ≡ published_text version }
{
    let mut text = NameText::empty();
    put_version(&mut text, version);
    text.put(".json");
    text
}

/// The text of a staged commit.
#[tactic(auto, using(crate::proofs::Forms::text_lengths), unfolding(crate::specs::Texts::staged_text))]
pub(crate) fn staged(version: u64, id: u128) -> NameText
    ensures { result ≡ staged_text version id }
{
    let mut text = NameText::empty();
    text.put("_staged_commits/");
    put_version(&mut text, version);
    text.put(".");
    put_id(&mut text, id);
    text.put(".json");
    text
}

/// The text of a checkpoint.
#[tactic(auto, using(crate::proofs::Forms::text_lengths), unfolding(crate::specs::Texts::checkpoint_text))]
pub(crate) fn checkpoint(version: u64, id: u128) -> NameText
    ensures { result ≡ checkpoint_text version id }
{
    let mut text = NameText::empty();
    put_version(&mut text, version);
    text.put(".checkpoint.");
    put_id(&mut text, id);
    text.put(".json");
    text
}

/// Adds a version in 20 decimal digits.
fn put_version(text: &mut NameText, version: u64)
    requires { length text.old + 20 ≤ 78 }
    ensures { text.new ≡ text.old ++ version_text version }
{
    let digits = version_digits(version);
    text.put_bytes(&digits);
}

/// The 20 decimal digits of a version.
fn version_digits(version: u64) -> [u8; 20]
    ensures { result ≡ version_text version }
{
    let mut digits = [b'0'; 20];
    let mut rest = version;
    let mut place = 20;
    while place > 0 {
        place -= 1;
        digits[place] = b'0' + (rest % 10) as u8;
        rest /= 10;
    }
    digits
}

/// Adds an id as its UUID text.
fn put_id(text: &mut NameText, id: u128)
    requires { length text.old + 36 ≤ 78 }
    ensures { text.new ≡ text.old ++ uuid_text id }
{
    let mut buffer = Uuid::encode_buffer();
    let written = Uuid::from_u128(id).hyphenated().encode_lower(&mut buffer);
    text.put(written);
}
