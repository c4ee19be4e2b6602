//! What the head of a request says of its body.
ghost use Rattle.std.specs.Prelude.{◌≡◌, ◌≤◌, ◌<◌, ℕ, List, [], ◌∷◌, ◌++◌, map, length, slice_index_or, IsTrue, if◌then◌else◌};
ghost use Rattle.std.specs.List.{list_all};
ghost use Rattle.std.specs.Char.{is_ascii_digit};
ghost use Rattle.std.specs.Str.Parse.{digits_value};
ghost use Rattle.http_wire.specs.Head.{body_size, decimal_value, needs_length, given_size, size_by, is_named, values_named};
ghost use Rattle.http_wire.specs.Named.{AreValues};
ghost use Rattle.httparse.specs.Spans.{header_bytes, IsHeaderWithin};
ghost use Rattle.httparse.specs.declared.spans.HeaderSpan.{HeaderSpan as TheSpan};

use httparse::spans::HeaderSpan;

/// The most header lines of a request.
const MAX_HEADERS: usize = 64;

/// The values of the headers of one name.
#[derive(Clone, Copy)]
pub enum Values<'a> {
    None,
    One(&'a [u8]),
    Many,
}

/// Whether a header has the name, without regard to ASCII case.
fn is_header_named(name: &[u8], other: &[u8]) -> bool
    ensures { result ≡ is_named name.now other.now }
{
    name.eq_ignore_ascii_case(other)
}

fn is_all_digits(value: &[u8]) -> bool
    ensures { result ≡ list_all is_ascii_digit value.now }
{
    value.iter().all(|b| b.is_ascii_digit())
}

/// The number that 1 to 10 decimal digits write.
#[tactic(auto, unfolding(crate::specs::Head::decimal_value))]
fn read_size(value: &[u8]) -> Option<u64>
    ensures { result ≡ decimal_value value.now }
{
    if 1 <= value.len() && value.len() <= 10 && is_all_digits(value) {
        Some(read_digits(value))
    } else {
        None
    }
}

fn read_digits(value: &[u8]) -> u64
    requires short { length value.now ≤ 10 }
    requires digits { IsTrue (list_all is_ascii_digit value.now) }
    ensures { result ≡ digits_value 10 value.now }
{
    let mut n = 0;
    for b in value {
        n = n * 10 + u64::from(*b - b'0');
    }
    n
}

/// Whether a request of this method has to give the length of its body.
fn wants_length(method: &[u8]) -> bool
    ensures { result ≡ needs_length method.now }
{
    method == b"POST".as_slice() || method == b"PUT".as_slice()
}

/// The values, and one more where it has the name.
fn with_value<'a>(values: Values<'a>, is_named: bool, value: &'a [u8]) -> Values<'a>
    ensures { (vs : List (List ℕ)) → AreValues values.entry vs → AreValues result (vs ++ (if is_named then value.now ∷ [] else [])) }
{
    if !is_named {
        return values;
    }
    match values {
        Values::None => Values::One(value),
        _ => Values::Many,
    }
}

/// The values of the headers of a name.
fn values_of<'a>(front: &'a [u8], headers: &[HeaderSpan], name: &[u8]) -> Values<'a>
    requires { (k : ℕ) (d : TheSpan) → k < length headers.now → IsHeaderWithin (length front.now) (slice_index_or headers.now k d) }
    ensures { AreValues result (values_named name.now (map (header_bytes front.now) headers.now)) }
{
    let mut values = Values::None;
    for header in headers {
        let is_named = is_header_named(header.name.of(front), name);
        values = with_value(values, is_named, header.value.of(front));
    }
    values
}

/// The size of the body by the values of `Content-Length`.
fn size_by_values(limit: u64, method: &[u8], values: Values<'_>) -> Result<u64, u16>
    ensures { (vs : List (List ℕ)) → AreValues values.entry vs → result ≡ size_by limit method.now vs }
{
    match values {
        Values::None => {
            if wants_length(method) {
                Err(411)
            } else {
                Ok(0)
            }
        }
        Values::One(value) => match read_size(value) {
            None => Err(400),
            Some(size) if limit < size => Err(413),
            Some(size) => Ok(size),
        },
        Values::Many => Err(400),
    }
}

/// The size of the body of a request, or the status by which it is refused.
pub fn find_body_size(
    limit: u64,
    front: &[u8],
    method: &[u8],
    minor: u8,
    headers: &[HeaderSpan],
) -> Result<u64, u16>
    requires { (k : ℕ) (d : TheSpan) → k < length headers.now → IsHeaderWithin (length front.now) (slice_index_or headers.now k d) }
    ensures { result ≡ body_size limit method.now minor (map (header_bytes front.now) headers.now) }
{
    if headers.len() > MAX_HEADERS {
        return Err(431);
    }
    if minor == 0 {
        return Err(505);
    }
    match values_of(front, headers, b"transfer-encoding") {
        Values::None => {}
        _ => return Err(501),
    }
    size_by_values(limit, method, values_of(front, headers, b"content-length"))
}
