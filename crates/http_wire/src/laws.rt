//! Laws of the definitions.
ghost use Rattle.std.specs.Prelude.{◌≡◌, ℕ, List, ◌∷◌};
ghost use Rattle.httparse.specs.Grammar.{RequestHead};
ghost use Rattle.http_wire.specs.Requests.{IsRequest};
ghost use Rattle.http_wire.specs.Stream.{InputEnd, Sent, Splits};

/// Bytes are cut into requests in one way.
pub fn bytes_are_cut_in_one_way()
    ensures { (limit : ℕ) (bytes : List ℕ) (rs qs : List Sent) (e f : InputEnd) → Splits limit bytes rs e → Splits limit bytes qs f → rs ≡ qs }
{}

/// The request at the front is the first, and the bytes after it have the others.
pub fn the_request_at_the_front_is_the_first()
    ensures { (limit : ℕ) (bytes rest : List ℕ) (h : RequestHead) (body : List ℕ) (rs : List Sent) (end : InputEnd) → IsRequest limit bytes h body rest
        → Splits limit rest rs end → Splits limit bytes (record { head = h; body = body } ∷ rs) end }
{}
