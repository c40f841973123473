// Tokens, line ends and other bytes of a text.
ghost use Rattle.std.specs.Prelude.{◌≡◌, ◌⊎◌, ℕ, ◌+◌, ◌-◌, ◌≤◌, ◌<◌, length, drop, ◌∷◌, [], true, false, slice_index, MatchOption, ⊤};
ghost use Rattle.palp_input.specs.Pieces.{is_blank, is_token_byte, line_len, pieces_of};
ghost use Rattle.palp_input.specs.PieceSteps.{end_of, PieceWithin, without_line_ends, MarkBegins, MarkMeans, MarkWithin, place_of};

/// Where a token stands.
#[derive(Clone, Copy, Debug, PartialEq, Eq)]
pub struct Span {
    /// The place of its first byte.
    pub at: usize,
    /// The place behind its last byte.
    pub end: usize,
}

/// A part of a text that isn't blank, with its place.
#[derive(Clone, Copy, Debug, PartialEq, Eq)]
pub enum Piece {
    /// A longest run of the bytes 33 to 126.
    Token(Span),
    /// A byte that no text has.
    Wrong(usize),
    /// A line end.
    LineEnd(usize),
}

/// A piece that isn't a line end.
#[derive(Clone, Copy, Debug, PartialEq, Eq)]
pub enum Mark {
    /// A token.
    Word(Span),
    /// A byte that no text has.
    BadByte(usize),
    /// There is none.
    Nothing,
}

/// The first piece from the place on that isn't a line end.
pub fn next_mark(text: &[u8], from: usize) -> Mark
    requires { from ≤ length text.now }
    ensures means { MarkMeans text.now (without_line_ends (pieces_of from (drop from text.now))) result }
    ensures begins { MarkBegins text.now result }
    ensures within { MarkWithin from (length text.now) result }
{
    let mut place = from;
    loop {
        match next_piece(text, place) {
            Some(Piece::LineEnd(at)) => place = at + 1,
            Some(Piece::Wrong(at)) => return Mark::BadByte(at),
            Some(Piece::Token(span)) => return Mark::Word(span),
            None => return Mark::Nothing,
        }
    }
}

/// The first piece from the place on.
pub fn next_piece(text: &[u8], from: usize) -> Option<Piece>
    requires { from ≤ length text.now }
    ensures cases { MatchOption result
        (pieces_of from (drop from text.now) ≡ [])
        (λ piece. pieces_of from (drop from text.now)
        ≡ piece ∷ pieces_of (end_of piece) (drop (end_of piece) text.now)) }
    ensures begins { MatchOption result ⊤ (λ piece. pieces_of from (drop from text.now)
        ≡ pieces_of (place_of piece) (drop (place_of piece) text.now)) }
    ensures within { MatchOption result ⊤ (λ piece. PieceWithin from (length text.now) piece) }
{
    let at = blanks_end(text, from);
    if at == text.len() {
        return None;
    }
    let byte = text[at];
    if byte == b'\n' {
        Some(Piece::LineEnd(at))
    } else if is_token_byte(byte) {
        let end = token_end(text, at + 1);
        Some(Piece::Token(Span { at, end }))
    } else {
        Some(Piece::Wrong(at))
    }
}

/// Whether the byte is a blank.
fn is_blank(byte: u8) -> bool
    ensures { result ≡ is_blank byte }
{
    byte == b'\t' || byte == b'\r' || byte == b' '
}

/// Whether the byte is one of a token.
fn is_token_byte(byte: u8) -> bool
    ensures { result ≡ is_token_byte byte }
{
    byte >= 33 && byte <= 126
}

/// The first place from `from` on whose byte isn't a blank, or the number of bytes.
fn blanks_end(text: &[u8], from: usize) -> usize
    requires { from ≤ length text.now }
    ensures rest { pieces_of from (drop from text.now) ≡ pieces_of result (drop result text.now) }
    ensures least { from ≤ result }
    ensures most { result ≤ length text.now }
    ensures stops { result < length text.now → is_blank (slice_index text.now result) ≡ false }
{
    for at in from..text.len() {
        if !is_blank(text[at]) {
            return at;
        }
    }
    text.len()
}

/// The first place from `from` on whose byte isn't one of a token, or the number of bytes.
fn token_end(text: &[u8], from: usize) -> usize
    requires { from ≤ length text.now }
    ensures least { from ≤ result }
    ensures most { result ≤ length text.now }
    ensures token { (k : ℕ) → from ≤ k → k < result → is_token_byte (slice_index text.now k) ≡ true }
    ensures stops { result < length text.now → is_token_byte (slice_index text.now result) ≡ false }
{
    for at in from..text.len() {
        if !is_token_byte(text[at]) {
            return at;
        }
    }
    text.len()
}

/// The place behind the line that holds the place.
pub fn line_end(text: &[u8], from: usize) -> usize
    requires { from ≤ length text.now }
    ensures value { result ≡ from + line_len (drop from text.now) }
    ensures least { from ≤ result }
    ensures some { from < length text.now → from < result }
    ensures line { (result ≡ length text.now) ⊎ (slice_index text.now (result - 1) ≡ 10) }
    ensures most { result ≤ length text.now }
{
    for at in from..text.len() {
        if text[at] == b'\n' {
            return at + 1;
        }
    }
    text.len()
}
