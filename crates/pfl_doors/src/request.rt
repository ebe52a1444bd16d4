//! What the first bytes of a connection say of who sends them.

ghost use Rattle.std.specs.Prelude.{◌≡◌, ◌≤◌, length, bytes_eq};
ghost use Rattle.std.specs.Char.{is_ascii_digit};
ghost use Rattle.pfl_doors.specs.Requests.{is_command, is_comment, is_word_byte, word_length, begins};
ghost use Rattle.pfl_doors.specs.Requests.{judged, judged_line, judged_target, judged_version, judged_digit, judged_end};

/// How many bytes decide. It is one more than a line of a session has at most.
pub(crate) const DECIDING: usize = 513;

/// What comes after the target, but for the last digit and the line's end.
const VERSION: &[u8] = b" HTTP/1.";

/// Whether the word is this one.
fn is_word(word: &[u8], name: &str) -> bool
    ensures { result ≡ bytes_eq word.now name.now }
{
    word == name.as_bytes()
}

/// Whether a line of a session may begin with the word.
fn is_command(word: &[u8]) -> bool
    ensures { result ≡ is_command word.now }
{
    is_word(word, "step")
        || is_word(word, "back")
        || is_word(word, "forward")
        || is_word(word, "fork")
        || is_word(word, "drop")
        || is_word(word, "show")
        || is_word(word, "past")
        || is_word(word, "why")
        || is_word(word, "frame")
        || is_word(word, "names")
        || is_word(word, "excise")
        || is_word(word, "restore")
        || is_word(word, "log")
        || is_word(word, "view")
        || is_word(word, "setup")
        || is_word(word, "follow")
}

/// Whether the word begins a comment.
fn is_comment(word: &[u8]) -> bool
    ensures { result ≡ is_comment word.now }
{
    word.first() == Some(&b'#')
}

/// A byte of a word.
fn is_word_byte(byte: u8) -> bool
    ensures { result ≡ is_word_byte byte }
{
    byte.is_ascii_graphic()
}

/// How many bytes the word has that the bytes begin with.
fn word_length(bytes: &[u8]) -> usize
    ensures value { result ≡ word_length bytes.now }
    ensures within { result ≤ length bytes.now }
{
    for (index, byte) in bytes.iter().enumerate() {
        if !is_word_byte(*byte) {
            return index;
        }
    }
    bytes.len()
}

/// Whether the bytes begin with the text, as far as they say.
fn begins(text: &[u8], bytes: &[u8]) -> Option<bool>
    ensures { result ≡ begins text.now bytes.now }
{
    for (index, byte) in text.iter().enumerate() {
        if bytes.get(index)? != byte {
            return Some(false);
        }
    }
    Some(true)
}

/// Whether the line ends, as far as its bytes say.
fn judged_end(bytes: &[u8]) -> Option<bool>
    ensures { result ≡ judged_end bytes.now }
{
    let byte = *bytes.first()?;
    Some(byte == b'\r' || byte == b'\n')
}

/// Whether the line ends after a digit, as far as its bytes say.
fn judged_digit(bytes: &[u8]) -> Option<bool>
    ensures { result ≡ judged_digit bytes.now }
{
    if bytes.first()?.is_ascii_digit() {
        judged_end(&bytes[1..])
    } else {
        Some(false)
    }
}

/// Whether the line ends with a version of HTTP, as far as its bytes say.
fn judged_version(bytes: &[u8]) -> Option<bool>
    ensures { result ≡ judged_version bytes.now }
{
    if begins(VERSION, bytes)? {
        judged_digit(&bytes[VERSION.len()..])
    } else {
        Some(false)
    }
}

/// Whether a target comes after the word and its space, as far as its bytes say, and ends a request's line where a line of a session may
/// begin with the word.
fn judged_target(word: &[u8], bytes: &[u8]) -> Option<bool>
    ensures { result ≡ judged_target word.now bytes.now }
{
    if *bytes.first()? != b'/' {
        return Some(false);
    }
    if !is_comment(word) && !is_command(word) {
        return Some(true);
    }
    let target = &bytes[1..];
    judged_version(&target[word_length(target)..])
}

/// Whether bytes begin the first line of an HTTP request, as far as they say, however many they are.
fn judged_line(bytes: &[u8]) -> Option<bool>
    ensures { result ≡ judged_line bytes.now }
{
    let length = word_length(bytes);
    let byte = *bytes.get(length)?;
    if length > 0 && byte == b' ' {
        judged_target(&bytes[..length], &bytes[length + 1..])
    } else {
        Some(false)
    }
}

/// Whether bytes begin the first line of an HTTP request, as far as they say: `None` where more of them are wanted.
#[tactic(auto, unfolding(crate::specs::Requests::judged))]
pub fn judged_so_far(bytes: &[u8]) -> Option<bool>
    ensures { result ≡ judged bytes.now }
{
    match bytes.get(..DECIDING) {
        Some(first) => Some(judged_line(first).unwrap_or(true)),
        None => judged_line(bytes),
    }
}
