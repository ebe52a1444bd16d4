//! Short lines of text, which take no memory.

ghost use Rattle.std.specs.Prelude.{◌≡◌, ◌+◌, ◌≤◌, ◌++◌, length};
ghost use Rattle.std.specs.Fmt.{decimal};
ghost use Rattle.arrayvec.specs.ArrayString.{array_string_len};

use arrayvec::ArrayString;
use itoa::Buffer;

/// A short line of text, which takes no memory.
pub type ShortLine = ArrayString<192>;

/// A line with this text.
pub fn plain_line(text: &str) -> ShortLine
    requires room { length text.now ≤ 192 }
    ensures bytes { result.bytes ≡ text.now }
    ensures len { array_string_len result ≡ length text.now }
{
    let mut line = ArrayString::new();
    line.push_str(text);
    line
}

/// Appends a number.
pub fn push_number(line: &mut ShortLine, number: u64)
    requires room { array_string_len line.old ≤ 172 }
    ensures bytes { line.new.bytes ≡ line.old.bytes ++ decimal number }
    ensures few { array_string_len line.new ≤ array_string_len line.old + 20 }
{
    let mut digits = Buffer::new();
    line.push_str(digits.format(number));
}
