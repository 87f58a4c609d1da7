// A text in a buffer of its own, of at most N bytes: words and numbers go to its end. Nothing here allocates, so it is no String.
ghost use Rattle.std.specs.Prelude.{◌≡◌, ℕ, List, [], ◌∷◌, ◌+◌, ◌<◌, ◌≤◌, length, take};
ghost use Rattle.lines.specs.Put.{Put};
ghost use Rattle.lines.specs.Text.{ascii, decimal, digit, spaced};
ghost use Rattle.lines.specs.Writing.{Prints, Added};

use format::copy_to;
use std::marker::Model;

// DIGITS, put into bytes from a place on. Each function gives the place after what it puts: a listing has many digits, and a text's length
// goes through memory with each byte that is added to it.

// The `as` narrows a digit: a `try_from` would need an `unwrap`.
fn put_digit(bytes: &mut [u8], at: usize, value: u16) -> usize
    requires { (value < 10) × (at < length bytes.old) }
    ensures { Put 1 bytes.old at (digit value ∷ []) result bytes.new }
{
    bytes[at] = b'0' + value as u8;
    at + 1
}

// By hand: no clause says that `write!` succeeds where there is room, and `io`, whose `decimal` has a contract, is for the programs, while C's
// library has these lines too.
fn put_decimal(bytes: &mut [u8], at: usize, number: u16) -> usize
    requires { at + 5 ≤ length bytes.old }
    ensures { Put 5 bytes.old at (decimal number) result bytes.new }
{
    if number < 10 {
        return put_digit(bytes, at, number);
    }
    let last = put_decimal(bytes, at, number / 10);
    put_digit(bytes, last, number % 10)
}

// A number after a space.
fn put_number(bytes: &mut [u8], at: usize, number: u16) -> usize
    requires { at + 6 ≤ length bytes.old }
    ensures { Put 6 bytes.old at (spaced number) result bytes.new }
{
    bytes[at] = b' ';
    put_decimal(bytes, at + 1, number)
}

// THE TEXT

// In a clause a text is the list of its bytes.
#[derive(Drop)]
pub(crate) struct Text<const N: usize> {
    bytes: [u8; N],
    length: usize,
}

impl<const N: usize> Model for Text<N> {
    ghost Value = { List ℕ };

    ghost view = { λ t. take t.length t.bytes };

    ghost invariant = { λ t. t.length ≤ N };
}

impl<const N: usize> Text<N> {
    pub(crate) fn new() -> Self
        ensures { result ≡ [] }
    {
        Text {
            bytes: [0; N],
            length: 0,
        }
    }

    pub(crate) fn word(&mut self, word: &[u8])
        requires { length self.old + length word.now ≤ N }
        ensures { Added (length word.now) word.now self.old self.new }
    {
        let end = self.length + word.len();
        let bytes = &mut self.bytes[..];
        bytes[self.length..end].copy_from_slice(word);
        self.length = end;
    }

    pub(crate) fn decimal(&mut self, number: u16)
        requires { length self.old + 5 ≤ N }
        ensures { Added 5 (decimal number) self.old self.new }
    {
        let at = self.length;
        self.length = put_decimal(&mut self.bytes, at, number);
    }

    // A number after a space.
    pub(crate) fn number(&mut self, number: u16)
        requires { length self.old + 6 ≤ N }
        ensures { Added 6 (spaced number) self.old self.new }
    {
        let at = self.length;
        self.length = put_number(&mut self.bytes, at, number);
    }

    // Ends the line.
    pub(crate) fn end(&mut self)
        requires { length self.old + 1 ≤ N }
        ensures { Added 1 (ascii "\n") self.old self.new }
    {
        self.word(b"\n");
    }

    // Copies the text into a lent buffer, if it fits.
    pub(crate) fn print(&self, buffer: &mut [u8]) -> usize
        ensures { Prints (length self.now) self.now buffer.old result buffer.new }
    {
        let text = &self.bytes[..self.length];
        copy_to(text, buffer, 0);
        if buffer.len() < text.len() {
            return 0;
        }
        text.len()
    }
}
