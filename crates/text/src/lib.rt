// Text that is put into a caller's buffer.
#![tactic(auto)]

ghost use Rattle.text.specs.Text.{decimal, hex_digit, hex_last};
ghost use Rattle.text.specs.Text.{hex8 as text_hex8};
ghost use Rattle.std.specs.Prelude.{◌≡◌, ◌<◌, ◌≤◌, length, ◌∷◌, []};

// A buffer with the place in it where the next text goes. Each call puts what fits and moves the place behind its text, but not past the end. If the
// place is below the buffer's length, all of the text was put.
#[derive(Drop)]
pub struct Text<'a> {
    out: &'a mut [u8],
    at: usize,
    ghost within: { at ≤ length out.now },
}

impl<'a> Text<'a> {
    ghost use Rattle.text.specs.Appending.{Begins, Appends};

    // The text that begins at the start of a buffer.
    pub fn new(out: &'a mut [u8]) -> Text<'a>
        ensures { Begins out.entry 0 result }
    {
        Text { out, at: 0 }
    }

    // The text that begins at a place of a buffer, or at its end if the place lies past that. Nothing in this repository calls it: it is there since
    // a text could always begin at any place of a buffer.
    pub fn behind(out: &'a mut [u8], at: usize) -> Text<'a>
        ensures { Begins out.entry at result }
    {
        let at = at.min(out.len());
        Text { out, at }
    }

    // The place behind the text.
    pub fn place(&self) -> usize
        ensures { result ≡ self.now.at }
    {
        self.at
    }

    // One byte.
    pub fn put(&mut self, byte: u8)
        ensures { Appends self.old (byte ∷ []) self.new }
    {
        if self.at < self.out.len() {
            self.out[self.at] = byte;
            self.at += 1;
        }
    }

    // The bytes of a word.
    pub fn put_word(&mut self, word: &[u8])
        ensures { Appends self.old word.now self.new }
    {
        for &byte in word {
            self.put(byte);
        }
    }

    // A number in base ten: the digits before its last one, then that. By hand, as `decimal` has the same two cases: no law about `itoa` is needed.
    pub fn put_decimal(&mut self, number: usize)
        ensures { Appends self.old (decimal number) self.new }
    {
        // The casts of this file lose nothing, and a `try_from` would give a Result that is never an error.
        if number < 10 {
            self.put(48 + number as u8);
        } else {
            self.put_decimal(number / 10);
            self.put(48 + (number % 10) as u8);
        }
    }

    // The last `digits` digits of a number in base sixteen: those before its last one, then that. By hand, as a number in base ten is.
    fn put_hex(&mut self, digits: usize, number: u32)
        ensures { Appends self.old (hex_last digits number) self.new }
    {
        if digits > 0 {
            self.put_hex(digits - 1, number / 16);
            self.put(hex_digit(number % 16));
        }
    }

    // A number as eight digits in base sixteen.
    #[tactic(auto, unfolding(crate::specs::Text::hex8))]
    pub fn put_hex8(&mut self, number: u32)
        ensures { Appends self.old (text_hex8 number) self.new }
    {
        self.put_hex(8, number);
    }
}

// The ASCII byte of a digit in base sixteen.
#[tactic(auto, unfolding(crate::specs::Text::hex_digit))]
fn hex_digit(digit: u32) -> u8
    requires { digit < 16 }
    ensures { result ≡ hex_digit digit }
{
    if digit < 10 {
        48 + digit as u8
    } else {
        55 + digit as u8
    }
}
