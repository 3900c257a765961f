// Numbers and words as text, written into a lent buffer (01, "The listing"; 02, A3).
#![tactic(auto)]

ghost use Rattle.std.specs.Prelude.{cond, [], ◌∷◌, ◌≡◌, ◌+◌, ◌<◌, length};
ghost use Rattle.text.specs.Text.{ascii, digit, decimal, hundredths, signed, knots};

// A lent buffer, and the place where the next text goes.
// A `requires` asks room for the text and no more (`sign` asks for one byte: a number has a digit), so that a buffer may be as long as its text.
#[derive(Drop)]
pub struct Writer<'a> {
    out: &'a mut [u8],
    at: usize,
}

impl<'a> Writer<'a> {
    ghost use Rattle.text.specs.Writer.{Puts, HasRoom};

    pub fn new(out: &'a mut [u8]) -> Self
        ensures same_buffer { result.out.ghost_name ≡ out.entry.ghost_name }
        ensures bytes { result.out.now ≡ out.old }
        ensures start { result.at ≡ 0 }
    {
        Writer { out, at: 0 }
    }

    // The next text goes to the place `at`.
    pub fn with_position(out: &'a mut [u8], at: usize) -> Self
        ensures same_buffer { result.out.ghost_name ≡ out.entry.ghost_name }
        ensures bytes { result.out.now ≡ out.old }
        ensures start { result.at ≡ at }
    {
        Writer { out, at }
    }

    // The place after what is written.
    pub fn position(&self) -> usize
        ensures { result ≡ self.now.at }
    {
        self.at
    }

    pub fn word(&mut self, w: &[u8])
        requires { HasRoom self.old (length w.now) }
        ensures { Puts self.old w.now self.new }
    {
        let end = self.at + w.len();
        self.out[self.at..end].copy_from_slice(w);
        self.at = end;
    }

    pub fn byte(&mut self, b: u8)
        requires { HasRoom self.old 1 }
        ensures { Puts self.old (b ∷ []) self.new }
    {
        // read once: behind the store, the place would be loaded again
        let at = self.at;
        self.out[at] = b;
        self.at = at + 1;
    }

    #[tactic(auto, unfolding(crate::specs::Text::digit))]
    fn digit(&mut self, n: u32)
        requires n_bound { n < 10 }
        requires room { HasRoom self.old 1 }
        ensures { Puts self.old (digit n) self.new }
    {
        self.byte(b'0' + n as u8);
    }

    // The digits of n / 10, then the last one.
    #[tactic(auto, using(crate::proofs::WriterLaws::then, crate::proofs::TextLaws::decimal_one, crate::proofs::TextLaws::decimal_more, crate::proofs::TextLaws::decimal_some, crate::proofs::TextLaws::decimal_longer))]
    pub fn number(&mut self, n: u32)
        requires { HasRoom self.old (length (decimal n)) }
        ensures { Puts self.old (decimal n) self.new }
    {
        if n < 10 {
            return self.digit(n);
        }
        self.number(n / 10);
        self.digit(n % 10);
    }

    // kept: a flag, as one byte is written or none: `signed_by` of Text.antt goes by the sign alone.
    #[tactic(auto, using(crate::proofs::WriterLaws::nothing))]
    fn sign(&mut self, negative: bool)
        requires { HasRoom self.old 1 }
        ensures { Puts self.old (cond negative (ascii "-") []) self.new }
    {
        if negative {
            self.byte(b'-');
        }
    }

    pub fn signed(&mut self, x: i32)
        requires { HasRoom self.old (length (signed x)) }
        ensures { Puts self.old (signed x) self.new }
    {
        self.sign(x < 0);
        self.number(x.unsigned_abs());
    }

    #[tactic(auto, using(crate::proofs::TextLaws::hundredths_length), unfolding(crate::specs::Text::digit))]
    fn hundredths(&mut self, n: u32)
        requires { HasRoom self.old (length (hundredths n)) }
        ensures { Puts self.old (hundredths n) self.new }
    {
        self.number(n / 100);
        self.byte(b'.');
        let tenth = n / 10 % 10;
        let hundredth = n % 10;
        self.digit(tenth);
        self.digit(hundredth);
    }

    // So many hundredths of a knot.
    // kept: beside `signed`, as one function over how the size is written would be as long as both.
    pub fn knots(&mut self, x: i32)
        requires { HasRoom self.old (length (knots x)) }
        ensures { Puts self.old (knots x) self.new }
    {
        let negative = x < 0;
        self.sign(negative);
        self.hundredths(x.unsigned_abs());
    }
}
