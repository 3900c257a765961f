// The text of a listing in a lent buffer.
// A `requires` asks room for the longest text.
#![tactic(auto)]

ghost use Rattle.std.specs.Prelude.{◌++◌, ◌+◌, length};
ghost use Rattle.words.specs.Text.{line_feed, alert_word, command_text, float_word, header_text, line_text, total_text, refused_text};
ghost use Rattle.text.specs.Text.{decimal};
ghost use Rattle.text.specs.Writer.{Puts, HasRoom};

use text::Writer;

// What the line of a sample shows: the command where it is shown, and whether the record's floats were exact.
#[derive(Clone, Copy, Debug, PartialEq, Eq)]
pub struct Line {
    pub place: u32,
    pub shear: i32,
    pub alert: u16,
    pub voice: u16,
    pub command: Option<i32>,
    pub exact: bool,
}

// kept: the alert's number, as Answer has it for C and this crate's `Line` took any: an enum would ask more.
#[tactic(auto, unfolding(crate::specs::Text::alert_word))]
fn alert_word(out: &mut Writer<'_>, alert: u16)
    requires { HasRoom out.old 5 }
    ensures { Puts out.old (alert_word alert) out.new }
{
    match alert {
        0 => out.word(b"none"),
        1 => out.word(b"amber"),
        _ => out.word(b"red"),
    }
}

#[tactic(auto, using(text::proofs::TextLaws::signed_length), unfolding(crate::specs::Text::command_text))]
fn command_or_off(out: &mut Writer<'_>, command: Option<i32>)
    requires { HasRoom out.old 11 }
    ensures { Puts out.old (command_text command) out.new }
{
    match command {
        Some(command) => out.signed(command),
        None => out.word(b"off"),
    }
}

#[tactic(auto, unfolding(crate::specs::Text::float_word))]
fn float_word(out: &mut Writer<'_>, exact: bool)
    requires { HasRoom out.old 7 }
    ensures { Puts out.old (float_word exact) out.new }
{
    if exact {
        out.word(b"exact");
    } else {
        out.word(b"rounded");
    }
}

impl Line {
    // At most 55 bytes: the voice is a u16.
    #[tactic(auto, using(text::proofs::TextLaws::decimal_length, text::proofs::TextLaws::decimal_five, text::proofs::TextLaws::signed_length, crate::proofs::LineLaws::alert_length, crate::proofs::LineLaws::command_length, crate::proofs::LineLaws::float_length))]
    pub fn write(self, out: &mut Writer<'_>)
        requires { HasRoom out.old 55 }
        ensures { Puts out.old (line_text self.place self.shear self.alert self.voice self.command self.exact) out.new }
    {
        out.number(self.place);
        out.byte(b' ');
        out.signed(self.shear);
        out.byte(b' ');
        alert_word(out, self.alert);
        out.byte(b' ');
        out.number(u32::from(self.voice));
        out.byte(b' ');
        command_or_off(out, self.command);
        out.byte(b' ');
        float_word(out, self.exact);
        out.byte(b'\n');
    }
}

#[tactic(auto, unfolding(crate::specs::Text::header_text))]
pub fn header(out: &mut Writer<'_>)
    requires { HasRoom out.old 39 }
    ensures { Puts out.old header_text out.new }
{
    out.word(b"sample shear alert voice command float\n");
}

// A word, a number, a word, a number, and the line feed.
#[tactic(auto, using(text::proofs::TextLaws::decimal_length))]
fn two_numbers(out: &mut Writer<'_>, first: &[u8], m: u32, second: &[u8], n: u32)
    requires { HasRoom out.old (length first.now + length second.now + 21) }
    ensures { Puts out.old (first.now ++ decimal m ++ second.now ++ decimal n ++ line_feed) out.new }
{
    out.word(first);
    out.number(m);
    out.word(second);
    out.number(n);
    out.byte(b'\n');
}

#[tactic(auto, unfolding(crate::specs::Text::total_text))]
pub fn total(out: &mut Writer<'_>, red: u32, amber: u32)
    requires { HasRoom out.old 32 }
    ensures { Puts out.old (total_text red amber) out.new }
{
    two_numbers(out, b"red ", red, b" amber ", amber);
}

// kept: the refusal's number, which is what is printed, as any was taken.
#[tactic(auto, unfolding(crate::specs::Text::refused_text))]
pub fn refused(out: &mut Writer<'_>, n: u16, p: u32)
    requires { HasRoom out.old 33 }
    ensures { Puts out.old (refused_text n p) out.new }
{
    two_numbers(out, b"refused ", u32::from(n), b" at ", p);
}
