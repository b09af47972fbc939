// The lines that gatewalk prints.
#![tactic(auto)]

ghost use Rattle.text.specs.Appending.{Appends};
ghost use Rattle.script_lines.specs.Lines.{in_line, out_line, no_line, map_line};

use text::Text;
use text_templates::put_filled;

// The line of an accepted push: the packets held after it.
#[tactic(auto, unfolding(text_templates::specs::Template::filled, crate::specs::Lines::in_line))]
pub fn put_in(text: &mut Text<'_>, held: u32)
    ensures { Appends text.old (in_line held) text.new }
{
    // The cast loses nothing, and a `try_from` would give a Result that is never an error.
    put_filled(text, b"in #\n", &[held as usize]);
}

// The line of a pop: the packet that departs.
pub fn put_out(text: &mut Text<'_>, packet: u32)
    ensures { Appends text.old (out_line packet) text.new }
{
    text.put_word(b"out ");
    text.put_hex8(packet);
    text.put(b'\n');
}

// The line of a refusal: its number and the offset of the command refused.
// The number may be any u8: a `Refusal` in its place would ask more of callers.
#[tactic(auto, unfolding(text_templates::specs::Template::filled, crate::specs::Lines::no_line))]
pub fn put_no(text: &mut Text<'_>, number: u8, offset: usize)
    ensures { Appends text.old (no_line number offset) text.new }
{
    put_filled(text, b"no # #\n", &[usize::from(number), offset]);
}

// The line of a map: the images.
pub fn put_map(text: &mut Text<'_>, images: &[u8])
    ensures { Appends text.old (map_line images.now) text.new }
{
    text.put_word(b"map");
    for &image in images {
        text.put(b' ');
        text.put_decimal(usize::from(image));
    }
    text.put(b'\n');
}
