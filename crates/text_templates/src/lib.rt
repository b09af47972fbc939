// Templates: text in which each `#` stands for a number, filled in and put into a caller's buffer. They stand for `write!`, which promises its text
// only where it answers `Ok`, and not when it does.
#![tactic(auto)]

ghost use Rattle.text.specs.Appending.{Appends};
ghost use Rattle.text_templates.specs.Template.{filled};

use text::Text;

// A template filled in with numbers; 0 if there are too few.
pub fn put_filled(text: &mut Text<'_>, template: &[u8], numbers: &[usize])
    ensures { Appends text.old (filled template.now numbers.now 0) text.new }
{
    let mut left = numbers.iter();
    for &byte in template {
        if byte == b'#' {
            text.put_decimal(left.next().copied().unwrap_or(0));
        } else {
            text.put(byte);
        }
    }
}
