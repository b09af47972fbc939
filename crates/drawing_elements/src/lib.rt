// The elements of a sheet in SVG, each a template filled in with its numbers, and the sheets that show no tree.
//
// A refusal's number may be any u8 or usize: a `Refusal` in its place would ask more of callers. It and the offset beside it are two numbers of the
// line that is printed, as in `script_lines::put_no`, and a struct of both would be taken apart where they are printed.
#![tactic(auto)]

ghost use Rattle.std.specs.Prelude.{◌≡◌, ◌≤◌, ◌&&◌, leb, ltb, cond};
ghost use Rattle.text.specs.Appending.{Appends};
ghost use Rattle.text_templates.specs.Template.{bytes};
ghost use Rattle.drawing_elements.specs.Elements.{row, left_of, side_name, label_of, head, edge, mark, class_name, join, legend};
ghost use Rattle.drawing_elements.specs.Elements.{note, note_end, refused_end, nothing, fault_start, fault_words, fault_note, lack_text};
ghost use Rattle.drawing_elements.specs.Elements.{refusal as refusal_sheet};

use std::ops::Range;
use text::Text;
use text_templates::put_filled;
use topology_places::Role;

// Where an element stands on the sheet.
#[derive(Clone, Copy)]
pub struct Point {
    pub x: usize,
    pub y: usize,
}

// The row of a node.
pub fn row_of(node: u8) -> usize
    ensures { result ≡ row node }
{
    48 + 16 * usize::from(node)
}

// The two sides of a sheet.
#[derive(Clone, Copy)]
pub enum Side {
    Source,
    Chip,
}

impl Side {
    // Where the root stands.
    pub fn left(self) -> usize
        ensures { (result ≡ left_of self) × (result ≤ 446) }
    {
        match self {
            Side::Source => 24,
            Side::Chip => 446,
        }
    }

    fn name(self) -> &'static [u8]
        ensures { result.now ≡ side_name self }
    {
        match self {
            Side::Source => b"source",
            Side::Chip => b"chip",
        }
    }

    // The label above a tree: a whole text for each side, since from `left` and `name` it would have to be put together of five parts.
    pub fn label(self) -> &'static [u8]
        ensures { result.now ≡ label_of self }
    {
        match self {
            Side::Source => b"<g><text class='label' x='24' y='32'>source</text>\n",
            Side::Chip => b"<g><text class='label' x='446' y='32'>chip</text>\n",
        }
    }
}

// The head of a sheet with a number of rows: its size, the styles of its parts, and a white ground.
pub fn put_head(text: &mut Text<'_>, rows: u8)
    ensures { Appends text.old (head rows) text.new }
{
    let rows = usize::from(rows);
    put_filled(
        text,
        b"<svg xmlns='http://www.w3.org/2000/svg' width='190mm' height='#mm' viewBox='0 0 760 #'><style>\n",
        &[20 + 4 * rows, 80 + 16 * rows],
    );
    text.put_word(
        b"text{font:10px sans-serif;text-anchor:middle}path{fill:none;stroke:black}ellipse{fill:white;stroke:black}\n",
    );
    text.put_word(
        b".label,.note{font-size:12px}.label,.note,.joins text,.legend text{text-anchor:start}\n",
    );
    text.put_word(
        b".joins g{color:midnightblue}.joins g:nth-child(3n){color:maroon}.joins g:nth-child(3n+1){color:darkgreen}\n",
    );
    text.put_word(
        b".joins path{stroke:currentColor}.joins text{fill:currentColor}.fault{fill:firebrick;stroke:none}.fault+text{fill:white}\n",
    );
    text.put_word(
        b".passed{stroke-dasharray:1 2}.image{fill:lightcyan;stroke-width:2}.between{stroke-dasharray:4 2}.unused{fill:lightgrey;stroke:none}\n",
    );
    text.put_word(
        b".legend text{fill:black}</style><rect width='100%' height='100%' fill='white'/>\n",
    );
}

// The edge to a node in a row: from a point down the trunk, and right to the node; and the node's child number at it.
#[tactic(auto, unfolding(crate::specs::Elements::edge))]
pub fn put_edge(text: &mut Text<'_>, from: Point, row: usize, child: usize)
    ensures { Appends text.old (edge from.x from.y row child) text.new }
{
    put_filled(
        text,
        b"<path d='M#,#V#h30'/><text x='#' y='#' dx='12' dy='-2'>#</text>\n",
        &[from.x, from.y, row, from.x, row, child],
    );
}

// An ellipse of a class with the node's number in it. The class may be any word, one of `class_name` or another.
pub fn put_mark(text: &mut Text<'_>, class: &[u8], at: Point, node: usize)
    ensures { Appends text.old (mark class.now at.x at.y node) text.new }
{
    text.put_word(b"<ellipse class='");
    text.put_word(class);
    put_filled(
        text,
        b"' cx='#' cy='#' rx='9' ry='7'/><text x='#' y='#' dy='4'>#</text>\n",
        &[at.x, at.y, at.x, at.y, node],
    );
}

// The class of a node by its role.
fn class_name(role: Role) -> &'static [u8]
    ensures { result.now ≡ class_name role }
{
    match role {
        Role::Plain => b"plain",
        Role::Passed => b"passed",
        Role::Image => b"image",
        Role::Between => b"between",
        Role::Unused => b"unused",
    }
}

// A node's ellipse: one of the marked nodes has a class of its own, and another that of its role.
pub fn put_node(text: &mut Text<'_>, marked: &Range<usize>, role: Role, at: Point, node: usize)
    ensures { Appends text.old
        (cond (leb marked.now.start node && ltb node marked.now.end) (mark (bytes "fault") at.x at.y node) (mark (class_name role) at.x at.y node))
        text.new }
{
    if marked.contains(&node) {
        put_mark(text, b"fault", at, node);
    } else {
        put_mark(text, class_name(role), at, node);
    }
}

// The line from a source node to its image on the chip, and the number of each beside the other.
pub fn put_join(text: &mut Text<'_>, from: Point, to: Point, node: usize, image: usize)
    ensures { Appends text.old (join from.x from.y to.x to.y node image) text.new }
{
    put_filled(
        text,
        b"<g><path d='M#,#m40,0H304L430,#H#'/><text x='#' y='#' dx='12' dy='4'>at #</text>",
        &[from.x, from.y, to.y, to.x, from.x, from.y, image],
    );
    put_filled(
        text,
        b"<text x='#' y='#' dx='12' dy='4'>for #</text></g>\n",
        &[to.x, to.y, node],
    );
}

// The looks of nodes with their words, behind the last row.
pub fn put_legend(text: &mut Text<'_>, rows: u8)
    ensures { Appends text.old (legend rows) text.new }
{
    put_filled(
        text,
        b"<g class='legend' transform='translate(0,#)'>\n",
        &[8 + row_of(rows)],
    );
    text.put_word(
        b"<ellipse class='plain' cx='24' rx='9' ry='7'/><text x='37' dy='4'>node</text>\n",
    );
    text.put_word(
        b"<ellipse class='passed' cx='94' rx='9' ry='7'/><text x='107' dy='4'>passed over</text>\n",
    );
    text.put_word(
        b"<ellipse class='image' cx='198' rx='9' ry='7'/><text x='211' dy='4'>image</text>\n",
    );
    text.put_word(
        b"<ellipse class='between' cx='273' rx='9' ry='7'/><text x='286' dy='4'>above an image</text>\n",
    );
    text.put_word(
        b"<ellipse class='unused' cx='394' rx='9' ry='7'/><text x='407' dy='4'>unused</text>\n",
    );
    text.put_word(
        b"<ellipse class='fault' cx='474' rx='9' ry='7'/><text x='487' dy='4'>see note</text></g>\n",
    );
}

// The start of a note: a refusal's number, and the offset of the command refused.
#[tactic(auto, unfolding(crate::specs::Elements::note))]
pub fn put_note(text: &mut Text<'_>, number: usize, offset: usize)
    ensures { Appends text.old (note number offset) text.new }
{
    put_filled(
        text,
        b"<text class='note' x='24' y='14'>no # #",
        &[number, offset],
    );
}

// The end of a note and of the sheet.
pub fn put_note_end(text: &mut Text<'_>)
    ensures { Appends text.old note_end text.new }
{
    text.put_word(b"</text>\n</svg>\n");
}

// The end of a sheet, with a refusal before it.
fn put_refused(text: &mut Text<'_>, number: u8, offset: usize)
    ensures { Appends text.old (refused_end number offset) text.new }
{
    put_note(text, usize::from(number), offset);
    put_note_end(text);
}

// A refusal alone: its number, and the offset of the command refused.
pub fn draw_refusal(text: &mut Text<'_>, number: u8, offset: usize)
    ensures { Appends text.old (refusal_sheet number offset) text.new }
{
    put_head(text, 0);
    put_refused(text, number, offset);
}

// The sheet of a script that ends before 04.
pub fn draw_nothing(text: &mut Text<'_>)
    ensures { Appends text.old nothing text.new }
{
    put_head(text, 0);
    text.put_word(b"<text class='note' x='24' y='14'>nothing to draw</text>\n</svg>\n");
}

// What is wrong with a tree's bytes at a node, by the number of the refusal: the words before the tree's name.
// By the numbers, as above: 1 is `Incomplete`, 2 `Excess`, 3 `TooManyNodes`, 4 `TooManyChildren`, and 5 `TooDeep`, whose words any other number gets.
fn fault_start(number: u8) -> &'static [u8]
    ensures { result.now ≡ fault_start number }
{
    match number {
        0..=2 => b": the ",
        _ => b": node # of the ",
    }
}

// The words after it.
fn fault_words(number: u8) -> &'static [u8]
    ensures { result.now ≡ fault_words number }
{
    match number {
        1 => b" ends before it is complete",
        2 => b" is complete before node #",
        3 => b" is one too many",
        4 => b" has more than 8 children",
        _ => b" lies 9 steps down",
    }
}

// The refusal of a tree at fault, in words, and the end of the sheet.
pub fn put_fault_note(text: &mut Text<'_>, side: Side, number: u8, offset: usize, node: usize)
    ensures { Appends text.old (fault_note side number offset node) text.new }
{
    put_note(text, usize::from(number), offset);
    put_filled(text, fault_start(number), &[node]);
    text.put_word(side.name());
    put_filled(text, fault_words(number), &[node]);
    put_note_end(text);
}

// What the branch under a node lacks that fits nowhere on the chip: depth for a leaf, leaves, or room for the branches below it.
// `Diagnosis` in embedding_diagnosis has these three cases and two without such a node, in which `put_lack` would have nothing to say.
#[derive(Clone, Copy)]
pub enum Lack {
    Depth { needed: usize, there: usize },
    Leaves { needed: usize, there: usize },
    Room,
}

// What the branch under a node lacks, in words.
#[tactic(auto, unfolding(crate::specs::Elements::depth_text, crate::specs::Elements::leaves_text, crate::specs::Elements::room_text))]
pub fn put_lack(text: &mut Text<'_>, node: usize, lack: Lack)
    ensures { Appends text.old (lack_text node lack) text.new }
{
    match lack {
        Lack::Depth { needed, there } => put_filled(
            text,
            b": node # needs # levels above it, the chip has #",
            &[node, needed, there],
        ),
        Lack::Leaves { needed, there } => put_filled(
            text,
            b": the branch of node # has # leaves, a chip branch where it may go at most #",
            &[node, needed, there],
        ),
        Lack::Room => put_filled(
            text,
            b": the branches below node # do not fit side by side",
            &[node],
        ),
    }
}
