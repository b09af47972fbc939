// The sheet: both trees of a pair and the map between them as one page in SVG. The source is on the left and the chip on the right, with a row for
// each node number and a column for each step below the root.
//
// A refusal and its command's offset are no struct, for the reason in drawing_elements: they are printed as two numbers.
#![tactic(auto)]

ghost use Rattle.std.specs.Prelude.{◌≡◌, ◌<◌, ◌≤◌, length};
ghost use Rattle.std.specs.Option.{unwrap_or};
ghost use Rattle.refusal.specs.Numbers.{number};
ghost use Rattle.text.specs.Text.{Puts};
ghost use Rattle.text.specs.Appending.{Appends};
ghost use Rattle.drawing_elements.specs.Elements.{row, left_of};
ghost use Rattle.drawing_svg.specs.Sheet.{column, each, edge_of, role_in, node_of, tree_of, join_of, joins_of, pair_of};
ghost use Rattle.drawing_svg.specs.Sheet.{fault_of, fault_sheet, misfit_of, misfit_sheet, mapped_sheet, sheet, script_sheet};
ghost use Rattle.embedding_diagnosis.specs.Diagnosis.{diagnosis};

use drawing_elements::{
    Lack, Point, Side, draw_nothing, draw_refusal, put_edge, put_fault_note, put_head, put_join,
    put_lack, put_legend, put_node, put_note, put_note_end, row_of,
};
use embedding_diagnosis::{Diagnosis, why};
use embedding_least::least_map;
use queue_limit::check_limit;
use refusal::Refusal;
use script_setup::{Drawing, Ending, Gathered, gathered_of};
use std::ops::Range;
use text::Text;
use topology::{SOURCE_NODES, TARGET_NODES, read};
use topology_branches::branch_end;
use topology_places::{Role, child_number, depth, parent, role_of, source_role, trunk_from};
use topology_reading::accepted_bytes;
use topology_reduction::PASSED_OVER;

// The column of a node on a side of the sheet.
#[tactic(auto, using(topology_places::proofs::Counted::bounds))]
fn column_of(side: Side, bytes: &[u8], node: u8) -> usize
    ensures { result ≡ column (left_of side) bytes.now node }
{
    side.left() + 30 * depth(bytes, usize::from(node))
}

// Where a node stands on a side of the sheet.
fn point_of(side: Side, bytes: &[u8], node: u8) -> Point
    ensures x { result.x ≡ column (left_of side) bytes.now node }
    ensures y { result.y ≡ row node }
{
    Point {
        x: column_of(side, bytes, node),
        y: row_of(node),
    }
}

// A tree on its side of the sheet, with the images of a map and the range of the nodes that are marked.
#[derive(Drop)]
struct Tree<'a> {
    side: Side,
    bytes: &'a [u8],
    images: &'a [u8],
    marked: Range<usize>,
    ghost few: { length bytes.now ≤ 65 },
}

impl Tree<'_> {
    // The edge to a node down its parent's trunk; nothing for a node with none above it.
    #[tactic(auto, using(topology_places::proofs::Counted::bounds, text::proofs::Appending::appends_none), unfolding(crate::specs::Sheet::edge_of))]
    fn put_edge(&self, text: &mut Text<'_>, node: u8)
        ensures { Appends text.old (edge_of (left_of self.now.side) self.now.bytes.now node) text.new }
    {
        let place = usize::from(node);
        if depth(self.bytes, place) > 0 {
            // The casts of this file lose nothing, and a `try_from` would give a Result that is never an error.
            let above = parent(self.bytes, place) as u8;
            let trunk = trunk_from(self.bytes, place) as u8;
            let from = Point {
                x: column_of(self.side, self.bytes, above),
                y: row_of(trunk),
            };
            let child = child_number(self.bytes, place);
            put_edge(text, from, row_of(node), child);
        }
    }

    // The role of a node on this side.
    fn role(&self, node: usize) -> Role
        requires { node < length self.now.bytes.now }
        ensures { result ≡ role_in self.now.side self.now.bytes.now self.now.images.now node }
    {
        match self.side {
            Side::Source => source_role(self.bytes[node]),
            Side::Chip => role_of(self.bytes, self.images, node),
        }
    }

    // A node, marked or in the style of its role.
    fn put_node(&self, text: &mut Text<'_>, node: u8)
        requires { node < length self.now.bytes.now }
        ensures { Appends text.old
            (node_of self.now.side self.now.bytes.now self.now.images.now self.now.marked.start self.now.marked.end node) text.new }
    {
        let at = point_of(self.side, self.bytes, node);
        let place = usize::from(node);
        put_node(text, &self.marked, self.role(place), at, place);
    }

    // The tree with its label: all edges, then all nodes, which cover the ends of the edges.
    fn put(&self, text: &mut Text<'_>)
        ensures { Appends text.old
            (tree_of self.now.side self.now.bytes.now self.now.images.now self.now.marked.start self.now.marked.end) text.new }
    {
        let nodes = self.bytes.len() as u8;
        text.put_word(self.side.label());
        for node in 0..nodes {
            self.put_edge(text, node);
        }
        for node in 0..nodes {
            self.put_node(text, node);
        }
        text.put_word(b"</g>\n");
    }
}

// Both trees of a drawing, and the images of a map from the source to the target; no images without a map.
#[derive(Drop)]
struct Pair<'a> {
    drawing: &'a Drawing,
    images: &'a [u8],
    ghost few: { length images.now ≤ 64 },
}

impl Pair<'_> {
    // The line from a source node to its image; nothing for a node that is passed over.
    #[tactic(auto, using(text::proofs::Appending::appends_none), unfolding(crate::specs::Sheet::join_of))]
    fn put_join(&self, text: &mut Text<'_>, node: u8, image: u8)
        ensures { Appends text.old (join_of self.now.drawing.now.source.items self.now.drawing.now.target.items node image) text.new }
    {
        if image != PASSED_OVER {
            let from = point_of(Side::Source, self.drawing.source.as_slice(), node);
            let to = point_of(Side::Chip, self.drawing.target.as_slice(), image);
            put_join(text, from, to, usize::from(node), usize::from(image));
        }
    }

    // The lines from the source nodes to their images.
    fn put_joins(&self, text: &mut Text<'_>)
        ensures { Appends text.old
            (joins_of self.now.drawing.now.source.items self.now.drawing.now.target.items self.now.images.now) text.new }
    {
        text.put_word(b"<g class='joins'>\n");
        for (node, &image) in self.images.iter().enumerate() {
            self.put_join(text, node as u8, image);
        }
        text.put_word(b"</g>\n");
    }

    // Both trees and the lines between them. A range of the source's nodes is marked.
    fn put(&self, text: &mut Text<'_>, marked: Range<usize>)
        ensures { Appends text.old
            (pair_of self.now.drawing.now.source.items self.now.drawing.now.target.items self.now.images.now marked.start marked.end) text.new }
    {
        let source = self.drawing.source.as_slice();
        let target = self.drawing.target.as_slice();
        let rows = source.len().max(target.len()) as u8;
        put_head(text, rows);
        self.put_joins(text);
        let left = Tree {
            side: Side::Source,
            bytes: source,
            images: self.images,
            marked,
        };
        left.put(text);
        let right = Tree {
            side: Side::Chip,
            bytes: target,
            images: self.images,
            marked: 0..0,
        };
        right.put(text);
        put_legend(text, rows);
    }
}

// A tree at fault, as far as it was read, with the byte at fault marked, and the refusal in words.
#[tactic(auto, using(topology_reading::proofs::FirstFault::accepted_few))]
fn put_fault(
    text: &mut Text<'_>,
    side: Side,
    bytes: &[u8],
    limit: usize,
    refusal: Refusal,
    offset: usize,
)
    requires { limit ≤ 64 }
    ensures { Appends text.old (fault_of side limit bytes.now (number refusal) offset) text.new }
{
    let node = accepted_bytes(bytes, limit);
    let part = &bytes[..(node + 1).min(bytes.len())];
    let rows = part.len() as u8;
    put_head(text, rows);
    let tree = Tree {
        side,
        bytes: part,
        images: &[],
        marked: node..node + 1,
    };
    tree.put(text);
    put_legend(text, rows);
    put_fault_note(text, side, refusal.into(), offset, node);
}

// The sheet of the tree at fault, the source first.
fn draw_fault(text: &mut Text<'_>, drawing: &Drawing, refusal: Refusal, offset: usize)
    ensures { Appends text.old (fault_sheet drawing.now.source.items drawing.now.target.items (number refusal) offset) text.new }
{
    let source = drawing.source.as_slice();
    let target = drawing.target.as_slice();
    match read(source, SOURCE_NODES) {
        Ok(()) => put_fault(text, Side::Chip, target, TARGET_NODES, refusal, offset),
        Err(_) => put_fault(text, Side::Source, source, SOURCE_NODES, refusal, offset),
    }
}

// The sheet of a pair without a map: both trees, the branch under a node marked that fits nowhere, and what it lacks.
fn put_misfit(text: &mut Text<'_>, drawing: &Drawing, node: usize, lack: Lack, offset: usize)
    ensures { Appends text.old (misfit_of drawing.now.source.items drawing.now.target.items node lack offset) text.new }
{
    let marked = node..branch_end(drawing.source.as_slice(), node);
    let pair = Pair {
        drawing,
        images: &[],
    };
    pair.put(text, marked);
    put_note(text, usize::from(u8::from(Refusal::NoMap)), offset);
    put_lack(text, node, lack);
    put_note_end(text);
}

// The sheet of a pair without a map, by why there is none.
fn draw_misfit(text: &mut Text<'_>, drawing: &Drawing, offset: usize)
    ensures { Appends text.old
        (misfit_sheet (diagnosis drawing.now.source.items drawing.now.target.items) drawing.now.source.items drawing.now.target.items offset)
        text.new }
{
    match why(drawing.source.as_slice(), drawing.target.as_slice()) {
        Diagnosis::Loads | Diagnosis::Refused(_) => {
            draw_refusal(text, Refusal::NoMap.into(), offset);
        }
        Diagnosis::TooDeep(node, needed, there) => {
            let lack = Lack::Depth { needed, there };
            put_misfit(text, drawing, node, lack, offset);
        }
        Diagnosis::TooManyLeaves(node, needed, there) => {
            let lack = Lack::Leaves { needed, there };
            put_misfit(text, drawing, node, lack, offset);
        }
        Diagnosis::NotTogether(node) => {
            put_misfit(text, drawing, node, Lack::Room, offset);
        }
    }
}

// The sheet of a pair with a map: both trees and the map, or the refusal of the drawing's limit.
fn draw_mapped(text: &mut Text<'_>, pair: &Pair<'_>, offset: usize)
    ensures { Appends text.old
        (mapped_sheet pair.now.drawing.now.source.items pair.now.drawing.now.target.items pair.now.images.now
        (unwrap_or pair.now.drawing.now.limit 0) offset) text.new }
{
    match check_limit(pair.drawing.limit.unwrap_or(0) as usize) {
        Ok(()) => {
            pair.put(text, 0..0);
            text.put_word(b"</svg>\n");
        }
        Err(refusal) => draw_refusal(text, refusal.into(), offset),
    }
}

// The sheet of an 04 at `offset`: both trees with the least map between them, or the limit's refusal; without a map the trees and why there is none;
// for a tree at fault that tree and the refusal.
#[tactic(auto, unfolding(crate::specs::Sheet::sheet))]
fn draw(text: &mut Text<'_>, drawing: &Drawing, offset: usize)
    ensures { Appends text.old
        (sheet drawing.now.source.items drawing.now.target.items (unwrap_or drawing.now.limit 0) offset) text.new }
{
    let source = drawing.source.as_slice();
    match least_map(source, drawing.target.as_slice()) {
        Ok(map) => {
            let images = &map[..source.len()];
            draw_mapped(text, &Pair { drawing, images }, offset);
        }
        Err(Refusal::NoMap) => draw_misfit(text, drawing, offset),
        Err(refusal) => draw_fault(text, drawing, refusal, offset),
    }
}

// The sheet of a script: of its 04, of a refusal before that, or of nothing.
pub fn draw_script(script: &[u8], out: &mut [u8]) -> usize
    ensures { Puts out.old 0 (script_sheet script.now) out.new result }
{
    let mut text = Text::new(out);
    put_sheet(&mut text, script);
    text.place()
}

// The same behind a text.
fn put_sheet(text: &mut Text<'_>, script: &[u8])
    ensures { Appends text.old (script_sheet script.now) text.new }
{
    let Gathered { drawing, ending } = gathered_of(script);
    match ending {
        Ending::End => draw_nothing(text),
        Ending::Refused(refusal, offset) => draw_refusal(text, refusal.into(), offset),
        Ending::Compile(at) => draw(text, &drawing, at),
    }
}
