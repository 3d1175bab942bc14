//! The `in` lines of a basin's nodes, spelled once, so that bytes are compared with one of them at once.
ghost use Rattle.std.specs.Prelude.{◌≡◌, ◌<◌, ◌++◌, ◌∷◌, [], length, codes, IfOk, IfSome, OnOk};
ghost use Rattle.water_model.specs.Valid.{IsValidBasin};
ghost use Rattle.result_reader.specs.NodeLines.{AreNodeLines, member_text};

use std::alloc::{AllocError, Global};
use water_model::space::{Space, count_in, name_in};
use water_model::types::Basin;

/// Where a line stands in a text.
#[derive(Clone, Copy)]
pub struct Span {
    pub start: u32,
    pub end: u32,
}

/// The `in` lines of a basin's nodes, each with its line feed, one after another.
#[derive(Drop)]
pub struct NodeLines<'b> {
    basin: &'b Basin,
    text: Vec<u8>,
    spans: Vec<Span>,
    ghost count: { length spans.items ≡ length basin.now.nodes },
    ghost lines: { AreNodeLines basin.now text.items spans.items },
}

/// Adds the `in` line of a name.
fn add_line(text: &mut Vec<u8>, name: &[u8]) -> Result<(), AllocError>
    ensures { OnOk result (text.new.items ≡ text.old.items ++ (codes "in " ++ (name.now ++ (10 ∷ [])))) }
{
    text.extend_from_slice(b"in ")?;
    text.extend_from_slice(name)?;
    text.push(b'\n')?;
    Ok(())
}

impl<'b> NodeLines<'b> {
    /// The lines of this basin.
    pub fn of(alloc: Global, basin: &'b Basin) -> Result<NodeLines<'b>, AllocError>
        requires { IsValidBasin basin.now }
        ensures { IfOk result (λ lines. lines.basin.now ≡ basin.now) }
    {
        let mut text = Vec::new(alloc);
        let mut spans = Vec::new(alloc);
        for node in 0..count_in(Space::Nodes, basin) {
            let start = text.len() as u32;
            add_line(&mut text, name_in(Space::Nodes, basin, node).bytes())?;
            spans.push(Span {
                start,
                end: text.len() as u32,
            })?;
        }
        Ok(NodeLines { basin, text, spans })
    }

    /// The line of the node at an index, which may be any number, with its line feed, if there is one.
    pub fn line(&self, node: u32) -> Option<&[u8]>
        ensures within { IfSome result (λ line. node < length self.now.basin.now.nodes) }
        ensures line { IfSome result (λ line. line.now ≡ member_text self.now.basin.now node) }
    {
        if (node as usize) < self.spans.len() {
            let span = self.spans[node as usize];
            Some(&self.text[span.start as usize..span.end as usize])
        } else {
            None
        }
    }
}
