//! What a picture shows of a committed instance.

ghost use Rattle.std.specs.Prelude.{◌≡◌};
ghost use Rattle.epx_picture.specs.PictureText.{style_text};

use epx_types::Id;
use std::fmt;

/// What the box of a committed instance shows.
#[derive(Clone, Copy, Debug, PartialEq, Eq)]
pub struct NodeBox {
    pub id: Id,
    pub seq: u64,
    pub depth: usize,
    /// The leader of its component, if the component has another member.
    pub cluster: Option<Id>,
    pub waits: bool,
}

/// What follows the label of a box.
fn style_of(waits: bool) -> &'static str
    ensures { result.now ≡ style_text waits }
{
    if waits { ", style=dashed" } else { "" }
}

impl fmt::Display for NodeBox {
    ghost use Rattle.std.specs.Prelude.{Some};
    ghost use Rattle.epx_picture.specs.PictureText.{box_text};

    ghost output = { λ node_box. Some (box_text node_box) };

    fn fmt<W: fmt::Write>(&self, f: &mut fmt::Formatter<W>) -> fmt::Result {
        let NodeBox { id, seq, depth, .. } = *self;
        let style = style_of(self.waits);
        write!(
            f,
            "\"{id}\" [label=\"{id}\\ndepth {depth}, seq {seq}\"{style}];"
        )
    }
}
