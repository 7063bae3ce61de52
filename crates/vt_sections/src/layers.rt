//! Where the layers of an overlay that is to be mounted lead.
use crate::report::{Heads, Section};
use crate::walked::{View, push_walk};
use vt_causes::Walked;
use vt_causes::asked::{Last, PathAsked};
use vt_check::check::Format;
use vt_check::draft::Draft;
use vt_location::Location;
use vt_options::LayerOptions;
use vt_spec::errors::Deny;
use vt_text::path::PathText;
use vt_walk::source_walk;

static HEADS: Heads = Heads {
    title: "LAYERS",
    kind: "layer",
    words: &["LAYER", "PATH", "LEADS TO"],
    members: &["at", "stopped"],
};

// Where the path of a layer leads.
fn reached(view: View<'_>, path: &[u8]) -> Result<Location, Deny> {
    source_walk(view.world, view.who, &PathText::parse(path)?)
}

// Adds the layers of these options, each by its place from the top, up to the first one to which the walk is refused,
// and returns that one's path.
fn add_layers<'a>(
    view: View<'_>,
    section: &mut Section,
    options: &LayerOptions<'a>,
) -> Option<&'a [u8]> {
    let mut paths = options.lowers();
    let mut place: u64 = 0;
    while let Some(path) = paths.next() {
        place = place.saturating_add(1);
        section.add_number("layer", place);
        section.add_bytes("path", "", path);
        match reached(view, path) {
            Ok(at) => section.add_place(view.world, "at", at),
            Err(deny) => {
                section.add_stop(deny.rule);
                section.end_row();
                return Some(path);
            }
        }
        section.end_row();
    }
    None
}

/// Appends where the layers of these options lead, then the walk to the first one that is refused, if one is; and
/// returns where that walk came to.
pub fn push_layers(
    view: View<'_>,
    options: &LayerOptions<'_>,
    format: Format,
    text: &mut Draft,
    halt: &mut Vec<u8>,
) -> Option<Walked> {
    let mut section = Section::new(view.world.alloc(), format, &HEADS);
    let refused = add_layers(view, &mut section, options);
    section.write(b"", text);
    let path = PathAsked {
        text: refused?,
        last: Last::Object,
    };
    push_walk(view, path, format, text, halt)
}
