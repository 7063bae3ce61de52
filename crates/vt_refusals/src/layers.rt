//! Causes of the rules on the options and layers of an overlay.
use crate::refusal::Refusal;
use vt_causes::Cause;
use vt_causes::asked::overlay_options;
use vt_layers::MOST_LOWERS;
use vt_location::Location;
use vt_looks::Look;
use vt_ns::World;
use vt_options::LayerOptions;
use vt_spec::errors::Deny;
use vt_tasks::Task;
use vt_text::path::PathText;
use vt_walk::source_walk;

/// The least lower layers of an overlay without an upper one.
const LEAST_LOWERS: usize = 2;

// The first of these directories that is at, over or under another one.
fn overlapping(world: &World, one: Location, others: &[Location]) -> Option<Location> {
    for other in others {
        let is_beside = one.node.filesystem != other.node.filesystem;
        if !is_beside && (world.is_under(one, other.node) || world.is_under(*other, one.node)) {
            return Some(*other);
        }
    }
    None
}

// Where the path of a layer leads.
fn layer_at(world: &World, who: &Task, path: &[u8]) -> Result<Location, Deny> {
    source_walk(world, who, &PathText::parse(path)?)
}

// The first of these directories that are on an overlay.
fn overlaid(world: &World, layers: &[Location]) -> Option<Location> {
    for layer in layers {
        if world.is_overlay(*layer) {
            return Some(*layer);
        }
    }
    None
}

// Whether a text is an option, and none of an upper layer, which scripts do not have.
fn is_known(option: &[u8]) -> bool {
    match LayerOptions::parse(option) {
        Some(known) => known.upper().is_none(),
        None => false,
    }
}

// Words on an option that this version does not have.
fn words_of_option(option: &[u8]) -> &'static str {
    if option.starts_with(b"upperdir=") || option.starts_with(b"workdir=") {
        "`{word}` is of an upper layer, which is not in this version"
    } else {
        "`{word}` is no option of an overlay"
    }
}

impl<'a> Refusal<'a> {
    // Where the layers of these options lead, from the top; nothing where a walk is refused.
    fn layers(&self, options: &LayerOptions<'_>) -> Option<Vec<Location>> {
        let mut layers = Vec::new(self.world.alloc());
        let mut paths = options.lowers();
        while let Some(path) = paths.next() {
            let layer = layer_at(self.world, self.who, path).ok()?;
            layers.push(layer).ok()?;
        }
        Some(layers)
    }

    // The option that is none of an overlay, or of one with an upper layer.
    fn of_option(&self, options: &'a [u8]) -> Cause<'a> {
        for option in options.split(|byte| *byte == b',') {
            if !is_known(option) {
                return Cause {
                    word: option,
                    ..self.told(words_of_option(option))
                };
            }
        }
        self.told("the options are none of an overlay")
    }

    // How many layers there are, or the one that is on an overlay.
    fn of_layer(&self, layers: &[Location]) -> Option<Cause<'a>> {
        let count = layers.len();
        if count < LEAST_LOWERS {
            let words = "{count} layer is named, and {limit} are the least";
            return Some(self.told(words).counted(count, LEAST_LOWERS));
        }
        if count > MOST_LOWERS {
            let words = "{count} layers are named, and {limit} are the most";
            return Some(self.told(words).counted(count, MOST_LOWERS));
        }
        let layer = overlaid(self.world, layers)?;
        Some(self.told_of("the layer {at} is on an overlay", layer))
    }

    /// O2: the option, how many layers there are, or the layer that is on an overlay.
    pub(crate) fn of_options(&self) -> Option<Cause<'a>> {
        match overlay_options(self.call)? {
            Ok(options) => {
                let layers = self.layers(options)?;
                self.of_layer(&layers)
            }
            Err(text) => Some(self.of_option(text)),
        }
    }

    // Two of these layers that overlap.
    fn of_two_layers(&self, layers: &[Location]) -> Option<Cause<'a>> {
        for (index, one) in layers.iter().enumerate() {
            let others = layers.get(index.saturating_add(1)..).unwrap_or_default();
            if let Some(other) = overlapping(self.world, *one, others) {
                let cause = self.told_of("the layers {at} and {other} overlap", *one);
                return Some(cause.beside(other));
            }
        }
        None
    }

    /// O5: both layers.
    pub(crate) fn of_overlap(&self) -> Option<Cause<'a>> {
        let Ok(options) = overlay_options(self.call)? else {
            return None;
        };
        let layers = self.layers(options)?;
        self.of_two_layers(&layers)
    }
}
