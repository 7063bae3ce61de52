//! A line of a script explained, and answered.
ghost use Rattle.vt_line.specs.Versions.{version_of};
ghost use Rattle.vt_answers.specs.Ends.{HasNumbers};
ghost use Rattle.vt_script.specs.Session.{IsLeftBy};
ghost use Rattle.vt_calls.specs.KernelValue.{kernel_world};

use crate::causes::told_of_line;
use crate::head::{Asked, Numbered, push_head};
use crate::refused::{Refused, push_refused};
use crate::sealed::told_of_sealed;
use std::alloc::{AllocError, Global};
use vt_calls::Kernel;
use vt_causes::asked::{first_path, overlay_options, second_path};
use vt_causes::{Walked, Walks};
use vt_check::check::Format;
use vt_check::draft::Draft;
use vt_lines::told::{Teller, answer_told};
use vt_ns::World;
use vt_request::{Answer, Call, CallKind, TaskName, WriteCall};
use vt_script::Version;
use vt_sections::causes::Told;
use vt_sections::changes::{Sides, push_changes};
use vt_sections::layers::push_layers;
use vt_sections::walked::{View, push_walk};
use vt_show::picture::Picture;
use vt_show::tasks::{push_task, push_task_object};
use vt_spec::errors::{Deny, Rule};

// Where the path leads that a call walks first: to an open file, where it names one in the place of a path.
fn first_walk(
    view: View<'_>,
    call: &Call<'_>,
    format: Format,
    text: &mut Draft,
    halt: &mut Vec<u8>,
) -> Option<Walked> {
    if let Call::Write(WriteCall::Pwrite { descriptor, .. }) = call {
        let file = view.who.descriptors.get(*descriptor)?;
        return Some(Walked {
            end: Some(file.location),
            directory: file.location,
            stopped: None,
        });
    }
    push_walk(view, first_path(call)?, format, text, halt)
}

// Appends who calls, and where the paths of the call lead.
fn push_before(
    view: View<'_>,
    call: &Call<'_>,
    format: Format,
    text: &mut Draft,
    halt: &mut Vec<u8>,
) -> Walks {
    match format {
        Format::Text => {
            text.push("\n");
            push_task(view.world, text, view.who);
        }
        Format::Json => push_task_object(view.world, text, view.who),
    }
    let mut walks = Walks::new();
    walks.first = first_walk(view, call, format, text, halt);
    if let Some(path) = second_path(call) {
        walks.second = push_walk(view, path, format, text, halt);
    }
    // The walks to the layers follow that to the destination.
    if let (Some(Ok(options)), Some(_)) = (overlay_options(call), walks.first_end()) {
        walks.layer = push_layers(view, options, format, text, halt);
    }
    walks
}

// A granted call, where its walks came to, and the mounts before it.
#[derive(Clone, Copy)]
struct Granted<'a> {
    asked: Asked<'a>,
    call: CallKind,
    walks: Walks,
    before: &'a Picture,
}

// Appends what a granted call has changed.
fn push_effect(granted: Granted<'_>, world: &World, text: &mut Draft) {
    let Asked { alloc, format, .. } = granted.asked;
    let mut after = Picture::new(alloc);
    after.fill(world);
    if granted.before.failed || after.failed {
        text.fail();
    }
    let sides = Sides {
        call: granted.call,
        before: granted.before,
        after: &after,
        aim: match granted.walks.last_end() {
            Some(end) => Some(end.mount),
            None => None,
        },
    };
    push_changes(alloc, format, sides, text);
    after.end();
}

// A line as it is explained: what was told of it so far.
#[derive(Drop)]
struct Explanation<'a> {
    asked: Asked<'a>,
    // What is told before the call is made, where the walks along its paths came to, and the last word of the first that
    // leads nowhere.
    before: Draft,
    walks: Walks,
    halt: Vec<u8>,
    // Why the tasks that a line asks about are not sealed off.
    unsealed: Option<Told>,
    // The mounts before the call.
    picture: &'a mut Picture,
    text: Draft,
}

impl Explanation<'_> {
    // Looks why tasks are not sealed off, if the line asks that.
    fn look(&mut self, world: &World) {
        match told_of_sealed(self.asked, world) {
            Ok(told) => self.unsealed = told,
            Err(_) => self.text.fail(),
        }
    }
}

impl Teller<Kernel> for Explanation<'_> {
    fn before(&mut self, kernel: &Kernel, name: &TaskName, call: &Call<'_>) {
        let world = kernel.world();
        self.picture.fill(world);
        if let Some(who) = world.task(name) {
            let view = View { world, who };
            let (before, halt) = (&mut self.before, &mut self.halt);
            self.walks = push_before(view, call, self.asked.format, before, halt);
        }
    }

    fn after(
        &mut self,
        kernel: &Kernel,
        name: TaskName,
        kind: CallKind,
        outcome: &Result<Answer, Deny>,
    ) {
        let (asked, world) = (self.asked, kernel.world());
        match outcome {
            Ok(_) => {
                push_head(asked, outcome, &[], None, &mut self.text);
                self.text.push_draft(&self.before);
                let granted = Granted {
                    asked,
                    call: kind,
                    walks: self.walks,
                    before: &*self.picture,
                };
                push_effect(granted, world, &mut self.text);
            }
            Err(deny) => {
                let refused = Refused {
                    asked,
                    world,
                    name: &name,
                    kind,
                    outcome,
                    rule: deny.rule,
                    walks: self.walks,
                    halt: self.halt.as_slice(),
                    before: &self.before,
                    picture: &*self.picture,
                };
                push_refused(refused, &mut self.text);
            }
        }
    }

    fn alone(&mut self, outcome: &Result<Answer, Deny>) {
        let asked = self.asked;
        let told = match outcome {
            Err(deny) if deny.rule == Rule::S1 => {
                Some(told_of_line(asked.version, asked.alloc, asked.line.text))
            }
            _ => self.unsealed.take(),
        };
        push_head(asked, outcome, &[], told, &mut self.text);
    }
}

/// Explains a line in the world before it, and answers it: the world is then the one that a run has behind the line.
///
/// Of a line without an answer nothing is told.
pub fn explain(
    version: Version,
    alloc: Global,
    kernel: &mut Kernel,
    line: Numbered<'_>,
    format: Format,
) -> Result<String, AllocError>
    ensures { HasNumbers (kernel_world kernel.old)
        → IsLeftBy (version_of version) (kernel_world kernel.old) line.entry.text.now (kernel_world kernel.new) }
{
    let mut picture = Picture::new(alloc);
    let mut explanation = Explanation {
        asked: Asked {
            version,
            alloc,
            line,
            format,
        },
        before: Draft::new(alloc),
        walks: Walks::new(),
        halt: Vec::new(alloc),
        unsealed: None,
        picture: &mut picture,
        text: Draft::new(alloc),
    };
    explanation.look(kernel.world());
    answer_told(version, alloc, kernel, line.text, &mut explanation);
    let told = explanation.text.end();
    drop(explanation.before);
    drop(explanation.unsealed);
    drop(explanation.halt);
    picture.end();
    told
}
