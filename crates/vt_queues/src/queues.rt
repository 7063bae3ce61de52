//! The queues of tasks, and of `!`.
ghost use Rattle.std.specs.Prelude.{◌≡◌, ◌∷◌, [], IfErr, None, OnErr, OnOk, map, option_copied, option_map, position};
ghost use Rattle.vt_spec.specs.declared.errors.Rule.TheVariants.{S5};
ghost use Rattle.vt_spec.specs.Errors.{denial};
ghost use Rattle.vt_spec.specs.Lists.{first_of_list};
ghost use Rattle.vt_spec.specs.Machine.Turns.{queue_of, queued, same_who, shortened, with_item_last};
ghost use Rattle.vt_queues.specs.QueuesValue.{item_meant, queue_meant, queued_meant, queues_meant, who_meant};

use crate::item::{Item, Queued, Who};
use std::alloc::{AllocError, Global};
use std::collections::VecDeque;
use vt_spec::errors::Deny;

// The items of a task, or of `!`.
#[derive(Debug, Drop)]
struct Queue {
    who: Who,
    items: VecDeque<Queued>,
}

/// The lines that wait, those of each task and of `!` in a queue of their own.
#[derive(Debug, Drop)]
pub struct Queues {
    alloc: Global,
    queues: Vec<Queue>,
}

impl Queue {
    // Takes the first item away, if this is the queue of this task or of `!`.
    fn shorten(&mut self, who: &Who)
        ensures { queue_meant self.new ≡ shortened (who_meant who.now) (queue_meant self.old) }
    {
        if who.is(&self.who) {
            let _first = self.items.pop_front();
        }
    }
}

impl Queues {
    /// No queue. It does not allocate.
    pub fn new(alloc: Global) -> Queues
        ensures { queues_meant result ≡ [] }
    {
        Queues {
            alloc,
            queues: Vec::new(alloc),
        }
    }

    // The place of a queue.
    fn place(&self, who: &Who) -> Option<usize>
        ensures { result ≡ position (λ queue. same_who (who_meant who.now) (who_meant queue.who)) self.now.queues.items }
    {
        self.queues.iter().position(|queue| who.is(&queue.who))
    }

    // Puts an item last in its queue.
    fn put(&mut self, who: Who, queued: Queued) -> Result<(), AllocError>
        ensures ok { OnOk result (queues_meant self.new
            ≡ with_item_last (queues_meant self.old) (who_meant who, queued_meant queued)) }
        ensures memory { OnErr result (queues_meant self.new ≡ queues_meant self.old) }
    {
        match self.place(&who) {
            Some(place) => self.queues[place].items.push_back(queued)?,
            None => {
                let mut items = VecDeque::new(self.alloc);
                items.push_back(queued)?;
                self.queues.push(Queue { who, items })?;
            }
        }
        Ok(())
    }

    /// Puts an item last in the queue of a task, or of `!`, with the number of its line in the script.
    ///
    /// S5 (ENOMEM): an allocation failed; nothing has changed.
    pub fn push(&mut self, who: Who, line: u64, item: Item) -> Result<(), Deny>
        ensures ok { OnOk result (queues_meant self.new
            ≡ with_item_last (queues_meant self.old) (queued line (who_meant who) (item_meant item))) }
        ensures err { IfErr result (λ deny. deny ≡ denial S5) }
        ensures unchanged { OnErr result (queues_meant self.new ≡ queues_meant self.old) }
    {
        match self.put(who, Queued { line, item }) {
            Ok(()) => Ok(()),
            Err(error) => Err(Deny::from(error)),
        }
    }

    /// The first item of a queue.
    pub fn first(&self, who: &Who) -> Option<&Queued>
        ensures { option_map queued_meant (option_copied result)
            ≡ first_of_list (queue_of (queues_meant self.now) (who_meant who.now)) }
    {
        let place = self.place(who)?;
        self.queues[place].items.front()
    }

    /// Takes the first item of a queue away.
    pub fn shorten(&mut self, who: &Who)
        ensures { queues_meant self.new ≡ map (shortened (who_meant who.now)) (queues_meant self.old) }
    {
        for queue in self.queues.iter_mut() {
            queue.shorten(who);
        }
    }

    /// How many items wait in all queues.
    pub fn count(&self) -> usize {
        let mut count: usize = 0;
        for queue in &self.queues {
            count = count.saturating_add(queue.items.len());
        }
        count
    }

    /// Appends the lines of all items, queue by queue, for as many as there is room.
    pub fn push_lines(&self, lines: &mut Vec<u64>) {
        for queue in &self.queues {
            for queued in queue.items.iter() {
                let _kept = lines.push(queued.line);
            }
        }
    }
}
