//! The words of a call.
ghost use Rattle.std.specs.Prelude.{◌≡◌, ◌++◌, ◌||◌, ◌&&◌, ◌==◌, ◌+◌, IfOk, None, ℕ, if◌then◌else◌, length, map, nat_eq, slice_get};
ghost use Rattle.vt_spec.specs.Machine.Turns.{routes, some_fails, words_of};
ghost use Rattle.vt_request.specs.Requests.{call_of};
ghost use Rattle.vt_tasks.specs.TaskValue.{task_of};
ghost use Rattle.vt_steps.specs.RouteValue.{met_next, route_of, words_in};

use crate::here::Steps;
use crate::over::LookOver;
use crate::paths::{Route, routes};
use std::alloc::{AllocError, Global};
use vt_request::Call;
use vt_tasks::Task;

// The words of a call, up to one that is refused, and whether one is.
#[derive(Debug, Drop)]
struct CallWords {
    steps: Steps,
    fails: bool,
}

// The words of all paths, up to one that is refused.
fn words_of(alloc: Global, routes: Vec<Route>) -> Result<CallWords, AllocError>
    ensures steps { IfOk result (λ words. words_in words.steps ≡ words_of (map route_of routes.items)) }
    ensures fails { IfOk result (λ words. words.fails ≡ some_fails (map route_of routes.items)) }
{
    let mut words = CallWords {
        steps: Vec::new(alloc),
        fails: false,
    };
    for route in routes {
        words = words.with(route)?;
    }
    Ok(words)
}

impl CallWords {
    // These, and then those of one more path, if none of these is refused.
    fn with(mut self, mut route: Route) -> Result<CallWords, AllocError>
        ensures steps { IfOk result (λ words. words_in words.steps ≡ (if self.fails then words_in self.steps
            else words_in self.steps ++ words_in route.steps)) }
        ensures fails { IfOk result (λ words. words.fails ≡ (self.fails || route.fails)) }
    {
        if !self.fails {
            self.steps.append(&mut route.steps)?;
            self.fails = route.fails;
        }
        Ok(self)
    }
}

/// For each word of a call, the filesystems that it meets. The last is not among them if its step fails: the call's last
/// turn walks it.
pub fn call_words<L: LookOver>(
    alloc: Global,
    world: &L,
    who: &Task,
    call: &Call<'_>,
) -> Result<Steps, AllocError>
    ensures { IfOk result (λ words. (walked : ℕ) → slice_get (words_in words) walked
        ≡ met_next (routes nat_eq (L.looks world.now) (task_of who.now) (call_of call.now)) walked) }
{
    let words = words_of(alloc, routes(alloc, world, who, call)?)?;
    Ok(words.that_go_on())
}

impl CallWords {
    // The words but one whose step fails.
    fn that_go_on(mut self) -> Steps
        ensures { (walked : ℕ) → slice_get (words_in result) walked
            ≡ (if self.fails && length (words_in self.steps) == walked + 1
            then None else slice_get (words_in self.steps) walked) }
    {
        if self.fails {
            let count = self.steps.len();
            self.steps.truncate(count.saturating_sub(1));
        }
        self.steps
    }
}
