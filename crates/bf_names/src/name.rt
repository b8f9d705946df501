//! Names of commits.
ghost use Rattle.std.specs.Prelude.{◌≡◌, ◌<◌, length, IfOk};
ghost use Rattle.bf_names.specs.Leaps.{IsIndexOf};
ghost use Rattle.bf_names.specs.Names.{Means, name, place_of};
ghost use Rattle.bf_names.specs.declared.step.Step.{Step};

use crate::NameFault;
use crate::base::place_of_base;
use crate::form::{before_sign, steps_of};
use crate::index::NameIndex;
use crate::step::Step;
use crate::walk::after_steps;
use bf_import::History;
use std::alloc::Global;

/// The place of the commit that a name means (gitrevisions(7)).
///
/// A name is a base and steps behind it. The base is what stands before the first `~` or `^`. `@` means
/// `HEAD`. Forty hexadecimal digits mean the commit of that name alone. Any other base means the first
/// ref that is set of `<base>`, `refs/<base>`, `refs/tags/<base>`, `refs/heads/<base>`,
/// `refs/remotes/<base>` and `refs/remotes/<base>/HEAD`, else, at 4 to 39 hexadecimal digits, the only
/// commit whose name begins with them. Digits may be of either case.
///
/// `~<n>` goes to the ancestor of generation n along first parents, and `^<n>` to the parent of number
/// n, counted from 1; without a number n is 1. `^0`, `^{}` and `^{commit}` stay.
///
/// # Errors
///
/// In this order: `BadForm` where the base is empty or has a space, `:` or `@{`, or a step is in no form
/// above or has a number of 2^64 or more; `Unknown` or `Ambiguous` for the base; `NoParent` where a step
/// leads to a parent that isn't there. `NoMemory` may come anywhere.
pub fn resolve(alloc: Global, history: &History, text: &[u8]) -> Result<u32, NameFault>
    ensures value { Means result (name history.now text.now) }
    ensures within { IfOk result (λ place. place < length history.now.parents) }
{
    resolve_by(alloc, history, &NameIndex::none(), text)
}

/// The place of the commit that a name means, as by [`resolve`]. What the index has is used:
/// an abbreviation is looked up in the order of the history's names, and `~<n>` by leaps.
///
/// # Errors
///
/// As those of [`resolve`].
pub fn resolve_by(
    alloc: Global,
    history: &History,
    index: &NameIndex,
    text: &[u8],
) -> Result<u32, NameFault>
    requires { IsIndexOf history.now index.now }
    ensures value { Means result (name history.now text.now) }
    ensures within { IfOk result (λ place. place < length history.now.parents) }
{
    let steps = steps_of(alloc, text)?;
    place_of(alloc, history, index, text, steps.as_slice())
}

/// The place that the base of a text and some steps behind it lead to.
pub(crate) fn place_of(
    alloc: Global,
    history: &History,
    index: &NameIndex,
    text: &[u8],
    steps: &[Step],
) -> Result<u32, NameFault>
    requires { IsIndexOf history.now index.now }
    ensures value { Means result (place_of history.now text.now steps.now) }
    ensures within { IfOk result (λ place. place < length history.now.parents) }
{
    let place = place_of_base(alloc, history, index.order.as_ref(), before_sign(text))?;
    after_steps(history.graph(), index.leaps.as_ref(), steps, place)
}
